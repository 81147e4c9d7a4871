//! How the cells of a list lie in its view (*Inside Macintosh* IV, "The List Manager Package"), and how they are drawn there.
//!
//! A `ListView` is the rectangle of a window in which a list is seen, with the size of its cells and the cell in the
//! rectangle's top left corner. From that corner on the cells lie side by side, and what reaches out of the view is cut away:
//! `cell_rect` says where a cell shows (LRect), `cell_corner` where its own 0 0 lies, and `cell_at` which cell shows at a
//! point; `columns_end` and `rows_end` say how far those reach that show. `scrolled` brings another cell to the corner
//! (LScroll), as far as there are cells to be seen, and also where some were deleted. Beside the view and below it is room for
//! two scroll bars, of which `vertical_bar` and `horizontal_bar` say where they lie, and `vertical_values` and
//! `horizontal_values` what they are set to. What the cells hold is in `list_cells`.
//!
//! A list shows its cells in its view. At each point of the window it shows what the cell shows that lies there,
//! drawn by the list's definition from the cell's bytes and whether it is selected, and white where no cell lies:
//! `list_shown`, in `specs/Shown`, says it of the definition, the view and the cells. `paint_list` draws that on a canvas
//! whose origin is the 0 0 of the list's window. `toggle_cells` inverts what a call highlights otherwise that is about to
//! change the selection: of each cell that shows and that the call selects or deselects, the pixels of its highlight. It is
//! asked before the call, with the cells as they are then and what `choosing` or `clicking` of `list_cells` says that the call
//! makes of the selection. Whoever has inverted these sees what the list shows after the call (`laws`).
//!
//! Both go from cell to cell of those that show, each on a canvas of its own: within the cell's rectangle, cut to the view,
//! with the cell's corner as its 0 0. What is drawn of a cell is a `CellPen`. No record and no window is known here: the
//! definition, the view and the cells are handed in as they are. Nothing takes memory.
//!
//! `laws` has what the definitions imply.
#![tactic(auto)]

mod axis;
mod bars;
mod drawn;
pub mod laws;
mod paint;
mod pens;
mod reach;
mod view;
mod walk;

pub use axis::Axis;
pub use drawn::DrawnList;
pub use paint::{paint_list, toggle_cells};
pub use view::ListView;
