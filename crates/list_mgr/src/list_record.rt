//! A list of a window.
use list_cells::{ListCells, SelectionFlags};
use list_view::ListView;

/// What is kept of a list of a window (*Inside Macintosh* IV, "The List Manager Package": a list record).
#[derive(Drop)]
pub struct ListRecord<D> {
    /// Where it lies in its window's own coordinates, and how far it is scrolled.
    pub view: ListView,
    pub cells: ListCells,
    /// How its cells are selected (selFlags).
    pub flags: SelectionFlags,
    /// Whether what changes it is drawn at once (LDoDraw).
    pub drawing: bool,
    /// The serial of its vertical scroll bar, a control of the window, if it was made with one.
    pub vertical: Option<u64>,
    /// The serial of its horizontal scroll bar, likewise.
    pub horizontal: Option<u64>,
    /// What its cells are drawn by, or what stands for that.
    pub definition: D,
}
