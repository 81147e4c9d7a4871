//! The cells of a list, and which of them are selected (*Inside Macintosh* IV, "The List Manager Package").
//!
//! `ListCells` has columns and rows of cells. A cell holds bytes, its data, is selected or not, and is named by its column and
//! its row, both counted from 0. The cells lie by rows, that of column c and row r at the place r times the number of columns
//! and c more, and there is one for each column and row. Rows and columns are put in and taken out (LAddRow, LAddColumn,
//! LDelRow, LDelColumn), data is set, added to, cleared, read and searched (LSetCell, LAddToCell, LClrCell, LGetCell, LSearch),
//! and cells are selected and asked for (LSetSelect, LGetSelect, LNextCell). `SelectionFlags::click` says what a click on a cell
//! does to the selection, and `ListCells::click` does it (LClick). No window, no rectangle and no drawing is known here.
//!
//! A call that is refused has changed nothing. What may need memory takes all of it before it changes anything; an empty cell
//! takes none besides its place. `new_refusal`, `add_rows_refusal` and their like say beforehand why a call would be refused,
//! want of memory aside. `choosing` and `clicking` say beforehand what a call is about to make of the selection, as a
//! `Selecting`, so that `is_toggled` tells of each cell whether that call toggles it.
#![tactic(auto)]

mod block;
mod cell;
mod click;
mod content;
mod judging;
pub mod laws;
mod lines;
mod list;
mod runs;
mod selecting;
mod selection;

pub use cell::Cell;
pub use click::{Click, ClickKeys, SelectionFlags};
pub use list::ListCells;
pub use selecting::Selecting;
