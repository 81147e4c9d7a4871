//! What a text record shows (*Inside Macintosh* I and *Inside Macintosh: Text*, "TextEdit").
//!
//! `draw_text_record` gives each pixel of a canvas the value that `specs::Shown` says: in the view the lines in black on white,
//! with the selection inverted, and elsewhere white, but for the outermost pixels of a box that is framed. Whoever wants less
//! than all hands over a canvas whose clip or cut is less.
//!
//! All lines are drawn, each as a text of its own: a glyph may be higher than a line, so that no number says which lines a
//! pixel may be of.
//!
//! The highlight of a selection is inverted line by line. The parts on two lines share no row, so that what is inverted is the
//! pixels of all parts, each once (`laws`). Where the selection is a point, the caret is inverted: the column before the point.
//!
//! Two changes leave most of what a record shows, and need not all of it drawn. Where its selection was another one,
//! `toggle_selection` inverts what shows otherwise, and draws no line. Where its bytes changed from an offset on, it shows the
//! same above `change_row` (`laws`).
#![tactic(auto)]

mod frame;
pub mod laws;
mod lines;
mod parts;
mod rows;
mod selected;
mod selection;
mod view;

pub use rows::change_row;
pub use selected::Selection;
pub use selection::toggle_selection;
pub use view::draw_text_record;
