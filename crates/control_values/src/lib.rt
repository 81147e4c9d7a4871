//! The numbers of a control: its value with the least and the greatest that it may have, its highlighting, and its parts
//! (*Inside Macintosh* I, "The Control Manager").
//!
//! `ControlValues` is the setting: GetCtlValue, SetCtlValue and their like for the minimum and the maximum. It always lies in
//! order, the minimum at most the maximum and the value between them: a value that is set outside is moved to the nearer end,
//! and so is the value that a new minimum or maximum leaves outside. `Highlight` says how a control is highlighted, and
//! `ControlPart` names the parts of which it is made. No window, no rectangle and no drawing is known here.
//!
//! `laws` has what the definitions imply.
#![tactic(auto)]

mod highlight;
pub mod laws;
mod part;
mod values;

pub use highlight::Highlight;
pub use part::ControlPart;
pub use values::ControlValues;
