//! The desk as plain data, and the law of its changes.
//!
//! A desk is a stack of layers: the desktop, the windows from back to front, each a frame and content layers on it, and the
//! menu bar. A content layer is a control, a list, a text record or the window's picture (`Part`). No region, no saved pixel and no
//! definition stands in it: each layer is a set of pixels and the values that it shows there.
//!
//! Each pixel has an owner, the one layer to which it belongs (`owner` in specs). The desk painted from nothing, back to
//! front, is the yardstick for a screen (`scratch`). A call says as a `Change` what it does to pixels: which it draws, which it
//! moves, which have to be drawn later and which no longer have to. A pixel that has to be drawn later is stale, and nothing is
//! promised of its value.
//!
//! Two laws say what all of this is for. Painting from nothing gives each pixel the value of its owner. And a sound change
//! keeps a right state right, where right means that each pixel that is not stale has the very value that painting from
//! nothing would give it.
//!
//! Modules: `part` has the layers of a window's content, `laws` the laws.
#![tactic(auto)]

pub mod laws;
mod part;

pub use part::Part;
