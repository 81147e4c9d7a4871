//! The items of dialogs, as plain data (*Inside Macintosh* I, "The Dialog Manager"; *Macintosh Toolbox Essentials*, "Dialog
//! Manager").
//!
//! A window has a list of items, `DialogItems`. An item has a number, from 1 on in the order of making, for good. It is of one of
//! eight kinds, enabled or not, and what it shows is a control or a text record of the window, its layer, which it knows by its
//! serial. An item whose layer was disposed of is empty. A user item has no layer: its rectangle, and whether it is shown, stand
//! here. At most one item is edited, and that is an edit item; the first that is ever made becomes it.
//!
//! Where an item lies, and whether it is shown, only the desk knows, since controls and text records may be moved and hidden.
//! So the questions of the mouse and of keys are asked of a list of `ItemLook`, one for each item in order, which the desk
//! makes. `Item::own_look` is that of an item that has no layer.
//!
//! `filled` puts the texts of ParamText into a text.
#![tactic(auto)]

mod filling;
mod item;
mod items;
mod kind;
pub mod laws;
mod look;

pub use filling::{ParamTexts, filled};
pub use item::{Item, LayerSort};
pub use items::DialogItems;
pub use kind::ItemKind;
pub use look::{ItemLook, item_at, return_item, tab_item};
