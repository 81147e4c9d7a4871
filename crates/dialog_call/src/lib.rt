//! What a Toolbox can be asked about the items of dialogs, and what it answers: plain values, with bytes borrowed.
//!
//! What a call does is not said here, and no crate performs these calls yet.
#![tactic(auto)]

mod calls;

pub use calls::{
    ClickDialog, DialogCall, DialogClick, DialogFlag, DialogInfo, DialogKey, DialogReply, FindItem,
    ItemBytes, ItemFlag, ItemInfo, ItemOf, NewItem, ParamBytes, SelectItem,
};
