//! The Menu Manager: the menus of a desk, the menu bar, and the menu that is pulled down.
//!
//! What the menus of a desk are, `specs/` says as plain data: a `MenusState` has each menu with its items and its definition,
//! of which those in the menu bar stand in order, and the number of the one whose title is highlighted. Which menu is pulled
//! down is part of what is open (`Activity::Pulling`). `IsMenuStep` says what a call leaves and answers (*Inside Macintosh* I,
//! "The Menu Manager"): a call that nothing refuses has its effect; a refused one changes nothing, and its answer is the first
//! refusal of the written order whose condition holds (`menu_refusals`), or NoMemory where none holds and the call may ask for
//! memory, which only AppendMenu does.
//!
//! The titles in the menu bar are content of the base image, the one that windows and update regions speak of: each call that
//! changes them shows the bar anew (`IsBarShown`), and no other pixel of that image changes. Whether they change is seen by the
//! titles that the bar has, whichever call it is: between calls it shows those, so nothing is drawn where they stay
//! (`are_shown`). A menu that is pulled down lies over it on a map of its own, the one in front of the windows' screen, which
//! each call is lent (`overlay`): that map shows the pulled menu where it lies, and else the base image (`IsPulledShown`). So
//! there is nothing to bring back when it is put away, and no call about menus can hurt what windows show.
//!
//! Boxes of definitions lie in the records of `menu_list`, and wait outside in a `MenuStock`. A definition is told which of its
//! items is highlighted; what it was told last is a part of its meaning. All room but that of items is made when a desk begins.
#![tactic(auto)]

mod desk_menus;
mod making;
mod menus;
mod painting;
mod perform;
mod pulling;
mod telling;
mod titles;

pub use desk_call::{
    AppendItems, CheckItem, Choice, InsertMenu, ItemOfMenu, ItemText, MenuCall, MenuReply, NewMenu,
};
pub use desk_menus::{DeskMenus, MenusOnStock};
pub use making::form_refusal;
pub use menus::Menus;
