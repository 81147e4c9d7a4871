//! The List Manager (*Inside Macintosh* IV, "The List Manager Package"): the lists of a desk's windows, with their definitions.
//!
//! `Lists` keeps the lists beside the windows and their controls: a window has of each list where it lies, as a layer behind its
//! controls and in front of its picture, and what a list shows is here (`Lists` is a `Showing`). Other layers may lie among those of
//! the lists: `AreListLayers` joins the lists to the layers that are lists' alone. A new list's layer lies behind all layers that its
//! window has, and those others stay as they are, as does what they show, which a `ListDesk` has as `others`. Each call about lists
//! makes one step (`IsListStep` in `specs/ListSteps`): `perform` performs one.
//!
//! While a list's drawing is on, a change draws where the list is not to be redrawn anyway: within a cell that gets other data, from
//! the first line on where lines come or go, and the whole view where the list is scrolled. Elsewhere the screen shows the list
//! already where it was right before, so these are the steps of `IsListStep` where it was (`specs/Within`). A call that changes the
//! selection alone inverts the cells that it toggles, where they stand. While drawing is off, a change draws nothing, and all that
//! the list owns is to be redrawn.
//!
//! The scroll bars of a list are controls of its window, made with it, set by each call that adds, deletes or scrolls, and disposed of
//! with it; in between they are anybody's.
#![tactic(auto)]

mod asking;
mod bars;
mod changing;
mod desk_lists;
mod drawing;
mod ending;
mod judging;
mod line_edit;
mod lines;
mod lines_from;
mod list_record;
mod lists;
mod making;
mod new_bars;
mod perform;
mod planning;
mod putting;
mod selecting;
mod spots;

pub use desk_lists::{DeskLists, DeskListsWithBars, ListsOnStock};
pub use judging::{MOST_LISTS, form_refusal};
pub use list_record::ListRecord;
pub use lists::Lists;
