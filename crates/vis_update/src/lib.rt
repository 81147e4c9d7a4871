//! What each window owns of the screen, and what a call that arranges windows changes there.
//!
//! A window's `Area` is kept from call to call: what of the screen its content owns, what of that is to be drawn, and
//! what its frame owns. A call says how the windows are to stand (a `Seat` for each, from front to back, which lends the
//! area that the window had) and how it touches them (`Touch`), and where pixels may get another owner (`changed_with`);
//! `plan_of` answers in one sweep over that area alone the areas that change, and all that changes on the screen: what
//! content becomes white, which frames are drawn, what of the desktop appears, and where pixels arrive that move. A plan
//! has all the memory that the call needs, so what comes after it can't be refused.
//!
//! A scroll moves the picture of one window and no window, so it has a plan of its own, without a sweep (`scroll_of`).
//! A call that changes the layers of one window moves no window: `relaying_of` answers what of its content becomes white,
//! what is stale afterwards, and what is drawn afresh.
//!
//! The contracts ask no region: they say of each pixel whose it was and whose it is, by the words of `desk_layers`
//! (`IsPlan`, `IsScrollPlan`). Which call it is, they do not know.
#![tactic(auto)]

mod area;
mod hand;
mod place;
mod plan;
mod relaying;
mod scrolling;
mod sweep;

pub use area::Area;
pub use hand::{changed_with, changed_without, lost_of};
pub use place::{is_placed_alone, is_placed_with, regions_of};
pub use plan::{Plan, Repaint, Seat, Touch, seat_of, settle};
pub use relaying::{Relaying, relaying_of};
pub use scrolling::{Scrolled, scroll_of};
pub use sweep::plan_of;
