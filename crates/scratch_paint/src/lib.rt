//! The whole desk, painted from nothing: what the screen has to show once nothing is left to be drawn.
//!
//! `paint` makes a new map. It begins with a desk without windows (`desk_ground`): the white menu bar above and the gray
//! desktop. Over that come the visible windows, from the rearmost to the frontmost, each whole: its frame, as its
//! definition draws it, then the picture of its content over that, then its controls, lists and text records from the
//! rearmost to the frontmost, each cut to the content and to its own region, whatever is to cover them. Only the desktop is
//! painted on, so the menu bar stays in front. Then the bar gets its titles, and at last comes the menu that is pulled down, if
//! one is, over all of that, or the outline of a window that is dragged or grown.
//!
//! Of the Toolbox it reads the desk alone, its windows (`DeskView`), its menus, and which of them is pulled down: neither what
//! the screen shows, nor a region that is kept from call to call. What controls, lists and text records show, it asks whoever
//! keeps them (`Showing` of `window_paint`). So it is the yardstick for both: by its contract each of its pixels has the value
//! `screen_scratch`, and by that of the Toolbox so has each pixel of the screen in no update region. `differences` counts the
//! pixels of which that is not true.
#![tactic(auto)]

mod difference;
pub mod laws;
mod painting;
mod windows;

pub use difference::differences;
pub use painting::paint;
