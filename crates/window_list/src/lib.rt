//! The windows of a desk, as one list from front to back, and the layers of each window's content.
//!
//! A window's record (`Window`) holds all that is its own: its serial, its place and size and those that it goes back to
//! where it is zoomed, its title, its picture and its definition. A record can only be changed by the list that it lies
//! in.
//!
//! `Ranks` is a list whose values stay where they lie while their order changes. They lie in a slab, and
//! the order is a list of their keys. A reader of its contracts sees neither: he sees the list of the values
//! in their order, and how many fit without more memory. Only `reserve` takes memory.
//!
//! A window's definition is told by the list alone, and the record keeps what it was told last (`Heard`): that may be
//! older than how the window stands, until the definition is told again.
//!
//! A window is ordinary or floats, for good (`Window::floating`). A window is put at the front or at the back of its class,
//! so that those that float stand before those that do not; only an ordinary window is active.
//!
//! `WindowList` has the windows so, and with them the serial of the active window and the serial of the
//! next. What makes a window active and what that does to the highlighting of two windows is said here once,
//! and so is the order of the serials. Each call that changes one window says which, by its index from the
//! front; `find` gives the index of a serial.
//!
//! `picture_place` is where the 0 0 of a window's picture lies on the screen.
//!
//! A window has layers in front of its picture: its controls and its lists (`Layer`). A pixel of the content belongs to the
//! first layer from the front that is shown and holds it, and where there is none to the picture. `Layers` keeps, beside the
//! layers, what each owns and what all cover, moved to where the window lies on the screen; so a call that draws one of them
//! takes no memory, and a call that moves the window takes none for them. What a window shows of a layer is what the layer
//! owns, less what lies in front of the window: no call on windows changes the first, and no change of layers the second.
//!
//! `local` and `move_by` are the step between a window's own coordinates and those of the screen, for points and for regions.
//!
//! A change of layers answers the whole new `Layers`, or that there is no memory, and leaves the old ones as they are until the
//! caller puts the new ones in their place.
#![tactic(auto)]

mod layer;
mod layers;
mod list;
mod moves;
mod places;
mod ranks;
mod window;

pub use layer::{Layer, LayerShape};
pub use layers::{Layers, Relaid};
pub use list::WindowList;
pub use moves::{local, move_by};
pub use places::picture_place;
pub use ranks::Ranks;
pub use window::{Heard, Placement, Title, UserState, Window};
