//! What windows show, drawn on a map.
//!
//! A window's content is its picture and, in front of it, its controls, lists and text records. Each pixel of the content
//! belongs to one of these, and shows what that one shows there: `content_shown`, in `specs/Shown`, says it of the window's
//! record. A drawing here is on the pixels of a region of the map that the caller chooses, as what of the content is visible,
//! or is to be redrawn; it takes no memory, and leaves every other pixel as it was. `paint_picture` draws what of the picture
//! no layer in front of it hides, `paint_layer` draws what one layer owns (`show_layer` all of that but what another region
//! has), `paint_kind` what the layers of one kind own, and `paint_content` draws all of the content. An operation that was
//! just added to the picture is drawn by itself, over what stands there (`paint_last_operation`).
//!
//! A window's record has of its controls, lists and text records where they lie, and no more. What they show is known to
//! whoever keeps them, who has the trait `Showing`; `NothingShown` is for where nobody keeps any. Where the selection of a
//! list or a text record changed, what it highlights otherwise is inverted where it stands (`invert_layer`); which pixels
//! these are says whoever keeps it (`Toggling`).
//!
//! Around the content lies the window's frame, which its definition draws: `paint_frame` draws it within a rectangle of the
//! window, and `paint_part` over white content that is new. Where contents or pictures move, their pixels move on the map
//! (`move_content`, `scroll_content`).
//!
//! Regions, maps and the places of windows and of their layers are in the coordinates of the screen. What a picture or a
//! layer shows is in the window's own coordinates, and a picture's operations are in those of its origin in the window.
#![tactic(auto)]

mod frames;
mod kinds;
mod layers;
mod moves;
mod pictures;
mod showing;

pub use frames::{paint_frame, paint_part};
pub use kinds::{is_of, paint_kind};
pub use layers::{invert_layer, meeting, paint_content, paint_layer, show_layer};
pub use moves::{move_content, scroll_content};
pub use pictures::{paint_last_operation, paint_picture};
pub use showing::{NothingShown, Showing, Toggling};
