//! Update regions: which pixels of a window's visible content are to be redrawn, and their redrawing.
//!
//! A program says that pixels are to be redrawn (`Invalidate`) or are right as they are (`Validate`), and serves what is
//! to be redrawn between `Begin` and `End`, layer by layer (*Inside Macintosh* I, "The Window Manager", "Update Region
//! Maintenance"). `Updates` performs these calls on the windows of a `WindowManager`, and says what is open then. It keeps what
//! was to be redrawn when the open update began, which is the window's visible region until its end.
//!
//! What is right, `Rightness` says: a pixel of the content that shows and has the value that painting the desk from
//! nothing gives. `Validate` is refused where a pixel is not; to know, the window's content is drawn into a map that
//! `Updates::new` made, so that asking takes no memory. What controls, lists and text records show is known to whoever keeps them
//! (`Showing`, of window_paint), and is handed in with each call.
//!
//! Between begin and end nothing but the activity changes: what is to be redrawn stays in one set, the update set, in
//! which a pixel is pending while the update is open. So a layer draw only takes pixels out of it, and takes no memory: the
//! begin made a region for each choice of kinds of layers that may be drawn (`Choices`), and a draw takes the one of those
//! drawn so far for the update region. What was not drawn is stale again after the end.
#![tactic(auto)]

mod areas;
mod choices;
mod desk_updates;
pub mod laws;
mod marking;
mod right;
mod serving;
mod updates;
mod waiting;

pub use areas::update_form_refusal;
pub use desk_call::{AreaRef, LayerDraw, LayerKind, UpdateCall, WindowArea};
pub use desk_updates::DeskUpdates;
pub use updates::Updates;
pub use waiting::first_to_update;
