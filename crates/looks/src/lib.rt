//! Looks as data: what a window's frame or a control looks like, which pixels it has, and which part of
//! it a point lies in, each as a short table.
//!
//! A look is a list of steps. From white, each `Step` draws its `Mark` within its cut, over what the
//! steps before it drew. The one text of a look, as a title, is no part of the table: the picture is
//! asked with a `Lettering`, which is a font with the text, and is drawn with the canvas's font.
//! `draw_look` draws any look. `damage_between` compares two looks of as many steps, and answers a
//! rectangle outside which they are equal in every font. So a step that is not wanted is switched off,
//! and not left out. A `Rounded` is a rectangle with rounded corners, or what a frame of one pixel leaves of it.
//!
//! Where several texts stand together, as in a row of a menu, each step has its own: `draw_lettered` draws
//! such steps over what stands there, and `draw_step` draws a single one.
//!
//! An area is a list of pieces, each a rectangle that is added or taken away: `area_has` asks for a
//! point, and `area_region` makes the region. Parts are a list of spots: `first_part` gives the part of
//! the first one that has the point.
//!
//! `sides` and what stands beside it write the rectangles of tables: by four sides, and so far from the right side.
//! All rectangles are in the coordinates of what the look is for, as a window's own.
#![tactic(auto)]

mod area;
mod cross;
mod damage;
mod draw;
mod lettered;
mod look;
mod paint;
mod pen;
mod rects;
mod rounded;
mod same;
mod spot;
mod step;

pub use area::{Piece, area_has, area_region};
pub use damage::damage_between;
pub use draw::draw_look;
pub use lettered::{Label, Lettered, draw_lettered};
pub use look::Look;
pub use paint::draw_step;
pub use pen::{Baseline, Pen, Place, Plate};
pub use rects::{columns, from_right, less, more, sides};
pub use rounded::Rounded;
pub use spot::{Spot, first_part};
pub use step::{Mark, Step};
