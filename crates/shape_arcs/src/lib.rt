//! Arcs: the part of an oval, or of its frame, that lies in a wedge, as an exact set of pixels, its region, and the
//! bytes of that.
//!
//! Degrees are whole, clockwise from the top. A degree has a direction to the border of a square, by a table of
//! tangents (`specs::Directions`), so that no angle is rounded twice. A pixel is seen from the middle of its rectangle
//! as if that were stretched to the square, in half pixels, so that its centre lies at whole numbers. The pixel in the
//! middle, where there is one, counts as seen straight up. It is from a degree on where it lies on the ray of its
//! direction, or clockwise from there by less than half a turn: the sign of a cross product says that, and on the ray's
//! line that of a dot product (`specs::Rays`).
//!
//! A wedge has the pixels from its first degree on, and not those from its last one on. So wedges that follow each
//! other share no pixel, and leave none out (`specs::Wedges`). One that is broader than half a turn has what is in
//! either, and one of 360 degrees or more has all.
//!
//! In a row, what is from a degree on is so from some column on where the direction points up, and up to some column
//! where it points down, since the opposite direction has just the other pixels. That column is found by halving
//! (`ray`), with the test of the definition itself, whose numbers lie below 2^48. So half a rectangle (`RayStrip`) has
//! one run in each row at most.
//!
//! A sector of an oval is what two halves and the oval share, and has one run in each row too. An `Arc` is a sector, or
//! the oval less one where its wedge is broader than half a turn: two runs at most, as `shape_region` takes. The frame
//! of an arc (`FrameArc`) may have three. Its region is what the regions of the frame and of the arc share, and its
//! bytes are written by `pixel_rows`, from rows that are what the columns of both share.
//!
//! All rectangles lie in one coordinate space, with sides in -16384..=16383. A call that takes one refuses others as
//! OutOfRange, and refuses for want of memory; those for bytes refuse too many as TooLong.
#![tactic(auto)]

mod arc;
mod directions;
mod frame;
mod half;
pub mod laws;
mod ray;
mod sector;
mod sight;
mod span;

pub use arc::{Arc, arc_bytes, arc_region};
pub use frame::{FrameArc, frame_arc_bytes, frame_arc_region};
pub use half::RayStrip;
