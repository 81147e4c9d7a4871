//! Drawing operations as calls carry them: with borrowed bytes, and numbers that nobody has judged.
//!
//! An `OpRef` takes no memory, and no bytes or numbers are wrong for it. `OpRef::judge` says, without
//! memory either, why the operation is refused (`IsRefused`), and `OpRef::to_op` makes the `Op` of
//! `draw_port` that it means (`IsMeant`), with bytes and regions of its own. The bytes are the `BytesRef` of
//! `tb_geom`, which contracts see as the list of them.
//!
//! A `FormRef` is a shape of `shape_region`, painted or framed, whose numbers nobody has judged, or the bytes of a polygon's
//! points. Once `FormRef::is_near` says that each lies in its range, and `is_long` that there are not too many points,
//! `to_region` gives the region of its pixels, and `to_bytes` the bytes of that region. An operation with a form is a fill
//! of that region.
//!
//! A `RegionRef` is a region that a call asks for: of a form, of bytes, moved, or of what two regions make together. Its
//! `judge` says why it is refused, without memory, and `to_bytes` tells its bytes.
#![tactic(auto)]

mod asking;
mod form_ref;
mod forms;
mod judging;
mod op_ref;
mod owning;
mod points;
mod polygons;
mod region_ref;

pub use form_ref::{AnglesRef, CornerRef, FormRef, PenRef};
pub use op_ref::{BitsRef, LineRef, OpRef, ShapeRef, TextRef};
pub use pixel_rows::Combination;
pub use points::are_points;
pub use region_ref::{Distance, RegionRef};
