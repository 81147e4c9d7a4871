//! Regions that calls ask for.
use crate::form_ref::{FormRef, PenRef};
use pixel_rows::Combination;
use tb_geom::BytesRef;

/// How far a region is moved or inset, to the right and down.
#[derive(Clone, Copy)]
pub struct Distance {
    pub dh: i32,
    pub dv: i32,
}

/// A region that a call asks for, by a shape's numbers or by the bytes of regions, which nobody has judged.
#[derive(Drop)]
pub enum RegionRef<'a> {
    /// That of a shape.
    Form(FormRef<'a>),
    /// That of these bytes.
    Rgn(BytesRef<'a>),
    /// That of these bytes, moved.
    Offset(BytesRef<'a>, Distance),
    /// The inset of that of these bytes: so many columns less on either side, and then so many rows; or more, where a number
    /// is below 0.
    Inset(BytesRef<'a>, Distance),
    /// The frame of that of these bytes.
    FrameRgn(BytesRef<'a>, PenRef),
    /// What two regions make together, the first one and the second.
    Combined(Combination, BytesRef<'a>, BytesRef<'a>),
}
