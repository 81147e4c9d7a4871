//! Shapes that calls carry: painted, framed, or a line.
use tb_geom::{BytesRef, Point, Rect};

/// A corner of any size, as `Corner`.
#[derive(Clone, Copy)]
pub struct CornerRef {
    pub width: i32,
    pub height: i32,
}

/// A pen of any size, as `Pen`.
#[derive(Clone, Copy)]
pub struct PenRef {
    pub width: i32,
    pub height: i32,
}

/// Whole degrees of any size, clockwise from twelve o'clock: where an arc starts, and over which angle it goes.
#[derive(Clone, Copy)]
pub struct AnglesRef {
    pub start: i32,
    pub angle: i32,
}

/// A shape that is painted or framed, or a line, whose numbers and bytes nobody has judged.
#[derive(Drop)]
pub enum FormRef<'a> {
    Rect(Rect),
    Round(Rect, CornerRef),
    Oval(Rect),
    FrameRect(Rect, PenRef),
    FrameRound(Rect, CornerRef, PenRef),
    FrameOval(Rect, PenRef),
    /// What a wedge has of the oval of a rectangle.
    Arc(Rect, AnglesRef),
    /// What it has of the oval's frame.
    FrameArc(Rect, AnglesRef, PenRef),
    /// A line from one point to another, by a pen that hangs below and right of it.
    Line(Point, Point, PenRef),
    /// The polygon of the points whose bytes these are: of each its row and then its column, two bytes each, the high one
    /// first, as they stand in a polygon behind its rectangle (*Inside Macintosh* I, "QuickDraw": the type `Polygon`).
    Polygon(BytesRef<'a>),
    /// The frame of that polygon.
    FramePolygon(BytesRef<'a>, PenRef),
}
