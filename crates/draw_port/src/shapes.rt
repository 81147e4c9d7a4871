//! What operations are made of.

use crate::bytes::{Bytes, ShortText};
use bit_map::{Mode, Pattern};
use scan_region::Region;
use tb_geom::{Point, Rect};

/// A pattern, whose origin is that of the operation's coordinates, put down by a mode (*Inside
/// Macintosh* I, "QuickDraw", "Patterns" and "Transfer Modes").
#[derive(Clone, Copy)]
pub struct Shade {
    pub pattern: Pattern,
    pub mode: Mode,
}

/// So many pixels in a row, from a point on to the right or down.
#[derive(Clone, Copy)]
pub struct Line {
    pub start: Point,
    pub count: u16,
}

/// How a text is put down: its pixels are black source bits, and no other pixel is touched.
#[derive(Clone, Copy)]
pub enum TextMode {
    Or,
    Xor,
    Bic,
}

/// A text, whose pen starts at a point of its baseline.
#[derive(Drop)]
pub struct TextRun {
    pub pen: Point,
    pub mode: TextMode,
    pub text: ShortText,
}

/// An image, with its top left pixel at a point, put down by a mode. Each row takes `(width + 7) / 8`
/// of the bytes, the high bit left (*Inside Macintosh* I, "QuickDraw", "Bit Images"); a bit for which
/// there are too few bytes is white.
#[derive(Drop)]
pub struct RowsOfBits {
    pub place: Point,
    pub width: u16,
    pub height: u16,
    pub mode: Mode,
    pub rows: Bytes,
}

/// What an operation draws. The shape may reach past every bound.
#[derive(Drop)]
pub enum Shape {
    /// The rectangle in white.
    Erase(Rect),
    /// The rectangle in the other color of each pixel.
    Invert(Rect),
    Fill(Rect, Shade),
    /// The outermost pixels of the rectangle.
    Frame(Rect, Shade),
    /// To the right.
    HLine(Line, Shade),
    /// Down.
    VLine(Line, Shade),
    Text(TextRun),
    Bits(RowsOfBits),
    FillRgn(Region, Shade),
}

/// A drawing operation: a shape, and the pixels outside which it does not draw. Both are in the
/// coordinates of the picture or canvas that it is for.
#[derive(Drop)]
pub struct Op {
    /// Nothing is cut away where there is none.
    pub clip: Option<Region>,
    pub shape: Shape,
}
