//! Operations as calls carry them.
use crate::form_ref::{FormRef, PenRef};
use bit_map::Mode;
use draw_port::{Shade, TextMode};
use tb_geom::{BytesRef, Point, Rect};

/// A line of any length, as `Line`.
#[derive(Clone, Copy)]
pub struct LineRef {
    pub start: Point,
    pub count: i32,
}

/// A text of any length, as `TextRun`.
#[derive(Drop)]
pub struct TextRef<'a> {
    pub pen: Point,
    pub mode: TextMode,
    pub text: BytesRef<'a>,
}

/// An image of any size, as `RowsOfBits`.
#[derive(Drop)]
pub struct BitsRef<'a> {
    pub place: Point,
    pub width: i32,
    pub height: i32,
    pub mode: Mode,
    pub rows: BytesRef<'a>,
}

/// What an operation draws, as `Shape`, with the bytes of a region in place of a region.
#[derive(Drop)]
pub enum ShapeRef<'a> {
    Erase(Rect),
    Invert(Rect),
    Fill(Rect, Shade),
    Frame(Rect, Shade),
    HLine(LineRef, Shade),
    VLine(LineRef, Shade),
    Text(TextRef<'a>),
    Bits(BitsRef<'a>),
    FillRgn(BytesRef<'a>, Shade),
    /// The frame of a region, as the fill of it.
    FrameRgn(BytesRef<'a>, PenRef, Shade),
    /// A shape that is painted or framed, as the fill of its region.
    Form(FormRef<'a>, Shade),
}

/// A drawing operation as a call carries it: `Op`, with borrowed bytes that nobody has judged.
#[derive(Drop)]
pub struct OpRef<'a> {
    /// The bytes of a region.
    pub clip: Option<BytesRef<'a>>,
    pub shape: ShapeRef<'a>,
}
