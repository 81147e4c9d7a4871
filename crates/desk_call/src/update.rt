//! What a Toolbox can be asked about updates: which pixels of a window are to be redrawn, and their redrawing.

use tb_geom::{BytesRef, Rect};

/// A call about update regions (*Inside Macintosh* I, "The Window Manager", "Update Region Maintenance"). A window is named
/// by its serial, as in a `WindowCall`.
#[derive(Drop)]
pub enum UpdateCall<'a> {
    /// Puts what lies in an area of a window's visible content into its update region (InvalRect,
    /// InvalRgn).
    Invalidate(WindowArea<'a>),
    /// Takes what lies in an area of a window's visible content out of its update region (ValidRect,
    /// ValidRgn). StalePixels where a pixel of the content that shows there is not right.
    Validate(WindowArea<'a>),
    /// Begins the update of a window (BeginUpdate): what is in its update region is to be drawn, and until
    /// the end its visible region is that, and its update region is empty.
    Begin(u64),
    /// Draws, in the update of a window, what is to be drawn of some layers of its content.
    Draw(LayerDraw),
    /// Ends the update of a window (EndUpdate): what was not drawn is in its update region again.
    End(u64),
    /// Begins the update of a window, draws its picture, its text records, its lists and its controls, and ends it.
    Serve(u64),
}

/// An area of a window.
#[derive(Drop)]
pub struct WindowArea<'a> {
    pub window: u64,
    pub area: AreaRef<'a>,
}

/// Pixels of a window, in its own coordinates, that nobody has judged.
#[derive(Drop)]
pub enum AreaRef<'a> {
    Rect(Rect),
    /// The bytes of a region.
    Region(BytesRef<'a>),
}

/// Layers of a window's content that are to be drawn.
#[derive(Clone, Copy, PartialEq, Eq)]
pub struct LayerDraw {
    pub window: u64,
    pub layers: LayerKind,
}

/// Which layers of a window's content: its picture, its text records, its lists or its controls.
#[derive(Clone, Copy, PartialEq, Eq)]
pub enum LayerKind {
    Picture,
    Texts,
    Lists,
    Controls,
}
