//! A control of a window.
use control_values::{ControlValues, Highlight};
use def_iface::Size;
use draw_port::ShortText;
use tb_geom::Point;

/// What is kept of a control of a window (*Inside Macintosh* I, "The Control Manager": a control record).
#[derive(Drop)]
pub struct Control<D> {
    /// Where its top left corner lies, in its window's own coordinates.
    pub place: Point,
    pub size: Size,
    pub shown: bool,
    pub values: ControlValues,
    pub highlight: Highlight,
    pub title: ShortText,
    /// What the control is drawn by, or what stands for that.
    pub definition: D,
}
