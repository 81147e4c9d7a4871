//! Corners of round shapes.
ghost use Rattle.std.specs.Prelude.{◌≡◌, true};
ghost use Rattle.tb_geom.specs.Rects.{is_in_range};

use crate::count::count;
use tb_geom::Rect;

/// The size of the oval whose quarters are the corners of a round shape, in pixels: its `ovalWidth` and `ovalHeight`
/// (*Inside Macintosh* I, "QuickDraw": `FrameRoundRect`). It counts as no wider and no higher than the shape.
#[derive(Clone, Copy, Debug, PartialEq, Eq)]
pub struct Corner {
    pub width: u16,
    pub height: u16,
}

impl Corner {
    ghost use Rattle.shape_strips.specs.Rounds.{no_corner, oval_corner};

    /// The corner of a plain rectangle.
    pub fn none() -> Corner
        ensures { result ≡ no_corner }
    {
        Corner {
            width: 0,
            height: 0,
        }
    }

    /// The corner that makes the rectangle an oval, which touches its four sides.
    pub fn of_oval(rect: Rect) -> Corner
        requires { is_in_range rect ≡ true }
        ensures { result ≡ oval_corner rect }
    {
        Corner {
            width: count(rect.left, rect.right) as u16,
            height: count(rect.top, rect.bottom) as u16,
        }
    }
}
