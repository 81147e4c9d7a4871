ghost use Rattle.std.specs.Prelude.{◌≡◌};
ghost use Rattle.tb_geom.specs.Rects.{in_plane};

use crate::rect::is_coordinate;

/// A pixel, or a distance between two: its column `h`, growing to the right, and its row `v`,
/// growing downwards. The coordinate space is that of the call (*Inside Macintosh* I, "QuickDraw").
#[derive(Clone, Copy, Debug, PartialEq, Eq)]
pub struct Point {
    pub h: i32,
    pub v: i32,
}

impl Point {
    /// Whether both numbers lie in -16384..=16383.
    pub fn is_in_range(self) -> bool
        ensures { result ≡ in_plane self }
    {
        is_coordinate(self.h) && is_coordinate(self.v)
    }
}
