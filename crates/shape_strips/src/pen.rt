//! Pens.
ghost use Rattle.std.specs.Prelude.{◌≡◌, pos, ◌+ℤ◌, int_le};

use tb_geom::Point;

/// The size of a pen, in pixels (*Inside Macintosh* I, "QuickDraw": `PenSize`).
#[derive(Clone, Copy, Debug, PartialEq, Eq)]
pub struct Pen {
    pub width: u16,
    pub height: u16,
}

impl Pen {
    ghost use Rattle.shape_strips.specs.Frames.{has_size};
    ghost use Rattle.shape_strips.specs.Lines.{pen_fits};

    /// Whether the pen draws anything: it has a width and a height.
    pub fn has_size(self) -> bool
        ensures { result ≡ has_size self }
    {
        0 < self.width && 0 < self.height
    }

    /// Whether a point lies in -16384..=16383, and all pixels of the pen there, which hangs below and right of the point,
    /// in -16384..=16382.
    pub fn fits_at(self, point: Point) -> bool
        ensures { result ≡ pen_fits self point }
    {
        point.is_in_range()
            && (!self.has_size() || ends_in(point.h, self.width) && ends_in(point.v, self.height))
    }
}

/// Whether so many columns or rows from a first one on lie in -16384..=16382, where the first does.
fn ends_in(first: i32, count: u16) -> bool
    ensures { result ≡ int_le (first +ℤ pos count) (pos 16383) }
{
    i64::from(first) + i64::from(count) <= 16383
}
