//! Sets of pixels with at most one run in each row.
ghost use Rattle.std.specs.Prelude.{◌≡◌, true, false, ℤ};
ghost use Rattle.tb_geom.specs.declared.point.Point.{Point};
ghost use Rattle.tb_geom.specs.Points.{PixelSet};
ghost use Rattle.tb_geom.specs.Rects.{rect_holds, is_in_range};
ghost use Rattle.shape_strips.specs.Runs.{run_holds};

use crate::Run;
use tb_geom::Rect;

/// A set of pixels that has at most one run in each row.
pub trait Strip {
    ghost pixels: { Self → PixelSet };

    /// A rectangle around its pixels, with all sides in -16384..=16383.
    fn bounds(&self) -> Rect
        ensures in_range { is_in_range result ≡ true }
        ensures around { (p : Point) → rect_holds result p ≡ false → pixels self.now p ≡ false };

    /// The run of the row `v`, which may be any: the columns of the pixels that the strip has there.
    fn run(&self, v: i32) -> Run
        ensures { (h : ℤ) → run_holds result h ≡ pixels self.now (record { h = h; v = v }) };
}
