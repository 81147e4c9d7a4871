//! Shapes with two runs in a row at most.
ghost use Rattle.std.specs.Prelude.{◌≡◌, true, false, ℤ};
ghost use Rattle.tb_geom.specs.declared.point.Point.{Point};
ghost use Rattle.tb_geom.specs.Points.{PixelSet};
ghost use Rattle.tb_geom.specs.Rects.{rect_holds, is_in_range};
ghost use Rattle.shape_region.specs.Rows.{two_runs, ArePlaced};

use crate::strip::placed_run;
use crate::two_runs::TwoRuns;
use shape_strips::Strip;
use tb_geom::Rect;

/// A set of pixels that has at most two runs in each row.
pub trait Rows {
    ghost pixels: { Self → PixelSet };

    /// A rectangle around its pixels, with all sides in -16384..=16383.
    fn bounds(&self) -> Rect
        ensures in_range { is_in_range result ≡ true }
        ensures around { (p : Point) → rect_holds result p ≡ false → pixels self.now p ≡ false };

    /// The columns that the row `v` has, which may be any row.
    fn two_runs(&self, v: i32) -> TwoRuns
        ensures placed { ArePlaced result }
        ensures pixels { (h : ℤ) → two_runs result h ≡ pixels self.now (record { h = h; v = v }) };
}

/// A strip, whose rows have one run at most.
#[derive(Clone, Copy)]
pub struct Solid<'a, S> {
    pub strip: &'a S,
}

impl<S: Strip> Rows for Solid<'_, S> {
    ghost pixels = { λ s. S.pixels s.strip.now };

    fn bounds(&self) -> Rect {
        self.strip.bounds()
    }

    fn two_runs(&self, v: i32) -> TwoRuns {
        let bounds = self.strip.bounds();
        TwoRuns::one(placed_run(self.strip, bounds, v))
    }
}
