//! Round shapes as strips.
ghost use Rattle.std.specs.Prelude.{◌≡◌, true, false, ◌-◌, ◌*◌, ◌<◌, ℕ, nat_le, ◌≤ℤ◌, ◌<ℤ◌};
ghost use Rattle.tb_geom.specs.declared.point.Point.{Point};
ghost use Rattle.tb_geom.specs.Rects.{is_in_range, rect_holds};
ghost use Rattle.shape_strips.specs.Ovals.{in_oval};
ghost use Rattle.shape_strips.specs.Rounds.{down, fitted, round_holds};

use crate::count::count;
use crate::oval::{Oval, away};
use crate::{Corner, Run, Strip};
use tb_geom::Rect;

/// A rectangle with rounded corners: a rectangle where the corner has no width or no height, and an oval where it is
/// as wide and as high as the rectangle (*Inside Macintosh* I, "QuickDraw": `PaintRoundRect`). A pixel of a corner is
/// in where its centre lies in the corner's oval.
#[derive(Clone, Copy)]
pub struct RoundStrip {
    pub rect: Rect,
    pub corner: Corner,
    ghost in_range: { is_in_range rect ≡ true },
}

impl RoundStrip {
    /// The oval of the corners, no wider and no higher than the rectangle.
    fn oval(&self) -> Oval
        ensures width { result.width ≡ (fitted self.now.rect self.now.corner).width }
        ensures height { result.height ≡ (fitted self.now.rect self.now.corner).height }
    {
        Oval {
            width: u64::from(self.corner.width).min(count(self.rect.left, self.rect.right)),
            height: u64::from(self.corner.height).min(count(self.rect.top, self.rect.bottom)),
        }
    }

    /// How many pixels of the rectangle's row `v` the shape lacks on either side.
    fn lacking(&self, v: i32) -> u64
        requires top { self.now.rect.top ≤ℤ v }
        requires bottom { v <ℤ self.now.rect.bottom }
        ensures few { result < 32768 }
        ensures edge { let oval = fitted self.now.rect self.now.corner in (i : ℕ)
            → in_oval oval.width oval.height (oval.width - 1 - 2 * i) (down self.now.rect oval v) ≡ nat_le result i }
    {
        let rect = self.rect;
        let oval = self.oval();
        let y = away(oval.height, count(rect.top, v), count(v + 1, rect.bottom));
        oval.lacking(y)
    }
}

impl Strip for RoundStrip {
    ghost pixels = { λ s. round_holds s.rect s.corner };

    fn bounds(&self) -> Rect
        ensures in_range { is_in_range result ≡ true }
        ensures around { (p : Point) → rect_holds result p ≡ false
            → round_holds self.now.rect self.now.corner p ≡ false }
        ensures own { result ≡ self.now.rect }
    {
        self.rect
    }

    fn run(&self, v: i32) -> Run {
        let rect = self.rect;
        if v < rect.top || rect.bottom <= v {
            return Run::empty();
        }
        let lacks = self.lacking(v) as i32;
        Run {
            left: rect.left + lacks,
            right: rect.right - lacks,
        }
    }
}
