//! Bands of edges as strips.
ghost use Rattle.std.specs.Prelude.{◌≡◌, ◌&&◌, true, false, ℤ, ◌≤ℤ◌, ◌<ℤ◌, int_le, int_lt};
ghost use Rattle.tb_geom.specs.declared.point.Point.{Point};
ghost use Rattle.tb_geom.specs.Rects.{in_plane, is_coordinate, is_in_range, rect_holds};
ghost use Rattle.shape_strips.specs.Runs.{run_holds};
ghost use Rattle.shape_strips.specs.Places.{IsPlace};
ghost use Rattle.region_rows.specs.Edges.{IsCoordinate};
ghost use Rattle.shape_strips.specs.Bands.{band_holds, passes};

use crate::columns::Slope;
use crate::{Run, Strip};
use tb_geom::{Point, Rect};

/// The band of a polygon's edge: the pixels that the edge turns, from out to in or back, up to the column `right`. A
/// pixel is turned where the edge passes the middle of its row at its centre or left of it (*Inside Macintosh* I,
/// "QuickDraw": `PaintPoly`). Either end of the edge may be the upper one.
#[derive(Clone, Copy)]
pub struct BandStrip {
    pub from: Point,
    pub to: Point,
    pub right: i32,
    ghost from_in: { in_plane from ≡ true },
    ghost to_in: { in_plane to ≡ true },
    ghost right_in: { is_coordinate right ≡ true },
}

/// The first column of the row `v`, of those from `left` up to `right`, that the edge down from `upper` to `lower`
/// turns, `right` where there is none.
fn first_turned(upper: Point, lower: Point, v: i32, left: i32, right: i32) -> i32
    requires upper_in { IsPlace upper }
    requires lower_in { IsPlace lower }
    requires left_in { IsCoordinate left }
    requires right_in { IsCoordinate right }
    requires order { left ≤ℤ right }
    requires top { upper.v ≤ℤ v }
    requires bottom { v <ℤ lower.v }
    ensures edge { (h : ℤ) → left ≤ℤ h → h <ℤ right
        → int_le result h ≡ passes upper lower (record { h = h; v = v }) }
    ensures low { left ≤ℤ result }
    ensures high { result ≤ℤ right }
{
    let height = i64::from(lower.v) - i64::from(upper.v);
    let width = i64::from(lower.h) - i64::from(upper.h);
    let down = i64::from(v) - i64::from(upper.v);
    let slope = Slope {
        origin: upper.h,
        step: 2 * height,
    };
    slope.first_column(left, right, (2 * down + 1) * width - height)
}

/// The run of the row `v` of the band of the edge down from `upper` to `lower`.
fn band_run(upper: Point, lower: Point, v: i32, right: i32) -> Run
    requires upper_in { IsPlace upper }
    requires lower_in { IsPlace lower }
    requires right_in { IsCoordinate right }
    ensures { (h : ℤ) → run_holds result h ≡ (passes upper lower (record { h = h; v = v }) && int_lt h right) }
{
    if v < upper.v || lower.v <= v {
        return Run::empty();
    }
    let left = upper.h.min(lower.h);
    if right <= left {
        return Run::empty();
    }
    Run {
        left: first_turned(upper, lower, v, left, right),
        right,
    }
}

impl Strip for BandStrip {
    ghost pixels = { λ s. band_holds s.from s.to s.right };

    fn bounds(&self) -> Rect {
        let (from, to) = (self.from, self.to);
        Rect {
            left: from.h.min(to.h),
            top: from.v.min(to.v),
            right: self.right,
            bottom: from.v.max(to.v),
        }
    }

    fn run(&self, v: i32) -> Run {
        if self.from.v <= self.to.v {
            band_run(self.from, self.to, v, self.right)
        } else {
            band_run(self.to, self.from, v, self.right)
        }
    }
}
