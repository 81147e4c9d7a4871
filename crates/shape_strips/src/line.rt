//! Lines as strips.
ghost use Rattle.std.specs.Prelude.{◌≡◌, ◌&&◌, true, false, ℕ, ℤ, pos, ◌+ℤ◌, ◌-ℤ◌, ◌*ℤ◌, ◌≤ℤ◌, ◌<ℤ◌, ◌<◌, ◌^◌, unsigned_abs};
ghost use Rattle.std.specs.Int.{int_max};
ghost use Rattle.tb_geom.specs.declared.point.Point.{Point};
ghost use Rattle.tb_geom.specs.Rects.{is_in_range, rect_holds};
ghost use Rattle.region_rows.specs.Edges.{IsCoordinate};
ghost use Rattle.shape_strips.specs.Runs.{run_holds};
ghost use Rattle.shape_strips.specs.Places.{IsPlace};
ghost use Rattle.shape_strips.specs.Lines.{AreJoined, IsReach, line_holds, pen_fits, thin_holds};

use crate::columns::Slope;
use crate::{Pen, Run, Strip};
use tb_geom::{Point, Rect};

/// A line that a pen draws from one point to another, and hangs below and right of (*Inside Macintosh* I, "QuickDraw":
/// `LineTo`). Without a pen it is the pixel of each column that is nearest to the way, or of each row where it goes
/// further down than to the side. Either end may be the first one.
#[derive(Clone, Copy)]
pub struct LineStrip {
    pub from: Point,
    pub to: Point,
    pub pen: Pen,
    ghost from_in: { pen_fits pen from ≡ true },
    ghost to_in: { pen_fits pen to ≡ true },
}

/// How far the pixels of a row of a thin line reach past the middle of the row, on the left and up to one on the right,
/// in parts of a pixel.
#[derive(Clone, Copy)]
struct Reach {
    low: i64,
    high: i64,
}

/// How far it is from one column or row to another.
fn far(from: i32, to: i32) -> i64
    requires from_in { IsCoordinate from }
    requires to_in { IsCoordinate to }
    ensures value { result ≡ to -ℤ from }
    ensures small { unsigned_abs result < 2 ^ 16 }
{
    i64::from(to) - i64::from(from)
}

/// How far the rows of a thin line reach, that goes so many columns to the right and so many rows down.
fn row_reach(across: i64, down: i64) -> Reach
    requires across_in { unsigned_abs across < 2 ^ 16 }
    requires down_in { unsigned_abs down < 2 ^ 16 }
    requires falls { pos 0 <ℤ down }
    ensures is { IsReach across down result.low result.high }
    ensures low_in { unsigned_abs result.low < 2 ^ 17 }
    ensures high_in { unsigned_abs result.high < 2 ^ 17 }
{
    if down <= across {
        return Reach {
            low: -across,
            high: across,
        };
    }
    if down <= -across {
        return Reach {
            low: across + 1,
            high: 1 - across,
        };
    }
    Reach {
        low: 1 - down,
        high: down + 1,
    }
}

/// Twice a product, and more.
fn twice(across: i64, row: i64, more: i64) -> i64
    requires across_in { unsigned_abs across < 2 ^ 16 }
    requires row_in { unsigned_abs row < 2 ^ 16 }
    requires more_in { unsigned_abs more < 2 ^ 17 }
    ensures value { result ≡ (pos 2 *ℤ (across *ℤ row)) +ℤ more }
    ensures small { unsigned_abs result < 2 ^ 62 }
{
    2 * (across * row) + more
}

/// The columns of the thin line from `upper` down to `lower` in its rows from `first` to `last`.
fn slanted_run(upper: Point, lower: Point, first: i32, last: i32) -> Run
    requires upper_in { IsPlace upper }
    requires lower_in { IsPlace lower }
    requires slanted { upper.v <ℤ lower.v }
    requires top { upper.v ≤ℤ first }
    requires order { first ≤ℤ last }
    requires bottom { last ≤ℤ lower.v }
    ensures joined { AreJoined (thin_holds upper lower) first last result }
    ensures right { result.right ≤ℤ (int_max upper.h lower.h +ℤ pos 1) }
{
    let across = far(upper.h, lower.h);
    let down = far(upper.v, lower.v);
    let reach = row_reach(across, down);
    let slope = Slope {
        origin: upper.h,
        step: 2 * down,
    };
    let left = upper.h.min(lower.h);
    let right = upper.h.max(lower.h) + 1;
    let above = far(upper.v, first);
    let below = far(upper.v, last);
    if across < 0 {
        let least = twice(across, below, reach.low);
        return slope.columns(left, right, least, twice(across, above, reach.high));
    }
    let least = twice(across, above, reach.low);
    slope.columns(left, right, least, twice(across, below, reach.high))
}

/// The same of a line that may be level.
fn thin_run(upper: Point, lower: Point, first: i32, last: i32) -> Run
    requires upper_in { IsPlace upper }
    requires lower_in { IsPlace lower }
    requires top { upper.v ≤ℤ first }
    requires order { first ≤ℤ last }
    requires bottom { last ≤ℤ lower.v }
    ensures joined { AreJoined (thin_holds upper lower) first last result }
    ensures right { result.right ≤ℤ (int_max upper.h lower.h +ℤ pos 1) }
{
    if upper.v < lower.v {
        return slanted_run(upper, lower, first, last);
    }
    Run {
        left: upper.h.min(lower.h),
        right: upper.h.max(lower.h) + 1,
    }
}

/// The run of the row `v` of the line from `upper` down to `lower`.
fn line_run(upper: Point, lower: Point, pen: Pen, v: i32) -> Run
    requires upper_in { pen_fits pen upper ≡ true }
    requires lower_in { pen_fits pen lower ≡ true }
    requires order { upper.v ≤ℤ lower.v }
    ensures { (h : ℤ) → run_holds result h ≡ line_holds upper lower pen (record { h = h; v = v }) }
{
    if !pen.has_size() {
        return Run::empty();
    }
    let height = i32::from(pen.height);
    if v < upper.v || lower.v + height <= v {
        return Run::empty();
    }
    let first = upper.v.max(v - height + 1);
    thin_run(upper, lower, first, lower.v.min(v)).widened(pen.width)
}

impl Strip for LineStrip {
    ghost pixels = { λ s. line_holds s.from s.to s.pen };

    fn bounds(&self) -> Rect {
        let (from, to) = (self.from, self.to);
        if !self.pen.has_size() {
            return Rect {
                left: from.h,
                top: from.v,
                right: from.h,
                bottom: from.v,
            };
        }
        Rect {
            left: from.h.min(to.h),
            top: from.v.min(to.v),
            right: from.h.max(to.h) + i32::from(self.pen.width),
            bottom: from.v.max(to.v) + i32::from(self.pen.height),
        }
    }

    fn run(&self, v: i32) -> Run {
        if self.from.v <= self.to.v {
            line_run(self.from, self.to, self.pen, v)
        } else {
            line_run(self.to, self.from, self.pen, v)
        }
    }
}
