//! The columns of a row on one side of a slope.
ghost use Rattle.std.specs.Prelude.{◌≡◌, ◌&&◌, ℤ, pos, ◌-ℤ◌, ◌*ℤ◌, ◌<ℤ◌, ◌≤ℤ◌, int_le, int_lt, unsigned_abs, ◌<◌, ◌^◌};
ghost use Rattle.tb_geom.specs.Rects.{between};
ghost use Rattle.shape_strips.specs.Runs.{run_holds};

use crate::Run;

/// Numbers whose multiples are asked for: so many times a column's distance from an origin.
#[derive(Clone, Copy)]
pub struct Slope {
    pub origin: i32,
    pub step: i64,
    ghost origin_in: { unsigned_abs origin < 2 ^ 16 },
    ghost rising: { pos 0 <ℤ step },
    ghost small: { unsigned_abs step < 2 ^ 32 },
}

/// The least number that, `step` times, is not below another one.
fn least_times(step: i64, least: i64) -> i64
    requires rising { pos 0 <ℤ step }
    requires small { unsigned_abs step < 2 ^ 32 }
    requires least_in { unsigned_abs least < 2 ^ 62 }
    ensures { (x : ℤ) → int_le result x ≡ int_le least (step *ℤ x) }
{
    let quotient = least / step;
    if least % step > 0 {
        quotient + 1
    } else {
        quotient
    }
}

impl Slope {
    /// The first of the columns from `left` up to `right` whose multiple is not below `least`, `right` where there is
    /// none.
    pub fn first_column(self, left: i32, right: i32, least: i64) -> i32
        requires left_in { unsigned_abs left < 2 ^ 16 }
        requires right_in { unsigned_abs right < 2 ^ 16 }
        requires order { left ≤ℤ right }
        requires least_in { unsigned_abs least < 2 ^ 62 }
        ensures edge { (h : ℤ) → left ≤ℤ h → h <ℤ right
            → int_le result h ≡ int_le least (self.step *ℤ (h -ℤ self.origin)) }
        ensures low { left ≤ℤ result }
        ensures high { result ≤ℤ right }
    {
        let origin = i64::from(self.origin);
        let low = i64::from(left) - origin;
        let high = i64::from(right) - origin;
        let first = least_times(self.step, least).clamp(low, high);
        (origin + first) as i32
    }

    /// Those of the columns from `left` up to `right` whose multiples lie from `least` up to `end`.
    pub fn columns(self, left: i32, right: i32, least: i64, end: i64) -> Run
        requires left_in { unsigned_abs left < 2 ^ 16 }
        requires right_in { unsigned_abs right < 2 ^ 16 }
        requires order { left ≤ℤ right }
        requires least_in { unsigned_abs least < 2 ^ 62 }
        requires end_in { unsigned_abs end < 2 ^ 62 }
        ensures run { (h : ℤ) → run_holds result h ≡ (between left h right
            && between least (self.step *ℤ (h -ℤ self.origin)) end) }
        ensures high { result.right ≤ℤ right }
    {
        Run {
            left: self.first_column(left, right, least),
            right: self.first_column(left, right, end),
        }
    }
}
