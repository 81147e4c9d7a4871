//! The combination of the rows of two regions, which has a short way where the one lies above the other, and one for
//! the union of two rectangles.
ghost use Rattle.std.specs.Prelude.{◌≡◌, ◌↔◌, ◌||◌, ℤ, IsTrue, IfOk};
ghost use Rattle.region_bytes.specs.Points.{in_rows};
ghost use Rattle.region_rows.specs.Edges.{applied, applied_apart, differ};
ghost use Rattle.region_rows.specs.Rows.{AreAbove, AreRows};

use crate::copy::copy_rows;
use crate::merge::merge_rows;
use crate::operator::Operator;
use crate::pair::{pair_of, pair_rows};
use crate::row::Row;
use std::alloc::{AllocError, Global};

/// Whether the last row of the one lies above the first row of the other, or either has none.
fn is_above(a: &[Row], b: &[Row]) -> bool
    requires a_rows { AreRows a.now }
    requires b_rows { AreRows b.now }
    ensures { IsTrue result ↔ AreAbove a.now b.now }
{
    match (a.last(), b.first()) {
        (Some(p), Some(q)) => p.v() < q.v(),
        _ => true,
    }
}

/// The rows of the pixels that the operator keeps of two regions that share none, of which `a` is the
/// first one, and `upper` lies above `lower`.
fn apart_rows(
    alloc: Global,
    a: &[Row],
    upper: &[Row],
    lower: &[Row],
    operator: Operator,
) -> Result<Vec<Row>, AllocError>
    requires a_rows { AreRows a.now }
    requires upper_rows { AreRows upper.now }
    requires lower_rows { AreRows lower.now }
    requires above { AreAbove upper.now lower.now }
    ensures pixels { IfOk result (λ rows. (h v : ℤ) → in_rows rows.items h v ≡ applied_apart operator
        (in_rows a.now h v) (differ (in_rows upper.now h v) (in_rows lower.now h v))) }
    ensures rows { IfOk result (λ rows. AreRows rows.items) }
{
    match operator {
        Operator::Intersection => Ok(Vec::new(alloc)),
        Operator::Difference => copy_rows(alloc, a, &[]),
        Operator::Union | Operator::SymmetricDifference => copy_rows(alloc, upper, lower),
    }
}

/// The rows of the pixels of either region, which may be two rectangles.
fn united_rows(alloc: Global, a: &[Row], b: &[Row]) -> Result<Vec<Row>, AllocError>
    requires a_rows { AreRows a.now }
    requires b_rows { AreRows b.now }
    ensures pixels { IfOk result (λ rows. (h v : ℤ) → in_rows rows.items h v
        ≡ (in_rows a.now h v || in_rows b.now h v)) }
    ensures rows { IfOk result (λ rows. AreRows rows.items) }
{
    match pair_of(a, b) {
        Some(pair) => pair_rows(alloc, pair),
        None => merge_rows(alloc, a, b, Operator::Union),
    }
}

/// The rows of the pixels that the operator keeps of two regions.
pub fn combined_rows(
    alloc: Global,
    a: &[Row],
    b: &[Row],
    operator: Operator,
) -> Result<Vec<Row>, AllocError>
    requires a_rows { AreRows a.now }
    requires b_rows { AreRows b.now }
    ensures pixels { IfOk result (λ rows. (h v : ℤ) → in_rows rows.items h v
        ≡ applied operator (in_rows a.now h v) (in_rows b.now h v)) }
    ensures rows { IfOk result (λ rows. AreRows rows.items) }
{
    if is_above(a, b) {
        return apart_rows(alloc, a, a, b, operator);
    }
    if is_above(b, a) {
        return apart_rows(alloc, a, b, a, operator);
    }
    match operator {
        Operator::Union => united_rows(alloc, a, b),
        _ => merge_rows(alloc, a, b, operator),
    }
}
