//! How a row of many runs differs from the row above.
ghost use Rattle.std.specs.Prelude.{◌≡◌, ◌+◌, ◌≤◌, ◌++◌, length, ℤ, OnOk};
ghost use Rattle.region_rows.specs.Edges.{inside, IsRow};
ghost use Rattle.region_rows.specs.Rows.{IsPushed};
ghost use Rattle.shape_region.specs.Rows.{turns};

use arrayvec::ArrayVec;
use region_rows::Row;
use std::alloc::{AllocError, Global};

/// The inversion points of a row: 66 at most, 33 edges of the row above and 33 of its own.
type LongTurns = ArrayVec<i32, 66>;

/// Adds the row `v` of the inversion points between the row above and its own, if there are any.
pub fn push_long_turns(
    alloc: Global,
    rows: &mut Vec<Row>,
    v: i32,
    above: &[i32],
    row: &[i32],
) -> Result<(), AllocError>
    requires above { IsRow above.now }
    requires row { IsRow row.now }
    requires few { length above.now + length row.now ≤ 66 }
    ensures { OnOk result (IsPushed rows.old.items rows.new.items v (turns above.now row.now)) }
{
    let points = long_turns(above, row);
    if points.is_empty() {
        return Ok(());
    }
    rows.push(Row::of(alloc, v, points.as_slice())?)?;
    Ok(())
}

/// The inversion points of a row below another one: the columns that are an edge of one of the two alone.
fn long_turns(above: &[i32], row: &[i32]) -> LongTurns
    requires above { IsRow above.now }
    requires row { IsRow row.now }
    requires few { length above.now + length row.now ≤ 66 }
    ensures pixels { (h : ℤ) → inside result.items h ≡ turns above.now row.now h }
    ensures row { IsRow result.items }
{
    let mut points = ArrayVec::new();
    let (mut xs, mut ys) = (above, row);
    while let ([x, after_x @ ..], [y, after_y @ ..]) = (xs, ys) {
        if x < y {
            points.push(*x);
            xs = after_x;
        } else if y < x {
            points.push(*y);
            ys = after_y;
        } else {
            xs = after_x;
            ys = after_y;
        }
    }
    if xs.is_empty() {
        push_all(&mut points, ys);
        return points;
    }
    push_all(&mut points, xs);
    points
}

/// Adds columns, which are few, and for which there is room.
#[inline(always)]
fn push_all(points: &mut LongTurns, columns: &[i32])
    requires { length points.old.items + length columns.now ≤ 66 }
    ensures { points.new.items ≡ points.old.items ++ columns.now }
{
    for &column in columns {
        points.push(column);
    }
}
