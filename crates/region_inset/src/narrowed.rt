//! Rows that are narrowed or widened.
ghost use Rattle.std.specs.Prelude.{◌≡◌, ◌&&◌, true, not, ℤ, pos, ◌+ℤ◌, ◌≤ℤ◌, ◌<ℤ◌};
ghost use Rattle.tb_geom.specs.Rects.{between, is_in_range};
ghost use Rattle.region_bytes.specs.Bytes.{IsWord};
ghost use Rattle.pixel_rows.specs.Columns.{has_column};
ghost use Rattle.region_inset.specs.Near.{narrowed, IsDistance, IsReached, IsRun};

use crate::near::{narrows, reach};
use pixel_rows::Columns;
use tb_geom::Rect;

/// The columns of a row within the bounds, narrowed by `d`. Each column that the distance reaches from there is asked
/// once.
pub fn narrowed_columns(columns: &Columns, d: i32, bounds: Rect) -> Columns
    requires distance { IsDistance d }
    requires in_range { is_in_range bounds ≡ true }
    ensures { (h : ℤ) → has_column result h
        ≡ (between bounds.left h bounds.right && narrowed d (has_column columns.now) h) }
{
    let (reach, all) = (reach(d), narrows(d));
    let mut row = Columns::none();
    let mut alike = run_before(columns, all, bounds.left - reach, bounds.left + reach);
    for h in bounds.left..bounds.right {
        alike = next_run(columns, all, h + reach, alike);
        if decides(all, alike, reach) {
            row.flip(h);
        }
    }
    row
}

/// Whether the columns of a row, narrowed by `d`, have the column `h`.
pub fn narrowed_at(columns: &Columns, d: i32, h: i32) -> bool
    requires distance { IsDistance d }
    requires column { IsWord h }
    ensures { result ≡ narrowed d (has_column columns.now) h }
{
    let (reach, all) = (reach(d), narrows(d));
    let alike = run_before(columns, all, h - reach, h + reach + 1);
    decides(all, alike, reach)
}

/// How many columns before `to` are all in the row, or all not, from the column `from` on.
fn run_before(columns: &Columns, all: bool, from: i32, to: i32) -> i32
    requires from { IsReached from }
    requires to { IsReached to }
    requires order { from ≤ℤ to }
    ensures { IsRun all (has_column columns.now) from to result }
{
    let mut alike = 0;
    for x in from..to {
        alike = next_run(columns, all, x, alike);
    }
    alike
}

/// How many columns are alike up to the column `x`, where so many are before it.
fn next_run(columns: &Columns, all: bool, x: i32, alike: i32) -> i32
    requires { alike ≤ℤ pos 200000 }
    ensures { (from : ℤ) → from ≤ℤ x → IsRun all (has_column columns.now) from x alike
        → IsRun all (has_column columns.now) from (x +ℤ pos 1) result }
{
    if columns.has(x) == all { alike + 1 } else { 0 }
}

/// What a window of columns gives, whose last ones are alike, by how many these are.
fn decides(all: bool, alike: i32, reach: i32) -> bool
    requires low { pos 0 ≤ℤ reach }
    requires high { reach ≤ℤ pos 65535 }
    ensures long { (reach +ℤ reach) <ℤ alike → result ≡ all }
    ensures short { alike ≤ℤ (reach +ℤ reach) → result ≡ not all }
{
    if reach + reach < alike { all } else { !all }
}
