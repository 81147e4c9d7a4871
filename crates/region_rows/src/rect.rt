//! The rows of a rectangle.
ghost use Rattle.std.specs.Prelude.{◌≡◌, ◌≢◌, ◌&&◌, ℤ, IfOk, IfSome, IfNone, true};
ghost use Rattle.tb_geom.specs.declared.rect.Rect.{Rect};
ghost use Rattle.tb_geom.specs.Rects.{between, is_in_range};
ghost use Rattle.region_bytes.specs.Points.{in_rows};
ghost use Rattle.region_rows.specs.Rows.{AreRows, two_rows};
ghost use Rattle.region_rows.specs.Hull.{IsHull};

use crate::row::Row;
use std::alloc::{AllocError, Global};
use tb_geom::Rect;

/// The rows of a rectangle whose sides are in range.
pub fn rect_rows(alloc: Global, rect: Rect) -> Result<Vec<Row>, AllocError>
    requires { is_in_range rect ≡ true }
    ensures pixels { IfOk result (λ rows. (h v : ℤ) → in_rows rows.items h v
        ≡ (between rect.left h rect.right && between rect.top v rect.bottom)) }
    ensures rows { IfOk result (λ rows. AreRows rows.items) }
{
    if rect.is_empty() {
        return Ok(Vec::new(alloc));
    }
    let columns = [rect.left, rect.right];
    let mut rows = Vec::with_capacity(alloc, 2)?;
    rows.push(Row::of(alloc, rect.top, &columns)?)?;
    rows.push(Row::of(alloc, rect.bottom, &columns)?)?;
    Ok(rows)
}

/// The rectangle whose rows these are, if they are those of one.
pub fn rect_of(rows: &[Row]) -> Option<Rect>
    requires { AreRows rows.now }
    ensures pixels { IfSome result (λ r. (h v : ℤ) → in_rows rows.now h v
        ≡ (between r.left h r.right && between r.top v r.bottom)) }
    ensures rows { IfSome result (λ r. rows.now ≡ two_rows r) }
    ensures none { IfNone result ((r : Rect) → rows.now ≢ two_rows r) }
{
    let [upper, lower] = rows else {
        return None;
    };
    let [left, right] = upper.points() else {
        return None;
    };
    Some(Rect {
        left: *left,
        top: upper.v(),
        right: *right,
        bottom: lower.v(),
    })
}
