//! The box of a region, and whether the region is all of it.
ghost use Rattle.std.specs.Prelude.{◌≡◌, ◌↔◌, true, ℤ, IsTrue};
ghost use Rattle.tb_geom.specs.Rects.{rect_holds, is_in_range};
ghost use Rattle.region_bytes.specs.Points.{in_rows};
ghost use Rattle.region_rows.specs.Rows.{AreRows, two_rows};
ghost use Rattle.region_rows.specs.Seen.{seen_rect};

use region_rows::{Row, rect_of};
use tb_geom::Rect;

/// A box around pixels, and whether it has no other pixel.
#[derive(Clone, Copy)]
pub struct Boxed {
    pub bounds: Rect,
    pub is_full: bool,
}

/// The rectangle as it is seen.
pub fn seen_rect(up: bool, rect: Rect) -> Rect
    requires { is_in_range rect ≡ true }
    ensures { result ≡ seen_rect up rect }
{
    if up {
        return Rect {
            left: -1 - rect.right,
            top: -1 - rect.bottom,
            right: -1 - rect.left,
            bottom: -1 - rect.top,
        };
    }
    rect
}

/// Whether these rows are those of this rectangle.
pub fn is_rect(rows: &[Row], rect: Rect) -> bool
    requires { AreRows rows.now }
    ensures pixels { IsTrue result → (h v : ℤ) → in_rows rows.now h v ≡ rect_holds rect (record { h = h; v = v }) }
    ensures exact { IsTrue result ↔ (rows.now ≡ two_rows rect) }
{
    match rect_of(rows) {
        Some(whole) => whole == rect,
        None => false,
    }
}
