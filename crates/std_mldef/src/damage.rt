//! Which rows another highlighted item changes.
ghost use Rattle.std.specs.Prelude.{◌≡◌, true, false, pos, ◌*◌, ◌-ℤ◌, ◌+ℤ◌};
ghost use Rattle.looks.specs.Damages.{IsWithin, joined};
ghost use Rattle.looks.specs.Marks.{box, neg};
ghost use Rattle.tb_geom.specs.declared.point.Point.{Point};
ghost use Rattle.tb_geom.specs.Rects.{in_plane, rect_holds};
ghost use Rattle.std_mldef.specs.Rows.{band, in_band};

use looks::sides;
use tb_geom::Rect;

/// A rectangle outside which a menu looks the same with another item highlighted, within the range of coordinates: the
/// rows of both.
pub(crate) fn rows_damage(old: Option<u8>, new: Option<u8>) -> Rect
    ensures alike { (p : Point) → in_plane p ≡ true → rect_holds result p ≡ false
        → (in_band old p ≡ false) × (in_band new p ≡ false) }
    ensures small { IsWithin result (joined (band old) (band new)) }
{
    band(old).union(band(new))
}

/// The row of an item, across the plane.
fn band(lit: Option<u8>) -> Rect
    ensures value { result ≡ band lit }
    ensures rows { (p : Point) → in_plane p ≡ true → rect_holds result p ≡ in_band lit p }
{
    match lit {
        Some(number) => row_band(number),
        None => sides(0, 0, 0, 0),
    }
}

/// The row of the item of this number, across the plane.
fn row_band(number: u8) -> Rect
    ensures { result ≡ box (neg 16384) (pos (16 * number) -ℤ pos 15) (pos 16384) (pos (16 * number) +ℤ pos 1) }
{
    let below = 16 * i32::from(number);
    sides(-16384, below - 15, 16384, below + 1)
}
