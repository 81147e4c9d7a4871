//! Rows moved by a distance.
ghost use Rattle.std.specs.Prelude.{◌≡◌, true, All};
ghost use Rattle.tb_geom.specs.Rects.{is_in_range, moved_rect};
ghost use Rattle.region_rows.specs.Edges.{IsCoordinate};
ghost use Rattle.region_rows.specs.Moves.{moved_rows};
ghost use Rattle.region_bytes.specs.Points.{IsInRange};

use crate::row::Row;

/// Moves the rows `dh` columns to the right and `dv` rows down.
pub fn move_rows(rows: &mut [Row], dh: i32, dv: i32)
    requires { All IsInRange (moved_rows rows.old (record { h = dh; v = dv })) }
    ensures { rows.new ≡ moved_rows rows.old (record { h = dh; v = dv }) }
{
    for row in rows.iter_mut() {
        row.offset(dh, dv);
    }
}
