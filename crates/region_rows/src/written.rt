//! The bytes of rows of points.
ghost use Rattle.std.specs.Prelude.{◌≡◌, ◌∷◌, ◌++◌, [], List, ℤ, All};
ghost use Rattle.tb_geom.specs.declared.point.Point.{Point};
ghost use Rattle.region_bytes.specs.Points.{PointRow, IsInRange, points_of, row_points};
ghost use Rattle.region_bytes.specs.Words.{data_words};
ghost use Rattle.region_bytes.specs.Writing.{IsWritten, AreWritten};
ghost use Rattle.region_rows.specs.Edges.{IsCoordinate};
ghost use Rattle.region_rows.specs.Rows.{AreRows};

use crate::row::Row;
use region_bytes::{END, RegionWriter};
use std::alloc::Global;
use tb_geom::Point;

/// Writes the columns of the points of the row `v`.
fn write_columns(out: &mut RegionWriter, v: i32, columns: &[i32])
    requires { All IsCoordinate columns.now }
    ensures { (words : List ℤ) (points : List Point) → IsWritten out.old words points
        → IsWritten out.new (words ++ columns.now) (points ++ row_points (v, columns.now)) }
{
    for &h in columns {
        out.point(Point { h, v });
    }
}

/// Writes a row.
fn write_row(out: &mut RegionWriter, row: &Row)
    requires { IsInRange row.now }
    ensures { (rows : List PointRow) → AreWritten out.old rows → AreWritten out.new (rows ++ row.now ∷ []) }
{
    out.word(row.v());
    write_columns(out, row.v(), row.points());
    out.word(END);
}

/// Writes the rows.
pub fn write_rows(alloc: Global, rows: &[Row]) -> RegionWriter
    requires { AreRows rows.now }
    ensures { IsWritten result (data_words rows.now) (points_of rows.now) }
{
    let mut out = RegionWriter::new(alloc);
    for row in rows {
        write_row(&mut out, row);
    }
    out.word(END);
    out
}
