//! One row of inversion points.
ghost use Rattle.std.specs.Prelude.{◌≡◌, ◌↔◌, IsTrue, IfOk, All, ◌+ℤ◌, map};
ghost use Rattle.region_bytes.specs.Points.{IsInRange};
ghost use Rattle.region_rows.specs.Edges.{IsCoordinate};
ghost use Rattle.region_rows.specs.Moves.{moved_row};

use smallvec::SmallVec;
use std::alloc::{AllocError, Global};
use std::marker::Model;

/// The row `v` of a region with the columns of its inversion points, seen as these two. As many as four
/// columns lie in the value itself.
#[derive(Drop)]
pub struct Row {
    v: i32,
    points: SmallVec<i32, 4>,
}

impl Model for Row {
    ghost use Rattle.std.specs.Prelude.{ℤ, List};

    ghost Value = { ℤ × List ℤ };

    ghost view = { λ row. (row.v, row.points.items) };
}

impl Row {
    /// The row `v` of these columns.
    pub fn new(v: i32, points: SmallVec<i32, 4>) -> Row
        ensures { result ≡ (v, points.items) }
    {
        Row { v, points }
    }

    /// The row `v` of copies of these columns.
    pub fn of(alloc: Global, v: i32, points: &[i32]) -> Result<Row, AllocError>
        ensures { IfOk result (λ row. row ≡ (v, points.now)) }
    {
        let points = copy_points(alloc, points)?;
        Ok(Row { v, points })
    }

    /// Whether the two rows are the same.
    pub fn is_same(&self, other: &Row) -> bool
        ensures { IsTrue result ↔ (self.now ≡ other.now) }
    {
        self.v == other.v && self.points.as_slice() == other.points.as_slice()
    }

    /// Its place.
    pub fn v(&self) -> i32
        ensures { result ≡ self.now.0 }
    {
        self.v
    }

    /// The columns of its points.
    pub fn points(&self) -> &[i32]
        ensures { result.now ≡ self.now.1 }
    {
        self.points.as_slice()
    }

    /// Moves the row `dh` columns to the right and `dv` rows down.
    pub fn offset(&mut self, dh: i32, dv: i32)
        requires { IsInRange (moved_row self.old (record { h = dh; v = dv })) }
        ensures { self.new ≡ moved_row self.old (record { h = dh; v = dv }) }
    {
        self.v += dv;
        move_points(self.points.as_mut_slice(), dh);
    }
}

/// Moves columns `dh` to the right.
fn move_points(points: &mut [i32], dh: i32)
    requires { All (λ x. IsCoordinate (x +ℤ dh)) points.old }
    ensures { points.new ≡ map (λ x. x +ℤ dh) points.old }
{
    for x in points.iter_mut() {
        *x += dh;
    }
}

/// A copy of the columns of points, most often two or four.
fn copy_points(alloc: Global, points: &[i32]) -> Result<SmallVec<i32, 4>, AllocError>
    ensures { IfOk result (λ copy. copy.items ≡ points.now) }
{
    match points {
        [a, b] => Ok(SmallVec::from_buf_and_len(alloc, [*a, *b, 0, 0], 2)),
        [a, b, c, d] => Ok(SmallVec::from_buf(alloc, [*a, *b, *c, *d])),
        _ => SmallVec::from_slice(alloc, points),
    }
}
