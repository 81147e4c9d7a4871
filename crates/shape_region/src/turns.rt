//! How a row differs from the row above.
ghost use Rattle.std.specs.Prelude.{◌≡◌, ◌+◌, ◌≤◌, ◌++◌, length, ℤ};
ghost use Rattle.region_rows.specs.Edges.{inside, IsRow};
ghost use Rattle.shape_region.specs.Rows.{turns};

use crate::two_runs::Edges;
use arrayvec::ArrayVec;

/// The inversion points of a row: eight at most, four edges of the row above and four of its own.
pub type Turns = ArrayVec<i32, 8>;

/// The inversion points of a row below another one: the columns that are an edge of one of the two alone.
pub fn turn_points(above: &Edges, row: &Edges) -> Turns
    requires above { IsRow above.now.items }
    requires row { IsRow row.now.items }
    ensures pixels { (h : ℤ) → inside result.items h ≡ turns above.now.items row.now.items h }
    ensures row { IsRow result.items }
{
    let mut points = ArrayVec::new();
    let (mut xs, mut ys) = (above.as_slice(), row.as_slice());
    while let ([x, after_x @ ..], [y, after_y @ ..]) = (xs, ys) {
        if x < y {
            points.push(*x);
            xs = after_x;
        } else if y < x {
            points.push(*y);
            ys = after_y;
        } else {
            xs = after_x;
            ys = after_y;
        }
    }
    if xs.is_empty() {
        push_all(&mut points, ys);
        return points;
    }
    push_all(&mut points, xs);
    points
}

/// Adds columns, which are few, and for which there is room.
#[inline(always)]
fn push_all(points: &mut Turns, columns: &[i32])
    requires { length points.old.items + length columns.now ≤ 8 }
    ensures { points.new.items ≡ points.old.items ++ columns.now }
{
    for &column in columns {
        points.push(column);
    }
}
