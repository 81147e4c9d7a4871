//! How much of a view may show otherwise where rows or columns were added or deleted.
ghost use Rattle.std.specs.Prelude.{◌≡◌, ◌≤◌, pos, ◌≤ℤ◌};
ghost use Rattle.list_mgr.specs.LinesFrom.{AreLinesFrom};

use crate::line_edit::LineAxis;
use list_cells::Cell;
use list_view::ListView;
use tb_geom::Rect;

/// The number of the line at this place.
pub(crate) fn line_number(place: usize) -> i32
    requires { place ≤ 4095 }
    ensures { result ≡ pos place }
{
    place as i32
}

/// The view from a line on, or all of it where it was scrolled as well.
pub(crate) fn lines_from(axis: LineAxis, view: ListView, line: i32, scrolled: bool) -> Rect
    requires least { pos 0 ≤ℤ line }
    requires most { line ≤ℤ pos 4095 }
    ensures { AreLinesFrom axis scrolled view line result }
{
    let mut rect = view.rect();
    if scrolled {
        return rect;
    }
    let Cell { column, row } = view.first();
    match axis {
        LineAxis::Rows => {
            let corner = view.cell_corner(Cell { column, row: line });
            rect.top = rect.top.max(corner.v);
        }
        LineAxis::Columns => {
            let corner = view.cell_corner(Cell { column: line, row });
            rect.left = rect.left.max(corner.h);
        }
    }
    rect
}
