//! The view of a list, and the cells in it.
ghost use Rattle.std.specs.Prelude.{◌≡◌, ◌≤◌, ◌≤ℤ◌, ◌&&◌, pos, true, IfOk, IfErr, is_ok};
ghost use Rattle.tb_geom.specs.declared.point.Point.{Point};
ghost use Rattle.tb_geom.specs.Rects.{rect_holds, is_in_range};
ghost use Rattle.list_view.specs.Axes.{is_axis, IsNear};
ghost use Rattle.list_view.specs.Views.{IsView, IsCell, new_view, scrolled, view_rect, cell_corner, whole_cell, cell_rect, any_cell_at, is_before, cell_at};

use crate::axis::Axis;
use list_cells::Cell;
use std::marker::Model;
use tb_geom::{Point, Rect, Refusal};

/// The view of a list in its window's own coordinates: where it lies, how large its cells are, and which cell lies in its top
/// left corner. It lies in -16384..=16383 with all its sides, it and its cells are 1 to 1024 pixels wide and high, and the
/// column and the row in the corner lie in 0..=4095.
#[derive(Clone, Copy, Debug, PartialEq, Eq)]
pub struct ListView {
    across: Axis,
    down: Axis,
    first: Cell,
}

impl Model for ListView {
    ghost use Rattle.list_view.specs.Views.{View, IsView};

    ghost Value = { View };

    ghost view = { λ v. record { across = v.across; down = v.down; first = v.first } };

    ghost inverse = { λ v. record { across = v.across; down = v.down; first = v.first } };

    ghost invariant = { λ v. IsView (record { across = v.across; down = v.down; first = v.first }) };
}

/// Whether a cell lies before so many columns and rows.
fn is_before(cell: Cell, columns: usize, rows: usize) -> bool
    requires column { pos 0 ≤ℤ cell.column }
    requires row { pos 0 ≤ℤ cell.row }
    ensures { result ≡ is_before columns rows cell }
{
    (cell.column as usize) < columns && (cell.row as usize) < rows
}

impl ListView {
    /// The view that lies so across and down, with the first cell of its list in its corner (LNew). OutOfRange exactly where a
    /// width or a height lies outside 1..=1024, or a side of the view outside -16384..=16383.
    pub fn new(across: Axis, down: Axis) -> Result<ListView, Refusal>
        ensures made { IfOk result (λ made. made ≡ new_view across down) }
        ensures in_range { is_ok result ≡ (is_axis across && is_axis down) }
        ensures refused { IfErr result (λ e. e ≡ Refusal.OutOfRange) }
    {
        if across.is_in_range() && down.is_in_range() {
            Ok(ListView {
                across,
                down,
                first: Cell { column: 0, row: 0 },
            })
        } else {
            Err(Refusal::OutOfRange)
        }
    }

    /// Where the view lies across, and how wide its cells are.
    pub fn across(self) -> Axis
        ensures value { result ≡ self.across }
        ensures told { IsView self }
    {
        self.across
    }

    /// Where it lies down, and how high its cells are.
    pub fn down(self) -> Axis
        ensures value { result ≡ self.down }
        ensures told { IsView self }
    {
        self.down
    }

    /// The cell in its top left corner, which scrolling changes.
    pub fn first(self) -> Cell
        ensures value { result ≡ self.first }
        ensures told { IsView self }
    {
        self.first
    }

    /// Its rectangle.
    pub fn rect(self) -> Rect
        ensures sides { result ≡ view_rect self }
        ensures in_range { is_in_range result ≡ true }
    {
        Rect {
            left: self.across.start,
            top: self.down.start,
            right: self.across.end(),
            bottom: self.down.end(),
        }
    }

    /// The view of a list with so many columns and rows, scrolled by some columns to the right and some rows down (LScroll).
    /// It goes no further than from 0 to where the last cells are seen. So where cells were deleted, by 0 and 0 it comes back.
    pub fn scrolled(self, columns: usize, rows: usize, across: i32, down: i32) -> ListView
        requires columns { columns ≤ 4096 }
        requires rows { rows ≤ 4096 }
        ensures { result ≡ scrolled columns rows across down self }
    {
        let first = Cell {
            column: self.across.scrolled(self.first.column, across, columns),
            row: self.down.scrolled(self.first.row, down, rows),
        };
        ListView {
            across: self.across,
            down: self.down,
            first,
        }
    }

    /// The top left corner of a cell, also where the cell lies outside of the view: in -4209664..=4209663, both across and
    /// down.
    pub fn cell_corner(self, cell: Cell) -> Point
        requires { IsCell cell }
        ensures place { result ≡ cell_corner self cell }
        ensures across { IsNear result.h }
        ensures down { IsNear result.v }
    {
        Point {
            h: self.across.line_start(self.first.column, cell.column),
            v: self.down.line_start(self.first.row, cell.row),
        }
    }

    /// The rectangle of a cell, also where it lies outside of the view.
    fn whole_cell(self, cell: Cell) -> Rect
        requires { IsCell cell }
        ensures { result ≡ whole_cell self cell }
    {
        let corner = self.cell_corner(cell);
        Rect {
            left: corner.h,
            top: corner.v,
            right: corner.h + self.across.cell,
            bottom: corner.v + self.down.cell,
        }
    }

    /// The rectangle of a cell, cut to the view; 0 0 0 0 where the cell does not show.
    pub fn cell_rect(self, cell: Cell) -> Rect
        requires { IsCell cell }
        ensures sides { result ≡ cell_rect self cell }
        ensures pixels { (p : Point)
            → rect_holds result p ≡ (rect_holds (view_rect self) p && rect_holds (whole_cell self cell) p) }
    {
        self.rect().sect(self.whole_cell(cell))
    }

    /// The cell at a point of the view, whether or not the list has one there.
    fn any_cell_at(self, point: Point) -> Cell
        requires { rect_holds (view_rect self) point ≡ true }
        ensures value { result ≡ any_cell_at self point }
        ensures column { pos 0 ≤ℤ result.column }
        ensures row { pos 0 ≤ℤ result.row }
    {
        Cell {
            column: self.across.line_at(self.first.column, point.h),
            row: self.down.line_at(self.first.row, point.v),
        }
    }

    /// The cell of a list with so many columns and rows that shows at a point of the window, if there is one.
    #[tactic(auto, unfolding(crate::specs::Views::cell_at))]
    pub fn cell_at(self, point: Point, columns: usize, rows: usize) -> Option<Cell>
        ensures { result ≡ cell_at columns rows self point }
    {
        if !self.rect().contains(point) {
            return None;
        }
        let cell = self.any_cell_at(point);
        if is_before(cell, columns, rows) {
            Some(cell)
        } else {
            None
        }
    }
}
