//! How far a view reaches.
ghost use Rattle.std.specs.Prelude.{◌≡◌, ◌≤◌, ◌≤ℤ◌, ◌<ℤ◌, pos, true};
ghost use Rattle.tb_geom.specs.declared.point.Point.{Point};
ghost use Rattle.tb_geom.specs.Rects.{rect_holds};
ghost use Rattle.list_cells.specs.declared.cell.Cell.{Cell};
ghost use Rattle.list_view.specs.Views.{cell_rect, columns_end, rows_end};

use crate::view::ListView;

impl ListView {
    /// The first of so many columns past those that show in the view at least in part: those from `first().column` on, before
    /// this one, and no others.
    pub fn columns_end(self, columns: usize) -> usize
        ensures value { result ≡ columns_end columns self }
        ensures within { result ≤ columns }
        ensures reaches { (cell : Cell) (p : Point) → cell.column <ℤ pos columns
            → rect_holds (cell_rect self cell) p ≡ true
            → (self.first.column ≤ℤ cell.column) × (cell.column <ℤ pos result) }
    {
        let first = self.first();
        self.across().lines_end(first.column, columns)
    }

    /// The first of so many rows past those that show in the view at least in part: those from `first().row` on, before this
    /// one, and no others.
    pub fn rows_end(self, rows: usize) -> usize
        ensures value { result ≡ rows_end rows self }
        ensures within { result ≤ rows }
        ensures reaches { (cell : Cell) (p : Point) → cell.row <ℤ pos rows
            → rect_holds (cell_rect self cell) p ≡ true
            → (self.first.row ≤ℤ cell.row) × (cell.row <ℤ pos result) }
    {
        let first = self.first();
        self.down().lines_end(first.row, rows)
    }
}
