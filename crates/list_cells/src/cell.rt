ghost use Rattle.std.specs.Prelude.{◌≡◌, ◌<ℤ◌, ◌+ℤ◌, pos};
ghost use Rattle.list_cells.specs.Cells.{right_of, below, next_row};

/// A cell, by its column and its row, both counted from 0 (*Inside Macintosh* IV, "The List Manager Package", whose Cell is
/// a Point). Any numbers may be given; no cell has a number below 0.
#[derive(Clone, Copy, Debug, PartialEq, Eq)]
pub struct Cell {
    pub column: i32,
    pub row: i32,
}

/// One more than a number.
fn next(number: i32) -> i32
    requires { number <ℤ pos 4096 }
    ensures { result ≡ number +ℤ pos 1 }
{
    number + 1
}

impl Cell {
    /// The cell to the right.
    pub(crate) fn right(self) -> Cell
        requires { self.column <ℤ pos 4096 }
        ensures { result ≡ right_of self }
    {
        Cell {
            column: next(self.column),
            ..self
        }
    }

    /// The cell below.
    pub(crate) fn below(self) -> Cell
        requires { self.row <ℤ pos 4096 }
        ensures { result ≡ below self }
    {
        Cell {
            row: next(self.row),
            ..self
        }
    }

    /// The first cell of the row below.
    pub(crate) fn next_row(self) -> Cell
        requires { self.row <ℤ pos 4096 }
        ensures { result ≡ next_row self }
    {
        Cell {
            column: 0,
            row: next(self.row),
        }
    }
}
