//! Blocks of cells: all cells of some columns and rows that lie side by side.
ghost use Rattle.std.specs.Prelude.{◌≡◌, ◌<◌};
ghost use Rattle.list_cells.specs.Blocks.{block_at, with_place, is_in, smallest};

use crate::content::CellContent;

/// Which columns and rows a block has, by the first and the last of each.
#[derive(Clone, Copy)]
pub(crate) struct Block {
    first_column: usize,
    last_column: usize,
    first_row: usize,
    last_row: usize,
}

impl Block {
    /// The block of one cell, by its place among cells in so many columns.
    pub(crate) fn at(columns: usize, place: usize) -> Block
        requires { 0 < columns }
        ensures { result ≡ block_at columns place }
    {
        let column = place % columns;
        let row = place / columns;
        Block {
            first_column: column,
            last_column: column,
            first_row: row,
            last_row: row,
        }
    }

    /// The smallest block that holds this one and a cell more.
    fn with_place(self, columns: usize, place: usize) -> Block
        requires { 0 < columns }
        ensures { result ≡ with_place columns self place }
    {
        let column = place % columns;
        let row = place / columns;
        Block {
            first_column: self.first_column.min(column),
            last_column: self.last_column.max(column),
            first_row: self.first_row.min(row),
            last_row: self.last_row.max(row),
        }
    }

    /// Whether the block holds a cell.
    pub(crate) fn holds(self, columns: usize, place: usize) -> bool
        requires { 0 < columns }
        ensures { result ≡ is_in columns self place }
    {
        let column = place % columns;
        let row = place / columns;
        let across = self.first_column <= column && column <= self.last_column;
        let down = self.first_row <= row && row <= self.last_row;
        across && down
    }
}

/// The smallest block that holds the cell at a place and all selected ones.
#[tactic(auto, unfolding(crate::specs::Blocks::smallest))]
pub(crate) fn smallest_block(contents: &[CellContent], columns: usize, place: usize) -> Block
    requires { 0 < columns }
    ensures { result ≡ smallest columns contents.now place }
{
    let mut block = Block::at(columns, place);
    for other in 0..contents.len() {
        if contents[other].is_selected() {
            block = block.with_place(columns, other);
        }
    }
    block
}
