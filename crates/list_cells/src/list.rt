//! The cells of a list.
ghost use Rattle.std.specs.Prelude.{◌≡◌, ◌≤◌, ◌+◌, ◌*◌, ◌<◌, ◌^◌, ◌++◌, [], length, IfOk, IfErr, MatchResult, is_ok};
ghost use Rattle.std.specs.Prelude.{pos, ◌<ℤ◌, nat_abs, None, Some, if◌then◌else◌};
ghost use Rattle.tb_geom.specs.Refusals.{first_refusal};
ghost use Rattle.list_cells.specs.Runs.{new_refusals, told};
ghost use Rattle.list_cells.specs.Grids.{is_cell, place_of, content_of, empty_grid, with_bytes, is_too_long, data_refusals};

use crate::cell::Cell;
use crate::content::{CellContent, append_empty, bytes_held};
use crate::runs::{natural, sides};
use std::alloc::Global;
use std::marker::Model;
use tb_geom::Refusal;

/// How many bytes a text has at most.
pub(crate) const MOST_TEXT: usize = 255;

/// How many bytes all cells of a list hold together at most.
const MOST_BYTES: usize = 32000;

/// The cells of a list, by columns and rows. There are at most 4096 columns, 4096 rows and 4096 cells, and all cells together
/// hold at most 32000 bytes.
#[derive(Drop)]
pub struct ListCells {
    pub(crate) columns: usize,
    pub(crate) rows: usize,
    pub(crate) contents: Vec<CellContent>,
    pub(crate) alloc: Global,
}

impl Model for ListCells {
    ghost use Rattle.list_cells.specs.Grids.{Grid, IsGrid};

    ghost Value = { Grid };

    ghost view = { λ l. record { columns = l.columns; rows = l.rows; contents = l.contents.items } };

    ghost invariant = { λ l. IsGrid (record { columns = l.columns; rows = l.rows; contents = l.contents.items }) };
}

impl ListCells {
    /// A list of empty cells, none of them selected (LNew). OutOfRange where a number lies outside 0..=4096, TooMany where there
    /// would be more than 4096 cells, NoMemory where there is no memory for them.
    pub fn new(alloc: Global, columns: i32, rows: i32) -> Result<ListCells, Refusal>
        ensures made { IfOk result (λ made. made ≡ empty_grid (nat_abs columns) (nat_abs rows)) }
        ensures allowed { IfOk result (λ _. first_refusal (new_refusals columns rows) ≡ None) }
        ensures refused { IfErr result (λ e. e ≡ told (new_refusals columns rows)) }
    {
        let (columns, rows) = sides(columns, rows)?;
        let cells = rows * columns;
        let mut contents = Vec::with_capacity(alloc, cells)?;
        append_empty(&mut contents, alloc, cells);
        Ok(ListCells {
            columns,
            rows,
            contents,
            alloc,
        })
    }

    /// How many columns there are.
    pub fn columns(&self) -> usize
        ensures columns { result ≡ self.now.columns }
        ensures within { result ≤ 4096 }
    {
        self.columns
    }

    /// How many rows there are.
    pub fn rows(&self) -> usize
        ensures rows { result ≡ self.now.rows }
        ensures within { result ≤ 4096 }
    {
        self.rows
    }

    /// The place of a cell among all. NoSuchCell exactly where the list has no such cell.
    pub(crate) fn place(&self, cell: Cell) -> Result<usize, Refusal>
        ensures place { IfOk result (λ place. place ≡ place_of self.now cell) }
        ensures within { IfOk result (λ place. place < self.now.rows * self.now.columns) }
        ensures small { IfOk result (λ _. (cell.column <ℤ pos 4096) × (cell.row <ℤ pos 4096)) }
        ensures found { is_ok result ≡ is_cell self.now cell }
        ensures refused { IfErr result (λ e. e ≡ Refusal.NoSuchCell) }
    {
        match (natural(cell.column), natural(cell.row)) {
            (Some(column), Some(row)) => {
                if column < self.columns && row < self.rows {
                    Ok(row * self.columns + column)
                } else {
                    Err(Refusal::NoSuchCell)
                }
            }
            _ => Err(Refusal::NoSuchCell),
        }
    }

    /// The data of a cell, at most 32000 bytes (LGetCell). NoSuchCell exactly where the list has no such cell.
    pub fn cell(&self, cell: Cell) -> Result<&[u8], Refusal>
        ensures bytes { IfOk result (λ bytes. bytes.now ≡ (content_of self.now cell).bytes) }
        ensures within { IfOk result (λ bytes. length bytes.now ≤ 32000) }
        ensures found { is_ok result ≡ is_cell self.now cell }
        ensures refused { IfErr result (λ e. e ≡ Refusal.NoSuchCell) }
    {
        let place = self.place(cell)?;
        Ok(self.contents[place].bytes())
    }

    /// Whether `added` bytes more are too many in a cell of which so many go: a text has at most 255 bytes, and all cells
    /// together have at most 32000.
    fn is_too_long(&self, gone: usize, added: usize) -> bool
        requires { gone < 2 ^ 63 }
        ensures { result ≡ is_too_long self.now gone added }
    {
        let rest = bytes_held(&self.contents).saturating_sub(gone);
        added > MOST_TEXT || rest.saturating_add(added) > MOST_BYTES
    }

    /// The place of a cell that may get so many bytes in the place of its own. NoSuchCell where the list has no such cell,
    /// TooLong where the bytes are more than 255 or all cells would hold more than 32000.
    #[tactic(auto, unfolding(crate::specs::Grids::data_refusals))]
    pub(crate) fn place_to_set(&self, cell: Cell, added: usize) -> Result<usize, Refusal>
        ensures { let refused = first_refusal
            (data_refusals self.now cell (length (content_of self.now cell).bytes) added) in
            MatchResult result
            (λ place. (refused ≡ None) × (place ≡ place_of self.now cell) × (place < self.now.rows * self.now.columns))
            (λ e. refused ≡ Some e) }
    {
        let place = self.place(cell)?;
        let gone = self.contents[place].len();
        if self.is_too_long(gone, added) {
            return Err(Refusal::TooLong);
        }
        Ok(place)
    }

    /// The place of a cell that may get so many bytes behind its own. It is refused as `place_to_set` is.
    #[tactic(auto, unfolding(crate::specs::Grids::data_refusals))]
    pub(crate) fn place_to_append(&self, cell: Cell, added: usize) -> Result<usize, Refusal>
        ensures { let refused = first_refusal (data_refusals self.now cell 0 added) in
            MatchResult result
            (λ place. (refused ≡ None) × (place ≡ place_of self.now cell) × (place < self.now.rows * self.now.columns))
            (λ e. refused ≡ Some e) }
    {
        let place = self.place(cell)?;
        if self.is_too_long(0, added) {
            return Err(Refusal::TooLong);
        }
        Ok(place)
    }

    /// Gives a cell other data (LSetCell). NoSuchCell where the list has no such cell, TooLong where the text is longer than
    /// 255 bytes or all cells would hold more than 32000, NoMemory where there is no memory for it.
    pub fn set_cell(&mut self, cell: Cell, text: &[u8]) -> Result<(), Refusal>
        ensures cells { self.new ≡ (if is_ok result then with_bytes self.old cell text.now else self.old) }
        ensures allowed { IfOk result (λ _. first_refusal
            (data_refusals self.old cell (length (content_of self.old cell).bytes) (length text.now)) ≡ None) }
        ensures refused { IfErr result (λ e. e ≡ told
            (data_refusals self.old cell (length (content_of self.old cell).bytes) (length text.now))) }
    {
        let place = self.place_to_set(cell, text.len())?;
        let alloc = self.alloc;
        let content = &mut self.contents[place];
        content.set(alloc, text)?;
        Ok(())
    }

    /// Adds bytes behind the data of a cell (LAddToCell). It is refused as `set_cell` is.
    pub fn add_to_cell(&mut self, cell: Cell, text: &[u8]) -> Result<(), Refusal>
        ensures cells { self.new ≡ (if is_ok result
            then with_bytes self.old cell ((content_of self.old cell).bytes ++ text.now) else self.old) }
        ensures allowed { IfOk result (λ _. first_refusal (data_refusals self.old cell 0 (length text.now)) ≡ None) }
        ensures refused { IfErr result (λ e. e ≡ told (data_refusals self.old cell 0 (length text.now))) }
    {
        let place = self.place_to_append(cell, text.len())?;
        let content = &mut self.contents[place];
        content.append(text)?;
        Ok(())
    }

    /// Takes the data of a cell away (LClrCell); whether it is selected stays. NoSuchCell exactly where the list has no such
    /// cell.
    pub fn clear_cell(&mut self, cell: Cell) -> Result<(), Refusal>
        ensures cells { self.new ≡ (if is_cell self.old cell then with_bytes self.old cell [] else self.old) }
        ensures found { is_ok result ≡ is_cell self.old cell }
        ensures refused { IfErr result (λ e. e ≡ Refusal.NoSuchCell) }
    {
        let place = self.place(cell)?;
        let content = &mut self.contents[place];
        content.clear();
        Ok(())
    }
}
