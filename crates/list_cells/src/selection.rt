//! Which cells are selected, and the first cells that are or that hold some bytes.
ghost use Rattle.std.specs.Prelude.{◌≡◌, ◌<◌, ◌+◌, ◌*◌, None, Some, length, IfOk, IfErr, is_ok, if◌then◌else◌};
ghost use Rattle.std.specs.Option.{option_map, ForSome};
ghost use Rattle.std.specs.Str.{bytes_eq};
ghost use Rattle.tb_geom.specs.Refusals.{first_refusal};
ghost use Rattle.list_cells.specs.Blocks.{clicked_cell};
ghost use Rattle.list_cells.specs.Grids.{search_refusals, is_cell, content_of, cell_of, first_from, next_cell};
ghost use Rattle.list_cells.specs.Selections.{chosen_cell};

use crate::cell::Cell;
use crate::click::{ClickKeys, SelectionFlags};
use crate::content::{first_holding, first_selected};
use crate::list::{ListCells, MOST_TEXT};
use crate::selecting::select_cells;
use tb_geom::Refusal;

impl ListCells {
    /// Whether a cell is selected (LGetSelect). NoSuchCell exactly where the list has no such cell.
    pub fn is_selected(&self, cell: Cell) -> Result<bool, Refusal>
        ensures selected { IfOk result (λ selected. selected ≡ (content_of self.now cell).selected) }
        ensures found { is_ok result ≡ is_cell self.now cell }
        ensures refused { IfErr result (λ e. e ≡ Refusal.NoSuchCell) }
    {
        let place = self.place(cell)?;
        Ok(self.contents[place].is_selected())
    }

    /// The first selected cell from a cell on, by rows, itself included, if there is one (LGetSelect with its flag `next`).
    /// NoSuchCell exactly where the list has no such cell.
    pub fn first_selected(&self, from: Cell) -> Result<Option<Cell>, Refusal>
        ensures first { IfOk result (λ first. first ≡ first_from (λ c. c.selected) self.now from) }
        ensures found { is_ok result ≡ is_cell self.now from }
        ensures refused { IfErr result (λ e. e ≡ Refusal.NoSuchCell) }
    {
        let place = self.place(from)?;
        Ok(self.far_cell(place, first_selected(&self.contents[place..])))
    }

    /// The first cell from a cell on, by rows, itself included, that holds just these bytes, if there is one (LSearch).
    /// NoSuchCell where the list has no such cell, TooLong where the text is longer than 255 bytes.
    #[tactic(auto, unfolding(crate::specs::Grids::search_refusals))]
    pub fn search(&self, from: Cell, text: &[u8]) -> Result<Option<Cell>, Refusal>
        ensures first { IfOk result (λ first. first ≡ first_from (λ c. bytes_eq c.bytes text.now) self.now from) }
        ensures allowed { IfOk result (λ _. first_refusal (search_refusals self.now from (length text.now)) ≡ None) }
        ensures refused { IfErr result (λ e. first_refusal (search_refusals self.now from (length text.now)) ≡ Some e) }
    {
        let place = self.place(from)?;
        if text.len() > MOST_TEXT {
            return Err(Refusal::TooLong);
        }
        Ok(self.far_cell(place, first_holding(&self.contents[place..], text)))
    }

    /// The cell that lies so far behind a place, if there is one.
    fn far_cell(&self, place: usize, far: Option<usize>) -> Option<Cell>
        requires { ForSome far (λ far. place + far < self.now.rows * self.now.columns) }
        ensures { result ≡ option_map (λ far. cell_of self.now (place + far)) far }
    {
        match far {
            Some(far) => Some(self.cell_at(place, far)),
            None => None,
        }
    }

    /// The cell that lies so far behind a place.
    fn cell_at(&self, place: usize, far: usize) -> Cell
        requires { place + far < self.now.rows * self.now.columns }
        ensures { result ≡ cell_of self.now (place + far) }
    {
        let columns = self.columns;
        let place = place + far;
        Cell {
            column: (place % columns) as i32,
            row: (place / columns) as i32,
        }
    }

    /// The cell that follows a cell: by rows where both flags say so, in its row for the first flag alone and in its column for
    /// the second alone; none after the last one, and none for neither flag (LNextCell). NoSuchCell exactly where the list has
    /// no such cell.
    pub fn next_cell(&self, cell: Cell, across: bool, down: bool) -> Result<Option<Cell>, Refusal>
        ensures next { IfOk result (λ next. next ≡ next_cell self.now across down cell) }
        ensures found { is_ok result ≡ is_cell self.now cell }
        ensures refused { IfErr result (λ e. e ≡ Refusal.NoSuchCell) }
    {
        let _place = self.place(cell)?;
        Ok(match (across, down) {
            (true, true) => self.present(cell.right()).or(self.present(cell.next_row())),
            (true, false) => self.present(cell.right()),
            (false, true) => self.present(cell.below()),
            (false, false) => None,
        })
    }

    /// The cell, where the list has it.
    fn present(&self, cell: Cell) -> Option<Cell>
        ensures { result ≡ (if is_cell self.now cell then Some cell else None) }
    {
        match self.place(cell) {
            Ok(_) => Some(cell),
            Err(_) => None,
        }
    }

    /// Selects a cell, or deselects it (LSetSelect). Where `alone` says so and it is selected, all others are deselected.
    /// NoSuchCell exactly where the list has no such cell.
    pub fn select(&mut self, cell: Cell, selected: bool, alone: bool) -> Result<(), Refusal>
        ensures cells { self.new ≡ (if is_cell self.old cell
            then chosen_cell cell selected alone self.old else self.old) }
        ensures found { is_ok result ≡ is_cell self.old cell }
        ensures refused { IfErr result (λ e. e ≡ Refusal.NoSuchCell) }
    {
        let Some(selecting) = self.choosing(cell, selected, alone) else {
            return Err(Refusal::NoSuchCell);
        };
        select_cells(&mut self.contents, self.columns, selecting);
        Ok(())
    }

    /// Changes the selection as a click on a cell with these keys does (LClick), and answers whether the list has the cell.
    /// Where it has not, nothing changes.
    pub fn click(&mut self, cell: Cell, flags: SelectionFlags, keys: ClickKeys) -> bool
        ensures cells { self.new ≡ (if is_cell self.old cell then clicked_cell flags keys cell self.old else self.old) }
        ensures found { result ≡ is_cell self.old cell }
    {
        let Some(selecting) = self.clicking(cell, flags, keys) else {
            return false;
        };
        select_cells(&mut self.contents, self.columns, selecting);
        true
    }
}
