//! Rows and columns that are put in and taken out.
ghost use Rattle.std.specs.Prelude.{◌≡◌, IfOk, IfErr, is_ok, nat_abs, None, Some, if◌then◌else◌};
ghost use Rattle.tb_geom.specs.Refusals.{first_refusal};
ghost use Rattle.list_cells.specs.Runs.{add_refusals, delete_refusals, place_to_add, count_to_delete, told};
ghost use Rattle.list_cells.specs.Grids.{rows_added, rows_deleted, columns_added, columns_deleted};

use crate::content::{close_rows, open_rows, pass_closed, pass_opened};
use crate::list::ListCells;
use crate::runs::Run;
use tb_geom::Refusal;

impl ListCells {
    /// Adds empty rows before the row `before`, or behind all where there is none of that number, and answers which is the
    /// first of them (LAddRow). NoSuchCell where `before` is below 0, OutOfRange where `count` is not in 1..=4096, TooMany where
    /// there would be more than 4096 rows or cells, NoMemory where there is no memory for them.
    pub fn add_rows(&mut self, count: i32, before: i32) -> Result<usize, Refusal>
        ensures first { IfOk result (λ first. first ≡ place_to_add self.old.rows before) }
        ensures cells { self.new ≡ (if is_ok result
            then rows_added (place_to_add self.old.rows before) (nat_abs count) self.old else self.old) }
        ensures allowed { IfOk result (λ _.
            first_refusal (add_refusals self.old.rows self.old.columns count before) ≡ None) }
        ensures refused { IfErr result (λ e.
            e ≡ told (add_refusals self.old.rows self.old.columns count before)) }
    {
        let run = Run::to_add(self.rows, self.columns, count, before)?;
        let cells = run.count * self.columns;
        self.contents.reserve(cells)?;
        let all = self.contents.len();
        let at = run.at * self.columns;
        pass_opened(&mut self.contents, self.alloc, all, at, cells);
        self.rows += run.count;
        Ok(run.at)
    }

    /// Deletes rows from the row `first` on (LDelRow); a count that reaches past the last row deletes to the end. NoSuchCell
    /// where there is no row `first`, OutOfRange where `count` is not in 1..=4096.
    pub fn delete_rows(&mut self, count: i32, first: i32) -> Result<(), Refusal>
        ensures cells { self.new ≡ (if is_ok result
            then rows_deleted (nat_abs first) (count_to_delete self.old.rows count first) self.old else self.old) }
        ensures allowed { IfOk result (λ _. first_refusal (delete_refusals self.old.rows count first) ≡ None) }
        ensures refused { IfErr result (λ e. first_refusal (delete_refusals self.old.rows count first) ≡ Some e) }
    {
        let run = Run::to_delete(self.rows, count, first)?;
        let all = self.contents.len();
        let at = run.at * self.columns;
        let cells = run.count * self.columns;
        pass_closed(&mut self.contents, all, at, cells);
        self.rows -= run.count;
        Ok(())
    }

    /// Adds empty columns before the column `before`, or behind all where there is none of that number, and answers which is
    /// the first of them (LAddColumn). It is refused as `add_rows` is.
    pub fn add_columns(&mut self, count: i32, before: i32) -> Result<usize, Refusal>
        ensures first { IfOk result (λ first. first ≡ place_to_add self.old.columns before) }
        ensures cells { self.new ≡ (if is_ok result
            then columns_added (place_to_add self.old.columns before) (nat_abs count) self.old else self.old) }
        ensures allowed { IfOk result (λ _.
            first_refusal (add_refusals self.old.columns self.old.rows count before) ≡ None) }
        ensures refused { IfErr result (λ e.
            e ≡ told (add_refusals self.old.columns self.old.rows count before)) }
    {
        let run = Run::to_add(self.columns, self.rows, count, before)?;
        self.contents.reserve(self.rows * run.count)?;
        open_rows(
            &mut self.contents,
            self.alloc,
            self.rows,
            self.columns,
            run.at,
            run.count,
        );
        self.columns += run.count;
        Ok(run.at)
    }

    /// Deletes columns from the column `first` on (LDelColumn); a count that reaches past the last column deletes to the end.
    /// It is refused as `delete_rows` is.
    pub fn delete_columns(&mut self, count: i32, first: i32) -> Result<(), Refusal>
        ensures cells { self.new ≡ (if is_ok result
            then columns_deleted (nat_abs first) (count_to_delete self.old.columns count first) self.old
            else self.old) }
        ensures allowed { IfOk result (λ _. first_refusal (delete_refusals self.old.columns count first) ≡ None) }
        ensures refused { IfErr result (λ e. first_refusal (delete_refusals self.old.columns count first) ≡ Some e) }
    {
        let run = Run::to_delete(self.columns, count, first)?;
        close_rows(
            &mut self.contents,
            self.rows,
            self.columns,
            run.at,
            run.count,
        );
        self.columns -= run.count;
        Ok(())
    }
}
