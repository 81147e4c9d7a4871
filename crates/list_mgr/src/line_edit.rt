//! An edit of the lines of a list: why its cells refuse the edit, what that makes of them, and what it answers.
ghost use Rattle.std.specs.Prelude.{◌≡◌};
ghost use Rattle.tb_geom.specs.Refusals.{first_refusal};
ghost use Rattle.list_mgr.specs.declared.line_edit.LineChange.TheVariants.{Add, Delete};
ghost use Rattle.list_mgr.specs.LineEdits.{IsEdited, edit_refusals, reply_of};

use desk_call::{ListLines, ListReply};
use list_cells::ListCells;
use tb_geom::Refusal;

/// Whether lines of a list are its rows or its columns.
#[derive(Clone, Copy)]
pub(crate) enum LineAxis {
    Rows,
    Columns,
}

/// What becomes of lines of a list.
#[derive(Clone, Copy)]
pub(crate) enum LineChange {
    /// Empty ones are added before a line, or behind all.
    Add,
    /// They are deleted from a line on.
    Delete,
}

/// An edit of the rows or of the columns of a list.
#[derive(Clone, Copy)]
pub(crate) struct LineEdit {
    pub change: LineChange,
    pub axis: LineAxis,
    pub lines: ListLines,
}

impl LineChange {
    /// The answer to an edit of which this is the first line.
    pub fn reply(self, first: usize) -> ListReply
        ensures { result ≡ reply_of self first }
    {
        match self {
            LineChange::Add => ListReply::Added(first),
            LineChange::Delete => ListReply::Done,
        }
    }
}

impl LineEdit {
    /// The edit that adds lines.
    pub fn add(axis: LineAxis, lines: ListLines) -> LineEdit
        ensures { result ≡ record { change = Add; axis = axis; lines = lines } }
    {
        LineEdit {
            change: LineChange::Add,
            axis,
            lines,
        }
    }

    /// The edit that deletes lines.
    pub fn delete(axis: LineAxis, lines: ListLines) -> LineEdit
        ensures { result ≡ record { change = Delete; axis = axis; lines = lines } }
    {
        LineEdit {
            change: LineChange::Delete,
            axis,
            lines,
        }
    }

    /// Why these cells refuse the edit, if they do, want of memory aside.
    pub fn refusal(self, cells: &ListCells) -> Option<Refusal>
        ensures { result ≡ first_refusal (edit_refusals self cells.now) }
    {
        let (count, at) = (self.lines.count, self.lines.at);
        match (self.change, self.axis) {
            (LineChange::Add, LineAxis::Rows) => cells.add_rows_refusal(count, at),
            (LineChange::Add, LineAxis::Columns) => cells.add_columns_refusal(count, at),
            (LineChange::Delete, LineAxis::Rows) => cells.delete_rows_refusal(count, at),
            (LineChange::Delete, LineAxis::Columns) => cells.delete_columns_refusal(count, at),
        }
    }

    /// Makes the edit, and answers the first line that is added or deleted. NoMemory only where lines are added; with an error the
    /// cells stay as they are.
    pub fn perform(self, cells: &mut ListCells) -> Result<usize, Refusal>
        ensures { IsEdited self result cells.old cells.new }
    {
        let (count, at) = (self.lines.count, self.lines.at);
        match (self.change, self.axis) {
            (LineChange::Add, LineAxis::Rows) => cells.add_rows(count, at),
            (LineChange::Add, LineAxis::Columns) => cells.add_columns(count, at),
            (LineChange::Delete, LineAxis::Rows) => {
                cells.delete_rows(count, at)?;
                Ok(at as usize)
            }
            (LineChange::Delete, LineAxis::Columns) => {
                cells.delete_columns(count, at)?;
                Ok(at as usize)
            }
        }
    }
}
