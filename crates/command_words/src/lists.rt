//! The words of the commands for lists.
ghost use Rattle.std.specs.Prelude.{◌≡◌};
ghost use Rattle.line_words.specs.Shapes.{reading};
ghost use Rattle.command_words.specs.ListWords.{list_at, size_at, cell_at, new_shape, alone_shape, lines_shape};
ghost use Rattle.command_words.specs.ListWords.{cell_shape, text_shape, select_shape, click_shape, scroll_shape};
ghost use Rattle.command_words.specs.ListWords.{drawing_shape, selection_shape, next_shape, list_shape};

use def_iface::Size;
use desk_call::{
    CellOf, CellText, ListCall, ListClick, ListDrawing, ListLines, ListOf, NewList, NextOfCell,
    ScrollList, SelectCell,
};
use line_words::Words;
use list_cells::Cell;
use tb_geom::Refusal;

/// The first word of a command for lists. It says which words follow.
#[derive(Clone, Copy)]
pub enum ListVerb {
    New,
    Dispose,
    AddRows,
    AddColumns,
    DeleteRows,
    DeleteColumns,
    SetCell,
    AddToCell,
    ClearCell,
    GetCell,
    Select,
    Click,
    Scroll,
    SetDrawing,
    GetSelection,
    NextCell,
    Search,
}

impl ListVerb {
    /// What is asked by the words that follow.
    #[tactic(auto, using(line_words::proofs::Mapped::reading_mapped), unfolding(crate::specs::ListWords::list_shape))]
    pub fn call<'a>(self, words: Words<'a>) -> Result<ListCall<'a>, Refusal>
        ensures { result ≡ reading (list_shape self) words.entry }
    {
        match self {
            ListVerb::New => new_list(words),
            ListVerb::Dispose => Ok(ListCall::Dispose(last_list(words)?)),
            ListVerb::AddRows => Ok(ListCall::AddRows(rows_or_columns(words)?)),
            ListVerb::AddColumns => Ok(ListCall::AddColumns(rows_or_columns(words)?)),
            ListVerb::DeleteRows => Ok(ListCall::DeleteRows(rows_or_columns(words)?)),
            ListVerb::DeleteColumns => Ok(ListCall::DeleteColumns(rows_or_columns(words)?)),
            ListVerb::SetCell => Ok(ListCall::SetCell(cell_and_text(words)?)),
            ListVerb::AddToCell => Ok(ListCall::AddToCell(cell_and_text(words)?)),
            ListVerb::ClearCell => Ok(ListCall::ClearCell(cell_of(words)?)),
            ListVerb::GetCell => Ok(ListCall::GetCell(cell_of(words)?)),
            ListVerb::Select => select(words),
            ListVerb::Click => click(words),
            ListVerb::Scroll => scroll(words),
            ListVerb::SetDrawing => set_drawing(words),
            ListVerb::GetSelection => selection(words),
            ListVerb::NextCell => next_cell(words),
            ListVerb::Search => Ok(ListCall::Search(cell_and_text(words)?)),
        }
    }
}

/// A list of a window, and the words after it.
fn list<'a>(words: Words<'a>) -> Result<(ListOf, Words<'a>), Refusal>
    ensures { result ≡ list_at words.entry }
{
    let (window, words) = words.serial()?;
    let (list, words) = words.serial()?;
    Ok((ListOf { window, list }, words))
}

/// A width and a height, and the words after them.
fn size<'a>(words: Words<'a>) -> Result<(Size, Words<'a>), Refusal>
    ensures { result ≡ size_at words.entry }
{
    let (width, words) = words.number()?;
    let (height, words) = words.number()?;
    Ok((Size { width, height }, words))
}

/// The column and the row of a cell, and the words after them.
fn cell<'a>(words: Words<'a>) -> Result<(Cell, Words<'a>), Refusal>
    ensures { result ≡ cell_at words.entry }
{
    let (column, words) = words.number()?;
    let (row, words) = words.number()?;
    Ok((Cell { column, row }, words))
}

/// A list of a window, and nothing after it.
fn last_list(words: Words<'_>) -> Result<ListOf, Refusal>
    ensures { result ≡ reading alone_shape words.entry }
{
    let (list, rest) = list(words)?;
    rest.end()?;
    Ok(list)
}

/// The words after `list`: a window, the kind, the place and the size of the view in it, the size of a cell, how many rows and
/// columns, whether there is a scroll bar for the rows and one for the columns, and the sum of the flags.
fn new_list<'a>(words: Words<'a>) -> Result<ListCall<'a>, Refusal>
    ensures { result ≡ reading new_shape words.entry }
{
    let (window, words) = words.serial()?;
    let (kind, words) = words.name()?;
    let (place, words) = words.point()?;
    let (view, words) = size(words)?;
    let (cell_size, words) = size(words)?;
    let (rows, words) = words.number()?;
    let (columns, words) = words.number()?;
    let (vertical_bar, words) = words.flag()?;
    let (horizontal_bar, words) = words.flag()?;
    let (flags, words) = words.number()?;
    words.end()?;
    Ok(ListCall::New(NewList {
        window,
        kind,
        place,
        size: view,
        cell_size,
        columns,
        rows,
        vertical_bar,
        horizontal_bar,
        flags,
    }))
}

/// A list, how many rows or columns, and which is the first of them.
fn rows_or_columns(words: Words<'_>) -> Result<ListLines, Refusal>
    ensures { result ≡ reading lines_shape words.entry }
{
    let (list, words) = list(words)?;
    let (count, words) = words.number()?;
    let at = words.last_number()?;
    Ok(ListLines { list, count, at })
}

/// A list and a cell of it.
fn cell_of(words: Words<'_>) -> Result<CellOf, Refusal>
    ensures { result ≡ reading cell_shape words.entry }
{
    let (list, words) = list(words)?;
    let (cell, words) = cell(words)?;
    words.end()?;
    Ok(CellOf { list, cell })
}

/// A list, a cell of it, and bytes.
fn cell_and_text<'a>(words: Words<'a>) -> Result<CellText<'a>, Refusal>
    ensures { result ≡ reading text_shape words.entry }
{
    let (list, words) = list(words)?;
    let (cell, words) = cell(words)?;
    let text = words.last_text()?;
    let cell = CellOf { list, cell };
    Ok(CellText { cell, text })
}

/// The words after `lsetsel`: a list, whether a cell of it is to be selected, and the cell.
fn select<'a>(words: Words<'a>) -> Result<ListCall<'a>, Refusal>
    ensures { result ≡ reading select_shape words.entry }
{
    let (list, words) = list(words)?;
    let (selected, words) = words.flag()?;
    let (cell, words) = cell(words)?;
    words.end()?;
    let cell = CellOf { list, cell };
    Ok(ListCall::Select(SelectCell { cell, selected }))
}

/// The words after `lclick`: a list, a point of its window, and the modifiers.
fn click<'a>(words: Words<'a>) -> Result<ListCall<'a>, Refusal>
    ensures { result ≡ reading click_shape words.entry }
{
    let (list, words) = list(words)?;
    let (point, words) = words.point()?;
    let modifiers = words.last_number()?;
    Ok(ListCall::Click(ListClick {
        list,
        point,
        modifiers,
    }))
}

/// The words after `lscroll`: a list, how many columns to the right, and how many rows down.
fn scroll<'a>(words: Words<'a>) -> Result<ListCall<'a>, Refusal>
    ensures { result ≡ reading scroll_shape words.entry }
{
    let (list, words) = list(words)?;
    let (columns, words) = words.number()?;
    let rows = words.last_number()?;
    Ok(ListCall::Scroll(ScrollList {
        list,
        columns,
        rows,
    }))
}

/// The words after `ldraw`: a list, and whether its drawing is to be on.
fn set_drawing<'a>(words: Words<'a>) -> Result<ListCall<'a>, Refusal>
    ensures { result ≡ reading drawing_shape words.entry }
{
    let (list, words) = list(words)?;
    let drawing = words.last_flag()?;
    Ok(ListCall::SetDrawing(ListDrawing { list, drawing }))
}

/// The words after `lgetsel`: a list, whether the first selected cell is asked for, and the cell from which on; else whether
/// that cell is selected.
fn selection<'a>(words: Words<'a>) -> Result<ListCall<'a>, Refusal>
    ensures { result ≡ reading selection_shape words.entry }
{
    let (list, words) = list(words)?;
    let (next, words) = words.flag()?;
    let (cell, words) = cell(words)?;
    words.end()?;
    let cell = CellOf { list, cell };
    if next {
        Ok(ListCall::FirstSelected(cell))
    } else {
        Ok(ListCall::IsSelected(cell))
    }
}

/// The words after `lnext`: a list, whether the next cell may be in the row and whether it may be in the next row, and the cell
/// that it follows.
fn next_cell<'a>(words: Words<'a>) -> Result<ListCall<'a>, Refusal>
    ensures { result ≡ reading next_shape words.entry }
{
    let (list, words) = list(words)?;
    let (across, words) = words.flag()?;
    let (down, words) = words.flag()?;
    let (cell, words) = cell(words)?;
    words.end()?;
    let cell = CellOf { list, cell };
    Ok(ListCall::NextCell(NextOfCell { cell, across, down }))
}
