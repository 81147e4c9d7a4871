//! What a Toolbox can be asked about lists, and what it answers.

use def_iface::Size;
use list_cells::Cell;
use tb_geom::{BytesRef, Point};

/// A call about lists (*Inside Macintosh* IV, "The List Manager Package"). A window and a list are named by their serials, from
/// 1 on; no one has the serial 0. Numbers are as they were asked for, judged by nobody. One that names no window is
/// NoSuchWindow, one that names no list of it NoSuchList, and a column or a row that names no cell of that NoSuchCell. Points
/// are in the window's own coordinates.
///
/// While a list's drawing is on, what a call changes of it is shown at once where it is not to be redrawn anyway. While it is
/// off, a call that changes the list's size, its cells, its selection or how far it is scrolled draws nothing of it, and all
/// that the list owns is to be redrawn.
#[derive(Drop)]
pub enum ListCall<'a> {
    /// Makes a list of a window, with drawing on (LNew). It lies behind the controls, the lists and the text records that the
    /// window has already, and all that it and its scroll bars then own is drawn. OutOfRange where a number of it is out of its
    /// range, TooMany where it would have more than 4096 cells, or the window has 8 lists, or too many controls with its bars;
    /// NoDefinition where the stock has no definition of its kind left, or none for a bar.
    New(NewList<'a>),
    /// Ends a list and the scroll bars that it has still: their definitions are disposed of, and go back Closed into their slots
    /// (LDispose).
    Dispose(ListOf),
    /// Adds empty rows before a row, or at the end where that lies past it (LAddRow). NoSuchCell before a row below 0,
    /// OutOfRange where the count is not in 1..=4096, TooMany past 4096 rows or cells.
    AddRows(ListLines),
    /// Adds empty columns, as `AddRows` does rows (LAddColumn).
    AddColumns(ListLines),
    /// Deletes rows from one on, to the end where the count reaches past it (LDelRow). NoSuchCell where there is no such row,
    /// OutOfRange where the count is not in 1..=4096.
    DeleteRows(ListLines),
    /// Deletes columns, as `DeleteRows` does rows (LDelColumn).
    DeleteColumns(ListLines),
    /// Gives a cell other data (LSetCell). TooLong where the text has more than 255 bytes, or all cells would hold more than
    /// 32000.
    SetCell(CellText<'a>),
    /// Adds bytes behind the data of a cell (LAddToCell). TooLong as `SetCell` is.
    AddToCell(CellText<'a>),
    /// Takes the data of a cell away (LClrCell).
    ClearCell(CellOf),
    /// The data of a cell (LGetCell).
    GetCell(CellOf),
    /// Selects a cell, or deselects it (LSetSelect). With the flag lOnlyOne a cell that is selected is so alone.
    Select(SelectCell),
    /// Whether a cell is selected (LGetSelect).
    IsSelected(CellOf),
    /// The first cell that is selected, from one on, row by row (LGetSelect, asked for the next).
    FirstSelected(CellOf),
    /// The cell that follows one (LNextCell): row by row, in its row alone, or in its column alone.
    NextCell(NextOfCell),
    /// The first cell that holds just these bytes, from one on, row by row (LSearch). TooLong where there are more than 255.
    Search(CellText<'a>),
    /// The mouse was clicked at a point (LClick): where a cell shows there, it is selected by the flags of its list and the keys
    /// that were down, whatever lies over it. OutOfRange where the point is none of the range of coordinates, or the modifiers
    /// do not lie in 0..=65535.
    Click(ListClick),
    /// Scrolls by some columns to the right and some rows down, as far as there are cells to be seen (LScroll).
    Scroll(ScrollList),
    /// Turns drawing on or off (LDoDraw). It draws nothing itself.
    SetDrawing(ListDrawing),
}

/// A list to be made (LNew: *Inside Macintosh* IV, "The List Manager Package").
#[derive(Drop)]
pub struct NewList<'a> {
    /// The serial of its window.
    pub window: u64,
    /// The name of the kind, by which the stock finds a definition.
    pub kind: BytesRef<'a>,
    /// Where the top left corner of its view lies in the window.
    pub place: Point,
    /// The width and the height of its view, each in 1..=1024.
    pub size: Size,
    /// The width and the height of a cell, each in 1..=1024.
    pub cell_size: Size,
    /// In 0..=4096.
    pub columns: i32,
    /// In 0..=4096.
    pub rows: i32,
    /// Whether a scroll bar lies at its right side. It is a control of the window, which has a serial of its own.
    pub vertical_bar: bool,
    /// Whether one lies below it, whose serial comes after that of the other.
    pub horizontal_bar: bool,
    /// The sum of its flags: lOnlyOne is -128, lNoExtend 16, lUseSense 4 and lNoNilHilite 2.
    pub flags: i32,
}

/// A list of a window.
#[derive(Clone, Copy, Debug, PartialEq, Eq)]
pub struct ListOf {
    pub window: u64,
    pub list: u64,
}

/// Rows or columns that are to be added to a list or deleted from it.
#[derive(Clone, Copy, Debug, PartialEq, Eq)]
pub struct ListLines {
    pub list: ListOf,
    /// How many.
    pub count: i32,
    /// The one before which they are added, or the first that is deleted, from 0.
    pub at: i32,
}

/// A cell of a list.
#[derive(Clone, Copy, Debug, PartialEq, Eq)]
pub struct CellOf {
    pub list: ListOf,
    pub cell: Cell,
}

/// A cell, and bytes for it.
#[derive(Drop)]
pub struct CellText<'a> {
    pub cell: CellOf,
    /// At most 255 bytes.
    pub text: BytesRef<'a>,
}

/// A cell that is to be selected, or not to be.
#[derive(Clone, Copy, Debug, PartialEq, Eq)]
pub struct SelectCell {
    pub cell: CellOf,
    pub selected: bool,
}

/// A cell whose next one is asked for.
#[derive(Clone, Copy, Debug, PartialEq, Eq)]
pub struct NextOfCell {
    pub cell: CellOf,
    /// Whether it may be the next in the row.
    pub across: bool,
    /// Whether it may be in the next row: with `across` the first there, and else the one in the same column.
    pub down: bool,
}

/// A click of the mouse in a list.
#[derive(Clone, Copy, Debug, PartialEq, Eq)]
pub struct ListClick {
    pub list: ListOf,
    /// In the coordinates of the list's window.
    pub point: Point,
    /// The flags of the modifier keys, as an event has them, in 0..=65535.
    pub modifiers: i32,
}

/// How far a list is to be scrolled.
#[derive(Clone, Copy, Debug, PartialEq, Eq)]
pub struct ScrollList {
    pub list: ListOf,
    /// To the right.
    pub columns: i32,
    /// Down.
    pub rows: i32,
}

/// A list whose drawing is to be on or off.
#[derive(Clone, Copy, Debug, PartialEq, Eq)]
pub struct ListDrawing {
    pub list: ListOf,
    pub drawing: bool,
}

/// The value of a call about lists that was done.
#[derive(Debug, PartialEq, Eq, Drop)]
pub enum ListReply {
    /// Nothing more than that it was done.
    Done,
    /// The serial of a new list, from 1.
    Made(u64),
    /// The number of the first row or column that was added, from 0.
    Added(usize),
    /// The data of a cell.
    Data(Vec<u8>),
    /// Whether a cell is selected.
    Selected(bool),
    /// The cell that was asked for, if there is one.
    Cell(Option<Cell>),
    /// Whether a cell was clicked on.
    Clicked(bool),
}
