//! Lists as the library has them.
ghost use Rattle.std.specs.Prelude.{◌≡◌, IfOk};
ghost use Rattle.list_view.specs.Walks.{IsReady};

use crate::plain_list::PlainView;
use bit_map::BitMap;
use def_iface::{Defined, ListDef, ListStock, Size, Stage, TakenList};
use draw_port::{Canvas, Cut};
use list_cells::{Cell, ClickKeys, ListCells, Selecting, SelectionFlags};
use list_view::{Axis, ListView, paint_list, toggle_cells};
use std::alloc::Global;
use strike_font::Font;
use tb_geom::{Point, Rect, Refusal};
use test_pixels::{point, rect};

/// All pixels.
pub const NOTHING_CUT: Cut<'static> = Cut {
    inside: [None; 3],
    outside: None,
};

/// Where the list's window lies on the map.
pub const ORIGIN: Point = point!(3, 2);

/// What of the map may be drawn on.
pub const CLIP: Rect = rect!(1, 2, 47, 35);

/// The columns and the rows of a list of texts.
pub const COLUMNS: u8 = 3;

pub const ROWS: u8 = 5;

/// A column, a row and what the cell holds there; the others hold nothing.
const TEXTS: [(u8, u8, &[u8]); 8] = [
    (0, 0, b"A"),
    (1, 0, b"bg"),
    (2, 0, b"#"),
    (0, 1, b"Wide text"),
    (2, 2, b"y"),
    (1, 3, b"8"),
    (0, 4, b"."),
    (2, 4, b"Q"),
];

/// A cell, by its column and its row.
pub fn cell(column: u8, row: u8) -> Cell {
    Cell {
        column: i32::from(column),
        row: i32::from(row),
    }
}

/// A definition of lists, told the size of the view's cells.
pub fn told(alloc: Global, list: Box<dyn ListDef>, plain: PlainView) -> Result<TakenList, Refusal>
    requires { (list_meaning list).stage ≡ Stage.Fresh }
    ensures { IfOk result (λ taken. IsReady (⟦<TakenList as Defined>⟧.loan taken).definition) }
{
    if plain.cell_width == 0 || plain.cell_height == 0 {
        return Err(Refusal::OutOfRange);
    }
    let mut stock = ListStock::new(alloc);
    let Ok(()) = stock.add(b"text", list) else {
        return Err(Refusal::NoMemory);
    };
    let mut taken = stock.take(b"text")?;
    let size = Size {
        width: i32::from(plain.cell_width),
        height: i32::from(plain.cell_height),
    };
    taken.begin(size, true);
    Ok(taken)
}

/// The view that lies so.
pub fn view(plain: PlainView) -> Result<ListView, Refusal> {
    let across = Axis {
        start: i32::from(plain.left),
        length: i32::from(plain.width),
        cell: i32::from(plain.cell_width),
    };
    let down = Axis {
        start: i32::from(plain.top),
        length: i32::from(plain.height),
        cell: i32::from(plain.cell_height),
    };
    let view = ListView::new(across, down)?;
    Ok(view.scrolled(
        usize::from(COLUMNS),
        usize::from(ROWS),
        i32::from(plain.column),
        i32::from(plain.row),
    ))
}

/// A list without cells that hold anything.
pub fn empty_cells(alloc: Global) -> Result<ListCells, Refusal> {
    ListCells::new(alloc, i32::from(COLUMNS), i32::from(ROWS))
}

/// The list of texts.
pub fn text_cells(alloc: Global) -> Result<ListCells, Refusal> {
    let mut cells = empty_cells(alloc)?;
    for (column, row, text) in TEXTS {
        cells.set_cell(cell(column, row), text)?;
    }
    Ok(cells)
}

/// Draws a list.
pub fn paint(
    map: &mut BitMap,
    definition: &TakenList,
    view: ListView,
    cells: &ListCells,
    font: &Font,
)
    requires ready { IsReady (⟦<TakenList as Defined>⟧.loan definition.now).definition }
{
    let mut canvas = Canvas {
        map,
        clip: CLIP,
        origin: ORIGIN,
        cut: &NOTHING_CUT,
        font,
    };
    paint_list(definition, view, cells, &mut canvas);
}

/// A call that changes the selection at a cell.
#[derive(Clone, Copy)]
pub struct Change {
    pub column: u8,
    pub row: u8,
    pub by: By,
}

/// By what it is changed.
#[derive(Clone, Copy)]
pub enum By {
    /// LSetSelect, with the others left as they are or not.
    Setting { selected: bool, alone: bool },
    /// LClick, with these keys.
    Click(ClickKeys),
}

/// How a click selects here.
const FLAGS: SelectionFlags = SelectionFlags {
    only_one: false,
    no_extend: false,
    use_sense: true,
    no_nil_hilite: false,
};

/// Turns what a call highlights otherwise that is about to make this of the selection.
fn toggle(
    map: &mut BitMap,
    definition: &TakenList,
    view: ListView,
    cells: &ListCells,
    selecting: Selecting,
    font: &Font,
)
    requires ready { IsReady (⟦<TakenList as Defined>⟧.loan definition.now).definition }
{
    let mut canvas = Canvas {
        map,
        clip: CLIP,
        origin: ORIGIN,
        cut: &NOTHING_CUT,
        font,
    };
    toggle_cells(definition, view, cells, selecting, &mut canvas);
}

/// Turns the selection on a map and changes it, where the list has the cell, and answers whether it has.
pub fn turn(
    map: &mut BitMap,
    definition: &TakenList,
    view: ListView,
    cells: &mut ListCells,
    change: Change,
    font: &Font,
) -> bool
    requires ready { IsReady (⟦<TakenList as Defined>⟧.loan definition.now).definition }
{
    let cell = cell(change.column, change.row);
    match change.by {
        By::Setting { selected, alone } => {
            let Some(selecting) = cells.choosing(cell, selected, alone) else {
                return false;
            };
            toggle(map, definition, view, cells, selecting, font);
            cells.select(cell, selected, alone).is_ok()
        }
        By::Click(keys) => {
            let Some(selecting) = cells.clicking(cell, FLAGS, keys) else {
                return false;
            };
            toggle(map, definition, view, cells, selecting, font);
            cells.click(cell, FLAGS, keys)
        }
    }
}
