//! The model: each cell of a list by itself.
ghost use Rattle.list_view.specs.Walks.{IsReady};

use crate::listed::{CLIP, COLUMNS, NOTHING_CUT, ORIGIN, ROWS, cell};
use bit_map::{BitMap, Mode, Pattern};
use def_iface::{Defined, TakenList};
use draw_port::Canvas;
use list_cells::{Cell, ListCells};
use std::alloc::Global;
use strike_font::Font;
use tb_geom::{Point, Rect, Refusal};
use test_pixels::{point, rect};

/// A view, by plain numbers: where it lies in the window, how large it and its cells are, and which cell lies in its corner.
#[derive(Clone, Copy)]
pub struct PlainView {
    pub left: i8,
    pub top: i8,
    pub width: u8,
    pub height: u8,
    pub cell_width: u8,
    pub cell_height: u8,
    pub column: u8,
    pub row: u8,
}

/// Where a column or a row begins, on the map.
fn line_start(origin: i32, start: i8, first: u8, line: u8, cell: u8) -> i32 {
    let lines = i32::from(line) - i32::from(first);
    origin.saturating_add(i32::from(start) + lines * i32::from(cell))
}

impl PlainView {
    /// What of the map the list may show on.
    fn seen(self) -> Rect {
        let left = ORIGIN.h + i32::from(self.left);
        let top = ORIGIN.v + i32::from(self.top);
        CLIP.sect(rect!(
            left,
            top,
            left + i32::from(self.width),
            top + i32::from(self.height)
        ))
    }

    /// Where a cell begins on the map.
    fn corner(self, column: u8, row: u8) -> Point {
        point!(
            line_start(ORIGIN.h, self.left, self.column, column, self.cell_width),
            line_start(ORIGIN.v, self.top, self.row, row, self.cell_height)
        )
    }
}

/// A map that is all black.
pub fn black_map(alloc: Global, font: &Font) -> Result<BitMap, Refusal> {
    let mut map = BitMap::new(alloc, 48, 36)?;
    let mut canvas = Canvas {
        map: &mut map,
        clip: rect!(0, 0, 48, 36),
        origin: point!(0, 0),
        cut: &NOTHING_CUT,
        font,
    };
    canvas.fill_all(Pattern::BLACK, Mode::Copy);
    Ok(map)
}

/// What a cell shows, on a map of its own.
fn cell_map(
    alloc: Global,
    definition: &TakenList,
    plain: PlainView,
    cells: &ListCells,
    cell: Cell,
    font: &Font,
) -> Result<BitMap, Refusal>
    requires ready { IsReady (⟦<TakenList as Defined>⟧.loan definition.now).definition }
{
    let bytes = cells.cell(cell)?;
    let selected = cells.is_selected(cell)?;
    let mut map = BitMap::new(
        alloc,
        i32::from(plain.cell_width),
        i32::from(plain.cell_height),
    )?;
    let mut canvas = Canvas {
        map: &mut map,
        clip: rect!(0, 0, 255, 255),
        origin: point!(0, 0),
        cut: &NOTHING_CUT,
        font,
    };
    definition.draw_cell(bytes, selected, &mut canvas);
    Ok(map)
}

/// Gives a pixel of a map a bit, where the rectangle has it.
fn put_pixel(map: &mut BitMap, seen: Rect, point: Point, bit: bool) {
    if seen.contains(point) && map.bounds().contains(point) {
        map.set(point, bit);
    }
}

/// Puts the pixels of a small map down where they show, with its 0 0 at a corner.
fn put_cell(map: &mut BitMap, seen: Rect, corner: Point, small: &BitMap) {
    let bounds = small.bounds();
    for v in bounds.top..bounds.bottom {
        for h in bounds.left..bounds.right {
            let from = point!(h, v);
            if bounds.contains(from) {
                let to = point!(corner.h.saturating_add(h), corner.v.saturating_add(v));
                put_pixel(map, seen, to, small.get(from));
            }
        }
    }
}

/// The black map with the list on it.
pub fn plain_map(
    alloc: Global,
    definition: &TakenList,
    plain: PlainView,
    cells: &ListCells,
    font: &Font,
) -> Result<BitMap, Refusal>
    requires ready { IsReady (⟦<TakenList as Defined>⟧.loan definition.now).definition }
{
    let mut map = black_map(alloc, font)?;
    put_cell(&mut map, CLIP, point!(0, 0), &BitMap::new(alloc, 48, 36)?);
    for row in 0..ROWS {
        for column in 0..COLUMNS {
            let small = cell_map(alloc, definition, plain, cells, cell(column, row), font)?;
            put_cell(&mut map, plain.seen(), plain.corner(column, row), &small);
        }
    }
    Ok(map)
}
