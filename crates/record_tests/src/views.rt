//! The views of lists: where cells show, which cell shows at a point, scrolling, and scroll bars.

use list_cells::Cell;
use list_view::{Axis, ListView};
use std::test::Fail;
use tb_geom::{Point, Rect, Refusal};
use test_pixels::rect;

/// A view along one axis: its start, its length and the length of a cell.
macro_rules! axis {
    ($start:expr, $length:expr, $cell:expr) => {
        Axis {
            start: $start,
            length: $length,
            cell: $cell,
        }
    };
}

/// Where a view begins along an axis, its length and that of a cell, and whether it may lie so.
const AXES: [(i32, i32, i32, bool); 14] = [
    (0, 1, 1, true),
    (0, 0, 1, false),
    (0, -1, 1, false),
    (0, 1024, 1024, true),
    (0, 1025, 1, false),
    (0, 1, 0, false),
    (0, 1, 1025, false),
    (-16384, 1, 1, true),
    (-16385, 2, 1, false),
    (16382, 1, 1, true),
    (16383, 1, 1, false),
    (15359, 1024, 1, true),
    (15360, 1024, 1, false),
    (2147483647, 1024, 1, false),
];

#[test]
fn views_lie_in_range(rt: HostRuntime) {
    let other = axis!(0, 16, 8);
    for (start, length, cell, fits) in AXES {
        let refusal = if fits {
            None
        } else {
            Some(Refusal::OutOfRange)
        };
        let axis = axis!(start, length, cell);
        assert!(rt; ListView::new(axis, other).err() == refusal);
        assert!(rt; ListView::new(other, axis).err() == refusal);
    }
}

/// The height of a view and that of a cell, how many rows there are, by how many the view is scrolled, and then again, the row
/// in its corner after that, and how far it can be scrolled.
const SCROLLS: [(i32, i32, u8, i32, i32, i32, i32); 12] = [
    (48, 16, 10, 0, 9, 7, 7),
    (48, 16, 10, 9, -3, 4, 7),
    (48, 16, 10, 4, 0, 4, 7),
    (48, 16, 10, 3, -999999999, 0, 7),
    (48, 16, 10, 3, 2147483647, 7, 7),
    (47, 16, 10, 1, 99, 8, 8),
    (15, 16, 10, 1, 99, 9, 9),
    (48, 16, 3, 5, 5, 0, 0),
    (48, 16, 2, 0, 1, 0, 0),
    (48, 16, 0, 1, 1, 0, 0),
    (1024, 1, 255, 0, 9, 0, 0),
    (1, 1024, 255, 999999999, 0, 254, 254),
];

#[test]
fn views_scroll_between_their_ends(rt: HostRuntime) -> Result<(), Fail> {
    for (height, cell, rows, first, then, row, bound) in SCROLLS {
        let rows = usize::from(rows);
        let view = ListView::new(axis!(0, 24, 24), axis!(0, height, cell))?;
        let view = view.scrolled(1, rows, 0, first);
        let view = view.scrolled(1, rows, 0, then);
        let values = view.vertical_values(rows);
        assert!(rt; view.first() == cell!(0, row) && i32::from(values.value()) == row);
        assert!(rt; values.minimum() == 0 && i32::from(values.maximum()) == bound);
    }
    Ok(())
}

/// A view with 6 columns and 5 rows of cells 12 wide and 10 high, scrolled by 2 columns and a row.
fn scrolled_view() -> Result<ListView, Refusal> {
    let view = ListView::new(axis!(100, 30, 12), axis!(-20, 25, 10))?;
    Ok(view.scrolled(6, 5, 2, 1))
}

/// A column and a row, and where that cell shows in this view.
const CELLS: [(u8, u8, Rect); 9] = [
    (2, 1, rect!(100, -20, 112, -10)),
    (3, 1, rect!(112, -20, 124, -10)),
    (4, 1, rect!(124, -20, 130, -10)),
    (5, 1, rect!(0, 0, 0, 0)),
    (2, 2, rect!(100, -10, 112, 0)),
    (4, 3, rect!(124, 0, 130, 5)),
    (3, 4, rect!(0, 0, 0, 0)),
    (1, 1, rect!(0, 0, 0, 0)),
    (2, 0, rect!(0, 0, 0, 0)),
];

#[test]
fn cells_are_cut_to_the_view(rt: HostRuntime) -> Result<(), Fail> {
    let view = scrolled_view()?;
    assert!(rt; view.first() == cell!(2, 1) && view.rect() == rect!(100, -20, 130, 5));
    assert!(rt; view.across() == axis!(100, 30, 12) && view.down() == axis!(-20, 25, 10));
    for (column, row, rect) in CELLS {
        let cell = cell!(i32::from(column), i32::from(row));
        assert!(rt; view.cell_rect(cell) == rect, "of {column} {row}");
    }
    Ok(())
}

/// A point, how many columns and rows there are, and the cell that shows there in this view.
const POINTS: [(i32, i32, usize, usize, Option<Cell>); 12] = [
    (100, -20, 6, 5, Some(cell!(2, 1))),
    (111, -11, 6, 5, Some(cell!(2, 1))),
    (112, -11, 6, 5, Some(cell!(3, 1))),
    (123, -10, 6, 5, Some(cell!(3, 2))),
    (129, 4, 6, 5, Some(cell!(4, 3))),
    (130, 4, 6, 5, None),
    (129, 5, 6, 5, None),
    (99, -20, 6, 5, None),
    (100, -21, 6, 5, None),
    (111, -11, 3, 2, Some(cell!(2, 1))),
    (112, -11, 3, 2, None),
    (111, -10, 3, 2, None),
];

#[test]
fn points_find_cells(rt: HostRuntime) -> Result<(), Fail> {
    let view = scrolled_view()?;
    for (h, v, columns, rows, cell) in POINTS {
        assert!(rt;
            view.cell_at(Point { h, v }, columns, rows) == cell,
            "at {h} {v}"
        );
    }
    Ok(())
}

/// The width of a view and that of a cell, the first column, and how many columns there are then, and the one past those that
/// show.
const ENDS: [(i32, i32, i32, usize, usize); 9] = [
    (48, 16, 0, 10, 3),
    (47, 16, 0, 10, 3),
    (49, 16, 0, 10, 4),
    (48, 16, 2, 10, 5),
    (48, 16, 7, 10, 10),
    (33, 16, 6, 8, 8),
    (15, 16, 9, 10, 10),
    (48, 16, 7, 5, 5),
    (1, 1, 0, 0, 0),
];

#[test]
fn views_reach_to_their_ends(rt: HostRuntime) -> Result<(), Fail> {
    for (width, cell, first, columns, end) in ENDS {
        let across = axis!(4, width, cell);
        let down = axis!(8, 24, 24);
        let view = ListView::new(across, down)?.scrolled(4096, 1, first, 0);
        assert!(rt; view.columns_end(columns) == end && view.rows_end(9) == 1);
        let turned = ListView::new(down, across)?.scrolled(1, 4096, 0, first);
        assert!(rt; turned.rows_end(columns) == end && turned.columns_end(9) == 1);
    }
    Ok(())
}

#[test]
fn bars_lie_beside_the_view(rt: HostRuntime) -> Result<(), Fail> {
    let view = scrolled_view()?;
    assert!(rt; view.vertical_bar() == rect!(130, -20, 146, 5));
    assert!(rt; view.horizontal_bar() == rect!(100, 5, 130, 21));
    let across = view.horizontal_values(6);
    assert!(rt; across.minimum() == 0 && across.maximum() == 4 && across.value() == 2);
    let down = view.vertical_values(5);
    assert!(rt; down.minimum() == 0 && down.maximum() == 3 && down.value() == 1);
    let most = view.vertical_values(4096);
    assert!(rt; most.maximum() == 4094 && view.down().bound(4096) == 4094);
    assert!(rt; view.scrolled(3, 3, 0, 0).first() == cell!(1, 1));
    Ok(())
}
