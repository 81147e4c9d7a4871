//! What lists show, and what changes of their selection turn.

use crate::listed::{By, Change, empty_cells, paint, text_cells, told, turn, view};
use crate::plain_list::{PlainView, black_map, plain_map};
use list_cells::{Cell, ClickKeys};
use std::test::Fail;
use std_mldef::StdList;
use strike_font::Font;
use tb_geom::Rect;
use test_pixels::pixels::{are_alike, picture};
use test_pixels::{point, rect};

/// A view: its left side and its top, its size, that of a cell, and the column and the row in its corner.
macro_rules! plain {
    ($left:expr, $top:expr, $width:expr, $height:expr, $cell_width:expr, $cell_height:expr, $column:expr, $row:expr) => {
        PlainView {
            left: $left,
            top: $top,
            width: $width,
            height: $height,
            cell_width: $cell_width,
            cell_height: $cell_height,
            column: $column,
            row: $row,
        }
    };
}

/// Whole cells, and parts of cells; scrolled, past all sides of the map, smaller than a cell, and larger than the list.
const VIEWS: [PlainView; 7] = [
    plain!(2, 1, 36, 24, 18, 12, 0, 0),
    plain!(2, 1, 35, 29, 18, 12, 0, 0),
    plain!(5, -4, 30, 31, 17, 11, 1, 2),
    plain!(-9, -9, 70, 60, 20, 13, 0, 1),
    plain!(4, 6, 7, 5, 19, 12, 2, 4),
    plain!(0, 0, 43, 33, 9, 5, 0, 0),
    plain!(1, 1, 1, 1, 1, 1, 0, 3),
];

/// The sides of the maps.
const SIDES: Rect = rect!(0, 0, 48, 36);

/// Selects a cell beside others.
macro_rules! selects {
    ($column:expr, $row:expr) => {
        Change {
            column: $column,
            row: $row,
            by: By::Setting {
                selected: true,
                alone: false,
            },
        }
    };
}

/// Clicks on a cell, with the Command key and the Shift key or without.
macro_rules! clicks {
    ($column:expr, $row:expr, $command:expr, $shift:expr) => {
        Change {
            column: $column,
            row: $row,
            by: By::Click(ClickKeys {
                command: $command,
                shift: $shift,
            }),
        }
    };
}

/// Changes of a selection, of which the last two leave it as it is.
const CHANGES: [Change; 8] = [
    selects!(0, 0),
    selects!(2, 2),
    clicks!(1, 3, false, true),
    clicks!(1, 1, true, false),
    clicks!(0, 1, false, true),
    clicks!(1, 0, false, false),
    clicks!(1, 4, true, false),
    clicks!(1, 4, true, false),
];

#[test]
fn a_list_shows_its_cells_and_turns_them(rt: HostRuntime) -> Result<(), Fail> {
    let alloc = rt.alloc();
    let font = Font::built_in(alloc)?;
    for plain in VIEWS {
        let mut cells = text_cells(alloc)?;
        let definition = told(alloc, Box::new(alloc, StdList::new())?, plain)?;
        let view = view(plain)?;
        let mut map = black_map(alloc, &font)?;
        paint(&mut map, &definition, view, &cells, &font);
        for change in CHANGES {
            let wanted = plain_map(alloc, &definition, plain, &cells, &font)?;
            assert!(rt; are_alike(&map, &wanted, SIDES));
            assert!(rt; turn(&mut map, &definition, view, &mut cells, change, &font));
        }
        let wanted = plain_map(alloc, &definition, plain, &cells, &font)?;
        assert!(rt; are_alike(&map, &wanted, SIDES));
    }
    Ok(())
}

/// A list of empty cells of 4 by 3, seen from 4 3 to 10 17 of the map from its second column and its second row on, with a
/// selected cell in the corner, one that is cut at the right, and one in the last row.
const PICTURE: &[u8] = b"\
############\n\
############\n\
#...........\n\
#...####....\n\
#...####....\n\
#...####....\n\
#...........\n\
#...........\n\
#...........\n\
#.......##..\n\
#.......##..\n\
#.......##..\n\
#...####....\n\
#...####....\n\
#...####....\n\
#...........\n\
#...........\n";

#[test]
fn empty_cells_are_black_where_they_are_selected(rt: HostRuntime) -> Result<(), Fail> {
    let alloc = rt.alloc();
    let font = Font::built_in(alloc)?;
    let plain = plain!(1, 1, 6, 14, 4, 3, 1, 1);
    let definition = told(alloc, Box::new(alloc, StdList::new())?, plain)?;
    let view = view(plain)?;
    assert!(rt; view.cell_corner(Cell { column: 0, row: 3 }) == point!(-3, 7));
    let mut cells = empty_cells(alloc)?;
    let mut map = black_map(alloc, &font)?;
    paint(&mut map, &definition, view, &cells, &font);
    for change in [
        selects!(1, 1),
        selects!(0, 2),
        selects!(2, 3),
        selects!(1, 4),
    ] {
        assert!(rt; turn(&mut map, &definition, view, &mut cells, change, &font));
    }
    assert_eq!(rt;
        picture(alloc, &map, rect!(0, 0, 12, 17))?.as_slice(),
        PICTURE
    );
    Ok(())
}
