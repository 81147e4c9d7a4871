//! The cells of lists: rows and columns put in and taken out, data, and selections.

use list_cells::{Cell, Click, ClickKeys, ListCells, Selecting, SelectionFlags};
use std::test::Fail;
use tb_geom::Refusal;

/// The cells of 2 columns and 2 rows, and what they hold.
const FIRST: [(Cell, &[u8]); 4] = [
    (cell!(0, 0), b"a"),
    (cell!(1, 0), b"b"),
    (cell!(0, 1), b"c"),
    (cell!(1, 1), b"d"),
];

/// Some of them, after a row was put in before the second one and two columns behind the last.
const MOVED: [(Cell, &[u8]); 4] = [
    (cell!(1, 0), b"b"),
    (cell!(1, 2), b"d"),
    (cell!(0, 1), b""),
    (cell!(3, 2), b""),
];

#[test]
fn cells_move_with_their_rows_and_columns(rt: HostRuntime) -> Result<(), Fail> {
    let mut list = ListCells::new(rt.alloc(), 2, 2)?;
    for (cell, data) in FIRST {
        list.set_cell(cell, data)?;
    }
    assert!(rt; list.add_rows(1, 1) == Ok(1) && list.add_columns(2, 9) == Ok(2));
    assert!(rt; list.rows() == 3 && list.columns() == 4);
    for (cell, data) in MOVED {
        assert!(rt; list.cell(cell) == Ok(data));
    }
    assert!(rt; list.delete_columns(1, 0) == Ok(()) && list.delete_rows(4096, 1) == Ok(()));
    assert!(rt; list.rows() == 1 && list.columns() == 3 && list.cell(cell!(0, 0)) == Ok(b"b"));
    Ok(())
}

#[test]
fn rows_are_refused_in_the_written_order(rt: HostRuntime) -> Result<(), Fail> {
    let mut list = ListCells::new(rt.alloc(), 1, 3)?;
    assert!(rt; list.add_rows(5000, -1) == Err(Refusal::NoSuchCell));
    assert!(rt; list.add_rows(5000, 0) == Err(Refusal::OutOfRange));
    assert!(rt; list.add_rows(4094, 99) == Err(Refusal::TooMany));
    assert!(rt; list.delete_rows(5000, 3) == Err(Refusal::NoSuchCell));
    assert!(rt; list.delete_rows(0, 2) == Err(Refusal::OutOfRange));
    assert!(rt; list.add_columns(4096, 0) == Err(Refusal::TooMany));
    assert!(rt; list.delete_columns(1, 1) == Err(Refusal::NoSuchCell));
    assert!(rt; ListCells::new(rt.alloc(), 4097, 0).err() == Some(Refusal::OutOfRange));
    assert!(rt; ListCells::new(rt.alloc(), 64, 65).err() == Some(Refusal::TooMany));
    Ok(())
}

#[test]
fn calls_are_judged_beforehand(rt: HostRuntime) -> Result<(), Fail> {
    let mut list = ListCells::new(rt.alloc(), 2, 3)?;
    assert!(rt; ListCells::new_refusal(0, 4097) == Some(Refusal::OutOfRange));
    assert!(rt; ListCells::new_refusal(64, 65) == Some(Refusal::TooMany));
    assert!(rt; ListCells::new_refusal(64, 64) == None);
    assert!(rt; list.add_rows_refusal(2046, 0) == Some(Refusal::TooMany));
    assert!(rt; list.add_rows_refusal(2045, 9) == None);
    assert!(rt; list.add_columns_refusal(0, 0) == Some(Refusal::OutOfRange));
    assert!(rt; list.add_columns_refusal(1363, 0) == None);
    assert!(rt; list.delete_rows_refusal(1, 3) == Some(Refusal::NoSuchCell));
    assert!(rt; list.delete_rows_refusal(9, 2) == None);
    assert!(rt; list.delete_columns_refusal(1, 2) == Some(Refusal::NoSuchCell));
    assert!(rt; list.delete_columns_refusal(1, 1) == None);
    list.set_cell(cell!(1, 2), &[b'x'; 255])?;
    assert!(rt; list.set_refusal(cell!(2, 2), b"x") == Some(Refusal::NoSuchCell));
    assert!(rt; list.set_refusal(cell!(1, 2), &[b'x'; 256]) == Some(Refusal::TooLong));
    assert!(rt; list.set_refusal(cell!(1, 2), &[b'x'; 255]) == None);
    assert!(rt; list.append_refusal(cell!(1, 3), b"x") == Some(Refusal::NoSuchCell));
    assert!(rt; list.append_refusal(cell!(1, 2), &[b'x'; 256]) == Some(Refusal::TooLong));
    assert!(rt; list.append_refusal(cell!(1, 2), &[b'x'; 255]) == None);
    Ok(())
}

#[test]
fn cells_hold_32000_bytes(rt: HostRuntime) -> Result<(), Fail> {
    let mut list = ListCells::new(rt.alloc(), 1, 3)?;
    let longest = [b'x'; 255];
    for _ in 0..125 {
        list.add_to_cell(cell!(0, 0), &longest)?;
    }
    list.add_to_cell(cell!(0, 0), &longest[..125])?;
    assert!(rt; list.cell(cell!(0, 0))?.len() == 32000);
    assert!(rt; list.add_to_cell(cell!(0, 0), b"x") == Err(Refusal::TooLong));
    assert!(rt; list.set_cell(cell!(0, 2), b"z") == Err(Refusal::TooLong));
    assert!(rt; list.set_cell(cell!(0, 3), b"z") == Err(Refusal::NoSuchCell));
    list.clear_cell(cell!(0, 0))?;
    assert!(rt; list.set_cell(cell!(0, 2), &[b'x'; 256]) == Err(Refusal::TooLong));
    list.set_cell(cell!(0, 2), b"zz")?;
    assert!(rt; list.cell(cell!(0, 2)) == Ok(b"zz") && list.cell(cell!(0, 0)) == Ok(b""));
    Ok(())
}

#[test]
fn cells_are_selected_and_searched_by_rows(rt: HostRuntime) -> Result<(), Fail> {
    let mut list = ListCells::new(rt.alloc(), 2, 3)?;
    list.set_cell(cell!(1, 1), b"abc")?;
    list.select(cell!(0, 1), true, false)?;
    list.select(cell!(1, 2), true, false)?;
    assert!(rt;
        list.is_selected(cell!(0, 1)) == Ok(true) && list.is_selected(cell!(1, 1)) == Ok(false)
    );
    assert!(rt; list.first_selected(cell!(1, 0)) == Ok(Some(cell!(0, 1))));
    assert!(rt; list.first_selected(cell!(1, 1)) == Ok(Some(cell!(1, 2))));
    list.select(cell!(0, 2), true, true)?;
    assert!(rt; list.first_selected(cell!(0, 0)) == Ok(Some(cell!(0, 2))));
    assert!(rt; list.first_selected(cell!(1, 2)) == Ok(None));
    assert!(rt;
        list.search(cell!(0, 0), b"abc") == Ok(Some(cell!(1, 1)))
            && list.search(cell!(0, 0), b"ab") == Ok(None)
    );
    assert!(rt; list.search(cell!(1, 1), b"") == Ok(Some(cell!(0, 2))));
    Ok(())
}

/// Cells of 2 columns and 3 rows, whether the cell in the row and the one in the column is wanted, and which one follows.
const NEXT: [(Cell, bool, bool, Option<Cell>); 7] = [
    (cell!(0, 1), true, true, Some(cell!(1, 1))),
    (cell!(1, 1), true, true, Some(cell!(0, 2))),
    (cell!(1, 2), true, true, None),
    (cell!(1, 1), true, false, None),
    (cell!(0, 1), false, true, Some(cell!(0, 2))),
    (cell!(0, 2), false, true, None),
    (cell!(0, 0), false, false, None),
];

#[test]
fn cells_follow_each_other(rt: HostRuntime) -> Result<(), Fail> {
    let list = ListCells::new(rt.alloc(), 2, 3)?;
    for (cell, across, down, next) in NEXT {
        assert!(rt; list.next_cell(cell, across, down) == Ok(next));
    }
    assert!(rt; list.next_cell(cell!(2, 0), true, true) == Err(Refusal::NoSuchCell));
    Ok(())
}

/// Flags of lists: none, lOnlyOne, lNoExtend, lUseSense, and the last two.
const PLAIN: SelectionFlags = SelectionFlags {
    only_one: false,
    no_extend: false,
    use_sense: false,
    no_nil_hilite: false,
};

const ONLY_ONE: SelectionFlags = SelectionFlags {
    only_one: true,
    ..PLAIN
};

const NO_EXTEND: SelectionFlags = SelectionFlags {
    no_extend: true,
    ..PLAIN
};

const USE_SENSE: SelectionFlags = SelectionFlags {
    use_sense: true,
    ..PLAIN
};

/// Flags, whether the Command key and the Shift key are down, whether the cell is selected, and what a click does.
const CLICKS: [(SelectionFlags, bool, bool, bool, Click); 10] = [
    (PLAIN, false, false, true, Click::SelectsAlone),
    (PLAIN, true, false, false, Click::Toggles),
    (PLAIN, true, true, true, Click::Toggles),
    (PLAIN, false, true, true, Click::Extends),
    (ONLY_ONE, true, false, true, Click::SelectsAlone),
    (ONLY_ONE, false, true, false, Click::SelectsAlone),
    (NO_EXTEND, false, true, false, Click::SelectsAlone),
    (NO_EXTEND, true, false, false, Click::Toggles),
    (USE_SENSE, false, true, true, Click::Deselects),
    (USE_SENSE, false, true, false, Click::Extends),
];

#[test]
fn clicks_select_by_flags_and_keys(rt: HostRuntime) {
    for (flags, command, shift, selected, click) in CLICKS {
        assert!(rt; flags.click(ClickKeys { command, shift }, selected) == click);
    }
}

/// Whether the cells of 3 columns and 2 rows are toggled, by rows.
fn toggled(list: &ListCells, selecting: Option<Selecting>) -> [bool; 6] {
    let mut all = [false; 6];
    let Some(selecting) = selecting else {
        return all;
    };
    for place in 0..6 {
        let cell = cell!((place % 3) as i32, (place / 3) as i32);
        all[place] = match list.is_selected(cell) {
            Ok(_) => list.is_toggled(cell, selecting),
            Err(_) => false,
        };
    }
    all
}

/// Modifiers of a click, the clicked one of 3 columns and 2 rows of cells where that at 1 0 alone is selected, and which cells
/// it toggles, by rows.
const TOGGLED: [(u16, Cell, [bool; 6]); 5] = [
    (0, cell!(2, 1), [false, true, false, false, false, true]),
    (0, cell!(1, 0), [false; 6]),
    (0x0200, cell!(2, 1), [false, false, true, false, true, true]),
    (
        0x0100,
        cell!(1, 0),
        [false, true, false, false, false, false],
    ),
    (0x0100, cell!(0, 2), [false; 6]),
];

/// A cell of those, whether it is selected or deselected, and whether that alone, and which cells that toggles, by rows.
const CHOSEN: [(Cell, bool, bool, [bool; 6]); 5] = [
    (
        cell!(0, 1),
        true,
        false,
        [false, false, false, true, false, false],
    ),
    (
        cell!(0, 1),
        true,
        true,
        [false, true, false, true, false, false],
    ),
    (cell!(0, 1), false, true, [false; 6]),
    (cell!(1, 0), true, true, [false; 6]),
    (
        cell!(1, 0),
        false,
        true,
        [false, true, false, false, false, false],
    ),
];

#[test]
fn cells_are_toggled_as_is_told_beforehand(rt: HostRuntime) -> Result<(), Fail> {
    let mut list = ListCells::new(rt.alloc(), 3, 2)?;
    list.select(cell!(1, 0), true, false)?;
    for (modifiers, cell, cells) in TOGGLED {
        let keys = ClickKeys::of_modifiers(modifiers);
        assert!(rt; toggled(&list, list.clicking(cell, PLAIN, keys)) == cells);
    }
    for (cell, selected, alone, cells) in CHOSEN {
        assert!(rt; toggled(&list, list.choosing(cell, selected, alone)) == cells);
    }
    let keys = ClickKeys::of_modifiers(0x0200);
    assert!(rt; list.click(cell!(2, 1), PLAIN, keys));
    assert!(rt; list.is_selected(cell!(2, 0)) == Ok(true));
    assert!(rt; list.is_selected(cell!(0, 1)) == Ok(false));
    Ok(())
}

/// Whether a call toggles some cell of a list.
fn changes(list: &ListCells, selecting: Option<Selecting>) -> bool {
    match selecting {
        Some(selecting) => list.changes_by(selecting),
        None => false,
    }
}

#[test]
fn a_list_changes_where_a_cell_is_toggled(rt: HostRuntime) -> Result<(), Fail> {
    let mut list = ListCells::new(rt.alloc(), 3, 2)?;
    let without_columns = ListCells::new(rt.alloc(), 0, 2)?;
    list.select(cell!(1, 0), true, false)?;
    for (modifiers, cell, cells) in TOGGLED {
        let keys = ClickKeys::of_modifiers(modifiers);
        assert!(rt; changes(&list, list.clicking(cell, PLAIN, keys)) == (cells != [false; 6]));
    }
    for (cell, selected, alone, cells) in CHOSEN {
        let selecting = list.choosing(cell, selected, alone);
        assert!(rt; changes(&list, selecting) == (cells != [false; 6]));
        assert!(rt; !changes(&without_columns, selecting));
    }
    Ok(())
}

/// Flags, in the order of their fields.
macro_rules! flags {
    ($only_one:expr, $no_extend:expr, $use_sense:expr, $no_nil_hilite:expr) => {
        SelectionFlags {
            only_one: $only_one,
            no_extend: $no_extend,
            use_sense: $use_sense,
            no_nil_hilite: $no_nil_hilite,
        }
    };
}

/// All numbers that say how cells are selected, and what they say.
const SUMS: [(i32, SelectionFlags); 16] = [
    (-128, flags!(true, false, false, false)),
    (-126, flags!(true, false, false, true)),
    (-124, flags!(true, false, true, false)),
    (-122, flags!(true, false, true, true)),
    (-112, flags!(true, true, false, false)),
    (-110, flags!(true, true, false, true)),
    (-108, flags!(true, true, true, false)),
    (-106, flags!(true, true, true, true)),
    (0, flags!(false, false, false, false)),
    (2, flags!(false, false, false, true)),
    (4, flags!(false, false, true, false)),
    (6, flags!(false, false, true, true)),
    (16, flags!(false, true, false, false)),
    (18, flags!(false, true, false, true)),
    (20, flags!(false, true, true, false)),
    (22, flags!(false, true, true, true)),
];

#[test]
fn numbers_say_how_cells_are_selected(rt: HostRuntime) {
    for number in -200..201 {
        let said = SUMS.iter().find(|sum| sum.0 == number);
        let wanted = match said {
            Some(sum) => Ok(sum.1),
            None => Err(Refusal::OutOfRange),
        };
        assert!(rt; SelectionFlags::of_number(number) == wanted, "of {number}");
    }
}

/// Modifiers of events, and whether they say that the Command key and the Shift key are down.
const MODIFIERS: [(u16, bool, bool); 7] = [
    (0, false, false),
    (0x0100, true, false),
    (0x0200, false, true),
    (0x0300, true, true),
    (0xFCFF, false, false),
    (0xFDFF, true, false),
    (0xFFFF, true, true),
];

#[test]
fn modifiers_say_which_keys_are_down(rt: HostRuntime) {
    for (modifiers, command, shift) in MODIFIERS {
        assert!(rt; ClickKeys::of_modifiers(modifiers) == ClickKeys { command, shift });
    }
}
