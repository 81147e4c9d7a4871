//! Lines that ask something about lists, and what is answered about them.

use command_words::{Verb, verb_of};
use desk_call::{CellOf, ListCall, ListOf, ListReply};
use line_words::Words;
use list_cells::Cell;
use reply_lines::write_list_reply;
use std::test::Fail;
use tb_geom::Refusal;
use watched_io::WatchedWriter;

/// What a line of at most 100 bytes asks about lists, which is read from the room.
fn asked<'a>(room: &'a mut [u8; 100], line: &[u8]) -> Result<ListCall<'a>, Refusal> {
    let Some(bytes) = room.get_mut(..line.len()) else {
        return Err(Refusal::TooLong);
    };
    bytes.copy_from_slice(line);
    let (word, words) = Words::new(bytes).word()?;
    match verb_of(1, word.as_slice()) {
        Some(Verb::List(verb)) => verb.call(words),
        _ => Err(Refusal::NoSuchName),
    }
}

/// A letter for what a line asks of a whole list, the list, and its numbers.
fn numbers(line: &[u8]) -> Option<(u8, ListOf, [i32; 3])> {
    match asked(&mut [0; 100], line).ok()? {
        ListCall::Dispose(it) => Some((b'x', it, [0, 0, 0])),
        ListCall::AddRows(it) => Some((b'r', it.list, [it.count, it.at, 0])),
        ListCall::AddColumns(it) => Some((b'c', it.list, [it.count, it.at, 0])),
        ListCall::DeleteRows(it) => Some((b'R', it.list, [it.count, it.at, 0])),
        ListCall::DeleteColumns(it) => Some((b'C', it.list, [it.count, it.at, 0])),
        ListCall::Click(it) => Some((b'k', it.list, [it.point.h, it.point.v, it.modifiers])),
        ListCall::Scroll(it) => Some((b's', it.list, [it.columns, it.rows, 0])),
        ListCall::SetDrawing(it) => Some((b'd', it.list, [i32::from(it.drawing), 0, 0])),
        _ => None,
    }
}

/// Lines, and for each its letter, its window, its list and its numbers.
const LINES: [(&[u8], u8, [u64; 2], [i32; 3]); 9] = [
    (b"ldispose 1 2", b'x', [1, 2], [0, 0, 0]),
    (b"laddrow -5 70000 3 4", b'r', [0, 70000], [3, 4, 0]),
    (b"laddcol 3 4 -99999 5", b'c', [3, 4], [-99999, 5, 0]),
    (b"ldelrow 5 -1 6 -7", b'R', [5, 0], [6, -7, 0]),
    (b"ldelcol 5 6 0 8", b'C', [5, 6], [0, 8, 0]),
    (b"lclick 1 2 -3 40000 768", b'k', [1, 2], [-3, 40000, 768]),
    (b"lscroll 2 1 5 -6", b's', [2, 1], [5, -6, 0]),
    (b"ldraw 2 1 0", b'd', [2, 1], [0, 0, 0]),
    (b"ldraw 8 9 1", b'd', [8, 9], [1, 0, 0]),
];

#[test]
fn numbers_of_lists_are_judged_by_nobody(rt: HostRuntime) {
    for (line, letter, [window, list], wanted) in LINES {
        let list = ListOf { window, list };
        assert!(rt; numbers(line) == Some((letter, list, wanted)));
    }
}

/// A letter for what a line asks of a cell, the cell, and its flags as the digits of a number.
fn cells(line: &[u8]) -> Option<(u8, CellOf, i32)> {
    match asked(&mut [0; 100], line).ok()? {
        ListCall::ClearCell(it) => Some((b'x', it, 0)),
        ListCall::GetCell(it) => Some((b'g', it, 0)),
        ListCall::Select(it) => Some((b's', it.cell, i32::from(it.selected))),
        ListCall::IsSelected(it) => Some((b'i', it, 0)),
        ListCall::FirstSelected(it) => Some((b'f', it, 0)),
        ListCall::NextCell(it) => {
            let flags = 10 * i32::from(it.across) + i32::from(it.down);
            Some((b'n', it.cell, flags))
        }
        _ => None,
    }
}

/// Lines that name the cell of column 5 and row -6 of the list 4 of the window 3, and for each its letter and its flags.
const CELL_LINES: [(&[u8], u8, i32); 9] = [
    (b"lclear 3 4 5 -6", b'x', 0),
    (b"lget 3 4 5 -6", b'g', 0),
    (b"lsetsel 3 4 1 5 -6", b's', 1),
    (b"lsetsel 3 4 0 5 -6", b's', 0),
    (b"lgetsel 3 4 0 5 -6", b'i', 0),
    (b"lgetsel 3 4 1 5 -6", b'f', 0),
    (b"lnext 3 4 1 0 5 -6", b'n', 10),
    (b"lnext 3 4 0 1 5 -6", b'n', 1),
    (b"lnext 3 4 1 1 5 -6", b'n', 11),
];

#[test]
fn a_cell_is_a_column_and_a_row(rt: HostRuntime) {
    let list = ListOf { window: 3, list: 4 };
    let cell = Cell { column: 5, row: -6 };
    for (line, letter, flags) in CELL_LINES {
        assert!(rt; cells(line) == Some((letter, CellOf { list, cell }, flags)));
    }
}

#[test]
fn rows_of_a_new_list_come_before_its_columns(rt: HostRuntime) {
    let mut room = [0; 100];
    let line = b"list 7 Az09 -1 2 300 4 50 -6 70 8 0 1 -128";
    let Ok(ListCall::New(new)) = asked(&mut room, line) else {
        assert!(rt; false, "no list");
        return;
    };
    assert!(rt; new.window == 7 && new.kind.as_slice() == b"Az09".as_slice());
    let (place, size, cell) = (new.place, new.size, new.cell_size);
    assert!(rt; [place.h, place.v, size.width, size.height] == [-1, 2, 300, 4]);
    assert!(rt; [cell.width, cell.height, new.rows, new.columns] == [50, -6, 70, 8]);
    assert!(rt; !new.vertical_bar && new.horizontal_bar && new.flags == -128);
}

/// A letter for what a line asks with a text, its cell and the length of the text, where that begins with `a`.
fn texts(line: &[u8]) -> Option<(u8, CellOf, usize)> {
    let mut room = [0; 100];
    let (letter, it) = match asked(&mut room, line).ok()? {
        ListCall::SetCell(it) => (b's', it),
        ListCall::AddToCell(it) => (b'a', it),
        ListCall::Search(it) => (b'f', it),
        _ => return None,
    };
    match it.text.as_slice() {
        [] => Some((letter, it.cell, 0)),
        [b'a', others @ ..] => Some((letter, it.cell, 1 + others.len())),
        _ => None,
    }
}

#[test]
fn texts_of_cells_are_lent_as_they_stand(rt: HostRuntime) {
    let list = ListOf { window: 1, list: 2 };
    let cell = Cell { column: -3, row: 4 };
    let cell = CellOf { list, cell };
    assert!(rt; texts(b"lset 1 2 -3 4 \"a  1\"") == Some((b's', cell, 4)));
    assert!(rt; texts(b"ladd 1 2 -3 4 \"a\"") == Some((b'a', cell, 1)));
    assert!(rt; texts(b"lsearch 1 2 -3 4 \"\"") == Some((b'f', cell, 0)));
}

/// Lines that have not the form of a command for lists, and one whose first word is none.
const FAULTS: [(&[u8], Refusal); 12] = [
    (b"list 1 text 0 0 9 9 9 9 2 3 0 0", Refusal::BadSyntax),
    (b"list 1 text 0 0 9 9 9 9 2 3 2 0 0", Refusal::BadSyntax),
    (b"ldispose 1 2 3", Refusal::BadSyntax),
    (b"laddrow 1 2 3", Refusal::BadSyntax),
    (b"lset 1 2 3 4 text", Refusal::BadSyntax),
    (b"ladd 1 2 3 4 \"text", Refusal::BadSyntax),
    (b"lget 1 2 3 4 5", Refusal::BadSyntax),
    (b"lsetsel 1 2 2 3 4", Refusal::BadSyntax),
    (b"lgetsel 1 2 3 4", Refusal::BadSyntax),
    (b"lnext 1 2 1 3 4", Refusal::BadSyntax),
    (b"ldraw 1 2 2", Refusal::BadSyntax),
    (b"lsets 1 2 3 4 \"\"", Refusal::NoSuchName),
];

#[test]
fn lines_of_another_form_are_refused(rt: HostRuntime) {
    for (line, refusal) in FAULTS {
        assert!(rt; asked(&mut [0; 100], line).err() == Some(refusal));
    }
}

/// The line of a reply about lists.
fn line_of(rt: HostRuntime, reply: &ListReply) -> Result<Vec<u8>, Fail> {
    let mut text = Vec::new(rt.alloc());
    write_list_reply(&mut WatchedWriter::new(&mut text), reply)?;
    Ok(text)
}

#[test]
fn a_reply_about_lists_is_one_line(rt: HostRuntime) -> Result<(), Fail> {
    let cell = Cell {
        column: -2147483648,
        row: 4095,
    };
    let lines: [(ListReply, &[u8]); 8] = [
        (ListReply::Done, b"ok\n"),
        (ListReply::Made(u64::MAX), b"ok 18446744073709551615\n"),
        (ListReply::Added(4095), b"ok 4095\n"),
        (ListReply::Selected(true), b"ok 1\n"),
        (ListReply::Selected(false), b"ok 0\n"),
        (ListReply::Cell(None), b"ok 0\n"),
        (ListReply::Cell(Some(cell)), b"ok 1 -2147483648 4095\n"),
        (ListReply::Clicked(true), b"ok 1\n"),
    ];
    for (reply, line) in &lines {
        assert!(rt; line_of(rt, reply)?.as_slice() == *line);
    }
    Ok(())
}

#[test]
fn data_stands_between_quotes(rt: HostRuntime) -> Result<(), Fail> {
    let mut data = Vec::new(rt.alloc());
    assert!(rt;
        line_of(rt, &ListReply::Data(Vec::new(rt.alloc())))?.as_slice() == b"ok \"\"\n".as_slice()
    );
    data.resize(32000, b'a')?;
    let line = line_of(rt, &ListReply::Data(data))?;
    assert!(rt; line.len() == 32006 && line.starts_with(b"ok \"aaa") && line.ends_with(b"aaa\"\n"));
    Ok(())
}
