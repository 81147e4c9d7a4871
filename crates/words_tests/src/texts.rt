//! Lines that ask something about text records, and what is answered about them.

use command_words::{Verb, verb_of};
use desk_call::{TextCall, TextInfo, TextOf, TextReply};
use line_words::Words;
use reply_lines::write_text_reply;
use std::test::Fail;
use tb_geom::{Point, Refusal};
use watched_io::WatchedWriter;

/// What a line of at most 100 bytes asks about text records in a script of this version, which is read from the room.
fn asked<'a>(version: i32, room: &'a mut [u8; 100], line: &[u8]) -> Result<TextCall<'a>, Refusal> {
    let Some(bytes) = room.get_mut(..line.len()) else {
        return Err(Refusal::TooLong);
    };
    bytes.copy_from_slice(line);
    let (word, words) = Words::new(bytes).word()?;
    match verb_of(version, word.as_slice()) {
        Some(Verb::Text(verb)) => verb.call(words),
        _ => Err(Refusal::NoSuchName),
    }
}

/// A letter for what a line asks of a whole record, the record, and its numbers.
fn numbers(line: &[u8]) -> Option<(u8, TextOf, [i32; 3])> {
    match asked(3, &mut [0; 100], line).ok()? {
        TextCall::Dispose(it) => Some((b'x', it, [0, 0, 0])),
        TextCall::Show(it) => Some((b's', it, [0, 0, 0])),
        TextCall::Hide(it) => Some((b'h', it, [0, 0, 0])),
        TextCall::Delete(it) => Some((b'd', it, [0, 0, 0])),
        TextCall::Cut(it) => Some((b'c', it, [0, 0, 0])),
        TextCall::Copy(it) => Some((b'C', it, [0, 0, 0])),
        TextCall::Paste(it) => Some((b'p', it, [0, 0, 0])),
        TextCall::ShowSelection(it) => Some((b'v', it, [0, 0, 0])),
        TextCall::Get(it) => Some((b'g', it, [0, 0, 0])),
        TextCall::Info(it) => Some((b'i', it, [0, 0, 0])),
        TextCall::Key(it) => Some((b'k', it.text, [it.number, 0, 0])),
        TextCall::Idle(it) => Some((b't', it.text, [it.number, 0, 0])),
        TextCall::Justify(it) => Some((b'j', it.text, [it.number, 0, 0])),
        TextCall::Line(it) => Some((b'l', it.text, [it.number, 0, 0])),
        TextCall::PlaceOf(it) => Some((b'P', it.text, [it.number, 0, 0])),
        TextCall::Select(it) => Some((b'S', it.text, [it.start, it.end, 0])),
        TextCall::Scroll(it) => Some((b'r', it.text, [it.columns, it.rows, 0])),
        TextCall::OffsetAt(it) => Some((b'o', it.text, [it.point.h, it.point.v, 0])),
        TextCall::Click(it) => Some((b'm', it.text, [it.point.h, it.point.v, it.mode])),
        TextCall::Activate(it) => Some((b'a', it.text, [i32::from(it.flag), 0, 0])),
        _ => None,
    }
}

/// Lines, and for each its letter, its window, its record and its numbers.
const LINES: [(&[u8], u8, [u64; 2], [i32; 3]); 21] = [
    (b"tdispose 1 2", b'x', [1, 2], [0, 0, 0]),
    (b"tshow -5 70000", b's', [0, 70000], [0, 0, 0]),
    (b"thide 3 4", b'h', [3, 4], [0, 0, 0]),
    (b"tdelete 5 6", b'd', [5, 6], [0, 0, 0]),
    (b"tcut 7 8", b'c', [7, 8], [0, 0, 0]),
    (b"tcopy 7 8", b'C', [7, 8], [0, 0, 0]),
    (b"tpaste 9 -1", b'p', [9, 0], [0, 0, 0]),
    (b"tview 1 1", b'v', [1, 1], [0, 0, 0]),
    (b"tget 1 3", b'g', [1, 3], [0, 0, 0]),
    (b"tinfo 3 1", b'i', [3, 1], [0, 0, 0]),
    (b"tkey 1 2 256", b'k', [1, 2], [256, 0, 0]),
    (b"tidle 1 2 999999999", b't', [1, 2], [999999999, 0, 0]),
    (b"tjust 1 2 -1", b'j', [1, 2], [-1, 0, 0]),
    (b"tline 1 2 -3", b'l', [1, 2], [-3, 0, 0]),
    (b"tpoint 1 2 40000", b'P', [1, 2], [40000, 0, 0]),
    (b"tselect 1 2 -4 5", b'S', [1, 2], [-4, 5, 0]),
    (b"tscroll 2 1 6 -7", b'r', [2, 1], [6, -7, 0]),
    (b"toffset 2 1 -8 90000", b'o', [2, 1], [-8, 90000, 0]),
    (b"tclick 2 1 -8 9 7", b'm', [2, 1], [-8, 9, 7]),
    (b"tactive 2 1 1", b'a', [2, 1], [1, 0, 0]),
    (b"tactive 2 1 0", b'a', [2, 1], [0, 0, 0]),
];

#[test]
fn numbers_of_text_records_are_judged_by_nobody(rt: HostRuntime) {
    for (line, letter, [window, text], wanted) in LINES {
        let text = TextOf { window, text };
        assert!(rt; numbers(line) == Some((letter, text, wanted)));
    }
}

#[test]
fn a_destination_comes_before_its_view(rt: HostRuntime) {
    let mut room = [0; 100];
    let line = b"text 7 -16777216 20000000 30 4 -5 60 7 -1 1";
    let Ok(TextCall::New(new)) = asked(3, &mut room, line) else {
        assert!(rt; false, "no text record");
        return;
    };
    let place = new.place;
    assert!(rt; new.window == 7 && new.justification == -1 && new.wraps);
    assert!(rt; [place.left, place.top, place.width] == [-16777216, 20000000, 30]);
    assert!(rt; place.view == Point { h: 4, v: -5 });
    assert!(rt; [place.view_size.width, place.view_size.height] == [60, 7]);
}

#[test]
fn another_place_has_the_same_words(rt: HostRuntime) {
    let mut room = [0; 100];
    let Ok(TextCall::Place(placed)) = asked(3, &mut room, b"tplace 7 8 1 2 3 4 5 6 9") else {
        assert!(rt; false, "no place");
        return;
    };
    let place = placed.place;
    assert!(rt; placed.text == TextOf { window: 7, text: 8 });
    assert!(rt; [place.left, place.top, place.width] == [1, 2, 3]);
    assert!(rt; place.view == Point { h: 4, v: 5 });
    assert!(rt; [place.view_size.width, place.view_size.height] == [6, 9]);
}

/// A letter for what a line asks with bytes, their length, and the first of them, or 0.
fn bytes(line: &[u8]) -> Option<(u8, usize, u8)> {
    let mut room = [0; 100];
    let (letter, it) = match asked(3, &mut room, line).ok()? {
        TextCall::Set(it) => (b's', it.bytes),
        TextCall::Insert(it) => (b'i', it.bytes),
        TextCall::SetScrap(it) => (b'c', it),
        TextCall::Width(it) => (b'w', it),
        _ => return None,
    };
    let said = it.as_slice();
    Some((letter, said.len(), said.first().copied().unwrap_or(0)))
}

#[test]
fn bytes_are_a_text_or_hex_digits(rt: HostRuntime) {
    assert!(rt; bytes(b"tset 1 2 \"a  1\"") == Some((b's', 4, b'a')));
    assert!(rt; bytes(b"tset 1 2 0dFf") == Some((b's', 2, 13)));
    assert!(rt; bytes(b"tinsert 1 2 \"61\"") == Some((b'i', 2, b'6')));
    assert!(rt; bytes(b"tinsert 1 2 61") == Some((b'i', 1, b'a')));
    assert!(rt; bytes(b"setscrap \"\"") == Some((b'c', 0, 0)));
    assert!(rt; bytes(b"textwidth 2022") == Some((b'w', 2, 32)));
}

/// Lines that have not the form of a command for text records, and one whose first word is none.
const FAULTS: [(&[u8], Refusal); 13] = [
    (b"text 1 0 0 9 0 0 9 9 0", Refusal::BadSyntax),
    (b"text 1 0 0 9 0 0 9 9 0 2", Refusal::BadSyntax),
    (b"tplace 1 2 0 0 9 0 0 9", Refusal::BadSyntax),
    (b"tdispose 1 2 3", Refusal::BadSyntax),
    (b"tset 1 2 text", Refusal::BadSyntax),
    (b"tset 1 2 \"text", Refusal::BadSyntax),
    (b"tset 1 2 612", Refusal::BadSyntax),
    (b"tinsert 1 2 \"a\" 61", Refusal::BadSyntax),
    (b"tactive 1 2 2", Refusal::BadSyntax),
    (b"tstep 1", Refusal::BadSyntax),
    (b"scrap 1", Refusal::BadSyntax),
    (b"fontinfo 1", Refusal::BadSyntax),
    (b"tsets 1 2 \"\"", Refusal::NoSuchName),
];

#[test]
fn lines_of_another_form_are_refused(rt: HostRuntime) {
    for (line, refusal) in FAULTS {
        assert!(rt; asked(3, &mut [0; 100], line).err() == Some(refusal));
    }
}

#[test]
fn text_records_are_of_version_3(rt: HostRuntime) {
    for (line, ..) in LINES {
        assert!(rt; asked(2, &mut [0; 100], line).err() == Some(Refusal::NoSuchName));
    }
    for line in [b"scrap".as_slice(), b"fontinfo", b"tstep 1 2", b"tend 1 2"] {
        assert!(rt; asked(2, &mut [0; 100], line).err() == Some(Refusal::NoSuchName));
        assert!(rt; asked(3, &mut [0; 100], line).is_ok());
    }
}

/// The line of a reply about text records.
fn line_of(rt: HostRuntime, reply: &TextReply) -> Result<Vec<u8>, Fail> {
    let mut text = Vec::new(rt.alloc());
    write_text_reply(&mut WatchedWriter::new(&mut text), reply)?;
    Ok(text)
}

#[test]
fn a_reply_about_text_records_is_one_line(rt: HostRuntime) -> Result<(), Fail> {
    let place = Point {
        h: -2147483648,
        v: 2147483647,
    };
    let info = TextInfo {
        start: 1,
        end: 32000,
        active: true,
        shown: false,
        length: 32000,
        lines: 32001,
        left: -16777216,
        top: 7,
    };
    let lines: [(TextReply, &[u8]); 10] = [
        (TextReply::Done, b"ok\n"),
        (TextReply::Text(u64::MAX), b"ok 18446744073709551615\n"),
        (TextReply::Opened(true), b"ok 1\n"),
        (TextReply::Opened(false), b"ok 0\n"),
        (TextReply::Offsets(3, 65535), b"ok 3 65535\n"),
        (
            TextReply::Info(info),
            b"ok 1 32000 1 0 32000 32001 -16777216 7\n",
        ),
        (TextReply::Place(place), b"ok -2147483648 2147483647\n"),
        (TextReply::Offset(9), b"ok 9\n"),
        (TextReply::Width(4294967295), b"ok 4294967295\n"),
        (TextReply::Font(7, 1, 2), b"ok 7 1 2\n"),
    ];
    for (reply, line) in &lines {
        assert!(rt; line_of(rt, reply)?.as_slice() == *line);
    }
    Ok(())
}

/// The line of these bytes.
fn told(rt: HostRuntime, bytes: &[u8]) -> Result<Vec<u8>, Fail> {
    let mut copied = Vec::new(rt.alloc());
    copied.extend_from_slice(bytes)?;
    line_of(rt, &TextReply::Bytes(copied))
}

#[test]
fn bytes_are_told_as_a_text_where_they_can_be_one(rt: HostRuntime) -> Result<(), Fail> {
    let lines: [(&[u8], &[u8]); 6] = [
        (b"", b"ok \"\"\n"),
        (b" a~", b"ok \" a~\"\n"),
        (b"a\"", b"ok 6122\n"),
        (b"a\r", b"ok 610D\n"),
        (b"\x7f", b"ok 7F\n"),
        (b"\xab\x00", b"ok AB00\n"),
    ];
    for (bytes, line) in lines {
        assert!(rt; told(rt, bytes)?.as_slice() == line);
    }
    Ok(())
}
