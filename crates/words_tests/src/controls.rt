//! Lines that ask something about controls, and what is answered about them.

use command_words::{Verb, verb_of};
use control_values::{ControlPart, ControlValues, Highlight};
use desk_call::{ControlCall, ControlInfo, ControlOf, ControlReply, FoundControl};
use line_words::Words;
use reply_lines::write_control_reply;
use std::test::Fail;
use tb_geom::{Point, Refusal};
use watched_io::WatchedWriter;

/// What a line of at most 100 bytes asks about controls, which is read from the room.
fn asked<'a>(room: &'a mut [u8; 100], line: &[u8]) -> Result<ControlCall<'a>, Refusal> {
    let Some(bytes) = room.get_mut(..line.len()) else {
        return Err(Refusal::TooLong);
    };
    bytes.copy_from_slice(line);
    let (word, words) = Words::new(bytes).word()?;
    match verb_of(1, word.as_slice()) {
        Some(Verb::Control(verb)) => verb.call(words),
        _ => Err(Refusal::NoSuchName),
    }
}

/// A letter for what a line asks of one control, the control, and its numbers.
fn numbers(line: &[u8]) -> Option<(u8, ControlOf, [i32; 2])> {
    match asked(&mut [0; 100], line).ok()? {
        ControlCall::Dispose(it) => Some((b'x', it, [0, 0])),
        ControlCall::Show(it) => Some((b's', it, [0, 0])),
        ControlCall::Hide(it) => Some((b'h', it, [0, 0])),
        ControlCall::Move(it) => Some((b'm', it.control, [it.place.h, it.place.v])),
        ControlCall::Size(it) => Some((b'z', it.control, [it.size.width, it.size.height])),
        ControlCall::SetValue(it) => Some((b'v', it.control, [it.number, 0])),
        ControlCall::SetMinimum(it) => Some((b'i', it.control, [it.number, 0])),
        ControlCall::SetMaximum(it) => Some((b'a', it.control, [it.number, 0])),
        ControlCall::Hilite(it) => Some((b'l', it.control, [it.number, 0])),
        ControlCall::Get(it) => Some((b'g', it, [0, 0])),
        ControlCall::Test(it) => Some((b't', it.control, [it.point.h, it.point.v])),
        ControlCall::Track(it) => Some((b'k', it.control, [it.point.h, it.point.v])),
        _ => None,
    }
}

/// Lines, and for each its letter, its window, its control and its numbers.
const LINES: [(&[u8], u8, [u64; 2], [i32; 2]); 12] = [
    (b"cdispose 1 2", b'x', [1, 2], [0, 0]),
    (b"cshow -5 70000", b's', [0, 70000], [0, 0]),
    (b"chide 999999999 -1", b'h', [999999999, 0], [0, 0]),
    (b"cmove 1 2 -99999 4", b'm', [1, 2], [-99999, 4]),
    (b"csize 3 4 0 -7", b'z', [3, 4], [0, -7]),
    (b"cvalue 3 4 -32769", b'v', [3, 4], [-32769, 0]),
    (b"cmin 5 6 33", b'i', [5, 6], [33, 0]),
    (b"cmax 5 6 4", b'a', [5, 6], [4, 0]),
    (b"chilite 1 2 254", b'l', [1, 2], [254, 0]),
    (b"cget 8 9", b'g', [8, 9], [0, 0]),
    (b"ctest 1 2 -3 40000", b't', [1, 2], [-3, 40000]),
    (b"ctrack 2 1 5 30", b'k', [2, 1], [5, 30]),
];

#[test]
fn numbers_of_controls_are_judged_by_nobody(rt: HostRuntime) {
    for (line, letter, [window, control], wanted) in LINES {
        let control = ControlOf { window, control };
        assert!(rt; numbers(line) == Some((letter, control, wanted)));
    }
}

/// A letter for where the mouse is, the window, if one is named, and the point.
fn mouse(line: &[u8]) -> Option<(u8, u64, Point)> {
    match asked(&mut [0; 100], line).ok()? {
        ControlCall::Find(it) => Some((b'f', it.window, it.point)),
        ControlCall::Step(point) => Some((b's', 0, point)),
        ControlCall::End(point) => Some((b'e', 0, point)),
        _ => None,
    }
}

#[test]
fn points_are_a_column_and_a_row(rt: HostRuntime) {
    let far = Point { h: 99999, v: -4 };
    assert!(rt; mouse(b"findc 6 99999 -4") == Some((b'f', 6, far)));
    assert!(rt; mouse(b"ctstep 99999 -4") == Some((b's', 0, far)));
    assert!(rt; mouse(b"ctend 99999 -4") == Some((b'e', 0, far)));
    assert!(rt; asked(&mut [0; 100], b"ctstep 1").err() == Some(Refusal::BadSyntax));
    assert!(rt; asked(&mut [0; 100], b"cget 1 2 3").err() == Some(Refusal::BadSyntax));
    assert!(rt; asked(&mut [0; 100], b"cshowx 1 2").err() == Some(Refusal::NoSuchName));
}

#[test]
fn texts_of_controls_are_lent_as_they_stand(rt: HostRuntime) {
    let mut room = [0; 100];
    let line = b"control 7 Az09 -1 2 300 4 0 5 -6 70 \"a  1\"";
    let Ok(ControlCall::New(new)) = asked(&mut room, line) else {
        assert!(rt; false, "no control");
        return;
    };
    assert!(rt; new.window == 7 && !new.shown && new.kind.as_slice() == b"Az09".as_slice());
    let (place, size) = (new.place, new.size);
    assert!(rt; [place.h, place.v, size.width, size.height] == [-1, 2, 300, 4]);
    assert!(rt; [new.minimum, new.maximum, new.value] == [5, -6, 70]);
    assert!(rt; new.title.as_slice() == b"a  1".as_slice());
    let Ok(ControlCall::SetTitle(it)) = asked(&mut room, b"ctitle 2 3 \"\"") else {
        assert!(rt; false, "no title");
        return;
    };
    assert!(rt;
        [it.control.window, it.control.control] == [2, 3] && it.title.as_slice().is_empty()
    );
}

#[test]
fn a_reply_about_controls_is_one_line(rt: HostRuntime) -> Result<(), Fail> {
    let info = ControlInfo {
        values: ControlValues::new(-32768, 32767, -1)?,
        highlight: Highlight::inactive(),
        shown: true,
    };
    let found = FoundControl {
        part: ControlPart::Thumb,
        control: u64::MAX,
    };
    let lines: [(ControlReply, &[u8]); 7] = [
        (ControlReply::Done, b"ok\n"),
        (ControlReply::Made(64), b"ok 64\n"),
        (ControlReply::Info(info), b"ok -1 -32768 32767 255 1\n"),
        (ControlReply::Found(None), b"ok 0 0\n"),
        (
            ControlReply::Found(Some(found)),
            b"ok 129 18446744073709551615\n",
        ),
        (ControlReply::Part(None), b"ok 0\n"),
        (ControlReply::Part(Some(ControlPart::PageDown)), b"ok 23\n"),
    ];
    for (reply, line) in &lines {
        let mut text = Vec::new(rt.alloc());
        write_control_reply(&mut WatchedWriter::new(&mut text), reply)?;
        assert!(rt; text.as_slice() == *line);
    }
    Ok(())
}
