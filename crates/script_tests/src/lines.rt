//! Replies with numbers that no script has.
use crate::paper::Paper;
use desk_call::{Choice, Found, MenuReply, Reply, WindowPart, WindowReply};
use script_text::write_reply;
use watched_io::WatchedWriter;

/// The largest item of a menu that a reply can name.
const LAST: Choice = Choice {
    menu: u16::MAX,
    item: u8::MAX,
};

/// The part of a window with the largest number that a window can have.
const FOUND: Found = Found {
    part: WindowPart::InZoomOut,
    window: Some(u64::MAX),
};

#[test]
fn the_largest_numbers_are_one_write(rt: HostRuntime) {
    let lines: [(Reply, &[u8]); 3] = [
        (
            Reply::Window(WindowReply::Made(u64::MAX)),
            b"ok 18446744073709551615\n",
        ),
        (
            Reply::Window(WindowReply::Found(FOUND)),
            b"ok 8 18446744073709551615\n",
        ),
        (
            Reply::Menu(MenuReply::Chosen(Some(LAST))),
            b"ok 65535 255\n",
        ),
    ];
    for (reply, line) in lines {
        let mut paper = Paper {
            text: Vec::new(rt.alloc()),
            piece: 100,
            writes_left: 1,
        };
        assert!(rt; write_reply(&mut WatchedWriter::new(&mut paper), &Ok(reply)) == Ok(()));
        assert!(rt; paper.text.as_slice() == line);
    }
}
