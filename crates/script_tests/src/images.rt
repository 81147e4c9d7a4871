//! Images of sizes that no screen has, against bytes written by hand.
use crate::paper::Paper;
use bit_map::BitMap;
use screen_pbm::{write_p1, write_p4};
use std::test::Fail;
use tb_geom::Point;
use watched_io::WatchedWriter;

#[test]
fn an_image_is_its_head_and_its_rows(rt: HostRuntime) -> Result<(), Fail> {
    // The size, the plain image and the raw one. The pixel in column 2 of the first row is black, where there is one.
    let cases: [(i32, i32, &[u8], &[u8]); 6] = [
        (0, 0, b"P1\n0 0\n", b"P4\n0 0\n"),
        (0, 3, b"P1\n0 3\n", b"P4\n0 3\n"),
        (3, 0, b"P1\n3 0\n", b"P4\n3 0\n"),
        (1, 1, b"P1\n1 1\n0\n", b"P4\n1 1\n\x00"),
        (3, 1, b"P1\n3 1\n001\n", b"P4\n3 1\n\x20"),
        (3, 2, b"P1\n3 2\n001\n000\n", b"P4\n3 2\n\x20\x00"),
    ];
    let black = Point { h: 2, v: 0 };
    for (width, height, plain, raw) in cases {
        let mut map = BitMap::new(rt.alloc(), width, height)?;
        if map.bounds().contains(black) {
            map.set(black, true);
        }
        assert!(rt; map.bounds().right <= 1024);
        // A write for the head, and where there are pixels one for each plain row, and one for all raw ones.
        let rows = if width == 0 { 0 } else { height as usize };
        for (image, is_raw) in [(plain, false), (raw, true)] {
            let mut paper = Paper {
                text: Vec::new(rt.alloc()),
                piece: 100,
                writes_left: 1 + if is_raw { rows.min(1) } else { rows },
            };
            let mut sink = WatchedWriter::new(&mut paper);
            let outcome = if is_raw {
                write_p4(&mut sink, &map)
            } else {
                write_p1(&mut sink, &map)
            };
            assert!(rt; outcome == Ok(()));
            assert!(rt; paper.text.as_slice() == image);
            assert!(rt; paper.writes_left == 0);
        }
    }
    Ok(())
}

#[test]
fn raw_rows_go_out_4096_bytes_at_a_time(rt: HostRuntime) -> Result<(), Fail> {
    let mut map = BitMap::new(rt.alloc(), 1024, 33)?;
    for black in [Point { h: 1, v: 31 }, Point { h: 2, v: 32 }] {
        assert!(rt; map.bounds().contains(black));
        map.set(black, true);
    }
    assert!(rt; map.bounds().right <= 1024);
    // A write for the head, one for 32 rows of 128 bytes, and one for the last row.
    let mut paper = Paper {
        text: Vec::new(rt.alloc()),
        piece: 4096,
        writes_left: 3,
    };
    let outcome = write_p4(&mut WatchedWriter::new(&mut paper), &map);
    assert!(rt; outcome == Ok(()) && paper.writes_left == 0);
    let text = paper.text.as_slice();
    assert!(rt; text.len() == 11 + 33 * 128);
    assert!(rt; &text[..11] == b"P4\n1024 33\n".as_slice());
    assert!(rt; text[11 + 31 * 128] == 0x40 && text[11 + 32 * 128] == 0x20);
    Ok(())
}
