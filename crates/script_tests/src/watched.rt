//! What no clause says of `send`, `send_all` and `read_to_end`: that a writer which takes any bytes is given all of them,
//! that a reader which gives its bytes in any pieces is read whole, in how many writes and reads, and where each stops.
use crate::paper::Paper;
use crate::script::Script;
use std::test::Fail;
use tb_geom::Refusal;
use watched_io::{WatchedReader, WatchedWriter, read_to_end, send, send_all};

/// 21 bytes.
const LINE: &[u8] = b"refused 8 OutOfRange\n";

#[test]
fn a_line_goes_out_up_to_a_fault(rt: HostRuntime) {
    // As many bytes as go at a write, how many writes there are, and how many bytes are written. None is left.
    let cases: [(usize, usize, usize); 9] = [
        (1, 21, 21),
        (2, 11, 21),
        (20, 2, 21),
        (21, 1, 21),
        (100, 1, 21),
        (4, 0, 0),
        (4, 1, 4),
        (4, 5, 20),
        (0, 1, 0),
    ];
    for (piece, writes_left, count) in cases {
        let mut paper = Paper {
            text: Vec::new(rt.alloc()),
            piece,
            writes_left,
        };
        let outcome = send(&mut WatchedWriter::new(&mut paper), LINE);
        let whole = if count == 21 {
            Ok(())
        } else {
            Err(Refusal::WriteFault)
        };
        assert!(rt; outcome == whole);
        assert!(rt; paper.writes_left == 0);
        assert!(rt; paper.text.len() == count && LINE.starts_with(&paper.text));
    }
}

#[test]
fn pieces_go_out_together_up_to_64_bytes(rt: HostRuntime) {
    // The second of three pieces, how many writes they take, and what is written.
    let cases: [(&[u8], usize, &[u8]); 3] = [
        (b"", 1, b"refused 8 OutOfRange\nrefused 8 OutOfRange\n"),
        (
            b"0123456789012345678901",
            1,
            b"refused 8 OutOfRange\n0123456789012345678901refused 8 OutOfRange\n",
        ),
        (
            b"01234567890123456789012",
            3,
            b"refused 8 OutOfRange\n01234567890123456789012refused 8 OutOfRange\n",
        ),
    ];
    for (second, writes_left, whole) in cases {
        let mut paper = Paper {
            text: Vec::new(rt.alloc()),
            piece: 100,
            writes_left,
        };
        let pieces = [LINE, second, LINE];
        assert!(rt; send_all(&mut WatchedWriter::new(&mut paper), &pieces) == Ok(()));
        assert!(rt; paper.text.as_slice() == whole);
        assert!(rt; paper.writes_left == 0);
    }
}

#[test]
fn a_reader_is_read_to_its_end_or_a_fault(rt: HostRuntime) -> Result<(), Fail> {
    let mut bytes = Vec::new(rt.alloc());
    for at in 0..1_000_000usize {
        bytes.push((at % 251) as u8)?;
    }
    // How many bytes there are, as many as come at a read, how many reads there are, how many are left, and whether it is
    // read whole.
    let cases: [(usize, usize, u32, u32, bool); 14] = [
        (0, 1, 1, 0, true),
        (5, 1, 6, 0, true),
        (4096, 4096, 2, 0, true),
        (4097, 5000, 3, 0, true),
        (9000, 4096, 4, 0, true),
        (9000, 1000, 10, 0, true),
        (999_999, 1, 1_000_001, 1, true),
        (1_000_000, 1, 1_000_001, 1, false),
        (5, 1, 0, 0, false),
        (5, 1, 1, 0, false),
        (5, 1, 2, 0, false),
        (5, 1, 3, 0, false),
        (5, 1, 4, 0, false),
        (5, 1, 5, 0, false),
    ];
    for (length, piece, reads_left, left, is_whole) in cases {
        assert!(rt; length <= bytes.len());
        let rest = &bytes[..length];
        let mut script = Script {
            rest,
            piece,
            reads_left,
        };
        let outcome = read_to_end(rt.alloc(), &mut WatchedReader::new(&mut script), usize::MAX);
        assert!(rt; script.reads_left == left);
        if is_whole {
            assert!(rt; outcome?.as_slice() == rest);
        } else {
            assert!(rt; outcome == Err(Refusal::ReadFault));
        }
    }
    Ok(())
}
