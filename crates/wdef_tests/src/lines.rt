//! The lines of the outline that stands for a window while its size is chosen.

use def_iface::{NO_LINE, Size, WindowDef};
use std_wdef::{NotchedWindow, StdWindow, Variation};
use tb_geom::{Point, Rect};
use test_pixels::{point, rect};

const SIZE: Size = Size {
    width: 60,
    height: 30,
};

const SMALL: Size = Size {
    width: 3,
    height: 2,
};

/// Whether one of the lines has each of the first points, and none of them one of the second.
fn have(lines: &[Rect; 8], with: &[Point], without: &[Point]) -> bool {
    with.iter().all(|p| has(lines, *p)) && !without.iter().any(|p| has(lines, *p))
}

fn has(lines: &[Rect; 8], point: Point) -> bool {
    lines.iter().any(|line| line.contains(point))
}

#[test]
fn a_document_shows_its_frame_and_its_size_box(rt: HostRuntime) {
    let lines = StdWindow::new(Variation::Document).grow_lines(SIZE);
    assert!(rt; lines[0] == rect!(-1, -19, 61, -18));
    assert!(rt; lines[1] == rect!(-1, 30, 61, 31));
    assert!(rt; lines[2] == rect!(-1, -18, 0, 30));
    assert!(rt; lines[3] == rect!(60, -18, 61, 30));
    assert!(rt; lines[4] == rect!(45, 0, 46, 30));
    assert!(rt; lines[5] == rect!(0, 15, 45, 16));
    assert!(rt; lines[6] == rect!(46, 15, 60, 16));
    assert!(rt; lines[7] == NO_LINE);
    let zoom = StdWindow::new(Variation::Zoom).grow_lines(SIZE);
    assert!(rt; zoom[4] == rect!(45, 0, 46, 30));
    let plain = StdWindow::new(Variation::NoGrow).grow_lines(SIZE);
    assert!(rt; plain[3] == rect!(60, -18, 61, 30));
    assert!(rt; plain[4] == NO_LINE);
}

#[test]
fn a_document_too_narrow_for_its_size_box_shows_no_column(rt: HostRuntime) {
    let narrow = Size {
        width: 10,
        height: 30,
    };
    let lines = StdWindow::new(Variation::Document).grow_lines(narrow);
    let row = [point!(0, 15), point!(9, 15)];
    let none = [point!(0, 0), point!(0, 14), point!(9, 16), point!(9, 29)];
    assert!(rt; have(&lines, &row, &none));
}

#[test]
fn other_kinds_show_the_box_of_their_pixels(rt: HostRuntime) {
    let dialog = StdWindow::new(Variation::Dialog).grow_lines(SMALL);
    let corners = [point!(-8, -8), point!(10, -8), point!(-8, 9), point!(10, 9)];
    assert!(rt;
        have(
            &dialog,
            &corners,
            &[point!(-7, -7), point!(9, 8), point!(-9, 0)]
        )
    );
    let shadow = StdWindow::new(Variation::Shadow).grow_lines(SMALL);
    assert!(rt;
        have(
            &shadow,
            &[point!(-1, 4), point!(5, -1)],
            &[point!(4, 3), point!(6, 0)]
        )
    );
    let plain = StdWindow::new(Variation::Plain).grow_lines(SMALL);
    assert!(rt;
        have(
            &plain,
            &[point!(3, 0), point!(3, 2)],
            &[point!(2, 1), point!(4, 0)]
        )
    );
    let notched = NotchedWindow::new().grow_lines(SMALL);
    assert!(rt;
        have(
            &notched,
            &[point!(3, -1), point!(3, 2)],
            &[point!(2, 0), point!(4, 0)]
        )
    );
}
