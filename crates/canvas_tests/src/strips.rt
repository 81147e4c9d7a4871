//! Strips and rectangles with rounded corners on a canvas.

use bit_map::{BitMap, Mode, Pattern};
use draw_port::Canvas;
use shape_strips::{Corner, InsideStrip, Pen};
use std::test::Fail;
use strike_font::Font;
use test_pixels::images::{NOTHING_CUT, image_of, shows};
use test_pixels::small::SMALL;
use test_pixels::{point, rect};

#[test]
fn rounded_corners_are_drawn_where_the_clip_lets_them(rt: HostRuntime) -> Result<(), Fail> {
    let alloc = rt.alloc();
    let font = Font::from_bytes(alloc, &SMALL)?;
    let mut map = BitMap::new(alloc, 8, 8)?;
    let corner = Corner {
        width: 5,
        height: 5,
    };
    let inside = InsideStrip {
        rect: rect!(0, 0, 8, 8),
        corner,
        pen: Pen {
            width: 2,
            height: 1,
        },
    };
    let mut canvas = Canvas {
        map: &mut map,
        clip: rect!(1, 0, 8, 6),
        origin: point!(0, 1),
        cut: &NOTHING_CUT,
        font: &font,
    };
    canvas.round(rect!(0, 0, 8, 8), corner, Pattern::BLACK, Mode::Copy);
    canvas.strip(&inside, Pattern::BLACK, Mode::Xor);
    let shown = image_of(alloc, &map)?;
    assert!(rt;
        shows(
            &shown,
            "00000000 01111110 01000011 01000011 01000011 01000011 00000000 00000000 "
        )
    );
    Ok(())
}
