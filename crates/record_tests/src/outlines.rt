//! An outline in front of a base image whose right half is black.
ghost use Rattle.std.specs.Prelude.{◌≡◌, IfOk};

use bit_blit::{Ink, draw_rect};
use bit_map::{BitMap, Mode, Pattern};
use def_iface::frame_lines;
use overlay::{Overlay, draw_outline};
use std::alloc::Global;
use std::test::Fail;
use tb_geom::{Point, Rect, Refusal};
use test_pixels::rect;

/// The rows of the menu bar.
const BAR: i32 = 2;

/// It begins on the menu bar.
const FRAME: Rect = rect!(1, 1, 10, 6);

/// It has two rows, and nothing between them.
const FLAT: Rect = rect!(2, 3, 6, 5);

const BASE: [[u8; 12]; 8] = [*b"......######"; 8];

const FRAMED: [[u8; 12]; 8] = [
    *b"......######",
    *b"......######",
    *b"......######",
    *b".#....###.##",
    *b"......######",
    *b".#.#.##.#.##",
    *b"......######",
    *b"......######",
];

const FLATTENED: [[u8; 12]; 8] = [
    *b"......######",
    *b"......######",
    *b"......######",
    *b"...#.#######",
    *b"..#.#.######",
    *b"......######",
    *b"......######",
    *b"......######",
];

/// The base image.
fn half_black(alloc: Global) -> Result<BitMap, Refusal>
    ensures { IfOk result (λ map. (map.width ≡ 12) × (map.height ≡ 8)) }
{
    let mut map = BitMap::new(alloc, 12, 8)?;
    let black = Ink {
        pattern: Pattern::BLACK,
        offset: Point { h: 0, v: 0 },
        mode: Mode::Copy,
    };
    draw_rect(&mut map, rect!(6, 0, 12, 8), &black);
    Ok(map)
}

/// Whether the pixel is black; one off the map is not.
fn is_black(map: &BitMap, point: Point) -> bool {
    map.bounds().contains(point) && map.get(point)
}

/// Whether the map has these rows, of which `#` is black.
fn shows(map: &BitMap, rows: &[[u8; 12]; 8]) -> bool {
    for (v, row) in rows.iter().enumerate() {
        for (h, dot) in row.iter().enumerate() {
            let point = Point {
                h: h as i32,
                v: v as i32,
            };
            if is_black(map, point) != (*dot == b'#') {
                return false;
            }
        }
    }
    true
}

#[test]
fn an_outline_is_drawn_where_gray_is_black(rt: HostRuntime) -> Result<(), Fail> {
    let mut map = half_black(rt.alloc())?;
    draw_outline(&mut map, BAR, &frame_lines(FRAME));
    assert!(rt; shows(&map, &FRAMED));
    draw_outline(&mut map, BAR, &frame_lines(FRAME));
    assert!(rt; shows(&map, &BASE));
    Ok(())
}

#[test]
fn an_outline_takes_the_place_of_another(rt: HostRuntime) -> Result<(), Fail> {
    let base = half_black(rt.alloc())?;
    let mut overlay = Overlay::new(rt.alloc(), 12, 8)?;
    let (frame, flat) = (frame_lines(FRAME), frame_lines(FLAT));
    overlay.outline(&base, BAR, &frame);
    assert!(rt; shows(overlay.front(), &FRAMED));
    overlay.outline_again(BAR, &frame, &flat);
    assert!(rt; shows(overlay.front(), &FLATTENED));
    Ok(())
}
