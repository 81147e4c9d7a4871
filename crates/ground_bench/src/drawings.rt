//! Drawings on a map of 512 by 342.

use crate::sums::plus;
use bit_blit::{fill, shift};
use bit_map::{BitMap, Mode, Pattern};
use draw_port::{Bytes, Canvas, Cut, Op, RowsOfBits, Shade, Shape};
use scan_region::Region;
use shape_region::oval_region;
use std::alloc::Global;
use strike_font::Font;
use tb_geom::{Point, Rect, Refusal};
use test_pixels::images::NOTHING_CUT;
use test_pixels::rect;

/// The whole map.
const SCREEN: Rect = rect!(0, 0, 512, 342);

/// A text of 40 characters.
const TEXT: &[u8] = b"The quick brown fox jumps over lazy dogs";

/// A number that tells black pixels apart by their places.
fn sum_of_pixels(map: &BitMap) -> u32 {
    let bounds = map.bounds();
    let mut sum: u32 = 0;
    for v in bounds.top..bounds.bottom {
        for h in bounds.left..bounds.right {
            let point = Point { h, v };
            if map.bounds().contains(point) && map.get(point) {
                let place = v.wrapping_mul(bounds.right).wrapping_add(h);
                sum = plus(sum, place);
            }
        }
    }
    sum
}

/// Shifts all pixels by one column. Every fourth column is black at first.
pub fn shift_all(alloc: Global, rounds: u32) -> Result<u32, Refusal> {
    let mut map = BitMap::new(alloc, 512, 342)?;
    let all = Region::from_rect(alloc, SCREEN)?;
    let pattern = Pattern { rows: [0x88; 8] };
    fill(&mut map, &all, Point { h: 0, v: 0 }, pattern, Mode::Copy);
    for _ in 0..rounds {
        shift(&mut map, &all, Point { h: 1, v: 0 });
    }
    Ok(sum_of_pixels(&map))
}

/// What is drawn, on a canvas.
trait Drawing {
    fn draw(&self, canvas: &mut Canvas<'_>);
}

/// Draws on a canvas that a cut bounds.
fn draw_on<D: Drawing>(
    alloc: Global,
    cut: &Cut<'_>,
    drawing: &D,
    rounds: u32,
) -> Result<u32, Refusal> {
    let mut map = BitMap::new(alloc, 512, 342)?;
    let font = Font::built_in(alloc)?;
    let mut canvas = Canvas {
        map: &mut map,
        clip: SCREEN,
        origin: Point { h: 0, v: 0 },
        cut,
        font: &font,
    };
    for _ in 0..rounds {
        drawing.draw(&mut canvas);
    }
    Ok(sum_of_pixels(&map))
}

struct Letters;

impl Drawing for Letters {
    fn draw(&self, canvas: &mut Canvas<'_>) {
        canvas.text(TEXT, Point { h: 10, v: 100 }, Mode::Xor);
    }
}

struct GrayScreen;

impl Drawing for GrayScreen {
    fn draw(&self, canvas: &mut Canvas<'_>) {
        canvas.fill(SCREEN, Pattern::GRAY, Mode::Xor);
    }
}

/// Draws a text of 40 characters of the built-in font on a canvas that nothing cuts.
pub fn draw_text(alloc: Global, rounds: u32) -> Result<u32, Refusal> {
    draw_on(alloc, &NOTHING_CUT, &Letters, rounds)
}

/// Fills all pixels with gray.
pub fn fill_all(alloc: Global, rounds: u32) -> Result<u32, Refusal> {
    draw_on(alloc, &NOTHING_CUT, &GrayScreen, rounds)
}

/// Fills with gray what two rectangles share and a third leaves of that.
pub fn fill_cut(alloc: Global, rounds: u32) -> Result<u32, Refusal> {
    let first = Region::from_rect(alloc, rect!(20, 10, 300, 200))?;
    let second = Region::from_rect(alloc, rect!(100, 50, 500, 340))?;
    let hole = Region::from_rect(alloc, rect!(150, 80, 220, 160))?;
    let cut = Cut {
        inside: [Some(&first), Some(&second), None],
        outside: Some(&hole),
    };
    draw_on(alloc, &cut, &GrayScreen, rounds)
}

#[derive(Drop)]
struct Painted {
    op: Op,
}

impl Drawing for Painted {
    fn draw(&self, canvas: &mut Canvas<'_>) {
        canvas.paint(&self.op);
    }
}

/// Turns each pixel at which the gray pattern is black.
const TURNED: Shade = Shade {
    pattern: Pattern::GRAY,
    mode: Mode::Xor,
};

/// Paints an operation on a canvas that nothing cuts.
fn paint(alloc: Global, op: Op, rounds: u32) -> Result<u32, Refusal> {
    draw_on(alloc, &NOTHING_CUT, &Painted { op }, rounds)
}

/// Draws the frame of a rectangle of 160 by 100 with gray.
pub fn draw_frame(alloc: Global, rounds: u32) -> Result<u32, Refusal> {
    let op = Op {
        clip: None,
        shape: Shape::Frame(rect!(43, 30, 203, 130), TURNED),
    };
    paint(alloc, op, rounds)
}

/// Draws an image of 160 by 100.
pub fn draw_image(alloc: Global, rounds: u32) -> Result<u32, Refusal> {
    let op = Op {
        clip: None,
        shape: Shape::Bits(RowsOfBits {
            place: Point { h: 43, v: 30 },
            width: 160,
            height: 100,
            mode: Mode::Xor,
            rows: Bytes::new(alloc, &[0xB2; 2000])?,
        }),
    };
    paint(alloc, op, rounds)
}

/// Fills the region of an oval of 200 by 120 with gray.
pub fn fill_oval(alloc: Global, rounds: u32) -> Result<u32, Refusal> {
    let region = oval_region(alloc, rect!(40, 30, 240, 150))?;
    let op = Op {
        clip: None,
        shape: Shape::FillRgn(region, TURNED),
    };
    paint(alloc, op, rounds)
}

/// Fills what a clip of two rectangles leaves of one of 160 by 100 with gray.
pub fn fill_clipped(alloc: Global, rounds: u32) -> Result<u32, Refusal> {
    let first = Region::from_rect(alloc, rect!(60, 40, 150, 100))?;
    let second = Region::from_rect(alloc, rect!(120, 80, 260, 200))?;
    let op = Op {
        clip: Some(first.union(alloc, &second)?),
        shape: Shape::Fill(rect!(43, 30, 203, 130), TURNED),
    };
    paint(alloc, op, rounds)
}
