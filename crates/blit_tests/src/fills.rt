//! Fills of a canvas against a loop over all pixels of a map.
ghost use Rattle.std.specs.Prelude.{◌≡◌, true};
ghost use Rattle.draw_port.specs.Origins.{is_near_origin};

use bit_map::{BitMap, Mode};
use draw_port::{Canvas, Cut};
use scan_region::Region;
use std::alloc::Global;
use std::test::Fail;
use strike_font::Font;
use tb_geom::{Point, Rect, Refusal};
use test_pixels::pixels::{Pixels, are_alike, map_of, mark};
use test_pixels::sheet::{MIXED, SHEET, Sheet, inked};
use test_pixels::small::SMALL;
use test_pixels::{point, rect};

/// The cut by these regions.
fn cut<'a>(
    first: Option<&'a Region>,
    second: Option<&'a Region>,
    third: Option<&'a Region>,
    outside: Option<&'a Region>,
) -> Cut<'a> {
    Cut {
        inside: [first, second, third],
        outside,
    }
}

/// Three rectangles that cut from inside, and one that cuts from outside.
const ZONES: [Rect; 4] = [
    rect!(2, 1, 10, 9),
    rect!(-3, 4, 7, 30),
    rect!(1, -8, 20, 10),
    rect!(4, 3, 6, 6),
];

/// A fill with the mixed pattern of a rectangle, or of all of the canvas, under a cut by those of the zones that are
/// marked.
#[derive(Clone, Copy)]
struct Filling {
    clip: Rect,
    origin: Point,
    cut: [bool; 4],
    sides: Option<Rect>,
    mode: Mode,
}

/// Whether the rectangle has the pixel.
fn has(sides: Rect, h: i64, v: i64) -> bool {
    i64::from(sides.left) <= h
        && h < i64::from(sides.right)
        && i64::from(sides.top) <= v
        && v < i64::from(sides.bottom)
}

impl Filling {
    /// Whether the fill reaches the pixel of the map.
    fn reaches(&self, point: Point) -> bool {
        let (h, v) = (i64::from(point.h), i64::from(point.v));
        let own_h = h - i64::from(self.origin.h);
        let own_v = v - i64::from(self.origin.v);
        let is_filled = match self.sides {
            Some(sides) => has(sides, own_h, own_v),
            None => true,
        };
        is_filled && has(self.clip, h, v) && is_left(self.cut, h, v)
    }

    /// The sheet, filled under the cut.
    fn map(&self, alloc: Global, font: &Font, cut: &Cut<'_>) -> Result<BitMap, Refusal>
        requires { is_near_origin self.now.origin ≡ true }
    {
        let mut map = map_of(alloc, &Sheet, 13, 11)?;
        let mut canvas = Canvas {
            map: &mut map,
            clip: self.clip,
            origin: self.origin,
            cut,
            font,
        };
        match self.sides {
            Some(sides) => canvas.fill(sides, MIXED, self.mode),
            None => canvas.fill_all(MIXED, self.mode),
        }
        Ok(map)
    }
}

/// Whether a canvas may have its 0 0 here.
fn is_near(origin: Point) -> bool
    ensures { result ≡ is_near_origin origin }
{
    (-1000000000 <= origin.h && origin.h < 1000000000)
        && (-1000000000 <= origin.v && origin.v < 1000000000)
}

/// Whether a cut by the marked zones leaves the pixel.
fn is_left([first, second, third, hole]: [bool; 4], h: i64, v: i64) -> bool {
    (!first || has(ZONES[0], h, v))
        && (!second || has(ZONES[1], h, v))
        && (!third || has(ZONES[2], h, v))
        && !(hole && has(ZONES[3], h, v))
}

impl Pixels for Filling {
    fn byte(&self, point: Point) -> u8 {
        if self.reaches(point) {
            mark(inked(self.origin, self.mode, point))
        } else {
            Sheet.byte(point)
        }
    }
}

const WHOLE: Rect = rect!(-5, -5, 40, 40);

/// A clip, where the canvas's origin lies, and the zones that cut.
const CUTS: [(Rect, Point, [bool; 4]); 7] = [
    (WHOLE, point!(0, 0), [false, false, false, false]),
    (
        rect!(1, 2, 9, 10),
        point!(3, -2),
        [false, false, false, false],
    ),
    (WHOLE, point!(-7, 5), [true, false, false, false]),
    (WHOLE, point!(3, 3), [false, true, true, false]),
    (WHOLE, point!(2, 1), [true, false, true, true]),
    (
        rect!(3, 0, 13, 8),
        point!(1, 1),
        [false, false, false, true],
    ),
    (
        WHOLE,
        point!(-1000000000, 999999999),
        [true, true, true, true],
    ),
];

/// What is filled of the canvas, in its own coordinates, and how.
const FILLS: [(Option<Rect>, Mode); 8] = [
    (Some(rect!(0, 0, 8, 7)), Mode::Copy),
    (Some(rect!(-9, -9, 90, 90)), Mode::Copy),
    (Some(rect!(3, 2, 3, 9)), Mode::Copy),
    (None, Mode::Copy),
    (Some(rect!(0, 0, 8, 7)), Mode::Xor),
    (Some(rect!(-9, -9, 90, 90)), Mode::Xor),
    (Some(rect!(3, 2, 3, 9)), Mode::Xor),
    (None, Mode::Xor),
];

/// The region, if it is to cut.
fn part(is_marked: bool, region: &Region) -> Option<&Region> {
    if is_marked { Some(region) } else { None }
}

#[test]
fn fills_as_a_loop_over_all_pixels(rt: HostRuntime) -> Result<(), Fail> {
    let font = Font::from_bytes(rt.alloc(), &SMALL)?;
    let first = Region::from_rect(rt.alloc(), ZONES[0])?;
    let second = Region::from_rect(rt.alloc(), ZONES[1])?;
    let third = Region::from_rect(rt.alloc(), ZONES[2])?;
    let hole = Region::from_rect(rt.alloc(), ZONES[3])?;
    for (clip, origin, marks) in CUTS {
        let [a, b, c, d] = marks;
        let cut = cut(
            part(a, &first),
            part(b, &second),
            part(c, &third),
            part(d, &hole),
        );
        assert!(rt; cut.holds(point!(4, 4)) == !d);
        for (sides, mode) in FILLS {
            let filling = Filling {
                clip,
                origin,
                cut: marks,
                sides,
                mode,
            };
            assert!(rt; is_near(filling.origin));
            let map = filling.map(rt.alloc(), &font, &cut)?;
            assert!(rt; are_alike(&map, &filling, SHEET));
        }
    }
    Ok(())
}
