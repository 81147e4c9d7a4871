//! What windows look like.
ghost use Rattle.std.specs.Prelude.{◌≡◌, true};
ghost use Rattle.def_iface.specs.WindowMeaning.{is_fitting};

use crate::place::{ORIGIN, place_of};
use bit_map::BitMap;
use def_iface::{Size, Stage, WindowChange, WindowDef};
use draw_port::{Canvas, Cut};
use std::alloc::Global;
use std::test::Fail;
use std_wdef::{NotchedWindow, RoundWindow, StdWindow, Variation};
use strike_font::Font;
use tb_geom::{Rect, Refusal};
use test_pixels::rect;

/// All pixels.
const NOTHING_CUT: Cut<'static> = Cut {
    inside: [None; 3],
    outside: None,
};

/// A map of 80 by 60 pixels with the window on it.
fn drawn<W: WindowDef>(alloc: Global, window: &W) -> Result<BitMap, Refusal>
    requires live { (W.meaning window.now).stage ≡ Stage.Live }
    requires told { is_fitting (W.meaning window.now) (W.meaning window.now).size ≡ true }
{
    let font = Font::built_in(alloc)?;
    let mut map = BitMap::new(alloc, 80, 60)?;
    let mut canvas = Canvas {
        map: &mut map,
        clip: rect!(0, 0, 80, 60),
        origin: ORIGIN,
        cut: &NOTHING_CUT,
        font: &font,
    };
    window.draw(&mut canvas);
    Ok(map)
}

/// Whether the map is black at each of the first points, and white at each of the second, in the window's coordinates.
fn shows(map: &BitMap, black: &[(i8, i8)], white: &[(i8, i8)]) -> bool {
    black.iter().all(|p| is_black(map, *p)) && !white.iter().any(|p| is_black(map, *p))
}

fn is_black(map: &BitMap, point: (i8, i8)) -> bool {
    let point = place_of(point.0, point.1);
    map.bounds().contains(point) && map.get(point)
}

const SMALL: Size = Size {
    width: 3,
    height: 2,
};

#[test]
fn frames_look_as_their_kinds_do(rt: HostRuntime) -> Result<(), Fail> {
    let alloc = rt.alloc();
    let mut plain = StdWindow::new(Variation::Plain);
    plain.begin();
    plain.told(WindowChange::Resized(SMALL));
    let map = drawn(alloc, &plain)?;
    assert!(rt;
        shows(
            &map,
            &[(-1, -1), (3, 2), (3, 0)],
            &[(-2, -1), (0, 0), (2, 1), (4, 2)]
        )
    );
    let mut shadow = StdWindow::new(Variation::Shadow);
    shadow.begin();
    shadow.told(WindowChange::Resized(SMALL));
    let map = drawn(alloc, &shadow)?;
    assert!(rt; shows(&map, &[(-1, -1), (5, 4)], &[(-2, -1), (6, 4)]));
    let mut dialog = StdWindow::new(Variation::Dialog);
    dialog.begin();
    dialog.told(WindowChange::Resized(SMALL));
    let map = drawn(alloc, &dialog)?;
    assert!(rt;
        shows(
            &map,
            &[(-8, 0), (-5, 0), (-4, 0)],
            &[(-9, 0), (-7, 0), (-6, 0), (-3, 0), (-1, 0)]
        )
    );
    let mut notched = NotchedWindow::new();
    notched.begin();
    notched.told(WindowChange::Resized(SMALL));
    let map = drawn(alloc, &notched)?;
    assert!(rt; shows(&map, &[(-1, -1), (2, 0), (3, 2)], &[(-2, 0), (4, 0)]));
    Ok(())
}

#[test]
fn a_title_stands_on_white_between_the_stripes(rt: HostRuntime) -> Result<(), Fail> {
    let alloc = rt.alloc();
    let mut window = StdWindow::new(Variation::Document);
    window.begin();
    let size = Size {
        width: 60,
        height: 30,
    };
    window.told(WindowChange::Resized(size));
    window.told(WindowChange::Titled(b"A"));
    let map = drawn(alloc, &window)?;
    assert!(rt;
        shows(
            &map,
            &[(27, -11), (29, -13), (29, -9), (0, -1), (45, 20)],
            &[(22, -15), (27, -13), (50, 20)]
        )
    );
    window.told(WindowChange::Highlighted(true));
    window.told(WindowChange::Closable(true));
    let map = drawn(alloc, &window)?;
    assert!(rt;
        shows(
            &map,
            &[(22, -15), (27, -11), (8, -16), (49, 20)],
            &[(0, -15), (22, -14), (24, -15), (10, -10)]
        )
    );
    window.told(WindowChange::Tracked(true));
    let map = drawn(alloc, &window)?;
    assert!(rt; shows(&map, &[(10, -10)], &[(7, -10)]));
    Ok(())
}

#[test]
fn a_rounded_window_is_white_on_black_where_it_is_highlighted(rt: HostRuntime) -> Result<(), Fail> {
    let alloc = rt.alloc();
    let mut window = RoundWindow::new();
    window.begin();
    let size = Size {
        width: 60,
        height: 30,
    };
    window.told(WindowChange::Resized(size));
    window.told(WindowChange::Titled(b"A"));
    let map = drawn(alloc, &window)?;
    assert!(rt;
        shows(
            &map,
            &[(27, -11), (29, -13), (-1, -10), (1, -17), (3, -18), (0, -1)],
            &[(27, -13), (3, -17), (4, -18), (8, -16)]
        )
    );
    window.told(WindowChange::Highlighted(true));
    window.told(WindowChange::Closable(true));
    let map = drawn(alloc, &window)?;
    assert!(rt;
        shows(
            &map,
            &[
                (27, -13),
                (-1, -10),
                (1, -17),
                (2, -17),
                (7, -10),
                (10, -10)
            ],
            &[(27, -11), (29, -13), (8, -16), (18, -6)]
        )
    );
    window.told(WindowChange::Tracked(true));
    let map = drawn(alloc, &window)?;
    assert!(rt; shows(&map, &[(7, -10), (19, -6)], &[(10, -10), (18, -6)]));
    Ok(())
}
