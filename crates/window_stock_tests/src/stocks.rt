//! Sizes, and definitions in a stock and out of it.
ghost use Rattle.std.specs.Prelude.{◌≡◌, true};
ghost use Rattle.def_iface.specs.WindowMeaning.{is_fitting};

use def_iface::{
    Defined, Hit, Size, Stage, TakenWindow, WindowDef, WindowRegions, WindowStock, put_away,
};
use draw_port::{Canvas, Cut};
use scan_region::Region;
use std::alloc::Global;
use std::test::Fail;
use std_wdef::{StdWindow, Variation};
use strike_font::Font;
use tb_geom::{Point, Rect, Refusal};
use test_pixels::pixels::{Pixels, map_of, mark, picture};
use test_pixels::{point, rect};
use titled_window::Titled;

/// Sizes, and whether a window may have them.
const SIZES: [(i32, i32, bool); 9] = [
    (1, 1, true),
    (16383, 16383, true),
    (1, 16383, true),
    (0, 5, false),
    (5, 0, false),
    (16384, 5, false),
    (5, 16384, false),
    (-1, 5, false),
    (5, i32::MIN, false),
];

#[test]
fn sizes_end_where_coordinates_do(rt: HostRuntime) {
    for (width, height, in_range) in SIZES {
        let size = Size { width, height };
        assert!(rt; size.is_in_range() == in_range);
        assert!(rt; size.rect() == rect!(0, 0, width, height));
    }
}

const SIZE: Size = Size {
    width: 3,
    height: 2,
};

/// The box of a titled window of that size.
const TITLED: Rect = rect!(-1, -4, 4, 3);

/// The box of a plain one.
const PLAIN: Rect = rect!(-1, -1, 4, 3);

#[test]
fn a_stock_gives_the_first_fresh_definition_of_a_kind(rt: HostRuntime) -> Result<(), Fail> {
    let alloc = rt.alloc();
    let mut stock = WindowStock::new(alloc);
    assert!(rt; stock.take(b"window").err() == Some(Refusal::NoSuchName));
    let first: Box<dyn WindowDef> = Box::new(alloc, Titled::new())?;
    assert!(rt; stock.add(b"window", first).is_ok());
    let second: Box<dyn WindowDef> = Box::new(alloc, StdWindow::new(Variation::Plain))?;
    assert!(rt; stock.add(b"window", second).is_ok());
    let fresh = stock.take(b"window")?;
    stock.put_back(fresh);
    let mut used = stock.take(b"window")?;
    assert!(rt; SIZE.is_in_range() && used.bounds(SIZE).is_in_range());
    assert!(rt; used.bounds(SIZE) == TITLED);
    used.begin(SIZE, b"", false, false);
    put_away(used, &mut stock);
    let other = stock.take(b"window")?;
    assert!(rt; other.bounds(SIZE) == PLAIN);
    assert!(rt; stock.take(b"window").err() == Some(Refusal::NoDefinition));
    assert!(rt; stock.has(b"window") && !stock.has(b"windo") && !stock.has(b"Window"));
    Ok(())
}

/// The regions of a window: `o` for a pixel of the content, `#` for another of the structure.
#[derive(Drop)]
struct Shown(WindowRegions);

impl Pixels for Shown {
    fn byte(&self, point: Point) -> u8 {
        if self.0.content.contains(point) {
            b'o'
        } else {
            mark(self.0.structure.contains(point))
        }
    }
}

/// The pixels of one value.
#[derive(Drop)]
struct Even(bool);

impl Pixels for Even {
    fn byte(&self, _point: Point) -> u8 {
        mark(self.0)
    }
}

/// The regions of a window of 3 by 2, from -3 -5 on.
const REGIONS: &[u8] = b"\
........\n\
..#####.\n\
..#####.\n\
..#####.\n\
..#####.\n\
..#ooo#.\n\
..#ooo#.\n\
..#####.\n\
........\n";

/// What the window makes of a white map and of a black one of 8 by 9, with its content at 2 4, under a clip that ends
/// before the last column and the last row, and a hole at 3 5.
const DRAWN: [(bool, &[u8]); 2] = [
    (
        false,
        b"\
#######.\n\
#######.\n\
#######.\n\
#######.\n\
##...##.\n\
##...##.\n\
#######.\n\
#######.\n\
........\n",
    ),
    (
        true,
        b"\
########\n\
########\n\
########\n\
########\n\
##...###\n\
##.#.###\n\
########\n\
########\n\
########\n",
    ),
];

/// The regions at that size, as a picture.
fn regions(alloc: Global, taken: &TakenWindow) -> Result<Vec<u8>, Refusal>
    requires { is_fitting (⟦<TakenWindow as Defined>⟧.loan taken.now).definition SIZE ≡ true }
{
    let regions = Shown(taken.regions_for(alloc, SIZE)?);
    Ok(picture(alloc, &regions, rect!(-3, -5, 5, 4))?)
}

/// The cut that takes this region away, and nothing else.
fn all_but(hole: &Region) -> Cut<'_> {
    Cut {
        inside: [None, None, None],
        outside: Some(hole),
    }
}

/// What is drawn on a map of one value, as a picture.
fn drawn(alloc: Global, taken: &TakenWindow, value: bool) -> Result<Vec<u8>, Refusal>
    requires live { (⟦<TakenWindow as Defined>⟧.loan taken.now).definition.stage ≡ Stage.Live }
    requires told { is_fitting (⟦<TakenWindow as Defined>⟧.loan taken.now).definition
        (⟦<TakenWindow as Defined>⟧.loan taken.now).definition.size ≡ true }
{
    let hole = Region::from_rect(alloc, rect!(3, 5, 4, 6))?;
    let cut = all_but(&hole);
    let font = Font::built_in(alloc)?;
    let mut map = map_of(alloc, &Even(value), 8, 9)?;
    let mut canvas = Canvas {
        map: &mut map,
        clip: rect!(0, 0, 7, 8),
        origin: point!(2, 4),
        cut: &cut,
        font: &font,
    };
    taken.draw(&mut canvas);
    Ok(picture(alloc, &map, rect!(0, 0, 8, 9))?)
}

#[test]
fn a_boxed_definition_is_reached(rt: HostRuntime) -> Result<(), Fail> {
    let alloc = rt.alloc();
    let mut stock = WindowStock::new(alloc);
    let titled: Box<dyn WindowDef> = Box::new(alloc, Titled::new())?;
    assert!(rt; stock.add(b"titled", titled).is_ok());
    let mut taken = stock.take(b"titled")?;
    assert!(rt; SIZE.is_in_range() && taken.bounds(SIZE).is_in_range());
    assert!(rt; taken.bounds(SIZE) == TITLED);
    assert!(rt; regions(alloc, &taken)?.as_slice() == REGIONS);
    taken.begin(SIZE, b"", false, false);
    assert!(rt;
        taken.hit(point!(2, 1)) == Hit::InContent && taken.hit(point!(2, -1)) == Hit::InDrag
    );
    for (before, after) in DRAWN {
        assert!(rt; drawn(alloc, &taken, before)?.as_slice() == after);
    }
    Ok(())
}
