//! A kind of window of our own: a white banner with a word on it above the content, and a black frame around both.
ghost use Rattle.std.specs.Prelude.{◌≡◌, true, false, List, ℕ};
ghost use Rattle.tb_geom.specs.declared.point.Point.{Point};
ghost use Rattle.tb_geom.specs.Rects.{in_plane, rect_holds};
ghost use Rattle.def_iface.specs.Sizes.{is_size};
ghost use Rattle.looks.specs.Letters.{lettering};
ghost use Rattle.looks.specs.Marks.{look_bit};
ghost use Rattle.own_window.specs.Banners.{banner_damage, banner_of, box_of, banner_look, banner_hit, banner_window, word};

use def_iface::{Hit, Size, Stage, WindowChange, WindowDef, WindowRegions, frame_lines};
use draw_port::Canvas;
use looks::{Baseline, Spot, Step, damage_between, draw_look, first_part, more, sides};
use scan_region::Region;
use std::alloc::{AllocError, Global};
use tb_geom::{Point, Rect};

/// What stands on the banner.
const WORD: &[u8] = b"Hello";

/// The definition of one banner window: where it stands in its life, and the size that it was told.
#[derive(Drop)]
pub struct Banner {
    stage: Stage,
    size: Size,
}

impl Banner {
    /// A Fresh definition, with no size yet.
    pub fn new() -> Banner
        ensures { (⟦<Banner as WindowDef>⟧.meaning result).stage ≡ Stage.Fresh }
    {
        Banner {
            stage: Stage::Fresh,
            size: Size {
                width: 0,
                height: 0,
            },
        }
    }
}

/// The banner: nine rows above the content, whose first pixel is 0 0.
fn banner_of(size: Size) -> Rect
    ensures { result ≡ banner_of size }
{
    sides(0, -10, size.width, -1)
}

/// The box of the whole window: content and banner, and the frame around both.
fn box_of(size: Size) -> Rect
    requires { is_size size ≡ true }
    ensures { result ≡ box_of size }
{
    sides(-1, -11, more(size.width, 1), more(size.height, 1))
}

/// What the window looks like: each step is drawn over those before it.
fn look_of(size: Size) -> [Step; 4]
    requires { is_size size ≡ true }
    ensures { result ≡ banner_look size }
{
    [
        Step::black_fill(box_of(size)),
        Step::white_fill(banner_of(size)),
        Step::text_at(box_of(size), 1, Baseline::At(-2)),
        Step::white_fill(size.rect()),
    ]
}

/// The part of the window that the point lies in: the banner drags it.
fn hit_of(size: Size, point: Point) -> Hit
    ensures { result ≡ banner_hit size point }
{
    let content = size.rect();
    let banner = banner_of(size);
    let spots = [
        Spot::new(true, content, content, Hit::InContent),
        Spot::new(true, banner, banner, Hit::InDrag),
    ];
    first_part(&spots, Hit::NoHit, point)
}

/// A rectangle outside which a window that is told another size looks the same. Before it was told the first one, the
/// old one is no size, and all may change.
fn damage_of(old: Size, new: Size) -> Rect
    requires { is_size new ≡ true }
    ensures alike { (font : List ℕ) (p : Point) → in_plane p ≡ true → rect_holds result p ≡ false
        → look_bit (lettering font word) (banner_look new) p ≡ look_bit (lettering font word) (banner_look old) p }
    ensures small { (p : Point) → rect_holds result p ≡ true → banner_damage old new p ≡ true }
{
    if old.is_in_range() {
        damage_between(&look_of(old), &look_of(new), true)
    } else {
        Rect::plane()
    }
}

impl WindowDef for Banner {
    // What this window is, as plain data. What each method owes it says is written in the trait, so none has a clause
    // here, and each is proved to keep it.
    ghost meaning = { λ w. banner_window w.stage w.size };

    fn stage(&self) -> Stage {
        self.stage
    }

    fn begin(&mut self) {
        self.stage = Stage::Live;
    }

    // The answer is the damage, outside which the picture is as it was, and within which the window is drawn anew.
    fn told(&mut self, change: WindowChange<'_>) -> Rect {
        let size = change.size_after(self.size);
        let damage = damage_of(self.size, size);
        self.size = size;
        damage
    }

    fn regions_for(&self, alloc: Global, size: Size) -> Result<WindowRegions, AllocError> {
        let structure = Region::from_rect_in_range(alloc, box_of(size))?;
        let content = Region::from_rect_in_range(alloc, size.rect())?;
        Ok(WindowRegions { structure, content })
    }

    fn bounds(&self, size: Size) -> Rect {
        box_of(size)
    }

    fn grow_lines(&self, size: Size) -> [Rect; 8] {
        frame_lines(box_of(size))
    }

    fn hit(&self, point: Point) -> Hit {
        hit_of(self.size, point)
    }

    fn draw(&self, canvas: &mut Canvas<'_>) {
        draw_look(canvas, &look_of(self.size), WORD);
    }

    fn dispose(&mut self) {
        self.stage = Stage::Closed;
    }
}
