//! The definition of the standard windows.
ghost use Rattle.std.specs.Prelude.{◌≡◌, true};
ghost use Rattle.tb_geom.specs.Rects.{rect_holds};
ghost use Rattle.def_iface.specs.WindowNews.{no_news, told_change};
ghost use Rattle.def_iface.specs.WindowMeaning.{SameLook, SameRegions, WindowHears, IsDamage, IsWithin, is_fitting, size_after};
ghost use Rattle.std_wdef.specs.Told.{window_meaning, fresh_window, told_window, window_at};

use crate::areas::{content_of, structure_box, structure_of};
use crate::hits::std_hit;
use crate::kind::{Shown, Variation, is_titled};
use crate::lines::grow_lines;
use crate::shown::{draw_window, told_damage};
use def_iface::{Flags, Hit, Size, Stage, WindowChange, WindowDef, WindowRegions};
use draw_port::{Canvas, ShortText};
use looks::area_region;
use std::alloc::{AllocError, Global};
use tb_geom::{Point, Rect};

/// The definition of a window of a standard kind. It keeps what it is told: of a title the first 255
/// characters.
#[derive(Drop)]
pub struct StdWindow {
    variation: Variation,
    stage: Stage,
    flags: Flags,
    title: ShortText,
    size: Size,
}

impl StdWindow {
    /// A Fresh definition of this kind, with no title and no size yet.
    pub fn new(variation: Variation) -> StdWindow
        ensures fresh { (⟦<StdWindow as WindowDef>⟧.meaning result).stage ≡ Stage.Fresh }
        ensures value { result ≡ fresh_window variation }
    {
        StdWindow {
            variation,
            stage: Stage::Fresh,
            flags: Flags::new(),
            title: ShortText::new(b"").unwrap(),
            size: Size {
                width: 0,
                height: 0,
            },
        }
    }
}

impl WindowDef for StdWindow {
    ghost meaning = { window_meaning };

    fn stage(&self) -> Stage {
        self.stage
    }

    fn begin(&mut self)
        requires { (window_meaning self.old).stage ≡ Stage.Fresh }
        ensures live { (window_meaning self.new).stage ≡ Stage.Live }
        ensures regions { SameRegions (window_meaning self.old) (window_meaning self.new) }
        ensures look { WindowHears (λ n. n) (window_meaning self.old) (window_meaning self.new) }
        ensures kept { self.new ≡ window_at Stage.Live self.old }
    {
        self.stage = Stage::Live;
    }

    /// Nothing that it is told is forgotten: the clause `kept`, over those of the trait.
    fn told(&mut self, change: WindowChange<'_>) -> Rect
        requires live { (window_meaning self.old).stage ≡ Stage.Live }
        requires fits { is_fitting (window_meaning self.old) (size_after change (window_meaning self.old).size) ≡ true }
        ensures stays { (window_meaning self.new).stage ≡ Stage.Live }
        ensures size { (window_meaning self.new).size ≡ size_after change.entry (window_meaning self.old).size }
        ensures regions { SameRegions (window_meaning self.old) (window_meaning self.new) }
        ensures heard { WindowHears (told_change change.entry) (window_meaning self.old) (window_meaning self.new) }
        ensures damage { IsDamage result (window_meaning self.old) (window_meaning self.new) }
        ensures answered { IsWithin (rect_holds result) ((window_meaning self.old).damage (told_change change.entry no_news)) }
        ensures kept { self.new ≡ told_window change.entry self.old }
    {
        let old = Shown {
            flags: self.flags,
            titled: is_titled(&self.title),
            size: self.size,
        };
        let title = change.title_after(&self.title);
        let new = Shown {
            flags: change.flags_after(self.flags),
            titled: is_titled(&title),
            size: change.size_after(self.size),
        };
        let damage = told_damage(self.variation, old, new, change.keeps_title());
        self.flags = new.flags;
        self.title = title;
        self.size = new.size;
        damage
    }

    fn regions_for(&self, alloc: Global, size: Size) -> Result<WindowRegions, AllocError> {
        let structure = area_region(alloc, &structure_of(self.variation, size))?;
        let content = area_region(alloc, &content_of(self.variation, size))?;
        Ok(WindowRegions { structure, content })
    }

    fn bounds(&self, size: Size) -> Rect {
        structure_box(self.variation, size)
    }

    fn grow_lines(&self, size: Size) -> [Rect; 8] {
        grow_lines(self.variation, size)
    }

    fn hit(&self, point: Point) -> Hit {
        std_hit(self.variation, self.flags, self.size, point)
    }

    fn draw(&self, canvas: &mut Canvas<'_>) {
        let shown = Shown {
            flags: self.flags,
            titled: is_titled(&self.title),
            size: self.size,
        };
        draw_window(canvas, self.variation, shown, self.title.as_slice());
    }

    fn dispose(&mut self)
        requires { (window_meaning self.old).stage ≡ Stage.Live }
        ensures closed { (window_meaning self.new).stage ≡ Stage.Closed }
        ensures same { SameLook (window_meaning self.old) (window_meaning self.new) }
        ensures kept { self.new ≡ window_at Stage.Closed self.old }
    {
        self.stage = Stage::Closed;
    }
}
