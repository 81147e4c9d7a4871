//! The definition of the rounded window.
ghost use Rattle.std.specs.Prelude.{◌≡◌, true};
ghost use Rattle.tb_geom.specs.Rects.{rect_holds};
ghost use Rattle.def_iface.specs.WindowNews.{no_news, told_change};
ghost use Rattle.def_iface.specs.WindowMeaning.{SameLook, SameRegions, WindowHears, IsDamage, IsWithin, is_fitting, size_after};
ghost use Rattle.std_wdef.specs.Rounded.{fresh_round, round_at, round_meaning, told_round};

use crate::kind::{Shown, is_titled};
use crate::rects::document_box;
use crate::round_look::{round_damage, round_look};
use crate::rounded::{CORNER, inside_within, round_hit};
use def_iface::{Flags, Hit, Size, Stage, WindowChange, WindowDef, WindowRegions, frame_lines};
use draw_port::{Canvas, ShortText};
use looks::draw_look;
use shape_region::strip_region;
use shape_strips::RoundStrip;
use std::alloc::{AllocError, Global};
use tb_geom::{Point, Rect};

/// The definition of a window with round corners, 16 pixels wide and high (rDocProc: *Inside Macintosh* I, "The
/// Window Manager", "Window Types"). It keeps what it is told: of a title the first 255 characters.
#[derive(Drop)]
pub struct RoundWindow {
    stage: Stage,
    flags: Flags,
    title: ShortText,
    size: Size,
}

impl RoundWindow {
    /// A Fresh definition, with no title and no size yet.
    pub fn new() -> RoundWindow
        ensures fresh { (⟦<RoundWindow as WindowDef>⟧.meaning result).stage ≡ Stage.Fresh }
        ensures value { result ≡ fresh_round }
    {
        RoundWindow {
            stage: Stage::Fresh,
            flags: Flags::new(),
            title: ShortText::new(b"").unwrap(),
            size: Size {
                width: 0,
                height: 0,
            },
        }
    }
}

impl WindowDef for RoundWindow {
    ghost meaning = { round_meaning };

    fn stage(&self) -> Stage {
        self.stage
    }

    fn begin(&mut self)
        requires { (round_meaning self.old).stage ≡ Stage.Fresh }
        ensures live { (round_meaning self.new).stage ≡ Stage.Live }
        ensures regions { SameRegions (round_meaning self.old) (round_meaning self.new) }
        ensures look { WindowHears (λ n. n) (round_meaning self.old) (round_meaning self.new) }
        ensures kept { self.new ≡ round_at Stage.Live self.old }
    {
        self.stage = Stage::Live;
    }

    /// Nothing that it is told is forgotten: the clause `kept`, over those of the trait.
    fn told(&mut self, change: WindowChange<'_>) -> Rect
        requires live { (round_meaning self.old).stage ≡ Stage.Live }
        requires fits { is_fitting (round_meaning self.old) (size_after change (round_meaning self.old).size) ≡ true }
        ensures stays { (round_meaning self.new).stage ≡ Stage.Live }
        ensures size { (round_meaning self.new).size ≡ size_after change.entry (round_meaning self.old).size }
        ensures regions { SameRegions (round_meaning self.old) (round_meaning self.new) }
        ensures heard { WindowHears (told_change change.entry) (round_meaning self.old) (round_meaning self.new) }
        ensures damage { IsDamage result (round_meaning self.old) (round_meaning self.new) }
        ensures answered { IsWithin (rect_holds result) ((round_meaning self.old).damage (told_change change.entry no_news)) }
        ensures kept { self.new ≡ told_round change.entry self.old }
    {
        let old = Shown {
            flags: self.flags,
            titled: is_titled(&self.title),
            size: self.size,
        };
        let title = change.title_after(&self.title);
        let new = Shown {
            flags: change.flags_after(self.flags),
            titled: is_titled(&title),
            size: change.size_after(self.size),
        };
        let damage = round_damage(old, new, change.keeps_title());
        self.flags = new.flags;
        self.title = title;
        self.size = new.size;
        damage
    }

    fn regions_for(&self, alloc: Global, size: Size) -> Result<WindowRegions, AllocError> {
        let shape = RoundStrip {
            rect: document_box(size),
            corner: CORNER,
        };
        let structure = strip_region(alloc, &shape)?;
        let content = strip_region(alloc, &inside_within(size.rect(), size))?;
        Ok(WindowRegions { structure, content })
    }

    fn bounds(&self, size: Size) -> Rect {
        document_box(size)
    }

    fn grow_lines(&self, size: Size) -> [Rect; 8] {
        frame_lines(document_box(size))
    }

    fn hit(&self, point: Point) -> Hit {
        round_hit(self.flags, self.size, point)
    }

    fn draw(&self, canvas: &mut Canvas<'_>) {
        let shown = Shown {
            flags: self.flags,
            titled: is_titled(&self.title),
            size: self.size,
        };
        draw_look(canvas, &round_look(shown), self.title.as_slice());
    }

    fn dispose(&mut self)
        requires { (round_meaning self.old).stage ≡ Stage.Live }
        ensures closed { (round_meaning self.new).stage ≡ Stage.Closed }
        ensures same { SameLook (round_meaning self.old) (round_meaning self.new) }
        ensures kept { self.new ≡ round_at Stage.Closed self.old }
    {
        self.stage = Stage::Closed;
    }
}
