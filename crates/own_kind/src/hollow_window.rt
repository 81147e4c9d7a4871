//! The hollow kind of window: a bar on top, and below it a content in two parts, with a hole between them in which
//! whatever is behind the window shows and is hit.
ghost use Rattle.std.specs.Prelude.{◌≡◌, true, false};
ghost use Rattle.tb_geom.specs.declared.point.Point.{Point};
ghost use Rattle.tb_geom.specs.Rects.{in_plane, rect_holds};
ghost use Rattle.def_iface.specs.WindowNews.{no_news, told_change};
ghost use Rattle.def_iface.specs.Sizes.{is_size};
ghost use Rattle.def_iface.specs.WindowMeaning.{SameLook, SameRegions, WindowHears, IsDamage, IsWithin, is_fitting, size_after};
ghost use Rattle.looks.specs.Letters.{Lettering};
ghost use Rattle.looks.specs.Marks.{look_bit};
ghost use Rattle.own_kind.specs.HollowWindows.{hollow_look, window_meaning, told_window, window_at};

use crate::tables::{content_of, hollow_hit, hollow_look, outline, structure_of};
use def_iface::{Flags, Hit, Size, Stage, WindowChange, WindowDef, WindowRegions, frame_lines};
use draw_port::{Canvas, ShortText};
use looks::{area_region, damage_between, draw_look};
use std::alloc::{AllocError, Global};
use tb_geom::{Point, Rect};

/// The definition of a hollow window. It keeps what it is told: of a title the first 255 characters.
#[derive(Drop)]
pub struct HollowWindow {
    stage: Stage,
    flags: Flags,
    title: ShortText,
    size: Size,
}

impl HollowWindow {
    /// A Fresh definition, with no title and no size yet.
    pub fn new() -> HollowWindow
        ensures { (⟦<HollowWindow as WindowDef>⟧.meaning result).stage ≡ Stage.Fresh }
    {
        HollowWindow {
            stage: Stage::Fresh,
            flags: Flags::new(),
            title: ShortText::new(b"").unwrap(),
            size: Size {
                width: 0,
                height: 0,
            },
        }
    }
}

/// What a window's look is made of, beside its title.
#[derive(Clone, Copy)]
struct Shown {
    flags: Flags,
    size: Size,
}

/// A rectangle outside which a window that is told something else looks the same, within the range of
/// coordinates. The old size is none of a window before the first one was told: then all may change.
fn told_damage(old: Shown, new: Shown, same_title: bool) -> Rect
    requires { is_size new.size ≡ true }
    ensures { (u t : Lettering) → (same_title ≡ true → t ≡ u) → (p : Point) → in_plane p ≡ true
        → rect_holds result p ≡ false
        → look_bit t (hollow_look new.flags new.size) p ≡ look_bit u (hollow_look old.flags old.size) p }
{
    if old.size.is_in_range() {
        damage_between(
            hollow_look(old.flags, old.size).steps(),
            hollow_look(new.flags, new.size).steps(),
            same_title,
        )
    } else {
        Rect::plane()
    }
}

impl WindowDef for HollowWindow {
    ghost meaning = { window_meaning };

    fn stage(&self) -> Stage {
        self.stage
    }

    fn begin(&mut self)
        requires { (window_meaning self.old).stage ≡ Stage.Fresh }
        ensures live { (window_meaning self.new).stage ≡ Stage.Live }
        ensures regions { SameRegions (window_meaning self.old) (window_meaning self.new) }
        ensures look { WindowHears (λ n. n) (window_meaning self.old) (window_meaning self.new) }
        ensures kept { self.new ≡ window_at Stage.Live self.old }
    {
        self.stage = Stage::Live;
    }

    /// Nothing that it is told is forgotten: the clause `kept`, over those of the trait.
    fn told(&mut self, change: WindowChange<'_>) -> Rect
        requires live { (window_meaning self.old).stage ≡ Stage.Live }
        requires fits { is_fitting (window_meaning self.old) (size_after change (window_meaning self.old).size) ≡ true }
        ensures stays { (window_meaning self.new).stage ≡ Stage.Live }
        ensures size { (window_meaning self.new).size ≡ size_after change.entry (window_meaning self.old).size }
        ensures regions { SameRegions (window_meaning self.old) (window_meaning self.new) }
        ensures heard { WindowHears (told_change change.entry) (window_meaning self.old) (window_meaning self.new) }
        ensures damage { IsDamage result (window_meaning self.old) (window_meaning self.new) }
        ensures answered { IsWithin (rect_holds result) ((window_meaning self.old).damage (told_change change.entry no_news)) }
        ensures kept { self.new ≡ told_window change.entry self.old }
    {
        let old = Shown {
            flags: self.flags,
            size: self.size,
        };
        let new = Shown {
            flags: change.flags_after(self.flags),
            size: change.size_after(self.size),
        };
        let title = change.title_after(&self.title);
        let damage = told_damage(old, new, change.keeps_title());
        self.flags = new.flags;
        self.title = title;
        self.size = new.size;
        damage
    }

    fn regions_for(&self, alloc: Global, size: Size) -> Result<WindowRegions, AllocError> {
        let structure = area_region(alloc, &structure_of(size))?;
        let content = area_region(alloc, &content_of(size))?;
        Ok(WindowRegions { structure, content })
    }

    fn bounds(&self, size: Size) -> Rect {
        outline(size)
    }

    fn grow_lines(&self, size: Size) -> [Rect; 8] {
        frame_lines(outline(size))
    }

    fn hit(&self, point: Point) -> Hit {
        hollow_hit(self.flags, self.size, point)
    }

    fn draw(&self, canvas: &mut Canvas<'_>) {
        draw_look(
            canvas,
            hollow_look(self.flags, self.size).steps(),
            self.title.as_slice(),
        );
    }

    fn dispose(&mut self)
        requires { (window_meaning self.old).stage ≡ Stage.Live }
        ensures closed { (window_meaning self.new).stage ≡ Stage.Closed }
        ensures same { SameLook (window_meaning self.old) (window_meaning self.new) }
        ensures kept { self.new ≡ window_at Stage.Closed self.old }
    {
        self.stage = Stage::Closed;
    }
}
