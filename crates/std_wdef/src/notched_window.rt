//! The definition of the notched window.
ghost use Rattle.std.specs.Prelude.{◌≡◌, true, false, pos, ◌≤ℤ◌, ◌+ℤ◌, ◌-ℤ◌};
ghost use Rattle.tb_geom.specs.declared.point.Point.{Point};
ghost use Rattle.tb_geom.specs.Rects.{in_plane, is_coordinate, rect_holds};
ghost use Rattle.def_iface.specs.WindowNews.{no_news, told_change};
ghost use Rattle.def_iface.specs.WindowMeaning.{SameLook, SameRegions, WindowHears, IsDamage, IsWithin, is_fitting, size_after};
ghost use Rattle.def_iface.specs.Sizes.{is_size};
ghost use Rattle.looks.specs.Letters.{Lettering};
ghost use Rattle.looks.specs.Marks.{box, neg, look_bit};
ghost use Rattle.std_wdef.specs.Notched.{notch, notched_structure, notched_content, notched_damage, notched_look, notched_meaning};
ghost use Rattle.std_wdef.specs.Notched.{fresh_notched, told_notched, notched_at};

use crate::rects::ring;
use def_iface::{Hit, Size, Stage, WindowChange, WindowDef, WindowRegions, frame_lines};
use draw_port::Canvas;
use looks::{Piece, Step, area_has, area_region, damage_between, draw_look, less, more, sides};
use std::alloc::{AllocError, Global};
use tb_geom::{Point, Rect};

/// The definition of a window whose upper right corner is cut out.
#[derive(Drop)]
pub struct NotchedWindow {
    stage: Stage,
    size: Size,
}

impl NotchedWindow {
    /// A Fresh definition, with no size yet.
    pub fn new() -> NotchedWindow
        ensures fresh { (⟦<NotchedWindow as WindowDef>⟧.meaning result).stage ≡ Stage.Fresh }
        ensures value { result ≡ fresh_notched }
    {
        NotchedWindow {
            stage: Stage::Fresh,
            size: Size {
                width: 0,
                height: 0,
            },
        }
    }
}

/// The width and the height of the notch in the content.
#[tactic(auto, unfolding(crate::specs::Notched::notch))]
fn notch(size: Size) -> i32
    requires { is_size size ≡ true }
    ensures value { result ≡ notch size }
    ensures low { pos 0 ≤ℤ result }
    ensures high { result ≤ℤ pos 8191 }
{
    size.width.min(size.height).div_euclid(2)
}

/// Where the notch begins.
fn notch_left(size: Size) -> i32
    requires { is_size size ≡ true }
    ensures value { result ≡ size.width -ℤ notch size }
    ensures within { is_coordinate result ≡ true }
{
    size.width - notch(size)
}

/// What is cut out of the structure.
fn outer_notch(size: Size) -> Rect
    requires { is_size size ≡ true }
    ensures { result ≡ box (size.width -ℤ notch size +ℤ pos 1) (neg 1) (size.width +ℤ pos 1) (notch size -ℤ pos 1) }
{
    sides(
        more(notch_left(size), 1),
        -1,
        more(size.width, 1),
        less(notch(size), 1),
    )
}

/// What is cut out of the content.
fn inner_notch(size: Size) -> Rect
    requires { is_size size ≡ true }
    ensures { result ≡ box (size.width -ℤ notch size) (pos 0) size.width (notch size) }
{
    sides(notch_left(size), 0, size.width, notch(size))
}

/// The structure.
fn structure_of(size: Size) -> [Piece; 2]
    requires { is_size size ≡ true }
    ensures { result ≡ notched_structure size }
{
    [
        Piece::added(ring(1, size)),
        Piece::removed(outer_notch(size)),
    ]
}

/// The content.
fn content_of(size: Size) -> [Piece; 2]
    requires { is_size size ≡ true }
    ensures { result ≡ notched_content size }
{
    [Piece::added(size.rect()), Piece::removed(inner_notch(size))]
}

/// All black.
fn notched_look(size: Size) -> [Step; 1]
    requires { is_size size ≡ true }
    ensures { result ≡ notched_look size }
{
    [Step::black_fill(ring(1, size))]
}

/// A rectangle outside which the window looks the same with another size, within the range of
/// coordinates. The old size may be none.
fn notched_damage(old: Size, new: Size) -> Rect
    requires { is_size new ≡ true }
    ensures alike { (t : Lettering) (p : Point) → in_plane p ≡ true → rect_holds result p ≡ false
        → look_bit t (notched_look new) p ≡ look_bit t (notched_look old) p }
    ensures small { (p : Point) → rect_holds result p ≡ true → notched_damage old new p ≡ true }
{
    if old.is_in_range() {
        damage_between(&notched_look(old), &notched_look(new), true)
    } else {
        Rect::plane()
    }
}

impl WindowDef for NotchedWindow {
    ghost meaning = { notched_meaning };

    fn stage(&self) -> Stage {
        self.stage
    }

    fn begin(&mut self)
        requires { (notched_meaning self.old).stage ≡ Stage.Fresh }
        ensures live { (notched_meaning self.new).stage ≡ Stage.Live }
        ensures regions { SameRegions (notched_meaning self.old) (notched_meaning self.new) }
        ensures look { WindowHears (λ n. n) (notched_meaning self.old) (notched_meaning self.new) }
        ensures kept { self.new ≡ notched_at Stage.Live self.old }
    {
        self.stage = Stage::Live;
    }

    /// It keeps its size, and shows nothing else: the clause `kept`, over those of the trait.
    fn told(&mut self, change: WindowChange<'_>) -> Rect
        requires live { (notched_meaning self.old).stage ≡ Stage.Live }
        requires fits { is_fitting (notched_meaning self.old) (size_after change (notched_meaning self.old).size)
            ≡ true }
        ensures stays { (notched_meaning self.new).stage ≡ Stage.Live }
        ensures size { (notched_meaning self.new).size ≡ size_after change.entry (notched_meaning self.old).size }
        ensures regions { SameRegions (notched_meaning self.old) (notched_meaning self.new) }
        ensures heard { WindowHears (told_change change.entry) (notched_meaning self.old) (notched_meaning self.new) }
        ensures damage { IsDamage result (notched_meaning self.old) (notched_meaning self.new) }
        ensures answered { IsWithin (rect_holds result) ((notched_meaning self.old).damage (told_change change.entry no_news)) }
        ensures kept { self.new ≡ told_notched change.entry self.old }
    {
        let size = change.size_after(self.size);
        let damage = notched_damage(self.size, size);
        self.size = size;
        damage
    }

    fn regions_for(&self, alloc: Global, size: Size) -> Result<WindowRegions, AllocError> {
        let structure = area_region(alloc, &structure_of(size))?;
        let content = area_region(alloc, &content_of(size))?;
        Ok(WindowRegions { structure, content })
    }

    fn bounds(&self, size: Size) -> Rect {
        ring(1, size)
    }

    fn grow_lines(&self, size: Size) -> [Rect; 8] {
        frame_lines(ring(1, size))
    }

    fn hit(&self, point: Point) -> Hit {
        if area_has(&content_of(self.size), point) {
            Hit::InContent
        } else {
            Hit::NoHit
        }
    }

    fn draw(&self, canvas: &mut Canvas<'_>) {
        draw_look(canvas, &notched_look(self.size), b"");
    }

    fn dispose(&mut self)
        requires { (notched_meaning self.old).stage ≡ Stage.Live }
        ensures closed { (notched_meaning self.new).stage ≡ Stage.Closed }
        ensures same { SameLook (notched_meaning self.old) (notched_meaning self.new) }
        ensures kept { self.new ≡ notched_at Stage.Closed self.old }
    {
        self.stage = Stage::Closed;
    }
}
