//! Where two looks differ.
ghost use Rattle.std.specs.Prelude.{◌≡◌, Bool, true, false, length};
ghost use Rattle.tb_geom.specs.declared.point.Point.{Point};
ghost use Rattle.tb_geom.specs.Rects.{rect_holds};
ghost use Rattle.looks.specs.Damages.{IsWithin, draws_alike, look_damage, step_reach};
ghost use Rattle.looks.specs.Letters.{Lettering};
ghost use Rattle.looks.specs.Marks.{look_bit, step_value, step_holds};

use crate::rects::sides;
use crate::same::{is_same, keeps_text};
use crate::step::{Mark, Step};
use tb_geom::{Point, Rect};

/// A rectangle outside which two looks of as many steps are equal: the box of what the steps that differ
/// can draw on.
pub fn damage_between(old: &[Step], new: &[Step], same_text: bool) -> Rect
    requires { length old.now ≡ length new.now }
    ensures alike { (u t : Lettering) → (same_text ≡ true → t ≡ u) → (p : Point)
        → rect_holds result p ≡ false → look_bit t new.now p ≡ look_bit u old.now p }
    ensures small { IsWithin result (look_damage same_text old.now new.now) }
{
    let mut damage = Rect {
        left: 0,
        top: 0,
        right: 0,
        bottom: 0,
    };
    for at in 0..old.len() {
        damage = with_step(damage, old[at], new[at], same_text);
    }
    damage
}

/// The damage, with that of a step in place of another.
fn with_step(damage: Rect, old: Step, new: Step, same_text: bool) -> Rect
    ensures before { (p : Point) → rect_holds result p ≡ false → rect_holds damage p ≡ false }
    ensures same { (u t : Lettering) → (same_text ≡ true → t ≡ u) → (p : Point) (d : Bool)
        → rect_holds result p ≡ false → step_value t p d new ≡ step_value u p d old }
    ensures small { (r : Rect) → IsWithin damage r
        → (draws_alike same_text old new ≡ false → IsWithin (step_reach old) r × IsWithin (step_reach new) r)
        → IsWithin result r }
{
    if is_alike(old, new, same_text) {
        damage
    } else {
        damage.union(reach_of(old)).union(reach_of(new))
    }
}

/// Whether two steps draw alike. The texts of their looks are the same where `same_text` says so.
fn is_alike(old: Step, new: Step, same_text: bool) -> bool
    ensures same { result ≡ true → (u t : Lettering) → (same_text ≡ true → t ≡ u) → (p : Point) (d : Bool)
        → step_value t p d new ≡ step_value u p d old }
    ensures exact { result ≡ draws_alike same_text old new }
{
    is_same(old, new) && keeps_text(old.mark, same_text)
}

/// A rectangle outside which a step draws nothing, whatever the text is.
fn reach_of(step: Step) -> Rect
    ensures none { (t : Lettering) (p : Point) → rect_holds result p ≡ false → step_holds t step p ≡ false }
    ensures exact { (p : Point) → rect_holds result p ≡ rect_holds (step_reach step) p }
{
    if step.on {
        match step.mark {
            Mark::Fill(rect, _) => step.cut.sect(rect),
            Mark::Frame(rect, _) => step.cut.sect(rect),
            Mark::Cross(rect) => step.cut.sect(rect),
            Mark::Round(rounded, _) => step.cut.sect(rounded.rect),
            Mark::Behind(_) | Mark::Text(_) => step.cut,
        }
    } else {
        sides(0, 0, 0, 0)
    }
}
