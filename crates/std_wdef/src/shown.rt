//! Drawing a standard window, and where two of its looks differ.
ghost use Rattle.std.specs.Prelude.{◌≡◌, ◌≤◌, true, false, length};
ghost use Rattle.tb_geom.specs.declared.point.Point.{Point};
ghost use Rattle.tb_geom.specs.Rects.{rect_holds, in_plane};
ghost use Rattle.bit_blit.specs.Draws.{Draws};
ghost use Rattle.draw_port.specs.Canvases.{canvas_holds, canvas_point, SameFrame};
ghost use Rattle.def_iface.specs.Sizes.{is_size};
ghost use Rattle.looks.specs.Damages.{IsWithin, look_damage};
ghost use Rattle.looks.specs.Letters.{Lettering, lettering};
ghost use Rattle.looks.specs.Marks.{look_bit};
ghost use Rattle.std_wdef.specs.Looks.{look_of, document_look};
ghost use Rattle.std_wdef.specs.Windows.{shown_damage};

use crate::kind::{Shown, Variation};
use crate::tables::{dialog_look, document_look, plain_look, shadow_look};
use draw_port::Canvas;
use looks::{damage_between, draw_look};
use tb_geom::{Point, Rect};

/// Draws a window with a title.
pub(crate) fn draw_window(canvas: &mut Canvas<'_>, variation: Variation, shown: Shown, title: &[u8])
    requires sized { is_size shown.size ≡ true }
    requires short { length title.now ≤ 65535 }
    ensures same_map { canvas.new.map.ghost_name ≡ canvas.old.map.ghost_name }
    ensures same_frame { SameFrame canvas.old canvas.new }
    ensures drawn { Draws (canvas_holds canvas.old)
        (λ p _. look_bit (lettering canvas.old.font.now title.now)
        (look_of variation shown.flags shown.titled shown.size) (canvas_point canvas.old p))
        canvas.old.map.now canvas.new.map.now }
{
    match variation {
        Variation::Plain => draw_look(canvas, &plain_look(shown.size), title),
        Variation::Shadow => draw_look(canvas, &shadow_look(shown.size), title),
        Variation::Dialog => draw_look(canvas, &dialog_look(shown.size), title),
        Variation::Document => draw_look(canvas, document_look(variation, shown).steps(), title),
        Variation::NoGrow => draw_look(canvas, document_look(variation, shown).steps(), title),
        Variation::Zoom => draw_look(canvas, document_look(variation, shown).steps(), title),
    }
}

/// A rectangle outside which a window that shows something else looks the same, in every font. The
/// titles are equal where `same_title` says so.
fn window_damage(variation: Variation, old: Shown, new: Shown, same_title: bool) -> Rect
    requires old { is_size old.size ≡ true }
    requires new { is_size new.size ≡ true }
    ensures alike { (u t : Lettering) → (same_title ≡ true → t ≡ u) → (p : Point) → rect_holds result p ≡ false
        → look_bit t (look_of variation new.flags new.titled new.size) p
        ≡ look_bit u (look_of variation old.flags old.titled old.size) p }
    ensures small { IsWithin result (look_damage same_title (look_of variation old.flags old.titled old.size)
        (look_of variation new.flags new.titled new.size)) }
{
    match variation {
        Variation::Plain => {
            damage_between(&plain_look(old.size), &plain_look(new.size), same_title)
        }
        Variation::Shadow => {
            damage_between(&shadow_look(old.size), &shadow_look(new.size), same_title)
        }
        Variation::Dialog => {
            damage_between(&dialog_look(old.size), &dialog_look(new.size), same_title)
        }
        Variation::Document => document_damage(variation, old, new, same_title),
        Variation::NoGrow => document_damage(variation, old, new, same_title),
        Variation::Zoom => document_damage(variation, old, new, same_title),
    }
}

/// The same, for the document kinds.
fn document_damage(variation: Variation, old: Shown, new: Shown, same_title: bool) -> Rect
    requires old { is_size old.size ≡ true }
    requires new { is_size new.size ≡ true }
    ensures alike { (u t : Lettering) → (same_title ≡ true → t ≡ u) → (p : Point) → rect_holds result p ≡ false
        → look_bit t (document_look variation new.flags new.titled new.size) p
        ≡ look_bit u (document_look variation old.flags old.titled old.size) p }
    ensures small { IsWithin result (look_damage same_title (document_look variation old.flags old.titled old.size)
        (document_look variation new.flags new.titled new.size)) }
{
    damage_between(
        document_look(variation, old).steps(),
        document_look(variation, new).steps(),
        same_title,
    )
}

/// A rectangle outside which a window that is told something else looks the same, within the range of
/// coordinates. The old size is none of a window before the first one was told: then all may change.
pub(crate) fn told_damage(variation: Variation, old: Shown, new: Shown, same_title: bool) -> Rect
    requires { is_size new.size ≡ true }
    ensures alike { (u t : Lettering) → (same_title ≡ true → t ≡ u) → (p : Point) → in_plane p ≡ true
        → rect_holds result p ≡ false
        → look_bit t (look_of variation new.flags new.titled new.size) p
        ≡ look_bit u (look_of variation old.flags old.titled old.size) p }
    ensures small { (p : Point) → rect_holds result p ≡ true → shown_damage variation same_title old new p ≡ true }
{
    if old.size.is_in_range() {
        window_damage(variation, old, new, same_title)
    } else {
        Rect::plane()
    }
}
