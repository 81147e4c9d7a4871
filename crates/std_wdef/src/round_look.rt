//! What the rounded window looks like, as a table, and where two of its looks differ.
ghost use Rattle.std.specs.Prelude.{◌≡◌, true, false};
ghost use Rattle.tb_geom.specs.declared.point.Point.{Point};
ghost use Rattle.tb_geom.specs.Rects.{rect_holds, in_plane};
ghost use Rattle.def_iface.specs.Sizes.{is_size};
ghost use Rattle.looks.specs.Letters.{Lettering};
ghost use Rattle.looks.specs.Marks.{look_bit};
ghost use Rattle.std_wdef.specs.Rounded.{round_damage, round_look};

use crate::kind::{Shown, Variation};
use crate::rects::{document_box, title_bar};
use crate::rounded::{CORNER, GO_AWAY};
use looks::{Step, columns, damage_between, sides};
use tb_geom::{Point, Rect};

/// The window: black, then what its frame leaves of the title bar, with what stands there.
pub(crate) fn round_look(shown: Shown) -> [Step; 6]
    requires { is_size shown.size ≡ true }
    ensures { result ≡ round_look shown.flags shown.titled shown.size }
{
    let (flags, size) = (shown.flags, shown.size);
    let around = document_box(size);
    let bar = title_bar(size);
    let closes = Variation::NoGrow.closes(flags);
    let tracks = Variation::NoGrow.tracks(flags);
    [
        Step::black_fill(around),
        Step::white_inside(around, CORNER).cut_to(bar),
        Step::black_text(bar, columns(size.width), -6).when(shown.titled),
        Step::black_frame(GO_AWAY).when(closes).cut_to(bar),
        Step::black_fill(sides(9, -15, 18, -6))
            .when(tracks)
            .cut_to(bar),
        Step::inverted_inside(around, CORNER)
            .when(flags.highlighted)
            .cut_to(bar),
    ]
}

/// A rectangle outside which a window that shows something else looks the same, within the range of coordinates. The
/// titles are equal where `same_title` says so. The old size may be none.
pub(crate) fn round_damage(old: Shown, new: Shown, same_title: bool) -> Rect
    requires { is_size new.size ≡ true }
    ensures alike { (u t : Lettering) → (same_title ≡ true → t ≡ u) → (p : Point) → in_plane p ≡ true
        → rect_holds result p ≡ false
        → look_bit t (round_look new.flags new.titled new.size) p
        ≡ look_bit u (round_look old.flags old.titled old.size) p }
    ensures small { (p : Point) → rect_holds result p ≡ true → round_damage same_title old new p ≡ true }
{
    if old.size.is_in_range() {
        damage_between(&round_look(old), &round_look(new), same_title)
    } else {
        Rect::plane()
    }
}
