//! Titles of controls that are told something, and where two looks with them differ.
ghost use Rattle.std.specs.Prelude.{◌≡◌, false, List, length, ℕ};
ghost use Rattle.std.specs.Str.{bytes_eq};
ghost use Rattle.tb_geom.specs.declared.point.Point.{Point};
ghost use Rattle.tb_geom.specs.Rects.{rect_holds};
ghost use Rattle.looks.specs.Damages.{IsWithin, look_damage};
ghost use Rattle.looks.specs.Letters.{lettering};
ghost use Rattle.looks.specs.Marks.{look_bit};

use def_iface::KeptControl;
use looks::{Step, damage_between};
use tb_geom::Rect;

/// Whether a control that was told something kept its title: it was told another thing, or the same title.
pub(crate) fn same_title(old: &KeptControl, new: &KeptControl) -> bool
    ensures { result ≡ bytes_eq old.now.title new.now.title }
{
    old.title.as_slice() == new.title.as_slice()
}

/// The damage between the looks before and after a control was told something (`ControlLook::damage`), each with its title.
pub(crate) fn titled_damage(
    old: &KeptControl,
    new: &KeptControl,
    before: &[Step],
    after: &[Step],
) -> Rect
    requires { length before.now ≡ length after.now }
    ensures alike { (font : List ℕ) (p : Point) → rect_holds result p ≡ false
        → look_bit (lettering font new.now.title) after.now p ≡ look_bit (lettering font old.now.title) before.now p }
    ensures small { IsWithin result (look_damage (bytes_eq old.now.title new.now.title) before.now after.now) }
{
    damage_between(before, after, same_title(old, new))
}
