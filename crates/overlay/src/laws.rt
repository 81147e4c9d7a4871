//! What the definitions of a pulled menu and of an outline imply.
ghost use Rattle.std.specs.Prelude.{◌≡◌, [], ℕ, true, false, List, Some, pos, ◌≤ℤ◌, ◌<ℤ◌, ◌+ℤ◌, ℤ};
ghost use Rattle.tb_geom.specs.declared.point.Point.{Point};
ghost use Rattle.tb_geom.specs.declared.rect.Rect.{Rect};
ghost use Rattle.tb_geom.specs.Points.{PixelSet};
ghost use Rattle.tb_geom.specs.Rects.{rect_holds};
ghost use Rattle.def_iface.specs.declared.size.Size.{Size};
ghost use Rattle.def_iface.specs.Lines.{line_holds};
ghost use Rattle.overlay.specs.Outlines.{outlined};
ghost use Rattle.overlay.specs.Overlays.{Pulled, pulled_rect, shown_bit};
ghost use Rattle.overlay.specs.Places.{pulled_place, shown_size};

/// Outside the rectangle of the menu that is pulled down, the screen shows the base image.
pub fn beside_a_menu_the_base_shows()
    ensures { (font : List ℕ) (m : Pulled) (base : PixelSet) (p : Point)
        → rect_holds (pulled_rect m.place m.size) p ≡ false → shown_bit font (Some m) base p ≡ base p }
{}

/// A menu without items is pulled down nowhere: the screen shows the base image alone.
#[tactic(auto, using(crate::proofs::PlaceLemmas::nothing_shown))]
pub fn a_menu_without_items_leaves_the_base()
    ensures { (font : List ℕ) (m : Pulled) (size : Size) (base : PixelSet) (p : Point)
        → m.menu.items ≡ [] → m.size ≡ shown_size m.menu size → shown_bit font (Some m) base p ≡ base p }
{}

/// A menu that is no wider than the screen lies on it from its first column to its last one, and at its title's column where
/// it fits there.
#[tactic(auto, using(crate::proofs::PlaceLemmas::stays_on_screen, crate::proofs::PlaceLemmas::stays_at_title))]
pub fn a_menu_stays_on_the_screen()
    ensures whole { (width left : ℤ) (size : Size) → size.width ≤ℤ width
        → ((pulled_place width left size).h +ℤ size.width) ≤ℤ width }
    ensures title { (width left : ℤ) (size : Size) → pos 0 ≤ℤ left → (left +ℤ size.width) ≤ℤ width
        → (pulled_place width left size).h ≡ left }
{}

/// Beside the lines of an outline, and on the menu bar, the screen shows the base image.
#[tactic(auto, using(crate::proofs::OutlineLemmas::shows_beside, crate::proofs::OutlineLemmas::shows_bar))]
pub fn an_outline_changes_its_lines_alone()
    ensures beside { (bar : ℤ) (lines : List Rect) (base : PixelSet) (p : Point)
        → line_holds lines p ≡ false → outlined bar lines base p ≡ base p }
    ensures bar { (bar : ℤ) (lines : List Rect) (base : PixelSet) (p : Point)
        → p.v <ℤ bar → outlined bar lines base p ≡ base p }
{}

/// An outline over the same outline leaves the base image.
#[tactic(auto, using(crate::proofs::OutlineLemmas::shows_again))]
pub fn an_outline_over_itself_leaves_the_base()
    ensures { (bar : ℤ) (lines : List Rect) (base : PixelSet) (p : Point)
        → outlined bar lines (outlined bar lines base) p ≡ base p }
{}
