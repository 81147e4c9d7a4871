//! What the definition of what shows implies.
ghost use Rattle.std.specs.Prelude.{◌≡◌, ◌<◌, ◌<ℤ◌, ℕ, Bool, true, false, not, if◌then◌else◌, List};
ghost use Rattle.tb_geom.specs.declared.point.Point.{Point};
ghost use Rattle.tb_geom.specs.Rects.{rect_holds};
ghost use Rattle.text_record.specs.Placings.{box_of};
ghost use Rattle.text_record.specs.Texts.{Record};
ghost use Rattle.text_record.specs.Changes.{chosen, blinked};
ghost use Rattle.text_paint.specs.declared.selected.Selection.{Selection};
ghost use Rattle.text_paint.specs.Rows.{IsChangedFrom, change_row};
ghost use Rattle.text_paint.specs.Selected.{is_toggled, reselected};
ghost use Rattle.text_paint.specs.Shown.{part_holds, text_shown};

/// Outside its box a record shows white.
pub fn nothing_shows_outside_the_box()
    ensures { (font : List ℕ) (r : Record) (p : Point) → rect_holds (box_of r.framed r.view) p ≡ false
        → text_shown font r p ≡ false }
{}

/// The parts of the highlight on two lines share no pixel, so that none is inverted twice.
pub fn parts_on_two_lines_share_no_pixel()
    ensures { (r : Record) (j k : ℕ) (p : Point) → j < k → part_holds r k p ≡ true → part_holds r j p ≡ false }
{}

/// What a record shows that is not active depends neither on its selection nor on its caret.
pub fn an_inactive_record_shows_no_selection()
    ensures selection { (font : List ℕ) (r : Record) (start end : ℕ) (p : Point) → r.active ≡ false
        → text_shown font (chosen start end r) p ≡ text_shown font r p }
    ensures caret { (font : List ℕ) (r : Record) (caret : Bool) (p : Point) → r.active ≡ false
        → text_shown font (blinked caret r) p ≡ text_shown font r p }
{}

/// Where bytes are selected no caret shows.
pub fn a_caret_shows_at_a_point_alone()
    ensures { (font : List ℕ) (r : Record) (caret : Bool) (p : Point) → r.start < r.end
        → text_shown font (blinked caret r) p ≡ text_shown font r p }
{}

/// Where a record had another selection, it showed the same but for the pixels that are toggled.
pub fn another_selection_toggles_pixels()
    ensures { (font : List ℕ) (r : Record) (s : Selection) (p : Point)
        → text_shown font r p
        ≡ (if is_toggled s r p then not (text_shown font (reselected s r) p) else text_shown font (reselected s r) p) }
{}

/// Where bytes of a record change from an offset on, it shows the same above the row of the line before that of the last byte
/// that stays, but for what glyphs reach above their lines.
pub fn above_a_change_all_stays()
    ensures { (font : List ℕ) (r changed : Record) (from : ℕ) (p : Point) → IsChangedFrom from r changed
        → p.v <ℤ change_row font from r → text_shown font changed p ≡ text_shown font r p }
{}
