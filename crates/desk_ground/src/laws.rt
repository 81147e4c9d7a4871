//! What the picture of a menu bar implies.
ghost use Rattle.std.specs.Prelude.{◌≡◌, ℕ, List, [], Option, true, pos, int_le};
ghost use Rattle.std.specs.Ordering.{int_eq};
ghost use Rattle.tb_geom.specs.declared.point.Point.{Point};
ghost use Rattle.desk_ground.specs.declared.titles.BarTitle.{BarTitle};
ghost use Rattle.desk_ground.specs.Bars.{bar_picture, title_at};

/// A bar without titles is white, and its last row black.
pub fn a_bar_without_titles_is_white_above_a_black_row()
    ensures { (font : List ℕ) (p : Point) → bar_picture font [] p ≡ int_eq p.v (pos 19) }
{}

/// No title is met in the bar's last row or below the bar.
#[tactic(auto, using(crate::proofs::TitleLemmas::below_titles))]
pub fn no_title_reaches_the_last_row()
    ensures { (font : List ℕ) (left : ℕ) (titles : List BarTitle) (p : Point) → int_le (pos 19) p.v ≡ true
        → title_at font left titles p ≡ Option.None }
{}
