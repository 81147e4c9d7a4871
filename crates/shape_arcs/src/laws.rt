//! What the definitions of wedges say.
ghost use Rattle.std.specs.Prelude.{◌≡◌, ℕ, ℤ, List};
ghost use Rattle.tb_geom.specs.declared.point.Point.{Point};
ghost use Rattle.tb_geom.specs.declared.rect.Rect.{Rect};
ghost use Rattle.shape_arcs.specs.Circles.{GoAround, wedges_with};

/// Wedges that follow each other once around, each from where the last one ends, have each pixel of a rectangle once.
#[tactic(auto, using(crate::proofs::CircleLemmas::each_once))]
pub fn wedges_of_a_circle_have_each_pixel_once()
    ensures { (r : Rect) (start : ℤ) (ends : List ℕ) (p : Point) → GoAround 0 ends → wedges_with r start 0 ends p ≡ 1 }
{}
