//! What the definitions of finite sets of pixels say: a set is its pixels, and nothing more.
ghost use Rattle.std.specs.Prelude.{◌≡◌, ◌&&◌, Bool, ℤ};
ghost use Rattle.tb_geom.specs.declared.point.Point.{Point};
ghost use Rattle.tb_geom.specs.Rects.{in_plane};
ghost use Rattle.tb_geom.specs.Pixels.{Pixels, holds, pixels_where};

/// Two sets with the same pixels are equal.
#[tactic(auto, using(crate::proofs::PixelsLemmas::same_holds))]
pub fn one_set_of_pixels()
    ensures { (s t : Pixels) → ((p : Point) → holds s p ≡ holds t p) → s ≡ t }
{}

/// The set that a test makes has the pixels at which the test holds, of those in range.
#[tactic(auto, using(crate::proofs::PixelsLemmas::test_holds))]
pub fn pixels_of_a_test()
    ensures { (test : ℤ → ℤ → Bool) (p : Point)
        → holds (pixels_where test) p ≡ (in_plane p && test p.h p.v) }
{}
