//! What the definitions of inversion points and region bytes say of each other.
ghost use Rattle.std.specs.Prelude.{◌≡◌, ℕ, List};
ghost use Rattle.tb_geom.specs.declared.point.Point.{Point};
ghost use Rattle.tb_geom.specs.Pixels.{Pixels};
ghost use Rattle.region_bytes.specs.Points.{PointRow, IsCanonical, inverted, points_of};
ghost use Rattle.region_bytes.specs.Bytes.{IsRegionBytes, IsForm};

/// A set of pixels has one canonical list of inversion points.
#[tactic(auto, using(crate::proofs::Rows::same_canonical))]
pub fn one_list_of_points()
    ensures { (a b : List PointRow) → IsCanonical a → IsCanonical b
        → ((p : Point) → inverted (points_of a) p ≡ inverted (points_of b) p) → a ≡ b }
{}

/// A set of pixels has one text of bytes.
pub fn one_text_of_bytes()
    ensures { (a b : List ℕ) (s : Pixels) → IsRegionBytes a s → IsRegionBytes b s → a ≡ b }
{}

/// Bytes are those of one set of pixels.
pub fn one_set_of_bytes()
    ensures { (bytes : List ℕ) (s t : Pixels) → IsRegionBytes bytes s → IsRegionBytes bytes t → s ≡ t }
{}

/// Bytes have the form of one list of inversion points, in range or not.
#[tactic(auto, using(crate::proofs::Decoded::same_form))]
pub fn one_form_of_bytes()
    ensures { (bytes : List ℕ) (a b : List PointRow) → IsForm bytes a → IsForm bytes b → a ≡ b }
{}
