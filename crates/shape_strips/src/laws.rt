//! What the definitions of round shapes, insides, frames and lines say.
ghost use Rattle.std.specs.Prelude.{◌≡◌, true, false, ◌&&◌, ◌||◌, ◌⊎◌, ℤ, pos, ◌+ℤ◌, ◌-ℤ◌, ◌≤ℤ◌};
ghost use Rattle.std.specs.Int.{abs_diff, int_max, int_min};
ghost use Rattle.tb_geom.specs.declared.point.Point.{Point};
ghost use Rattle.tb_geom.specs.declared.rect.Rect.{Rect};
ghost use Rattle.tb_geom.specs.Rects.{between, rect_holds};
ghost use Rattle.region_rows.specs.Counts.{count_to};
ghost use Rattle.shape_strips.specs.declared.corner.Corner.{Corner};
ghost use Rattle.shape_strips.specs.declared.pen.Pen.{Pen};
ghost use Rattle.shape_strips.specs.Ovals.{in_oval};
ghost use Rattle.shape_strips.specs.Rounds.{oval_holds, round_holds};
ghost use Rattle.shape_strips.specs.Frames.{frame_holds, has_size, inside_holds, surrounds};
ghost use Rattle.shape_strips.specs.Lines.{is_flat, thin_holds};
ghost use Rattle.shape_strips.specs.Mirrors.{mirrored_across, mirrored_diagonally, mirrored_down};

/// A round shape without rounded corners is its rectangle.
#[tactic(auto, using(crate::proofs::LawLemmas::plain_rect))]
pub fn shapes_without_corners_are_rectangles()
    ensures { (r : Rect) (c : Corner) (p : Point) → ((c.width ≡ 0) ⊎ (c.height ≡ 0))
        → round_holds r c p ≡ rect_holds r p }
{}

/// The centre of a pixel of an oval lies as many half pixels beside the oval's middle as it has more columns on one
/// side than on the other, and above or below it likewise with rows.
#[tactic(auto, using(crate::proofs::LawLemmas::oval_centres))]
pub fn ovals_are_the_centres_in_them()
    ensures { (r : Rect) (p : Point) → oval_holds r p ≡ (rect_holds r p
        && in_oval (count_to r.left r.right) (count_to r.top r.bottom)
        (abs_diff (count_to r.left p.h) (count_to (p.h +ℤ pos 1) r.right))
        (abs_diff (count_to r.top p.v) (count_to (p.v +ℤ pos 1) r.bottom))) }
{}

/// A round shape is its own mirror image, left to right and top to bottom.
#[tactic(auto, using(crate::proofs::LawLemmas::across_same, crate::proofs::LawLemmas::down_same))]
pub fn shapes_are_mirrored()
    ensures across { (r : Rect) (c : Corner) (p : Point) → round_holds r c (mirrored_across r p) ≡ round_holds r c p }
    ensures down { (r : Rect) (c : Corner) (p : Point) → round_holds r c (mirrored_down r p) ≡ round_holds r c p }
{}

/// One that is as wide as high, with corners that are, is its own mirror image along both diagonals too.
#[tactic(auto, using(crate::proofs::LawLemmas::diagonal_same, crate::proofs::LawLemmas::other_diagonal_same))]
pub fn square_shapes_are_mirrored_along_diagonals()
    ensures falling { (r : Rect) (c : Corner) (p : Point) → r.right -ℤ r.left ≡ r.bottom -ℤ r.top → c.width ≡ c.height
        → round_holds r c (mirrored_diagonally r p) ≡ round_holds r c p }
    ensures rising { (r : Rect) (c : Corner) (p : Point) → r.right -ℤ r.left ≡ r.bottom -ℤ r.top → c.width ≡ c.height
        → round_holds r c (mirrored_across r (mirrored_down r (mirrored_diagonally r p))) ≡ round_holds r c p }
{}

/// A frame is closed: no pixel of an inside has a pixel outside of the shape beside it.
#[tactic(auto, using(crate::proofs::LawLemmas::inside_is_surrounded))]
pub fn frames_are_closed()
    ensures { (r : Rect) (c : Corner) (pen : Pen) (p : Point) → inside_holds r c pen p ≡ true
        → surrounds (round_holds r c) p ≡ true }
{}

/// A frame and its inside are the shape, and share no pixel.
#[tactic(auto, using(crate::proofs::LawLemmas::frame_and_inside, crate::proofs::LawLemmas::frame_apart))]
pub fn frames_and_insides_are_shapes()
    ensures whole { (r : Rect) (c : Corner) (pen : Pen) (p : Point) → has_size pen ≡ true
        → (frame_holds r c pen p || inside_holds r c pen p) ≡ round_holds r c p }
    ensures apart { (r : Rect) (c : Corner) (pen : Pen) (p : Point)
        → (frame_holds r c pen p && inside_holds r c pen p) ≡ false }
{}

/// A thin line is the same from either end, and has both.
pub fn lines_are_the_same_from_either_end()
    ensures same { (a b p : Point) → thin_holds a b p ≡ thin_holds b a p }
    ensures ends { (a b : Point) → (thin_holds a b a ≡ true) × (thin_holds a b b ≡ true) }
{}

/// A flat line has one pixel in each column from one end to the other, a steep line in each row. So a thin line has one
/// pixel more than it goes to the side, or down.
pub fn lines_have_one_pixel_a_column_or_row()
    ensures flat { (a b : Point) (h : ℤ) → is_flat a b ≡ true → int_min a.h b.h ≤ℤ h → h ≤ℤ int_max a.h b.h
        → (one : ℤ) × ((v : ℤ) → thin_holds a b (record { h = h; v = v }) ≡ between one v (one +ℤ pos 1)) }
    ensures steep { (a b : Point) (v : ℤ) → is_flat a b ≡ false → int_min a.v b.v ≤ℤ v → v ≤ℤ int_max a.v b.v
        → (one : ℤ) × ((h : ℤ) → thin_holds a b (record { h = h; v = v }) ≡ between one h (one +ℤ pos 1)) }
{}

/// And it has none beside the rectangle of its ends.
pub fn lines_lie_between_their_ends()
    ensures { (a b p : Point) → thin_holds a b p ≡ true
        → (int_min a.h b.h ≤ℤ p.h) × (p.h ≤ℤ int_max a.h b.h) × (int_min a.v b.v ≤ℤ p.v) × (p.v ≤ℤ int_max a.v b.v) }
{}
