//! What the definitions of images say of their rows and pixels.
ghost use Rattle.std.specs.Prelude.{◌≡◌, ◌≤◌, ◌<◌, ◌==◌, ◌/◌, ◌%◌, ℕ, pos, true, false, length, not, filter, slice_index, All};
ghost use Rattle.std.specs.List.{slice_split};
ghost use Rattle.tb_geom.specs.Points.{PixelSet};
ghost use Rattle.tb_geom.specs.declared.point.Point.{Point};
ghost use Rattle.bit_map.specs.Images.{image_holds, image_bit};
ghost use Rattle.bit_map.specs.Patterns.{bit_of};
ghost use Rattle.screen_pbm.specs.Pbm.{row_digits, row_text, row_bytes, raster};

/// Without its newlines the text of a row is the row's digits.
#[tactic(auto, using(crate::proofs::ImageLaws::row_is_its_digits))]
pub fn a_row_is_its_digits()
    ensures { (width : ℕ) (black : PixelSet) (v : ℕ) → filter (λ b. not (b == 10)) (row_text width black v)
        ≡ row_digits width black v }
{}

/// No line of a row has more than 70 characters.
#[tactic(auto, using(crate::proofs::ImageLaws::row_lines_are_short))]
pub fn lines_of_a_row_are_short()
    ensures { (width : ℕ) (black : PixelSet) (v : ℕ)
        → All (λ line. length line ≤ 70) (slice_split (λ b. b == 10) (row_text width black v)) }
{}

/// Each pixel of a row is read back from its bytes, place 0 of a byte being the high bit: 1 is black.
#[tactic(auto, using(crate::proofs::PackedLaws::row_has_each_pixel))]
pub fn bytes_of_a_row_have_each_pixel()
    ensures { (width : ℕ) (black : PixelSet) (v h : ℕ) → h < width
        → bit_of (slice_index (row_bytes width black v) (h / 8)) (h % 8) ≡ black (record { h = pos h; v = pos v }) }
{}

/// The bits past the width are 0.
#[tactic(auto, using(crate::proofs::PackedLaws::row_is_white_past_the_width))]
pub fn bytes_of_a_row_are_filled_up_with_white()
    ensures { (width : ℕ) (black : PixelSet) (v h : ℕ) → width ≤ h
        → bit_of (slice_index (row_bytes width black v) (h / 8)) (h % 8) ≡ false }
{}

/// What stands behind the head of a P4 image is the picture, as a bit image.
#[tactic(auto, using(crate::proofs::PackedLaws::raster_bit))]
pub fn a_raw_image_is_a_bit_image()
    ensures { (width height : ℕ) (black : PixelSet) (p : Point) → image_holds (raster width height black) p ≡ true
        → image_bit (raster width height black) p ≡ black p }
{}
