//! What the definitions of numbers and hex digits say, in the words of their subject.
ghost use Rattle.std.specs.Prelude.{◌≡◌, ◌⊎◌, ◌<◌, ◌^◌, ℕ, List, ◌∷◌, Some, decimal};
ghost use Rattle.std.specs.List.{AllByRecursion};
ghost use Rattle.line_words.specs.Forms.{IsDigits};
ghost use Rattle.line_words.specs.Hex.{hex_of, hex_text};
ghost use Rattle.line_words.specs.Words.{digits_value};

/// The digits that a reply has for a number stand for it in a line too.
#[tactic(auto, using(crate::proofs::NumberLaws::decimal_is_read))]
pub fn written_numbers_are_read()
    ensures { (n : ℕ) → n < 2 ^ 64 → digits_value (decimal n) ≡ n }
{}

/// Where a number is below 1,000,000,000, they are one to nine, as a line may have them.
pub fn numbers_of_nine_digits_are_read()
    ensures { (n : ℕ) → n < 10 ^ 9 → IsDigits (decimal n) n }
{}

/// A leading zero adds nothing.
#[tactic(auto, using(crate::proofs::NumberLaws::leading_zero))]
pub fn a_leading_zero_adds_nothing()
    ensures { (digits : List ℕ) → digits_value (48 ∷ digits) ≡ digits_value digits }
{}

/// Bytes that are written as hex digits, with the letters `A` to `F` or `a` to `f`, are read back.
pub fn written_hex_is_read()
    ensures { (a : ℕ) → (a ≡ 65) ⊎ (a ≡ 97) → (byte : ℕ) (bytes : List ℕ) → AllByRecursion (λ b. b < 256) (byte ∷ bytes)
        → hex_of (hex_text a (byte ∷ bytes)) ≡ Some (byte ∷ bytes) }
{}
