//! What the definitions say of a text of two parts, and of how many bytes a record may need.
ghost use Rattle.std.specs.Prelude.{◌≡◌, ◌≤◌, true, ℕ, pos, ◌+◌, ◌*◌, ◌+ℤ◌, ◌||◌, List, ◌++◌};
ghost use Rattle.tb_geom.specs.declared.point.Point.{Point};
ghost use Rattle.strike_font.specs.Record.{word, strike_words, last_symbol, is_font, longest_record};
ghost use Rattle.strike_font.specs.Text.{text_width, text_holds};

/// A text is as wide as its two parts together.
pub fn widths_add()
    ensures { (font one other : List ℕ) → text_width font (one ++ other) ≡ text_width font one + text_width font other }
{}

/// A text has the pixels of its first part, and those of the second with the pen where the first has
/// moved it to.
pub fn texts_join()
    ensures { (font one other : List ℕ) (pen p : Point) → text_holds font (one ++ other) pen p
        ≡ (text_holds font one pen p
        || text_holds font other (record { h = pen.h +ℤ pos (text_width font one); v = pen.v }) p) }
{}

/// The image with the locations behind it, and the table of offsets and widths, end within so many bytes of a FONT record:
/// those after them are no part of it.
pub fn a_record_ends_within_the_longest()
    ensures locations { (bytes : List ℕ) → is_font bytes ≡ true
        → 2 * (strike_words bytes + (last_symbol bytes + 2)) ≤ longest_record }
    ensures entries { (bytes : List ℕ) → is_font bytes ≡ true
        → 2 * (8 + word bytes 8 + (last_symbol bytes + 2)) ≤ longest_record }
{}
