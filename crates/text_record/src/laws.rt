//! What the definitions of places imply.
ghost use Rattle.std.specs.Prelude.{◌≡◌, ◌≤◌, ◌+◌, ℕ, true, length, slice_range};
ghost use Rattle.text_lines.specs.Lines.{LiesOn};
ghost use Rattle.text_record.specs.Texts.{Record, lines_of};
ghost use Rattle.text_record.specs.Places.{have_widths, line_in, row_of, column_of, offset_on};

/// An offset lies on one line, which is the one that `row_of` finds.
pub fn an_offset_lies_on_one_line()
    ensures found { (r : Record) (o : ℕ) → LiesOn (lines_of r.text) o (row_of r o) }
    ensures alone { (r : Record) (o j : ℕ) → LiesOn (lines_of r.text) o j → j ≡ row_of r o }
{}

/// Where no byte of a line up to an offset has the width 0, the offset at the place of an offset is that offset.
pub fn an_offset_is_found_at_its_place()
    ensures { (r : Record) (o : ℕ) → o ≤ length r.text.bytes
        → have_widths r.text.widths (slice_range r.text.bytes (line_in r (row_of r o)).start (o + 1)) ≡ true
        → offset_on r (row_of r o) (column_of r o) ≡ o }
{}
