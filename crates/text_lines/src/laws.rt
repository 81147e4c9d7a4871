//! What the definitions of lines imply.
ghost use Rattle.std.specs.Prelude.{◌≡◌, ◌≤◌, ◌<◌, ◌+◌, ◌-◌, ℕ, List, Option, length, take};
ghost use Rattle.text_lines.specs.declared.line.TextLine.{TextLine};
ghost use Rattle.text_lines.specs.Lines.{text_lines, line_at, line_of, Follow, LiesOn};

/// The lines of a text follow each other from its beginning to its end, and each but the last has a byte.
pub fn lines_follow_each_other()
    ensures { (widths : List ℕ) (room : Option ℕ) (text : List ℕ)
        → Follow (length text) (text_lines widths room text) }
{}

/// Each line lies within its text, and there are no more lines than bytes, and one.
pub fn lines_lie_within_their_text()
    ensures within { (widths : List ℕ) (room : Option ℕ) (text : List ℕ) (j : ℕ)
        → j < length (text_lines widths room text)
        → ((line_at (text_lines widths room text) j).start ≤ (line_at (text_lines widths room text) j).end)
        × ((line_at (text_lines widths room text) j).end ≤ length text) }
    ensures few { (widths : List ℕ) (room : Option ℕ) (text : List ℕ)
        → length (text_lines widths room text) ≤ length text + 1 }
{}

/// An offset of a text lies on one line, which `line_of` finds.
pub fn an_offset_lies_on_one_line()
    ensures found { (widths : List ℕ) (room : Option ℕ) (text : List ℕ) (offset : ℕ)
        → LiesOn (text_lines widths room text) offset (line_of (text_lines widths room text) offset) }
    ensures alone { (widths : List ℕ) (room : Option ℕ) (text : List ℕ) (offset j : ℕ)
        → LiesOn (text_lines widths room text) offset j → j ≡ line_of (text_lines widths room text) offset }
{}

/// Texts that begin with the same bytes have the same lines from the first on, up to the line before the one on which
/// the last of these bytes lies, and without that line. Each of them ends among these bytes, and another follows it.
pub fn the_lines_before_a_change_stay()
    ensures { (widths : List ℕ) (room : Option ℕ) (text other : List ℕ) (m j : ℕ)
        → m ≤ length text → take m text ≡ take m other
        → j + 1 < line_of (text_lines widths room text) (m - 1)
        → (line_at (text_lines widths room other) j ≡ line_at (text_lines widths room text) j)
        × (j + 1 < length (text_lines widths room other))
        × ((line_at (text_lines widths room text) j).end ≤ m) }
{}
