//! The rows that a change of bytes leaves.
ghost use Rattle.std.specs.Prelude.{◌≡◌};
ghost use Rattle.text_paint.specs.Rows.{change_row};

use strike_font::Font;
use text_record::TextRecord;

/// The row of the window from which on a record may show otherwise in a font, where its bytes from this offset on are changed, and
/// the selection lies there or behind it: the top row of the line before that of the last byte that stays, and as many rows more
/// as glyphs of the font reach above their lines.
pub fn change_row(text: &TextRecord, from: usize, font: &Font) -> i32
    ensures { result ≡ change_row font.now from text.now }
{
    let line = text.row_of(from.saturating_sub(1)).saturating_sub(1);
    let above = font.ascent().saturating_sub(text.ascent());
    text.line_top(line) - i32::from(above)
}
