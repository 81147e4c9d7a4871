//! Fonts, and the pixels of texts.
//!
//! A font is the bytes of a FONT record (*Inside Macintosh: Text*, "Font Manager", the FONT record): a
//! head of 13 words; a bit image, called the strike, in which the glyphs of all characters stand side
//! by side; a table of the columns at which they begin; and a table of their offsets and widths. The
//! glyph after that of the last character is the missing symbol: it stands for every character that
//! the font lacks.
//!
//! `is_font` judges the bytes once, and a `Font` holds bytes that it found good. Nothing is unpacked:
//! a symbol's words and a pixel's bit each lie at a place that is computed, so no reading searches a
//! table or takes memory. Contracts see the bytes, and say what is read by the words of `Record`.
//!
//! What a text has is a set of pixels (`text_holds`): the pen starts at a point on the baseline and
//! moves by the width of each character, and a pixel is in the text where some glyph has it. So where
//! glyphs overlap, a pixel is still in the text once. Nothing here draws: whoever does asks
//! `Font::text_pixel`, or takes a `Tile`, which is the pixels that a text has of 512 columns by 16 rows. A
//! tile is made by one pass over the characters: each row of a glyph goes over the words of the tile's row.
//!
//! The built-in font is a record in the source (`built_in`), and its contract is the table of its
//! glyphs (`IsBuiltIn`): the two are compared bit by bit, in the proof.
#![tactic(auto)]

mod built_in;
mod font;
mod glyph;
pub mod laws;
mod record;
mod text;
mod tile;

pub use font::Font;
pub use glyph::Glyph;
pub use record::LONGEST_RECORD;
pub use tile::Tile;
