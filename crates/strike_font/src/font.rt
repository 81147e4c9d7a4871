//! Fonts.
ghost use Rattle.std.specs.Prelude.{◌≡◌, ℕ, ℤ, ◌+ℤ◌, true, false, IfOk, IfErr, IsTrue, ◌↔◌, ◌≤◌, ◌<◌, ◌≤ℤ◌, ◌<ℤ◌, pos};
ghost use Rattle.std.specs.Prelude.{negsuc, ◌*◌, ◌+◌, length, if◌then◌else◌};
ghost use Rattle.tb_geom.specs.declared.point.Point.{Point};
ghost use Rattle.tb_geom.specs.Points.{minus};
ghost use Rattle.tb_geom.specs.Rects.{rect_holds};
ghost use Rattle.bit_map.specs.Words.{bit_in};
ghost use Rattle.strike_font.specs.BuiltIn.{IsBuiltIn};
ghost use Rattle.strike_font.specs.Record.{is_font, words_of_row, height, ascent, descent, kern, leading};
ghost use Rattle.strike_font.specs.Text.{glyph_of, text_width, text_holds, glyph_pixel, glyphs_pixel, glyph_rect, IsSized, IsTextPixel};
ghost use Rattle.strike_font.specs.Tiles.{IsTile};

use crate::built_in::RECORD;
use crate::glyph::{self, Glyph};
use crate::record::{is_font, signed, word};
use crate::text;
use crate::tile::Tile;
use std::alloc::{AllocError, Global};
use std::marker::Model;
use tb_geom::{Point, Rect, Refusal};

/// A font of black and white glyphs: the bytes of a FONT record (*Inside Macintosh: Text*, "Font
/// Manager", the FONT record). Contracts see the bytes.
#[derive(Debug, Drop)]
pub struct Font {
    bytes: Vec<u8>,
}

impl Model for Font {
    ghost use Rattle.std.specs.Prelude.{ℕ, List};
    ghost use Rattle.strike_font.specs.Record.{IsFont};

    ghost Value = { List ℕ };

    ghost view = { λ f. f.bytes.items };

    ghost invariant = { λ f. IsFont f.bytes.items };
}

impl Font {
    /// The font that these bytes are, which it copies. BadFont exactly where they are no FONT record
    /// (`is_font`), and otherwise only NoMemory. Bytes after the record's parts do not matter.
    pub fn from_bytes(alloc: Global, bytes: &[u8]) -> Result<Font, Refusal>
        ensures bytes { IfOk result (λ font. font ≡ bytes.now) }
        ensures accepted { IfOk result (λ _. is_font bytes.now ≡ true) }
        ensures refused { IfErr result (λ e.
            e ≡ (if is_font bytes.now then Refusal.NoMemory else Refusal.BadFont)) }
    {
        if is_font(bytes) {
            let bytes = bytes.to_vec(alloc)?;
            Ok(Font { bytes })
        } else {
            Err(Refusal::BadFont)
        }
    }

    /// The font that is built in, for the characters 32 to 126: each is 6 pixels wide, with 5 columns
    /// of 8 rows, of which 7 lie above the baseline. Its leading is 2.
    pub fn built_in(alloc: Global) -> Result<Font, AllocError>
        ensures { IfOk result IsBuiltIn }
    {
        let bytes = RECORD.to_vec(alloc)?;
        Ok(Font { bytes })
    }

    /// How many rows each glyph has, the field fRectHeight: 1..=127.
    pub fn height(&self) -> u16
        ensures value { result ≡ height self.now }
        ensures small { (0 < result) × (result < 128) }
    {
        word(&self.bytes, 7)
    }

    /// How many pixels right of the pen a glyph of no offset begins, the field kernMax: -128..=127.
    pub fn kern(&self) -> i32
        ensures value { result ≡ kern self.now }
        ensures near { (negsuc 127 ≤ℤ result) × (result <ℤ pos 128) }
    {
        signed(word(&self.bytes, 4))
    }

    /// How many rows the font's ascent takes, which is above the baseline: 0..=127. A glyph's top row
    /// lies so far above the baseline.
    pub fn ascent(&self) -> u16
        ensures value { result ≡ ascent self.now }
        ensures small { result < 128 }
    {
        word(&self.bytes, 9)
    }

    /// How many rows the font's descent takes, which is below the baseline: 0..=127.
    pub fn descent(&self) -> u16
        ensures value { result ≡ descent self.now }
        ensures small { result < 128 }
    {
        word(&self.bytes, 10)
    }

    /// How many rows lie between the descent of a line of text and the ascent of the next: the field leading where that is
    /// 0..=127, and else none.
    pub fn leading(&self) -> u16
        ensures value { result ≡ leading self.now }
        ensures small { result < 128 }
    {
        let leading = word(&self.bytes, 11);
        if leading < 128 { leading } else { 0 }
    }

    /// The glyph that a character is drawn by: its own, or that of the missing symbol where the font
    /// lacks it.
    pub fn glyph(&self, character: u8) -> Glyph
        ensures value { result ≡ glyph_of self.now character }
        ensures within { result.first + result.columns ≤ 16 * words_of_row self.now }
    {
        glyph::glyph_of(&self.bytes, character)
    }

    /// Whether a glyph of this font has the pixel `x` columns right of the pen and `y` rows below the
    /// baseline. Either may be negative, and is at most 2^34 either way.
    pub fn glyph_pixel(&self, glyph: Glyph, x: i64, y: i64) -> bool
        requires within { glyph.first + glyph.columns ≤ 16 * words_of_row self.now }
        requires x_near { IsSized 34 x }
        requires y_near { IsSized 34 y }
        ensures { result ≡ glyph_pixel self.now glyph x y }
    {
        glyph::glyph_pixel(&self.bytes, glyph, x, y)
    }

    /// Which of 64 pixels of a row a glyph of this font has, the first of them `x` columns right of the
    /// pen and `y` rows below the baseline, and at the high bit. Either may be negative, and is at most
    /// 2^34 either way.
    pub fn glyph_word(&self, glyph: Glyph, x: i64, y: i64) -> u64
        requires x_near { IsSized 34 x }
        requires y_near { IsSized 34 y }
        ensures { (k : ℕ) → k < 64 → bit_in result k ≡ glyph_pixel self.now glyph (x +ℤ pos k) y }
    {
        glyph::glyph_word(&self.bytes, glyph, x, y)
    }

    /// The rectangle of a glyph's columns and rows, seen from where the pen started on the baseline,
    /// which has come `across` columns.
    pub fn glyph_rect(&self, glyph: Glyph, across: u32) -> Rect
        requires { across ≤ 255 * 65535 }
        ensures { result ≡ glyph_rect self.now glyph across }
    {
        glyph::glyph_rect(&self.bytes, glyph, across)
    }

    /// How many pixels a text of at most 65535 characters moves the pen to the right: the sum of its
    /// characters' widths.
    pub fn width(&self, text: &[u8]) -> u32
        requires { length text.now ≤ 65535 }
        ensures value { result ≡ text_width self.now text.now }
        ensures small { result ≤ 255 * length text.now }
    {
        text::width(&self.bytes, text)
    }

    /// Whether a text of at most 65535 characters has the pixel at `point`, where its pen starts at
    /// `pen`, which lies on the baseline. Both may be any points.
    pub fn text_pixel(&self, text: &[u8], pen: Point, point: Point) -> bool
        requires { length text.now ≤ 65535 }
        ensures value { result ≡ text_holds self.now text.now pen point }
        ensures drawn { IsTrue result ↔ IsTextPixel self.now text.now pen point }
    {
        text::text_pixel(&self.bytes, text, pen, point)
    }

    /// Whether a text of at most 65535 characters has the pixel `x` columns right of where its pen
    /// starts and `y` rows below the baseline. Either may be negative, and is at most 2^33 either way.
    pub fn text_bit(&self, text: &[u8], x: i64, y: i64) -> bool
        requires short { length text.now ≤ 65535 }
        requires x_near { IsSized 33 x }
        requires y_near { IsSized 33 y }
        ensures { result ≡ glyphs_pixel self.now text.now 0 x y }
    {
        text::glyphs_pixel(&self.bytes, text, x, y)
    }

    /// What a text of at most 65535 characters has of 512 columns by 16 rows of pixels, the first of
    /// them `x` columns right of where its pen starts and `y` rows below the baseline. Either may be
    /// negative, and is at most 2^33 either way.
    pub fn tile(&self, text: &[u8], x: i64, y: i64) -> Tile
        requires short { length text.now ≤ 65535 }
        requires x_near { IsSized 33 x }
        requires y_near { IsSized 33 y }
        ensures { IsTile self.now text.now x y result }
    {
        Tile::of_text(&self.bytes, text, x, y).0
    }

    /// The same, and how far right of where its pen starts the text may reach: it has no pixel in that column
    /// and right of it.
    pub fn tile_and_reach(&self, text: &[u8], x: i64, y: i64) -> (Tile, i32)
        requires short { length text.now ≤ 65535 }
        requires x_near { IsSized 33 x }
        requires y_near { IsSized 33 y }
        ensures tile { IsTile self.now text.now x y result.0 }
        ensures reach { (h v : ℤ) → result.1 ≤ℤ h → glyphs_pixel self.now text.now 0 h v ≡ false }
    {
        Tile::of_text(&self.bytes, text, x, y)
    }

    /// A rectangle outside which a text of at most 65535 characters has no pixel, seen from where its
    /// pen starts on the baseline.
    pub fn text_rect(&self, text: &[u8]) -> Rect
        requires { length text.now ≤ 65535 }
        ensures { (pen p : Point) → text_holds self.now text.now pen p ≡ true → rect_holds result (minus p pen) ≡ true }
    {
        text::text_rect(&self.bytes, text)
    }
}
