//! Texts: characters side by side.
ghost use Rattle.std.specs.Prelude.{◌≡◌, true, false, ℤ, ◌*◌, ◌≤◌, ◌≤ℤ◌, pos, ◌-ℤ◌, length};
ghost use Rattle.tb_geom.specs.declared.point.Point.{Point};
ghost use Rattle.tb_geom.specs.Points.{minus};
ghost use Rattle.tb_geom.specs.Rects.{rect_holds};
ghost use Rattle.strike_font.specs.Record.{IsFont};
ghost use Rattle.strike_font.specs.Text.{text_width, glyphs_pixel, text_holds, IsSized};

use crate::glyph::{glyph_of, glyph_pixel, glyph_rect};
use crate::record::{signed, word};
use tb_geom::{Point, Rect};

/// How far a text moves the pen.
pub fn width(bytes: &[u8], text: &[u8]) -> u32
    requires font { IsFont bytes.now }
    requires short { length text.now ≤ 65535 }
    ensures value { result ≡ text_width bytes.now text.now }
    ensures small { result ≤ 255 * length text.now }
{
    let mut across = 0;
    for character in text {
        across += u32::from(glyph_of(bytes, *character).width);
    }
    across
}

/// How far `to` lies from `from`.
fn distance(from: i32, to: i32) -> i64
    ensures value { result ≡ to -ℤ from }
    ensures near { IsSized 33 result }
{
    i64::from(to) - i64::from(from)
}

/// A pixel's column, seen from a pen that has come `across` columns.
pub fn right_of(x: i64, across: u32) -> i64
    requires { IsSized 33 x }
    ensures value { result ≡ x -ℤ pos across }
    ensures near { IsSized 34 result }
{
    x - i64::from(across)
}

/// Whether a text has the pixel `x` columns right of where the pen starts and `y` rows below the
/// baseline.
pub fn glyphs_pixel(bytes: &[u8], text: &[u8], x: i64, y: i64) -> bool
    requires font { IsFont bytes.now }
    requires short { length text.now ≤ 65535 }
    requires x_near { IsSized 33 x }
    requires y_near { IsSized 33 y }
    ensures { result ≡ glyphs_pixel bytes.now text.now 0 x y }
{
    let mut across = 0;
    for character in text {
        let glyph = glyph_of(bytes, *character);
        if glyph_pixel(bytes, glyph, right_of(x, across), y) {
            return true;
        }
        across += u32::from(glyph.width);
    }
    false
}

/// The one of two columns that lies further right.
pub fn further(one: i32, other: i32) -> i32
    ensures { (one ≤ℤ result) × (other ≤ℤ result) }
{
    if one < other { other } else { one }
}

/// How far right of where the pen starts a text may reach: it has no pixel in that column and right of it.
fn reach(bytes: &[u8], text: &[u8]) -> i32
    requires font { IsFont bytes.now }
    requires short { length text.now ≤ 65535 }
    ensures { (x y : ℤ) → result ≤ℤ x → glyphs_pixel bytes.now text.now 0 x y ≡ false }
{
    let mut across = 0;
    let mut right = 0;
    for character in text {
        let glyph = glyph_of(bytes, *character);
        right = further(right, glyph_rect(bytes, glyph, across).right);
        across += u32::from(glyph.width);
    }
    right
}

/// A rectangle outside which a text has no pixel, seen from where its pen starts on the baseline.
pub fn text_rect(bytes: &[u8], text: &[u8]) -> Rect
    requires font { IsFont bytes.now }
    requires short { length text.now ≤ 65535 }
    ensures { (pen p : Point) → text_holds bytes.now text.now pen p ≡ true → rect_holds result (minus p pen) ≡ true }
{
    let top = -i32::from(word(bytes, 9));
    Rect {
        left: signed(word(bytes, 4)),
        top,
        right: reach(bytes, text),
        bottom: top + i32::from(word(bytes, 7)),
    }
}

/// Whether a text whose pen starts at `pen` has the pixel at `point`.
#[tactic(auto, unfolding(crate::specs::Text::text_holds))]
pub fn text_pixel(bytes: &[u8], text: &[u8], pen: Point, point: Point) -> bool
    requires font { IsFont bytes.now }
    requires short { length text.now ≤ 65535 }
    ensures { result ≡ text_holds bytes.now text.now pen point }
{
    glyphs_pixel(
        bytes,
        text,
        distance(pen.h, point.h),
        distance(pen.v, point.v),
    )
}
