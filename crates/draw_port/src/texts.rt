//! Drawing texts, by tiles of 512 columns and 16 rows.
ghost use Rattle.std.specs.Prelude.{◌≡◌, false, ℕ, ℤ, List, ◌≤◌, ◌≤ℤ◌, ◌<ℤ◌, ◌-ℤ◌, ◌+ℤ◌, pos, true, ◌&&◌, ◌*◌, length};
ghost use Rattle.std.specs.Prelude.{if◌then◌else◌};
ghost use Rattle.tb_geom.specs.declared.point.Point.{Point};
ghost use Rattle.tb_geom.specs.Rects.{rect_holds};
ghost use Rattle.bit_map.specs.Modes.{mode_bit};
ghost use Rattle.bit_blit.specs.Draws.{Draws};
ghost use Rattle.strike_font.specs.Text.{IsSized, text_holds};
ghost use Rattle.strike_font.specs.Tiles.{tile_bit};
ghost use Rattle.draw_port.specs.Canvases.{canvas_holds, canvas_point, clipped_holds, SameFrame};
ghost use Rattle.draw_port.specs.Places.{is_far};
ghost use Rattle.draw_port.specs.Texts.{put_value};

use crate::canvas::Canvas;
use crate::placed::placed;
use bit_blit::Rule;
use bit_map::{Effects, Mode, blended};
use scan_region::Region;
use strike_font::{Font, Tile};
use tb_geom::{Point, Rect};

impl Canvas<'_> {
    /// Puts a text down by a mode within a clip, which is in the coordinates of the canvas. A pixel that
    /// several glyphs have is drawn once.
    pub(crate) fn clipped_text(
        &mut self,
        clip: &Option<Region>,
        text: &[u8],
        pen: Point,
        mode: Mode,
    )
        requires { length text.now ≤ 65535 }
        ensures same_map { self.new.map.ghost_name ≡ self.old.map.ghost_name }
        ensures same_frame { SameFrame self.old self.new }
        ensures drawn { Draws (clipped_holds self.old clip.now text.now pen)
            (λ _ old. mode_bit mode true old)
            self.old.map.now self.new.map.now }
    {
        let put = Put {
            clip,
            text,
            pen,
            mode,
        };
        let reach = self.reach();
        let around = around(self.font, text, pen, reach.right);
        self.put_rows(&put, reach.sect(around));
    }

    /// Puts down what a text has in a rectangle, 16 rows at a time.
    fn put_rows(&mut self, put: &Put, rect: Rect)
        ensures same_map { self.new.map.ghost_name ≡ self.old.map.ghost_name }
        ensures same_frame { SameFrame self.old self.new }
        ensures drawn { Draws (λ p. canvas_holds self.old p && rect_holds rect (canvas_point self.old p))
            (λ p old. put_value self.old.font.now put.now.clip.now put.now.text.now put.now.pen put.now.mode
            (canvas_point self.old p) old)
            self.old.map.now self.new.map.now }
    {
        let mut top = rect.top;
        while top < rect.bottom {
            let bottom = after(top, 16, rect.bottom);
            self.put_columns(
                put,
                Rect {
                    top,
                    bottom,
                    ..rect
                },
            );
            top = bottom;
        }
    }

    /// Puts down what a text has in a rectangle of at most 16 rows, 512 columns at a time.
    fn put_columns(&mut self, put: &Put, rect: Rect)
        requires { rect.bottom ≤ℤ (rect.top +ℤ pos 16) }
        ensures same_map { self.new.map.ghost_name ≡ self.old.map.ghost_name }
        ensures same_frame { SameFrame self.old self.new }
        ensures drawn { Draws (λ p. canvas_holds self.old p && rect_holds rect (canvas_point self.old p))
            (λ p old. put_value self.old.font.now put.now.clip.now put.now.text.now put.now.pen put.now.mode
            (canvas_point self.old p) old)
            self.old.map.now self.new.map.now }
    {
        let mut left = rect.left;
        while left < rect.right {
            let right = after(left, 512, rect.right);
            self.put_tile(
                put,
                Rect {
                    left,
                    right,
                    ..rect
                },
            );
            left = right;
        }
    }

    /// Puts down what a text has in a rectangle of at most 512 columns and 16 rows.
    fn put_tile(&mut self, put: &Put, rect: Rect)
        requires rows { rect.bottom ≤ℤ (rect.top +ℤ pos 16) }
        requires columns { rect.right ≤ℤ (rect.left +ℤ pos 512) }
        ensures same_map { self.new.map.ghost_name ≡ self.old.map.ghost_name }
        ensures same_frame { SameFrame self.old self.new }
        ensures drawn { Draws (λ p. canvas_holds self.old p && rect_holds rect (canvas_point self.old p))
            (λ p old. put_value self.old.font.now put.now.clip.now put.now.text.now put.now.pen put.now.mode
            (canvas_point self.old p) old)
            self.old.map.now self.new.map.now }
    {
        let place = Point {
            h: rect.left,
            v: rect.top,
        };
        let x = difference(place.h, put.pen.h);
        let y = difference(place.v, put.pen.v);
        let (tile, reach) = self.font.tile_and_reach(put.text, x, y);
        let rule = PutTile {
            tile: &tile,
            place,
            mode: put.mode,
        };
        let right = narrowed(rect.right, put.pen.h, reach);
        self.draw_clipped(put.clip, Rect { right, ..rect }, &rule);
    }
}

/// A rectangle around a text whose pen starts at `pen`, of which no pixel in the column `end` and right of it is drawn.
/// Where one tile goes so far, it is not asked how far the text goes: the tile tells it.
fn around(font: &Font, text: &[u8], pen: Point, end: i32) -> Rect
    requires { length text.now ≤ 65535 }
    ensures { (p : Point) → is_far p ≡ false → text_holds font.now text.now pen p ≡ true → rect_holds result p ≡ true }
{
    let band = band(font, pen);
    if difference(end, band.left) <= 512 {
        band
    } else {
        placed(font.text_rect(text), pen)
    }
}

/// The rows of any text whose pen starts at `pen`, from the first column on in which it may have a pixel.
fn band(font: &Font, pen: Point) -> Rect
    ensures { (text : List ℕ) (p : Point) → is_far p ≡ false → text_holds font.now text pen p ≡ true
        → rect_holds result p ≡ true }
{
    let top = pen.v.saturating_sub(i32::from(font.ascent()));
    Rect {
        left: pen.h.saturating_add(font.kern()),
        top,
        right: i32::MAX,
        bottom: top.saturating_add(i32::from(font.height())),
    }
}

/// The side of a rectangle, or where a text ends that reaches so far right of its pen, if that lies further left.
fn narrowed(right: i32, pen: i32, reach: i32) -> i32
    ensures within { result ≤ℤ right }
    ensures past { (x : ℤ) → result ≤ℤ x → x <ℤ right → (pen +ℤ reach) ≤ℤ x }
{
    right.min(pen.saturating_add(reach))
}

/// A text that is put down by a mode within a clip, all in the coordinates of a canvas.
#[derive(Drop)]
struct Put<'a> {
    clip: &'a Option<Region>,
    text: &'a [u8],
    pen: Point,
    mode: Mode,
    ghost short: { length text.now ≤ 65535 },
}

/// A tile whose top left pixel lies at a place, put down by a mode.
#[derive(Drop)]
struct PutTile<'a> {
    tile: &'a Tile,
    place: Point,
    mode: Mode,
}

impl Rule for PutTile<'_> {
    ghost value = { λ t p old. if tile_bit t.tile.now (p.h -ℤ t.place.h) (p.v -ℤ t.place.v)
        then mode_bit t.mode true old else old };

    fn value(&self, point: Point, old: bool) -> bool {
        let x = difference(point.h, self.place.h);
        let y = difference(point.v, self.place.v);
        if self.tile.bit(x, y) {
            self.mode.apply(true, old)
        } else {
            old
        }
    }

    fn word(&self, start: Point, _count: usize, old: u64) -> u64 {
        let x = difference(start.h, self.place.h);
        let y = difference(start.v, self.place.v);
        let bits = self.tile.word(x, y);
        let black = Effects::all(self.mode.effect(true));
        blended(old, black.of(old), bits)
    }

    fn words(&self, start: Point, run: &mut [u64]) {
        let x = difference(start.h, self.place.h);
        let y = difference(start.v, self.place.v);
        let black = Effects::all(self.mode.effect(true));
        for (k, word) in run.iter_mut().enumerate() {
            let bits = self.tile.word(column_at(x, k), y);
            *word = blended(*word, black.of(*word), bits);
        }
    }
}

/// The column at which a word begins in a run of them that begins in the column `x`.
fn column_at(x: i64, k: usize) -> i64
    requires x_near { IsSized 33 x }
    requires k_near { 64 * k ≤ 2147483647 }
    ensures { result ≡ x +ℤ pos (64 * k) }
{
    x + (64 * k) as i64
}

/// The number `step` above another, or `last` where that is less.
fn after(x: i32, step: i32, last: i32) -> i32
    requires some { pos 0 <ℤ step }
    requires before { x <ℤ last }
    ensures more { x <ℤ result }
    ensures within { result ≤ℤ last }
    ensures near { result ≤ℤ (x +ℤ step) }
{
    x.saturating_add(step).min(last)
}

/// How far `a` lies from `b`.
fn difference(a: i32, b: i32) -> i64
    ensures value { result ≡ a -ℤ b }
    ensures small { IsSized 33 result }
{
    i64::from(a) - i64::from(b)
}
