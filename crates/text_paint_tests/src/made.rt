//! Records, and what is painted of them.

ghost use Rattle.std.specs.Prelude.{◌≡◌, true};
ghost use Rattle.draw_port.specs.Origins.{is_near_origin};

use bit_map::{BitMap, Mode, Pattern};
use draw_port::Canvas;
use std::alloc::Global;
use strike_font::Font;
use tb_geom::{Point, Rect, Refusal};
use test_pixels::images::{NOTHING_CUT, shows};
use test_pixels::pixels::{are_alike, picture};
use test_pixels::{point, rect};
use text_paint::{Selection, draw_text_record, toggle_selection};
use text_record::{Justification, Metrics, Placing, TextRecord};

/// A map to paint on, the part of it that is painted, and where the 0 0 of the window lies.
#[derive(Clone, Copy)]
pub(crate) struct Sheet {
    pub(crate) width: i32,
    pub(crate) height: i32,
    pub(crate) clip: Rect,
    pub(crate) origin: Point,
    ghost near: { is_near_origin origin ≡ true },
}

impl Sheet {
    /// All of a map, with the 0 0 of the window at that of the map.
    pub(crate) fn of(width: i32, height: i32) -> Sheet {
        Sheet {
            width,
            height,
            clip: rect!(0, 0, width, height),
            origin: point!(0, 0),
        }
    }
}

/// A record of a text, with lines of 10 rows, 7 of them above the baseline, for the built-in font.
pub(crate) fn record(
    alloc: Global,
    placing: Placing,
    justification: Justification,
    wrap: bool,
    framed: bool,
    bytes: &[u8],
) -> Result<TextRecord, Refusal> {
    let metrics = Metrics {
        ascent: 7,
        descent: 1,
        leading: 2,
    };
    let mut text = TextRecord::new(
        alloc,
        &[6; 256],
        metrics,
        placing,
        justification,
        wrap,
        framed,
    )?;
    text.put(0, 0, bytes)?;
    Ok(text)
}

/// A record of a text that does not wrap, with lines of 3 rows, 2 of them above the baseline.
pub(crate) fn low_record(
    alloc: Global,
    placing: Placing,
    bytes: &[u8],
) -> Result<TextRecord, Refusal> {
    let metrics = Metrics {
        ascent: 2,
        descent: 1,
        leading: 0,
    };
    let mut text = TextRecord::new(
        alloc,
        &[6; 256],
        metrics,
        placing,
        Justification::Left,
        false,
        false,
    )?;
    text.put(0, 0, bytes)?;
    Ok(text)
}

/// A map that is black but for what a record shows.
pub(crate) fn painted(
    alloc: Global,
    font: &Font,
    text: &TextRecord,
    sheet: Sheet,
) -> Result<BitMap, Refusal> {
    let mut map = BitMap::new(alloc, sheet.width, sheet.height)?;
    let bounds = map.bounds();
    let mut canvas = Canvas {
        map: &mut map,
        clip: bounds,
        origin: point!(0, 0),
        cut: &NOTHING_CUT,
        font,
    };
    canvas.fill_all(Pattern::BLACK, Mode::Copy);
    paint(&mut map, font, text, sheet);
    Ok(map)
}

/// Whether this is what a black map has once a record is drawn on it in the built-in font.
pub(crate) fn is_painted(
    alloc: Global,
    text: &TextRecord,
    sheet: Sheet,
    rows: &str,
) -> Result<bool, Refusal> {
    let font = Font::built_in(alloc)?;
    let map = painted(alloc, &font, text, sheet)?;
    let image = picture(alloc, &map, map.bounds())?;
    Ok(shows(&image, rows))
}

/// Whether a map that shows the first of two records, which differ in their selections, has the pixels of the second once the
/// selection is toggled, as they are where the second is drawn.
pub(crate) fn is_toggled(
    alloc: Global,
    before: &TextRecord,
    after: &TextRecord,
    sheet: Sheet,
) -> Result<bool, Refusal> {
    let font = Font::built_in(alloc)?;
    let mut toggled = painted(alloc, &font, before, sheet)?;
    let drawn = painted(alloc, &font, after, sheet)?;
    let mut canvas = Canvas {
        map: &mut toggled,
        clip: sheet.clip,
        origin: sheet.origin,
        cut: &NOTHING_CUT,
        font: &font,
    };
    toggle_selection(after, Selection::of(before), &mut canvas);
    Ok(are_alike(&toggled, &drawn, drawn.bounds()))
}

/// Draws a record on a map.
fn paint(map: &mut BitMap, font: &Font, text: &TextRecord, sheet: Sheet) {
    let mut canvas = Canvas {
        map,
        clip: sheet.clip,
        origin: sheet.origin,
        cut: &NOTHING_CUT,
        font,
    };
    draw_text_record(text, &mut canvas);
}
