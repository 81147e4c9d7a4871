//! Records to try.

use std::alloc::Global;
use tb_geom::{Rect, Refusal};
use text_edits::{key, select, set_text};
use text_lines::ByteWidths;
use text_record::{Justification, Metrics, Placing, TextRecord};

/// As the built-in font: each byte is 6 pixels wide.
const SIX: ByteWidths = [6; 256];

/// As the built-in font: lines of 10 pixels, with 7 above the baseline.
fn built_in() -> Metrics {
    Metrics {
        ascent: 7,
        descent: 1,
        leading: 2,
    }
}

/// Where a text stands that begins at 4 4 and is 61 wide.
pub(crate) fn standing() -> Placing {
    Placing {
        left: 4,
        top: 4,
        width: 61,
        view: Rect {
            left: 4,
            top: 4,
            right: 62,
            bottom: 40,
        },
    }
}

/// A record without text.
pub(crate) fn record(
    alloc: Global,
    placing: Placing,
    justification: Justification,
    wrap: bool,
) -> Result<TextRecord, Refusal> {
    TextRecord::new(alloc, &SIX, built_in(), placing, justification, wrap, false)
}

/// Whether a line has the bytes from one offset up to another.
pub(crate) fn line_is(record: &TextRecord, number: usize, start: u16, end: u16) -> bool {
    if number < record.line_count() {
        let line = record.line(number);
        line.start == start && line.end == end
    } else {
        false
    }
}

/// Whether the bytes are these.
pub(crate) fn same(bytes: &[u8], these: &[u8]) -> bool {
    bytes == these
}

/// Whether the text is this.
pub(crate) fn reads(record: &TextRecord, these: &[u8]) -> bool {
    record.bytes() == these
}

/// Whether this is selected.
pub(crate) fn selects(record: &TextRecord, start: usize, end: usize) -> bool {
    record.selection() == (start, end)
}

/// Writes a text in the place of all.
pub(crate) fn write(record: &mut TextRecord, text: &[u8]) -> Result<(), Refusal> {
    set_text(record, text)
}

/// Types keys, one after another.
pub(crate) fn press(record: &mut TextRecord, codes: &[u8]) -> Result<(), Refusal> {
    for code in codes {
        key(record, *code)?;
    }
    Ok(())
}

/// Selects bytes.
pub(crate) fn mark(record: &mut TextRecord, start: i32, end: i32) -> Result<(), Refusal> {
    select(record, start, end)
}
