//! What a text record keeps of a font.
ghost use Rattle.text_mgr.specs.FontRecords.{AreMetricsOf, AreWidthsOf};

use strike_font::Font;
use text_lines::ByteWidths;
use text_record::Metrics;

/// The widths of all bytes in a font.
pub(crate) fn widths_of(font: &Font) -> ByteWidths
    ensures { AreWidthsOf font.now result }
{
    let mut widths = [0; 256];
    for byte in 0..256 {
        widths[byte] = font.glyph(byte as u8).width;
    }
    widths
}

/// What a font says of the height of lines.
pub(crate) fn metrics_of(font: &Font) -> Metrics
    ensures { AreMetricsOf font.now result }
{
    Metrics {
        ascent: font.ascent(),
        descent: font.descent(),
        leading: font.leading(),
    }
}
