//! The names of patterns and modes.
ghost use Rattle.std.specs.Prelude.{◌≡◌};
ghost use Rattle.line_words.specs.Tables.{named};
ghost use Rattle.command_words.specs.Names.{pattern_modes, patterns, shade_of, source_mode_of, text_mode_of};

use bit_map::{Mode, Pattern};
use draw_port::{Shade, TextMode};
use line_words::named;
use tb_geom::BytesRef;

static PATTERNS: [(&[u8], Pattern); 5] = [
    (b"black", Pattern::BLACK),
    (b"dkGray", Pattern::DARK_GRAY),
    (b"gray", Pattern::GRAY),
    (b"ltGray", Pattern::LIGHT_GRAY),
    (b"white", Pattern::WHITE),
];

static TEXT_MODES: [(&[u8], TextMode); 3] = [
    (b"srcOr", TextMode::Or),
    (b"srcXor", TextMode::Xor),
    (b"srcBic", TextMode::Bic),
];

/// A pattern put down by a mode, from the names of both; None where one of them is no such name.
#[tactic(auto, unfolding(crate::specs::Names::shade_of))]
pub fn shade_of(mode: &BytesRef<'_>, pattern: &BytesRef<'_>) -> Option<Shade>
    ensures { result ≡ shade_of mode.now pattern.now }
{
    let mode = pattern_mode(mode)?;
    let pattern = pattern_of(pattern)?;
    Some(Shade { pattern, mode })
}

/// The pattern with this name.
fn pattern_of(name: &BytesRef<'_>) -> Option<Pattern>
    ensures { result ≡ named name.now patterns }
{
    named(&PATTERNS, name.as_slice())
}

/// The mode with this name for a pattern.
fn pattern_mode(name: &BytesRef<'_>) -> Option<Mode>
    ensures { result ≡ named name.now pattern_modes }
{
    Mode::from_pattern_name(name.as_slice())
}

/// The mode with this name for an image.
pub fn source_mode_of(name: &BytesRef<'_>) -> Option<Mode>
    ensures { result ≡ source_mode_of name.now }
{
    Mode::from_source_name(name.as_slice())
}

/// The mode with this name for a text.
#[tactic(auto, unfolding(crate::specs::Names::text_mode_of))]
pub fn text_mode_of(name: &BytesRef<'_>) -> Option<TextMode>
    ensures { result ≡ text_mode_of name.now }
{
    named(&TEXT_MODES, name.as_slice())
}
