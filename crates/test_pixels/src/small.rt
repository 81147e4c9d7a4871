//! A FONT record of 42 bytes, and others that differ from it in a word.
ghost use Rattle.std.specs.Prelude.{◌≡◌, ◌<◌};
ghost use Rattle.strike_font.specs.Record.{word};

/// A font of the one character A, which has 2 columns and is 3 wide, and of the missing symbol, which has one column and
/// is 2 wide. Both have 2 rows above the baseline and none below. The strike is 101 over 011, in one word a row.
pub const SMALL: [u8; 42] = [
    0x90, 0x00, 0x00, 0x41, 0x00, 0x41, 0x00, 0x04, 0x00, 0x00, 0x00, 0x00, 0x00, 0x03, 0x00, 0x02,
    0x00, 0x0A, 0x00, 0x02, 0x00, 0x00, 0x00, 0x00, 0x00, 0x01, 0xA0, 0x00, 0x60, 0x00, 0x00, 0x00,
    0x00, 0x02, 0x00, 0x03, 0x00, 0x03, 0x00, 0x02, 0xFF, 0xFF,
];

/// The record with another word at this place.
#[tactic(auto, unfolding(strike_font::specs::Record::word))]
pub fn with_word(mut record: [u8; 42], place: usize, value: u16) -> [u8; 42]
    requires { place < 21 }
    ensures { word result place ≡ value }
{
    record[2 * place] = (value / 256) as u8;
    record[2 * place + 1] = (value % 256) as u8;
    record
}
