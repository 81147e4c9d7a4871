//! Patterns.
ghost use Rattle.std.specs.Prelude.{◌≡◌, ◌<◌};
ghost use Rattle.bit_map.specs.Patterns.{pattern_bit, bit_of, eighth_of};

use tb_geom::Point;

/// Eight rows of eight bits, the top row first and the high bit at the left, repeated over the plane
/// from the point 0 0 (*Inside Macintosh* I, "QuickDraw", "Patterns").
#[derive(Clone, Copy, Debug, PartialEq, Eq)]
pub struct Pattern {
    pub rows: [u8; 8],
}

impl Pattern {
    /// All black.
    pub const BLACK: Pattern = Pattern { rows: [0xFF; 8] };

    /// Three pixels in four are black.
    pub const DARK_GRAY: Pattern = Pattern {
        rows: [0x77, 0xDD, 0x77, 0xDD, 0x77, 0xDD, 0x77, 0xDD],
    };

    /// Every other pixel is black.
    pub const GRAY: Pattern = Pattern {
        rows: [0xAA, 0x55, 0xAA, 0x55, 0xAA, 0x55, 0xAA, 0x55],
    };

    /// One pixel in four is black.
    pub const LIGHT_GRAY: Pattern = Pattern {
        rows: [0x88, 0x22, 0x88, 0x22, 0x88, 0x22, 0x88, 0x22],
    };

    /// All white.
    pub const WHITE: Pattern = Pattern { rows: [0; 8] };

    /// The bit at any point of the plane: of row `v` modulo 8, at column `h` modulo 8.
    pub fn bit(self, point: Point) -> bool
        ensures { result ≡ pattern_bit self point }
    {
        bit_of(self.rows[eighth(point.v) as usize], eighth(point.h))
    }
}

/// The bit of a byte at a place, place 0 being the high bit.
pub fn bit_of(byte: u8, place: u8) -> bool
    requires { place < 8 }
    ensures { result ≡ bit_of byte place }
{
    (byte >> (7 - place)) % 2 == 1
}

/// The remainder by 8, 0..=7.
pub(crate) fn eighth(x: i32) -> u8
    ensures value { result ≡ eighth_of x }
    ensures below { result < 8 }
{
    x.rem_euclid(8) as u8
}
