//! The size, the box and the data of a region's bytes.
ghost use Rattle.std.specs.Prelude.{◌≡◌, ◌<◌, ◌≤◌, ◌%◌, ◌+◌, ◌∷◌, ◌↔◌, List, length, pos, IsTrue, MatchOption};
ghost use Rattle.region_bytes.specs.Points.{PointRow};
ghost use Rattle.region_bytes.specs.Words.{words_in};
ghost use Rattle.region_bytes.specs.Bytes.{IsForm};
ghost use Rattle.region_bytes.specs.Text.{IsParted};

use tb_geom::Rect;

/// The first word of bytes, from -32768 to 32767, and the bytes after it.
pub fn first_word<'a>(bytes: &'a [u8]) -> Option<(i32, &'a [u8])>
    ensures { MatchOption result (length bytes.entry.now < 2)
        (λ r. (words_in bytes.entry.now ≡ r.0 ∷ words_in r.1.now) × (length bytes.entry.now ≡ 2 + length r.1.now)) }
{
    match bytes {
        [high, low, rest @ ..] => Some((i32::from(i16::from_be_bytes([*high, *low])), rest)),
        _ => None,
    }
}

/// Whether bytes are no more than 32766, of an even number, and of this number.
fn is_size(bytes: &[u8], size: i32) -> bool
    ensures { IsTrue result ↔ ((length bytes.now ≤ 32766) × (length bytes.now % 2 ≡ 0)
        × (size ≡ pos (length bytes.now))) }
{
    bytes.len() <= 32766 && (bytes.len() % 2 == 0 && bytes.len() as i32 == size)
}

/// The box of a region's bytes, and the data after it; None where there are fewer than 10 bytes or
/// more than 32766, an odd number of them, or another number than the first word says.
pub fn parted<'a>(bytes: &'a [u8]) -> Option<(Rect, &'a [u8])>
    ensures { MatchOption result ((rows : List PointRow) → IsForm bytes.entry.now rows → ⊥)
        (λ r. IsParted bytes.entry.now r.0 r.1.now) }
{
    let (size, rest) = first_word(bytes)?;
    let (top, rest) = first_word(rest)?;
    let (left, rest) = first_word(rest)?;
    let (bottom, rest) = first_word(rest)?;
    let (right, rest) = first_word(rest)?;
    if !is_size(bytes, size) {
        return None;
    }
    let bounds = Rect {
        left,
        top,
        right,
        bottom,
    };
    Some((bounds, rest))
}
