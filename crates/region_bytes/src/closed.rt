//! Whether rows of points leave no column below the last, without memory.
ghost use Rattle.std.specs.Prelude.{◌≡◌, ◌<◌, ◌↔◌, ℕ, false, length, IsTrue, EachIndex, slice_index_or};
ghost use Rattle.std.specs.Int.{cast_signed, w16};
ghost use Rattle.region_bytes.specs.Scan.{IsData};
ghost use Rattle.region_bytes.specs.Words.{words_in};
ghost use Rattle.region_bytes.specs.Scan.{columns_in, odd_at};

use crate::judge::are_rows_of;
use crate::writing::END;

/// Whether no flag is set.
fn none_set(flags: &[bool]) -> bool
    ensures { IsTrue result ↔ EachIndex flags.now (λ k. slice_index_or flags.now k false ≡ false) }
{
    flags.iter().all(|flag| !*flag)
}

/// Whether each column of rows stands an even number of times.
pub fn is_closed(bytes: &[u8]) -> bool
    ensures { IsTrue result ↔ ((n : ℕ) → n < 65536
        → odd_at (cast_signed w16 n) (columns_in false (words_in bytes.now)) ≡ false) }
{
    let mut flags = [false; 65536];
    let mut within = false;
    let mut rest = bytes;
    while let [high, low, next @ ..] = rest {
        let word = u16::from_be_bytes([*high, *low]);
        let end = word == END as u16;
        let column = usize::from(word);
        flags[column] = flags[column] ^ (within & !end);
        within = !(within & end);
        rest = next;
    }
    none_set(&flags)
}

/// Whether the bytes are the data of rows that leave no column below the last.
pub fn is_data(bytes: &[u8]) -> bool
    ensures { IsTrue result ↔ IsData (words_in bytes.now) }
{
    if !are_rows_of(bytes) {
        return false;
    }
    is_closed(bytes)
}
