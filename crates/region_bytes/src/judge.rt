//! Whether bytes are those of a region, without memory.
ghost use Rattle.std.specs.Prelude.{◌≡◌, ◌∷◌, List, ℤ, negsuc, false};
ghost use Rattle.region_bytes.specs.Words.{words_in};
ghost use Rattle.region_bytes.specs.Scan.{is_nil, are_rows, from_place, outcome};

use crate::writing::END;

/// How far rows are read: the last row and column, -32769 before the first, and whether a row is
/// open and has an odd number of columns.
#[derive(Clone, Copy)]
pub struct Place {
    pub v: i32,
    pub h: i32,
    pub within: bool,
    pub odd: bool,
}

/// What a word of rows leads to.
#[derive(Clone, Copy)]
pub enum Step {
    Go(Place),
    Stop(bool),
}

/// Reads one word of rows, which may be the last.
fn read_word(at: Place, word: i32, last: bool) -> Step
    ensures { (ws : List ℤ) → last ≡ is_nil ws → outcome result ws ≡ from_place at (word ∷ ws) }
{
    if !at.within {
        if word == END {
            return Step::Stop(last);
        }
        if word <= at.v {
            return Step::Stop(false);
        }
        return Step::Go(Place {
            v: word,
            h: -32769,
            within: true,
            odd: false,
        });
    }
    if word == END {
        if at.odd || at.h <= -32769 {
            return Step::Stop(false);
        }
        return Step::Go(Place {
            within: false,
            ..at
        });
    }
    if word <= at.h {
        return Step::Stop(false);
    }
    Step::Go(Place {
        h: word,
        odd: !at.odd,
        ..at
    })
}

/// Whether the bytes are the data of rows.
pub fn are_rows_of(bytes: &[u8]) -> bool
    ensures { result ≡ are_rows (negsuc 32768) (negsuc 32768) false false (words_in bytes.now) }
{
    let mut at = Place {
        v: -32769,
        h: -32769,
        within: false,
        odd: false,
    };
    let mut rest = bytes;
    while let [high, low, next @ ..] = rest {
        let word = i32::from(i16::from_be_bytes([*high, *low]));
        match read_word(at, word, next.len() < 2) {
            Step::Stop(answer) => return answer,
            Step::Go(place) => at = place,
        }
        rest = next;
    }
    false
}
