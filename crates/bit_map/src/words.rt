//! Words of 64 bits.
ghost use Rattle.std.specs.Prelude.{◌≡◌, ◌<◌, ◌≤◌, ◌+◌, ◌&&◌, ℕ, nat_eq, nat_le, nat_lt, if◌then◌else◌};
ghost use Rattle.std.specs.Prelude.{pos, ◌+ℤ◌};
ghost use Rattle.bit_map.specs.Bits.{is_below};
ghost use Rattle.bit_map.specs.Words.{bit_in};

/// The bit of a word at a place, place 0 being the high bit.
#[tactic(auto, unfolding(crate::specs::Words::bit_in))]
pub fn bit_in(word: u64, place: usize) -> bool
    requires { place < 64 }
    ensures { result ≡ bit_in word place }
{
    (word >> (63 - place)) % 2 == 1
}

/// The word with this bit at a place, and no other that is black.
pub fn one_bit(place: usize, bit: bool) -> u64
    requires { place < 64 }
    ensures { (k : ℕ) → k < 64 → bit_in result k ≡ (nat_eq k place && bit) }
{
    u64::from(bit) << (63 - place)
}

/// The word whose bits are all this one.
pub(crate) fn full(bit: bool) -> u64
    ensures { (k : ℕ) → k < 64 → bit_in result k ≡ bit }
{
    if bit { u64::MAX } else { 0 }
}

/// The word that is black from a place on.
pub(crate) fn black_from(place: usize) -> u64
    requires { place ≤ 64 }
    ensures { (k : ℕ) → k < 64 → bit_in result k ≡ nat_le place k }
{
    if place < 64 { u64::MAX >> place } else { 0 }
}

/// The word that is black from a place on and up to another.
pub fn black_between(first: usize, end: usize) -> u64
    requires first_in { first ≤ 64 }
    requires end_in { end ≤ 64 }
    ensures { (k : ℕ) → k < 64 → bit_in result k ≡ (nat_le first k && nat_lt k end) }
{
    black_from(first) & !black_from(end)
}

/// The word that is black at `count` places from one on.
pub(crate) fn black_run(first: usize, count: usize) -> u64
    requires some { 0 < count }
    requires one { first + count ≤ 64 }
    ensures { (k : ℕ) → k < 64 → bit_in result k ≡ (nat_le first k && nat_lt k (first + count)) }
{
    (u64::MAX << (64 - count)) >> first
}

/// The word with this bit at a place.
pub(crate) fn with_bit(word: u64, place: usize, bit: bool) -> u64
    requires { place < 64 }
    ensures { (k : ℕ) → k < 64 → bit_in result k ≡ (if nat_eq k place then bit else bit_in word k) }
{
    (word & !one_bit(place, true)) | one_bit(place, bit)
}

/// The bits of `new` where the mask is black, and those of `old` elsewhere.
pub fn blended(old: u64, new: u64, mask: u64) -> u64
    ensures { (k : ℕ) → k < 64 → bit_in result k ≡ (if bit_in mask k then bit_in new k else bit_in old k) }
{
    old ^ ((old ^ new) & mask)
}

/// The word that is black at those of the 64 numbers from `start` on that are in `0..limit`.
pub fn held(limit: u16, start: i32) -> u64
    ensures { (k : ℕ) → k < 64 → bit_in result k ≡ is_below limit (start +ℤ pos k) }
{
    let limit = usize::from(limit);
    if start < 0 {
        let back = (start.unsigned_abs() as usize).min(64);
        black_between(back, (limit + back).min(64))
    } else {
        let ahead = start.unsigned_abs() as usize;
        black_between(0, limit.saturating_sub(ahead).min(64))
    }
}
