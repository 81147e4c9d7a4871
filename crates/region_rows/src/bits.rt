//! Bits in words, 64 in each.
ghost use Rattle.std.specs.Prelude.{◌≡◌, ℕ, ◌<◌, ◌≤◌, ◌*◌, true, false, ◌^◌, length, nat_eq};
ghost use Rattle.region_rows.specs.Edges.{differ};
ghost use Rattle.region_rows.specs.Bits.{has_bit};

/// Whether the bit in this place is set.
pub fn has_bit(words: &[u64], place: usize) -> bool
    requires { place < 64 * length words.now }
    ensures { result ≡ has_bit words.now place }
{
    (words[place / 64] >> (place % 64)) & 1 == 1
}

/// Turns the bit in this place.
pub fn flip(words: &mut [u64], place: usize)
    requires { place < 64 * length words.old }
    ensures length { length words.new ≡ length words.old }
    ensures bits { (k : ℕ) → has_bit words.new k ≡ differ (nat_eq k place) (has_bit words.old k) }
{
    words[place / 64] ^= 1 << (place % 64);
}

/// The first place from `from` on whose bit is set, or `to` if that comes first.
pub fn next_bit(words: &[u64], from: usize, to: usize) -> usize
    requires order { from ≤ to }
    requires within { to ≤ 64 * length words.now }
    requires small { 64 * length words.now < 2 ^ 32 }
    ensures on { from ≤ result }
    ensures up { result ≤ to }
    ensures none { (k : ℕ) → from ≤ k → k < result → has_bit words.now k ≡ false }
    ensures here { result < to → has_bit words.now result ≡ true }
{
    let mut at = from;
    while at < to {
        let rest = words[at / 64] >> (at % 64);
        if rest != 0 {
            return to.min(at + rest.trailing_zeros() as usize);
        }
        at = (at / 64 + 1) * 64;
    }
    to
}
