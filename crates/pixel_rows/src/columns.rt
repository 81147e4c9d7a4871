//! Some columns of a row, one bit each.
ghost use Rattle.std.specs.Prelude.{◌≡◌, ◌<◌, ◌*◌, ℕ, length, nat_eq, negsuc, ◌&&◌, ◌||◌, Bool, false, true, ℤ};
ghost use Rattle.tb_geom.specs.Rects.{is_coordinate, is_in_range};
ghost use Rattle.region_rows.specs.Bits.{has_bit};
ghost use Rattle.region_rows.specs.Counts.{count_to};
ghost use Rattle.region_rows.specs.Edges.{differ};

use shape_strips::Run;
use tb_geom::{FIRST_SIDE, LAST_SIDE, Rect};

/// A set of columns in -16384..=16383.
#[derive(Clone, Copy)]
pub struct Columns {
    /// Their bits, from the column -16384 on.
    words: [u64; 512],
    ghost size: { length words ≡ 512 },
}

impl Columns {
    ghost use Rattle.std.specs.Ordering.{int_eq};
    ghost use Rattle.pixel_rows.specs.Columns.{AreEdgesOf, changes, has_column};
    ghost use Rattle.pixel_rows.specs.Bounds.{IsPlaced};
    ghost use Rattle.shape_strips.specs.Runs.{run_holds};

    /// No column.
    pub fn none() -> Columns
        ensures { (h : ℤ) → has_column result h ≡ false }
    {
        Columns { words: [0; 512] }
    }

    /// Whether the column `h`, which may be any, is one of them.
    pub fn has(&self, h: i32) -> bool
        ensures { result ≡ has_column self.now h }
    {
        is_column(h) && has_bit(&self.words, place_of(h))
    }

    /// Takes the column `h` out, or puts it in. A column out of range is passed over.
    pub fn flip(&mut self, h: i32)
        ensures { (x : ℤ) → has_column self.new x ≡ differ (is_coordinate x && int_eq h x) (has_column self.old x) }
    {
        if is_column(h) {
            flip(&mut self.words, place_of(h));
        }
    }

    /// Puts the column `h` in. A column out of range is passed over.
    fn put(&mut self, h: i32)
        ensures { (x : ℤ) → has_column self.new x ≡ ((is_coordinate x && int_eq h x) || has_column self.old x) }
    {
        if !self.has(h) {
            self.flip(h);
        }
    }

    /// Puts the columns of a run in.
    pub fn put_run(&mut self, run: Run)
        requires { IsPlaced run }
        ensures { (x : ℤ) → has_column self.new x ≡ (run_holds run x || has_column self.old x) }
    {
        for h in run.left..run.right {
            self.put(h);
        }
    }

    /// The columns of a row within the bounds that begins or ends at each of these: those at which, or left of which, an
    /// odd number of these lies.
    pub fn turned(&self, bounds: Rect) -> Columns
        requires { is_in_range bounds ≡ true }
        ensures { (row : ℤ → Bool) → AreEdgesOf self.now bounds.left bounds.right row → (h : ℤ)
            → has_column result h ≡ row h }
    {
        let mut row = Columns::none();
        let mut within = false;
        for h in bounds.left..bounds.right {
            within = differ(within, self.has(h));
            if within {
                row.flip(h);
            }
        }
        row
    }

    /// Whether the column `h` is one of these or of the others, and not of both.
    pub fn differs_at(&self, other: &Columns, h: i32) -> bool
        ensures { result ≡ changes self.now other.now h }
    {
        differ(self.has(h), other.has(h))
    }
}

/// One of the two, and not both.
pub fn differ(a: bool, b: bool) -> bool
    ensures { result ≡ differ a b }
{
    a != b
}

/// Whether a column lies in -16384..=16383.
fn is_column(h: i32) -> bool
    ensures { result ≡ is_coordinate h }
{
    FIRST_SIDE <= h && h <= LAST_SIDE
}

/// The place of the bit of a column.
fn place_of(h: i32) -> usize
    requires { is_coordinate h ≡ true }
    ensures value { result ≡ count_to (negsuc 16383) h }
    ensures room { result < 32768 }
{
    (h - FIRST_SIDE) as usize
}

/// Whether the bit in this place is set.
fn has_bit(words: &[u64], place: usize) -> bool
    requires { place < 64 * length words.now }
    ensures { result ≡ has_bit words.now place }
{
    (words[place / 64] >> (place % 64)) & 1 == 1
}

/// Turns the bit in this place.
fn flip(words: &mut [u64], place: usize)
    requires { place < 64 * length words.old }
    ensures length { length words.new ≡ length words.old }
    ensures bits { (k : ℕ) → has_bit words.new k ≡ differ (nat_eq k place) (has_bit words.old k) }
{
    words[place / 64] ^= 1 << (place % 64);
}
