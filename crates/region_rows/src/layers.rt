//! How a region lets the pixels of a row through, row after row.
ghost use Rattle.std.specs.Prelude.{◌≡◌, ◌⊎◌, ◌+◌, ◌<◌, ◌≤◌, ℕ, List, ◌∷◌, [], ℤ, Bool, pos, length, ◌≤ℤ◌, ◌<ℤ◌, map};
ghost use Rattle.std.specs.Prelude.{All, IfSome, IfNone};
ghost use Rattle.tb_geom.specs.Points.{PixelSet};
ghost use Rattle.region_bytes.specs.Points.{IsInRange};
ghost use Rattle.region_rows.specs.Bits.{has_bit};
ghost use Rattle.region_rows.specs.Edges.{differ, inside, IsCoordinate};
ghost use Rattle.region_rows.specs.Lines.{IsLine};
ghost use Rattle.region_rows.specs.Seen.{seen, sign};
ghost use Rattle.region_rows.specs.Counts.{count_to};

use crate::line::Line;
use crate::row::Row;

/// Which pixels of a row one region lets through, between two columns.
#[derive(Clone, Copy)]
pub struct Layer<'a> {
    /// The rows of points below the row at hand, or above it.
    pub rows: &'a [Row],
    /// Whether rows are gone through from the last one up, and their columns from the last one on.
    pub up: bool,
    pub line: Line,
    /// Whether the pixel at hand is let through.
    pub counts: bool,
}

/// A row of points, and those after it.
#[derive(Clone, Copy)]
struct NextRow<'a> {
    v: i32,
    points: &'a [i32],
    rest: &'a [Row],
}

/// A column or a row, as it is seen.
pub fn signed(up: bool, x: i32) -> i32
    requires { IsCoordinate x }
    ensures { result ≡ sign up x }
{
    if up {
        return -1 - x;
    }
    x
}

/// The row that comes first, and the others.
fn next_row(rows: &[Row], up: bool) -> Option<NextRow<'_>>
    requires { All IsInRange rows.now }
    ensures none { IfNone result (rows.now ≡ []) }
    ensures some { IfSome result (λ next. seen up rows.now
        ≡ (next.v, map (sign up) next.points.now) ∷ seen up next.rest.now) }
    ensures columns { IfSome result (λ next. All IsCoordinate next.points.now) }
    ensures rest { IfSome result (λ next. All IsInRange next.rest.now) }
{
    if up {
        let (row, rest) = rows.split_last()?;
        return Some(NextRow {
            v: signed(up, row.v()),
            points: row.points(),
            rest,
        });
    }
    let (row, rest) = rows.split_first()?;
    Some(NextRow {
        v: signed(up, row.v()),
        points: row.points(),
        rest,
    })
}

/// Turns a line at the points of a row.
fn toggle_points(line: &mut Line, words: &mut [u64], points: &[i32], up: bool)
    requires size { length words.old ≡ 128 }
    requires in_range { All IsCoordinate points.now }
    ensures line { (f : ℤ → Bool) → IsLine words.old line.old f
        → IsLine words.new line.new (λ h. differ (inside (map (sign up) points.now) h) (f h)) }
    ensures apart { (k : ℕ) → (k < line.old.base) ⊎ (line.old.base + count_to line.old.left line.old.right ≤ k)
        → has_bit words.new k ≡ has_bit words.old k }
    ensures length { length words.new ≡ length words.old }
    ensures left { line.new.left ≡ line.old.left }
    ensures right { line.new.right ≡ line.old.right }
    ensures base { line.new.base ≡ line.old.base }
{
    for &x in points {
        line.toggle(words, signed(up, x));
    }
}

impl Layer<'_> {
    ghost use Rattle.region_rows.specs.Layers.{HasRows, IsLayer, IsLayerTo};

    /// Reads the rows up to the row `v`.
    fn read_to(&mut self, words: &mut [u64], v: i32)
        requires rows { HasRows self.old }
        requires size { length words.old ≡ 128 }
        ensures layer { (s : PixelSet) (f : ℤ → Bool) (w : ℤ) → w ≤ℤ v → IsLayerTo words.old self.old s f w
            → IsLayerTo words.new self.new s (λ h. s (record { h = h; v = v })) v }
        ensures rows { HasRows self.new }
        ensures apart { (k : ℕ) → (k < self.old.line.base)
            ⊎ (self.old.line.base + count_to self.old.line.left self.old.line.right ≤ k)
            → has_bit words.new k ≡ has_bit words.old k }
        ensures length { length words.new ≡ length words.old }
        ensures left { self.new.line.left ≡ self.old.line.left }
        ensures right { self.new.line.right ≡ self.old.line.right }
        ensures base { self.new.line.base ≡ self.old.line.base }
    {
        while let Some(next) = next_row(self.rows, self.up) {
            if v < next.v {
                return;
            }
            toggle_points(&mut self.line, words, next.points, self.up);
            self.rows = next.rest;
        }
    }

    /// Goes on to the first pixel of the row `v`.
    pub fn down(&mut self, words: &mut [u64], v: i32)
        requires rows { HasRows self.old }
        requires size { length words.old ≡ 128 }
        ensures layer { (s : PixelSet) (f : ℤ → Bool) (w : ℤ) → w ≤ℤ v → IsLayerTo words.old self.old s f w
            → IsLayer words.new self.new s v self.new.line.left }
        ensures rows { HasRows self.new }
        ensures apart { (k : ℕ) → (k < self.old.line.base)
            ⊎ (self.old.line.base + count_to self.old.line.left self.old.line.right ≤ k)
            → has_bit words.new k ≡ has_bit words.old k }
        ensures length { length words.new ≡ length words.old }
        ensures left { self.new.line.left ≡ self.old.line.left }
        ensures right { self.new.line.right ≡ self.old.line.right }
        ensures base { self.new.line.base ≡ self.old.line.base }
    {
        self.read_to(words, v);
        self.counts = self.line.first;
    }

    /// The next row at which the layer turns, or the last number if there is none.
    pub fn until(&self) -> i32
        requires { HasRows self.now }
        ensures { (words : List ℕ) (s : PixelSet) (f : ℤ → Bool) (v : ℤ) → IsLayerTo words self.now s f v
            → (h w : ℤ) → v ≤ℤ w → w <ℤ result → s (record { h = h; v = w }) ≡ f h }
    {
        match next_row(self.rows, self.up) {
            Some(next) => next.v,
            None => i32::MAX,
        }
    }

    /// Goes on to the pixel in the column `to`, before which the layer does not turn.
    pub fn pass(&mut self, words: &[u64], to: i32)
        requires size { length words.now ≡ 128 }
        requires left { self.old.line.left <ℤ to }
        requires right { to <ℤ self.old.line.right }
        ensures layer { (s : PixelSet) (v at : ℤ) → at <ℤ to
            → ((x : ℤ) → at ≤ℤ x → x <ℤ to → s (record { h = x; v = v }) ≡ s (record { h = at; v = v }))
            → IsLayer words.now self.old s v at → IsLayer words.now self.new s v to }
        ensures line { self.new.line ≡ self.old.line }
        ensures rows { HasRows self.old → HasRows self.new }
    {
        if self.line.is_turn(words, to) {
            self.counts = !self.counts;
        }
    }
}
