//! The rows of spans that a cut leaves: first those of which it takes nothing away, and then those of a walk.
ghost use Rattle.std.specs.Prelude.{◌≡◌, ◌∷◌, [], pos, ◌<ℤ◌, IfSome, IfNone};
ghost use Rattle.tb_geom.specs.Points.{PixelSet};
ghost use Rattle.scan_region.specs.SpanRows.{AreRowsOf, IsFull, full_left, rows_left};

use crate::descent::Descent;
use crate::spans::Span;

/// The rows of a rectangle from the row `next` up to `bottom`, each one span.
#[derive(Clone, Copy)]
pub struct FullRows {
    pub left: i32,
    pub right: i32,
    pub next: i32,
    pub bottom: i32,
}

/// The rows of spans that are left. Both stand beside each other, since a value of one of two kinds would be
/// cleared and copied whole.
#[derive(Drop)]
pub struct SpanRows<'a> {
    /// Those of a rectangle.
    pub full: FullRows,
    /// Those of a walk along regions, which come after them.
    pub walked: Descent<'a>,
}

impl FullRows {
    /// The span of the next row.
    #[inline(always)]
    pub fn next_span(&mut self) -> Option<Span>
        requires { IsFull self.old }
        ensures full { IsFull self.new }
        ensures some { IfSome result (λ span. full_left self.old ≡ span ∷ full_left self.new) }
        ensures none { IfNone result ((full_left self.old ≡ []) × (full_left self.new ≡ [])) }
    {
        let v = self.next;
        if self.bottom <= v {
            return None;
        }
        self.next = v + 1;
        Some(Span {
            v,
            left: self.left,
            right: self.right,
        })
    }
}

impl SpanRows<'_> {
    /// The next span.
    #[inline(always)]
    pub fn next_span(&mut self) -> Option<Span>
        requires { (s : PixelSet) × AreRowsOf self.old s }
        ensures rows { (s : PixelSet) → AreRowsOf self.old s → AreRowsOf self.new s }
        ensures some { IfSome result (λ span. (s : PixelSet) → AreRowsOf self.old s
            → rows_left self.old s ≡ span ∷ rows_left self.new s) }
        ensures none { IfNone result ((s : PixelSet) → AreRowsOf self.old s
            → (rows_left self.old s ≡ []) × (rows_left self.new s ≡ [])) }
    {
        if let Some(span) = self.full.next_span() {
            return Some(span);
        }
        self.walked.next_span()
    }
}
