//! The spans of a region, row by row.
ghost use Rattle.std.specs.Prelude.{◌≡◌};
ghost use Rattle.std.specs.Iterator.{YieldsFirst, item_count};

use crate::cut_spans::CutSpans;
use std::marker::Model;

/// The pixels of the row `v` with `left <= h < right`.
#[derive(Clone, Copy, Debug, PartialEq, Eq)]
pub struct Span {
    pub v: i32,
    pub left: i32,
    pub right: i32,
}

/// The spans of a region, from the top down and from left to right, seen as the list of those
/// that are left. It takes no memory.
#[derive(Drop)]
pub struct Spans<'a> {
    spans: CutSpans<'a>,
}

impl<'a> Model for Spans<'a> {
    ghost use Rattle.std.specs.Prelude.{List};
    ghost use Rattle.scan_region.specs.declared.spans.Span.{Span};

    ghost Value = { List Span };

    ghost view = { λ s. s.spans };
}

impl<'a> Spans<'a> {
    /// The spans that a walk has left.
    pub(crate) fn new(spans: CutSpans<'a>) -> Self
        ensures { result ≡ spans.entry }
    {
        Spans { spans }
    }
}

impl<'a> Iterator for Spans<'a> {
    type Item = Span;

    ghost next_gives = { YieldsFirst (λ rest. rest) };

    ghost remaining = { item_count (λ rest. rest) };

    #[inline(always)]
    fn next(&mut self) -> Option<Span> {
        self.spans.next()
    }
}
