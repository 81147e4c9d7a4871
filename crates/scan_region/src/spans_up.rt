//! The spans of a region, from the bottom up.
ghost use Rattle.std.specs.Prelude.{◌≡◌, map, All};
ghost use Rattle.std.specs.Iterator.{YieldsFirst, item_count};
ghost use Rattle.scan_region.specs.Turned.{IsNear, turned};

use crate::cut_spans::CutSpans;
use crate::spans::Span;
use std::marker::Model;

/// The spans of a region, from the bottom up and from right to left, seen as the list of those that
/// are left. It takes no memory.
#[derive(Drop)]
pub struct SpansUp<'a> {
    /// Those of the region turned by half a turn.
    spans: CutSpans<'a>,
}

impl<'a> Model for SpansUp<'a> {
    ghost use Rattle.std.specs.Prelude.{List, map, All};
    ghost use Rattle.scan_region.specs.declared.spans.Span.{Span};
    ghost use Rattle.scan_region.specs.Turned.{IsNear, turned};

    ghost Value = { List Span };

    ghost view = { λ s. map turned s.spans };

    ghost invariant = { λ s. All IsNear s.spans };
}

impl<'a> SpansUp<'a> {
    /// The spans that a walk over the turned region has left.
    pub(crate) fn new(spans: CutSpans<'a>) -> Self
        requires { All IsNear spans }
        ensures { result ≡ map turned spans.entry }
    {
        SpansUp { spans }
    }
}

impl<'a> Iterator for SpansUp<'a> {
    type Item = Span;

    ghost next_gives = { YieldsFirst (λ rest. rest) };

    ghost remaining = { item_count (λ rest. rest) };

    fn next(&mut self) -> Option<Span> {
        let span = self.spans.next()?;
        Some(Span {
            v: -2 - span.v,
            left: -1 - span.right,
            right: -1 - span.left,
        })
    }
}
