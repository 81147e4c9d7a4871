//! The spans that a cut leaves of a rectangle, row by row.
ghost use Rattle.std.specs.Prelude.{◌≡◌, ◌&&◌, false, true, ◌⊎◌};
ghost use Rattle.std.specs.Iterator.{YieldsFirst, item_count};
ghost use Rattle.tb_geom.specs.declared.point.Point.{Point};
ghost use Rattle.tb_geom.specs.Points.{PixelSet};
ghost use Rattle.tb_geom.specs.Rects.{rect_holds};
ghost use Rattle.scan_region.specs.Cuts.{cut_holds};
ghost use Rattle.scan_region.specs.Descents.{IsUpright};
ghost use Rattle.scan_region.specs.Parts.{lets};
ghost use Rattle.scan_region.specs.Scan.{IsScanOf};
ghost use Rattle.region_rows.specs.Seen.{seen_set};

use crate::cut::Cut;
use crate::descent::Descent;
use crate::part::{Columns, Part};
use crate::region::Region;
use crate::span_rows::{FullRows, SpanRows};
use crate::spans::Span;
use crate::walk::Walk;
use arrayvec::ArrayVec;
use std::marker::Model;
use tb_geom::Rect;

/// The spans that a cut leaves of a rectangle, from the top down and from left to right, seen as the
/// list of those that are left. It takes no memory.
#[derive(Drop)]
pub struct CutSpans<'a> {
    cut: Cut<'a>,
    /// Whether all is seen turned by half a turn, from the bottom up and from right to left.
    up: bool,
    rows: SpanRows<'a>,
}

impl<'a> Model for CutSpans<'a> {
    ghost use Rattle.std.specs.Prelude.{List};
    ghost use Rattle.scan_region.specs.declared.spans.Span.{Span};

    ghost Value = { List Span };

    ghost use Rattle.scan_region.specs.Cuts.{cut_holds};
    ghost use Rattle.scan_region.specs.SpanRows.{AreRowsOf, rows_left};
    ghost use Rattle.region_rows.specs.Seen.{seen_set};

    ghost view = { λ s. rows_left s.rows (seen_set s.up (cut_holds s.cut)) };

    ghost invariant = { λ s. AreRowsOf s.rows (seen_set s.up (cut_holds s.cut)) };
}

/// What is left to be asked of a region in which pixels of the area must lie: nothing, where it is a rectangle.
/// The area is cut to its box.
fn part_within<'a>(part: Option<&'a Region>, up: bool, area: &mut Rect) -> Option<&'a Region>
    ensures pixels { (p : Point) → (rect_holds area.new p && seen_set up (lets false result) p)
        ≡ (rect_holds area.old p && seen_set up (lets false part.entry) p) }
    ensures upright { IsUpright area.old → IsUpright area.new }
{
    let region = part?;
    let boxed = region.boxed(up);
    *area = area.sect(boxed.bounds);
    if boxed.is_full {
        return None;
    }
    Some(region)
}

/// What is left to be asked of a region in which no pixel of the area may lie: nothing, where its box lies apart.
fn hole_within<'a>(hole: Option<&'a Region>, up: bool, area: Rect) -> Option<&'a Region>
    ensures { (p : Point) → (rect_holds area p && seen_set up (lets true result) p)
        ≡ (rect_holds area p && seen_set up (lets true hole.entry) p) }
{
    let region = hole?;
    if area.sect(region.boxed(up).bounds).is_empty() {
        return None;
    }
    Some(region)
}

impl<'a> Cut<'a> {
    /// The row of an area from which on there is something to be asked: the first one, or, where there is no
    /// region, the one past the last.
    fn first_asked(&self, area: Rect) -> i32
        ensures { (result ≡ area.top) ⊎ ((result ≡ area.bottom) × ((p : Point) → cut_holds self.now p ≡ true)) }
    {
        let parts = &self.inside[..];
        if parts[0].is_some() || parts[1].is_some() || parts[2].is_some() {
            return area.top;
        }
        if self.outside.is_some() {
            return area.top;
        }
        area.bottom
    }

    /// The spans of an area's pixels that the cut leaves, seen so.
    fn walk_within(&self, up: bool, area: Rect) -> CutSpans<'a>
        requires { IsUpright area }
        ensures { IsScanOf result (λ p. rect_holds area p && seen_set up (cut_holds self.now) p) }
    {
        let columns = Columns {
            up,
            left: area.left,
            right: area.right,
        };
        let asked = self.first_asked(area);
        let parts = &self.inside[..];
        let mut free = 0;
        let first = Part::new(parts[0], false, columns, &mut free);
        let second = Part::new(parts[1], false, columns, &mut free);
        let third = Part::new(parts[2], false, columns, &mut free);
        let hole = Part::new(self.outside, true, columns, &mut free);
        CutSpans {
            cut: *self,
            up,
            rows: SpanRows {
                full: FullRows {
                    left: area.left,
                    right: area.right,
                    next: area.top,
                    bottom: asked,
                },
                walked: Descent {
                    left: area.left,
                    v: asked,
                    kept: ArrayVec::new(),
                    told: 0,
                    walk: Walk {
                        v: i32::MIN,
                        at: area.right,
                        right: area.right,
                        first,
                        second,
                        third,
                        hole,
                        words: [0; 128],
                    },
                    next: asked,
                    until: asked,
                    bottom: area.bottom,
                },
            },
        }
    }

    /// The spans of the area's pixels that the cut leaves, seen so.
    pub(crate) fn spans_seen(&self, up: bool, area: Rect) -> CutSpans<'a>
        ensures { IsScanOf result (λ p. rect_holds area p && seen_set up (cut_holds self.now) p) }
    {
        let parts = &self.inside[..];
        let mut area = area.sect(area);
        let first = part_within(parts[0], up, &mut area);
        let second = part_within(parts[1], up, &mut area);
        let third = part_within(parts[2], up, &mut area);
        let narrowed = Cut {
            inside: [first, second, third],
            outside: hole_within(self.outside, up, area),
        };
        narrowed.walk_within(up, area)
    }

    /// The spans of the area's pixels that the cut leaves, by rising rows and columns: their maximal runs
    /// in a row. It takes no memory.
    pub fn spans_within(&self, area: Rect) -> CutSpans<'a>
        ensures { IsScanOf result (λ p. rect_holds area p && cut_holds self.now p) }
    {
        self.spans_seen(false, area)
    }
}

impl<'a> Iterator for CutSpans<'a> {
    type Item = Span;

    ghost next_gives = { YieldsFirst (λ rest. rest) };

    ghost remaining = { item_count (λ rest. rest) };

    #[inline(always)]
    fn next(&mut self) -> Option<Span> {
        self.rows.next_span()
    }
}
