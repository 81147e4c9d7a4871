//! Drawing on what a clip leaves of a rectangle.
ghost use Rattle.std.specs.Prelude.{◌≡◌, ◌≤◌, ◌≤ℤ◌, ◌&&◌, true, pos, ◌+ℤ◌};
ghost use Rattle.tb_geom.specs.declared.point.Point.{Point};
ghost use Rattle.tb_geom.specs.Rects.{rect_holds};
ghost use Rattle.bit_map.specs.Bits.{on_map};
ghost use Rattle.bit_blit.specs.Draws.{Draws};
ghost use Rattle.scan_region.specs.Cuts.{cut_holds};
ghost use Rattle.draw_port.specs.Canvases.{canvas_holds, canvas_point, SameFrame};
ghost use Rattle.draw_port.specs.Ops.{clip_holds};

use crate::canvas::Canvas;
use crate::placed::placed;
use bit_blit::{Rule, cut_inside};
use scan_region::{Cut, Region, Span};
use tb_geom::{Point, Rect};

impl Canvas<'_> {
    /// Gives each pixel of the canvas in the rectangle that the clip leaves the value of the rule. All are
    /// in the coordinates of the canvas.
    pub(crate) fn draw_clipped<R: Rule>(&mut self, clip: &Option<Region>, rect: Rect, rule: &R)
        ensures same_map { self.new.map.ghost_name ≡ self.old.map.ghost_name }
        ensures same_frame { SameFrame self.old self.new }
        ensures limits { (self.old.map.now.width ≤ 32767) × (self.old.map.now.height ≤ 32767) }
        ensures drawn { Draws
            (λ p. canvas_holds self.old p && (clip_holds clip.now (canvas_point self.old p)
            && rect_holds rect (canvas_point self.old p)))
            (λ p old. R.value rule.now (canvas_point self.old p) old)
            self.old.map.now self.new.map.now }
    {
        match clip {
            None => self.draw(rect, rule),
            Some(region) => self.draw_in(&cut_inside(region), rect, rule),
        }
    }

    /// Gives each pixel of the canvas in the rectangle that the cut leaves the value of the rule. All are in
    /// the coordinates of the canvas.
    pub(crate) fn draw_in<R: Rule>(&mut self, cut: &Cut, rect: Rect, rule: &R)
        ensures same_map { self.new.map.ghost_name ≡ self.old.map.ghost_name }
        ensures same_frame { SameFrame self.old self.new }
        ensures limits { (self.old.map.now.width ≤ 32767) × (self.old.map.now.height ≤ 32767) }
        ensures drawn { Draws
            (λ p. canvas_holds self.old p && (cut_holds cut.now (canvas_point self.old p)
            && rect_holds rect (canvas_point self.old p)))
            (λ p old. R.value rule.now (canvas_point self.old p) old)
            self.old.map.now self.new.map.now }
    {
        let reach = self.reach();
        self.draw_spans(cut, reach.sect(rect), rule);
    }

    /// A rectangle around all pixels that the canvas has on its map, in its own coordinates.
    pub(crate) fn reach(&self) -> Rect
        ensures around { (p : Point) → on_map self.now.map.now p ≡ true → canvas_holds self.now p ≡ true
            → rect_holds result (canvas_point self.now p) ≡ true }
        ensures limits { (self.now.map.now.width ≤ 32767) × (self.now.map.now.height ≤ 32767) }
    {
        let back = Point {
            h: -self.origin.h,
            v: -self.origin.v,
        };
        placed(self.clip.sect(self.map.bounds()), back)
    }

    /// Does what `draw_in` does, by going along all rows of the rectangle. Spans that are equal in rows that
    /// follow each other are drawn as one block.
    fn draw_spans<R: Rule>(&mut self, cut: &Cut, rect: Rect, rule: &R)
        ensures same_map { self.new.map.ghost_name ≡ self.old.map.ghost_name }
        ensures same_frame { SameFrame self.old self.new }
        ensures drawn { Draws
            (λ p. canvas_holds self.old p && (rect_holds rect (canvas_point self.old p)
            && cut_holds cut.now (canvas_point self.old p)))
            (λ p old. R.value rule.now (canvas_point self.old p) old)
            self.old.map.now self.new.map.now }
    {
        let mut block = Rect {
            left: 0,
            top: 0,
            right: 0,
            bottom: 0,
        };
        for span in cut.spans_within(rect) {
            if is_below(block, span) {
                block = grown(block);
            } else {
                self.draw(block, rule);
                block = row_of(span);
            }
        }
        self.draw(block, rule);
    }
}

/// Whether the span is the row below the block.
fn is_below(block: Rect, span: Span) -> bool
    ensures { result ≡ true → (span.left ≡ block.left) × ((span.right ≡ block.right) × (span.v ≡ block.bottom)) }
{
    span.left == block.left && span.right == block.right && span.v == block.bottom
}

/// The block with one row more.
fn grown(block: Rect) -> Rect
    requires { (block.bottom +ℤ pos 1) ≤ℤ pos 2147483647 }
    ensures { result ≡ record {
      left = block.left;
      top = block.top;
      right = block.right;
      bottom = block.bottom +ℤ pos 1;
    } }
{
    Rect {
        bottom: block.bottom + 1,
        ..block
    }
}

/// The span as a rectangle of one row.
pub(crate) fn row_of(span: Span) -> Rect
    requires { (span.v +ℤ pos 1) ≤ℤ pos 2147483647 }
    ensures { result ≡ record { left = span.left; top = span.v; right = span.right; bottom = span.v +ℤ pos 1 } }
{
    Rect {
        left: span.left,
        top: span.v,
        right: span.right,
        bottom: span.v + 1,
    }
}
