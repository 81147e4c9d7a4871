//! Drawing frames, side by side.
ghost use Rattle.std.specs.Prelude.{◌≡◌, not, ◌&&◌, int_lt};
ghost use Rattle.tb_geom.specs.declared.point.Point.{Point};
ghost use Rattle.tb_geom.specs.Rects.{rect_holds};
ghost use Rattle.bit_blit.specs.Draws.{Draws};
ghost use Rattle.draw_port.specs.Canvases.{canvas_holds, canvas_point, SameFrame};
ghost use Rattle.draw_port.specs.Frames.{AreSides};
ghost use Rattle.draw_port.specs.Ops.{frame_holds, shade_value, clip_holds};

use crate::canvas::Canvas;
use crate::shapes::Shade;
use scan_region::Region;
use tb_geom::Rect;

impl Canvas<'_> {
    /// Draws the outermost pixels of a rectangle that the clip leaves, each once.
    pub(crate) fn draw_frame(&mut self, clip: &Option<Region>, rect: Rect, shade: &Shade)
        ensures same_map { self.new.map.ghost_name ≡ self.old.map.ghost_name }
        ensures same_frame { SameFrame self.old self.new }
        ensures drawn { Draws
            (λ p. canvas_holds self.old p && (clip_holds clip.now (canvas_point self.old p)
            && frame_holds rect (canvas_point self.old p)))
            (λ p old. shade_value shade.now (canvas_point self.old p) old)
            self.old.map.now self.new.map.now }
    {
        let sides = sides_of(rect);
        self.draw_clipped(clip, sides.top, shade);
        self.draw_clipped(clip, sides.bottom, shade);
        self.draw_clipped(clip, sides.left, shade);
        self.draw_clipped(clip, sides.right, shade);
    }
}

/// The outermost pixels of a rectangle: its first row, its last row below that, and between these its
/// first column, and its last column right of that.
#[derive(Clone, Copy)]
struct Sides {
    top: Rect,
    bottom: Rect,
    left: Rect,
    right: Rect,
}

/// The sides of a rectangle. No two share a pixel.
fn sides_of(rect: Rect) -> Sides
    ensures { AreSides result rect }
{
    let (top, below) = split_rows(rect, rect.top.saturating_add(1));
    let (between, bottom) = split_rows(below, rect.bottom.saturating_sub(1));
    let (left, beside) = split_columns(between, rect.left.saturating_add(1));
    let (_, right) = split_columns(beside, rect.right.saturating_sub(1));
    Sides {
        top,
        bottom,
        left,
        right,
    }
}

/// The rows of a rectangle above `v`, and the others.
fn split_rows(rect: Rect, v: i32) -> (Rect, Rect)
    ensures above { (p : Point) → rect_holds result.0 p ≡ (rect_holds rect p && int_lt p.v v) }
    ensures below { (p : Point) → rect_holds result.1 p ≡ (rect_holds rect p && not (int_lt p.v v)) }
{
    let above = Rect {
        bottom: rect.bottom.min(v),
        ..rect
    };
    let below = Rect {
        top: rect.top.max(v),
        ..rect
    };
    (above, below)
}

/// The columns of a rectangle left of `h`, and the others.
fn split_columns(rect: Rect, h: i32) -> (Rect, Rect)
    ensures left { (p : Point) → rect_holds result.0 p ≡ (rect_holds rect p && int_lt p.h h) }
    ensures right { (p : Point) → rect_holds result.1 p ≡ (rect_holds rect p && not (int_lt p.h h)) }
{
    let left = Rect {
        right: rect.right.min(h),
        ..rect
    };
    let right = Rect {
        left: rect.left.max(h),
        ..rect
    };
    (left, right)
}
