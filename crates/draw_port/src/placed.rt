//! Rectangles of a canvas on its map.
ghost use Rattle.std.specs.Prelude.{◌≡◌, false, ◌&&◌};
ghost use Rattle.tb_geom.specs.declared.point.Point.{Point};
ghost use Rattle.tb_geom.specs.Points.{minus};
ghost use Rattle.tb_geom.specs.Rects.{rect_holds};
ghost use Rattle.draw_port.specs.Places.{is_far};

use tb_geom::{Point, Rect};

/// The pixels of the clip that the rectangle, moved to the origin, has.
pub fn placed_within(clip: Rect, rect: Rect, origin: Point) -> Rect
    ensures { (p : Point) → rect_holds result p ≡ (rect_holds clip p && rect_holds rect (minus p origin)) }
{
    clip.sect(placed(rect, origin))
}

/// The rectangle moved to the origin. Its sides stop at the ends of an `i32`, which takes no pixel
/// away but those at the last column and the last row of all.
pub fn placed(rect: Rect, origin: Point) -> Rect
    ensures { (p : Point) → is_far p ≡ false → rect_holds result p ≡ rect_holds rect (minus p origin) }
{
    Rect {
        left: rect.left.saturating_add(origin.h),
        top: rect.top.saturating_add(origin.v),
        right: rect.right.saturating_add(origin.h),
        bottom: rect.bottom.saturating_add(origin.v),
    }
}
