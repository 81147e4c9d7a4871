//! Pixels of windows, moved on the screen.
ghost use Rattle.window_paint.specs.Moves.{IsMoved, IsScrollPainted};
ghost use Rattle.window_paint.specs.Writes.{IsWrittenBy, arrives, nowhere};

use bit_blit::{fill, shift};
use bit_map::{BitMap, Mode, Pattern};
use scan_region::Region;
use tb_geom::Point;

/// Moves the pixels that arrive in a region from so far away, if any do.
pub fn move_content(map: &mut BitMap, arriving: &Region, by: Option<Point>)
    ensures moved { IsMoved arriving.now by map.old map.new }
    ensures written { IsWrittenBy (arrives arriving.now by) nowhere map.old map.new }
{
    match by {
        Some(by) => shift(map, arriving, by),
        None => {}
    }
}

/// Moves the pixels of a picture that arrive in a region from so far away, and makes white what of it comes into sight.
pub fn scroll_content(map: &mut BitMap, arriving: &Region, exposed: &Region, by: Point)
    ensures { IsScrollPainted arriving.now exposed.now by map.old map.new }
{
    shift(map, arriving, by);
    let origin = Point { h: 0, v: 0 };
    fill(map, exposed, origin, Pattern::WHITE, Mode::Copy);
}
