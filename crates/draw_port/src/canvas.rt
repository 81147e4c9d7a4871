//! What is drawn on.
ghost use Rattle.std.specs.Prelude.{◌≡◌, true};
ghost use Rattle.draw_port.specs.Origins.{is_near_origin};

use bit_map::BitMap;
use scan_region::Cut;
use strike_font::Font;
use tb_geom::{Point, Rect};

/// A map, drawn on where a rectangle and a cut allow. Drawing takes no memory.
#[derive(Drop)]
pub struct Canvas<'a> {
    /// What the pixels lie on. Those of the clip or the cut that it lacks are not drawn.
    pub map: &'a mut BitMap,
    /// In the coordinates of the map.
    pub clip: Rect,
    /// Where the canvas's own 0 0 lies on the map. What is drawn is in the canvas's coordinates.
    pub origin: Point,
    /// The pixels that may change, of those in the clip.
    pub cut: &'a Cut<'a>,
    /// The font of texts.
    pub font: &'a Font,
    ghost near: { is_near_origin origin ≡ true },
}
