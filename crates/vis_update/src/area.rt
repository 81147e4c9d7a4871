//! The regions of a window on the screen.
ghost use Rattle.std.specs.Prelude.{◌≡◌};
ghost use Rattle.vis_update.specs.Areas.{IsNowhere, area_has};

use scan_region::Region;
use std::alloc::Global;
use tb_geom::Point;

/// The regions of a window, on the screen.
#[derive(Drop)]
pub struct Area {
    /// Its content, less what is in front of it.
    pub visible: Region,
    /// What of that is not yet drawn.
    pub update: Region,
    /// Its frame, less what is in front of it.
    pub frame: Region,
}

impl Area {
    /// The area of a window that owns no pixel.
    pub fn empty(alloc: Global) -> Area
        ensures { IsNowhere result }
    {
        Area {
            visible: Region::empty(alloc),
            update: Region::empty(alloc),
            frame: Region::empty(alloc),
        }
    }

    /// Whether the pixel is the window's.
    pub fn has(&self, point: Point) -> bool
        ensures { result ≡ area_has point self.now }
    {
        self.visible.contains(point) || self.frame.contains(point)
    }
}
