//! One layer of a window's content.
ghost use Rattle.std.specs.Prelude.{◌≡◌, ◌&&◌, not, IfOk};
ghost use Rattle.tb_geom.specs.declared.point.Point.{Point};
ghost use Rattle.tb_geom.specs.Points.{minus};
ghost use Rattle.tb_geom.specs.Pixels.{holds};
ghost use Rattle.window_list.specs.Holders.{layer_has, fits_at, IsLayerAt};

use crate::moves::move_by;
use desk_layers::Part;
use scan_region::Region;
use std::alloc::{AllocError, Global};
use tb_geom::{Point, Rect};

/// A layer of a window's content in front of its picture. Region and box are in the window's own coordinates.
#[derive(Drop)]
pub struct Layer {
    pub part: Part,
    pub shown: bool,
    pub region: Region,
    /// The box that the region lies in, by which it is judged whether the window may be somewhere.
    pub bounds: Rect,
}

/// Whether a layer is shown, and where it lies, in the window's own coordinates.
#[derive(Drop)]
pub struct LayerShape {
    pub shown: bool,
    pub region: Region,
    /// The box that the region lies in.
    pub bounds: Rect,
}

impl Layer {
    /// The same layer once more.
    pub(crate) fn copy(&self, alloc: Global) -> Result<Layer, AllocError>
        ensures { IfOk result (λ layer. layer ≡ self.now) }
    {
        let region = self.region.copy(alloc)?;
        Ok(Layer {
            part: self.part,
            shown: self.shown,
            region,
            bounds: self.bounds,
        })
    }

    /// Whether the layer is shown and holds the pixel of its window.
    pub fn has(&self, point: Point) -> bool
        ensures { result ≡ layer_has self.now point }
    {
        self.shown && self.region.contains(point)
    }

    /// Whether its box lies in the range of coordinates where its window is at this place.
    pub fn fits_at(&self, place: Point) -> bool
        ensures { result ≡ fits_at place self.now }
    {
        self.bounds.offset(place.h, place.v).is_ok()
    }

    /// What the layer takes on the screen, where its window is at this place and those in front of it cover this.
    pub(crate) fn taken(
        &self,
        alloc: Global,
        place: Point,
        covered: &Region,
    ) -> Result<Region, AllocError>
        requires { IsLayerAt place self.now }
        ensures { IfOk result (λ taken. (p : Point) → holds taken p
            ≡ (layer_has self.now (minus p place) && not (holds covered.now p))) }
    {
        if !self.shown {
            return Ok(Region::empty(alloc));
        }
        let mut region = self.region.copy(alloc)?;
        move_by(&mut region, place);
        region.less(alloc, covered)
    }
}
