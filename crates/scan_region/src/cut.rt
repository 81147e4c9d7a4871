//! The pixels that several regions leave.
ghost use Rattle.std.specs.Prelude.{◌≡◌, ◌↔◌, IsTrue, true};
ghost use Rattle.tb_geom.specs.declared.point.Point.{Point};
ghost use Rattle.tb_geom.specs.Pixels.{holds};
ghost use Rattle.tb_geom.specs.Rects.{rect_holds};
ghost use Rattle.scan_region.specs.Cuts.{cut_holds, in_part, in_hole};

use crate::region::Region;
use tb_geom::{Point, Rect};

/// The pixels that lie in each of up to three regions, and not in a fourth. A region that is not
/// there cuts nothing. Regions are in the coordinates of the map.
#[derive(Clone, Copy)]
pub struct Cut<'a> {
    /// Those in each of which a pixel must lie.
    pub inside: [Option<&'a Region>; 3],
    /// The one in which it must not lie.
    pub outside: Option<&'a Region>,
}

impl Cut<'_> {
    /// Whether the cut leaves the pixel at `point`, in the coordinates of the map.
    #[tactic(auto, unfolding(crate::specs::Cuts::cut_holds))]
    pub fn holds(&self, point: Point) -> bool
        ensures { result ≡ cut_holds self.now point }
    {
        self.inside.iter().all(|part| is_in_part(*part, point)) && !is_in_hole(self.outside, point)
    }
}

/// What leaves the pixels of one region.
pub fn alone(region: &Region) -> Cut<'_>
    ensures { (p : Point) → cut_holds result p ≡ holds region.now p }
{
    Cut {
        inside: [Some(region), None, None],
        outside: None,
    }
}

/// Whether a walk over the region comes to a pixel of the area. It is not inlined, since a walk has an array of its own.
#[inline(never)]
pub fn walk_meets(region: &Region, area: Rect) -> bool
    ensures { IsTrue result ↔ ((p : Point) × (rect_holds area p ≡ true) × (holds region.now p ≡ true)) }
{
    let mut spans = alone(region).spans_within(area);
    if let Some(_) = spans.next() {
        return true;
    }
    false
}

/// Whether the region has the pixel; without a region every pixel counts.
fn is_in_part(part: Option<&Region>, point: Point) -> bool
    ensures { result ≡ in_part part.entry point }
{
    match part {
        Some(region) => region.contains(point),
        None => true,
    }
}

/// Whether the region has the pixel; without a region none counts.
fn is_in_hole(hole: Option<&Region>, point: Point) -> bool
    ensures { result ≡ in_hole hole.entry point }
{
    match hole {
        Some(region) => region.contains(point),
        None => false,
    }
}
