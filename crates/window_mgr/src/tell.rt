//! The calls that tell regions: a window's, and one that is asked for by itself.
ghost use Rattle.std.specs.Prelude.{◌≡◌, true, MatchResult};
ghost use Rattle.tb_geom.specs.declared.point.Point.{Point};
ghost use Rattle.tb_geom.specs.Points.{plus};
ghost use Rattle.tb_geom.specs.Rects.{in_plane};
ghost use Rattle.tb_geom.specs.Pixels.{holds};
ghost use Rattle.scan_region.specs.Moves.{is_pixel_in_range};
ghost use Rattle.desk_call.specs.declared.window.WindowCall.TheVariants as asks;
ghost use Rattle.window_mgr.specs.Telling.{AreRegionBytes, IsNotTold, kept_region, asking};
ghost use Rattle.window_mgr.specs.Step.{IsWindowStep};

use crate::{DeskWindows, WindowManager, WindowReply};
use lent_ops::RegionRef;
use scan_region::Region;
use std::alloc::Global;
use tb_geom::{Point, Refusal};
use vis_update::Area;
use window_list::{local, move_by};

/// Which of a window's regions is told.
#[derive(Clone, Copy)]
pub(crate) enum AskedRegion {
    /// What of the screen its content owns.
    Visible,
    /// What of that is to be redrawn.
    Update,
}

impl WindowManager {
    /// Tells one of a window's regions, in the window's own coordinates.
    pub(crate) fn answer_region(
        &mut self,
        window: u64,
        told: AskedRegion,
    ) -> Result<WindowReply, Refusal>
        requires { ⟦<Self as DeskWindows>⟧.IsKept self.old }
        ensures step { ⟦<Self as DeskWindows>⟧.LeavesState (IsWindowStep (asking told window) result) self.old self.new }
        ensures quiet { self.new.screen ≡ self.old.screen }
    {
        let Some(at) = self.find(window) else {
            return Err(Refusal::NoSuchWindow);
        };
        let place = self.windows.at(at).place;
        match area_bytes(&mut self.areas[at], told, self.alloc, place) {
            Ok(bytes) => Ok(WindowReply::Region(bytes)),
            Err(refusal) => Err(refusal),
        }
    }

    /// Tells the region that is asked for.
    pub(crate) fn answer_asked(&self, region: &RegionRef<'_>) -> Result<WindowReply, Refusal>
        requires { ⟦<Self as DeskWindows>⟧.IsKept self.now }
        ensures { ⟦<Self as DeskWindows>⟧.LeavesState (IsWindowStep (asks.Region region.now) result) self.now self.now }
    {
        match region.to_bytes(self.alloc) {
            Ok(bytes) => Ok(WindowReply::Region(bytes)),
            Err(refusal) => Err(refusal),
        }
    }
}

/// The bytes of one of the regions of an area, as it is seen from the origin.
fn area_bytes(
    area: &mut Area,
    told: AskedRegion,
    alloc: Global,
    origin: Point,
) -> Result<Vec<u8>, Refusal>
    requires origin { in_plane origin ≡ true }
    requires there { (p : Point) → holds (kept_region told area.old) (plus p origin) ≡ true
        → is_pixel_in_range p ≡ true }
    requires here { (p : Point) → holds (kept_region told area.old) p ≡ true → is_pixel_in_range p ≡ true }
    ensures same { area.new ≡ area.old }
    ensures bytes { MatchResult result
        (λ bytes. AreRegionBytes (λ p. holds (kept_region told area.old) (plus p origin)) bytes.items)
        (IsNotTold (λ p. holds (kept_region told area.old) (plus p origin))) }
{
    match told {
        AskedRegion::Visible => bytes_from(&mut area.visible, alloc, origin),
        AskedRegion::Update => bytes_from(&mut area.update, alloc, origin),
    }
}

/// The bytes of a region, as it is seen from the origin. It is moved there and back: a copy would take memory, so that it
/// could be refused before it is known whether the bytes are too long.
fn bytes_from(region: &mut Region, alloc: Global, origin: Point) -> Result<Vec<u8>, Refusal>
    requires origin { in_plane origin ≡ true }
    requires there { (p : Point) → holds region.old (plus p origin) ≡ true → is_pixel_in_range p ≡ true }
    requires here { (p : Point) → holds region.old p ≡ true → is_pixel_in_range p ≡ true }
    ensures same { region.new ≡ region.old }
    ensures bytes { MatchResult result (λ bytes. AreRegionBytes (λ p. holds region.old (plus p origin)) bytes.items)
        (IsNotTold (λ p. holds region.old (plus p origin))) }
{
    move_by(region, local(Point { h: 0, v: 0 }, origin));
    let bytes = region.to_bytes(alloc);
    move_by(region, origin);
    bytes
}
