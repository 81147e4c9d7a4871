//! One sweep over all windows, from front to back.
//!
//! It begins with the changed area, outside which no pixel gets another owner. Each window in its turn keeps what it had
//! outside that area, takes what is left of it for its content and its frame, and leaves what its structure does not cover. A
//! pixel that its content had before, moved as far as the window's content moves, and that was drawn then, stays drawn; all
//! else that it takes is to be drawn. A window that had nothing of the changed area and takes nothing of what is left of it
//! stays as it is, and is asked for no region.
ghost use Rattle.std.specs.Prelude.{◌≡◌, ◌&&◌, ◌||◌, not, true, false, None, All, List, length, map, vec_len, IfOk};
ghost use Rattle.tb_geom.specs.declared.point.Point.{Point};
ghost use Rattle.tb_geom.specs.Points.{minus};
ghost use Rattle.tb_geom.specs.Rects.{rect_holds};
ghost use Rattle.tb_geom.specs.Pixels.{holds};
ghost use Rattle.desk_layers.specs.Desk.{LayeredDesk};
ghost use Rattle.def_iface.specs.WindowMeaning.{IsWithin};
ghost use Rattle.desk_layers.specs.Change.{State};
ghost use Rattle.vis_update.specs.Records.{WindowRecord, Look};
ghost use Rattle.vis_update.specs.Areas.{IsNear, IsDesktop};
ghost use Rattle.vis_update.specs.Touches.{came_from, way_of, KeepsLayers};
ghost use Rattle.vis_update.specs.Seats.{IsPlacedSeat, IsNearSeat, IsArranged, area_had, seat_stand};
ghost use Rattle.vis_update.specs.Plans.{IsSwept, IsPlan, IsShare, IsBeside, IsLosing, IsLeftAlone, area_then, arrives};

use crate::place::regions_of;
use crate::{Area, Plan, Repaint, Seat, Touch};
use def_iface::{Defined, TakenWindow, WindowRegions};
use scan_region::Region;
use std::alloc::{AllocError, Global};
use tb_geom::{Point, Rect};

/// What a window has of the screen, what of that is to be drawn, and what it leaves of the changed area for those
/// behind it.
#[derive(Drop)]
struct Swept {
    /// None where it has what it had.
    area: Option<Area>,
    part: Repaint,
    left: Region,
}

/// What a window takes of the rest of the changed area, for its content and around that, and what it leaves.
#[derive(Drop)]
struct Share {
    taken: Region,
    around: Region,
    left: Region,
}

/// The plan for windows from front to back, on a screen of which no window owned the desktop, where pixels get another owner
/// in the changed area alone; what windows had of that is lost to them.
pub fn plan_of(
    alloc: Global,
    changed: &Region,
    lost: &Region,
    desktop: &Region,
    seats: &[Seat<'_>],
    touch: Touch,
) -> Result<Plan, AllocError>
    requires placed { All (IsPlacedSeat ⟦<TakenWindow as Defined>⟧.loan) seats.now }
    requires near { All IsNearSeat seats.now }
    requires near_changed { IsNear changed.now }
    requires losing { All (IsLosing touch (holds changed.now) (holds lost.now)) seats.now }
    ensures plan { IfOk result (λ plan. (look : Look) (before : State) (after : LayeredDesk)
        (windows : List WindowRecord)
        → IsArranged ⟦<TakenWindow as Defined>⟧.loan look before after windows changed.now seats.now
        → IsDesktop before.desk desktop.now
        → KeepsLayers touch before.desk after
        → IsPlan touch before after desktop.now (map area_had seats.now) windows plan) }
    ensures length { IfOk result (λ plan. vec_len plan.parts ≡ length seats.now) }
{
    let mut areas = Vec::with_capacity(alloc, seats.len())?;
    let mut parts = Vec::with_capacity(alloc, seats.len())?;
    let mut rest = changed.copy(alloc)?;
    let mut copied = Region::empty(alloc);
    for seat in seats {
        let Swept { area, part, left } = seat.sweep(alloc, changed, lost, rest, touch)?;
        copied = with_copied(alloc, copied, &area, &part, touch.way_of(seat.serial))?;
        areas.push(area).unwrap();
        parts.push(part).unwrap();
        rest = left;
    }
    let uncovered = rest.diff(alloc, desktop)?;
    let desktop = desktop.diff(alloc, changed)?.joined(alloc, rest)?;
    Ok(Plan {
        areas,
        parts,
        desktop,
        uncovered,
        copied,
    })
}

/// The region, and, where the content of a window moves, what of its area is not erased.
fn with_copied(
    alloc: Global,
    copied: Region,
    area: &Option<Area>,
    part: &Repaint,
    by: Option<Point>,
) -> Result<Region, AllocError>
    ensures { IfOk result
        (λ region. (p : Point) → holds region p ≡ (holds copied p || arrives by area.now part.now p)) }
{
    match (by, area) {
        (Some(_), Some(area)) => copied.joined(alloc, area.visible.diff(alloc, &part.erase)?),
        _ => Ok(copied),
    }
}

/// The pixels of `within` that the region has, or has so far away.
fn carried(
    alloc: Global,
    region: &Region,
    by: Option<Point>,
    within: &Region,
) -> Result<Region, AllocError>
    requires near { IsNear region.now }
    requires within { IsNear within.now }
    ensures { IfOk result (λ moved. (p : Point) → holds moved p
        ≡ (holds within.now p && holds region.now (came_from by p))) }
{
    match by {
        Some(by) => carried_by(alloc, region, by, within),
        None => within.sect(alloc, region),
    }
}

/// The pixels of `within` that the region has so far away.
pub(crate) fn carried_by(
    alloc: Global,
    region: &Region,
    by: Point,
    within: &Region,
) -> Result<Region, AllocError>
    requires near { IsNear region.now }
    requires within { IsNear within.now }
    ensures { IfOk result (λ moved. (p : Point) → holds moved p
        ≡ (holds within.now p && holds region.now (minus p by))) }
{
    let mut moved = region.copy(alloc)?;
    match moved.offset(by.h, by.v) {
        Ok(()) => moved.cut_to(alloc, within),
        Err(_) => Ok(Region::empty(alloc)),
    }
}

/// What of a frame is drawn: all of it, or what was not the frame's before.
fn redraw_of(
    alloc: Global,
    frame: &Region,
    before: &Region,
    whole: bool,
) -> Result<Region, AllocError>
    ensures { IfOk result (λ redraw. (p : Point) → holds redraw p
        ≡ (holds frame.now p && (whole || not (holds before.now p)))) }
{
    if whole {
        frame.copy(alloc)
    } else {
        frame.diff(alloc, before)
    }
}

/// What a region has outside the changed area, and what was taken of that.
fn kept_and(
    alloc: Global,
    region: &Region,
    changed: &Region,
    taken: Region,
) -> Result<Region, AllocError>
    ensures { IfOk result (λ kept. (p : Point) → holds kept p
        ≡ ((holds region.now p && not (holds changed.now p)) || holds taken p)) }
{
    region.diff(alloc, changed)?.joined(alloc, taken)
}

impl Seat<'_> {
    /// The box of the window's structure on the screen.
    fn boxed(&self) -> Rect
        requires placed { IsPlacedSeat ⟦<TakenWindow as Defined>⟧.loan self.now }
        ensures holds { (p : Point) → (seat_stand ⟦<TakenWindow as Defined>⟧.loan self.now).structure
            (minus p self.now.place) ≡ true
            → rect_holds result p ≡ true }
        ensures within { IsWithin (seat_stand ⟦<TakenWindow as Defined>⟧.loan self.now).content
            (seat_stand ⟦<TakenWindow as Defined>⟧.loan self.now).structure }
    {
        let judged = self.taken.bounds(self.size);
        judged.offset(self.place.h, self.place.v).unwrap()
    }

    /// Whether the window is hidden, or beside the rest of the changed area.
    fn is_beside(&self, rest: &Region) -> bool
        requires placed { IsPlacedSeat ⟦<TakenWindow as Defined>⟧.loan self.now }
        ensures beside { result ≡ true → IsBeside ⟦<TakenWindow as Defined>⟧.loan (holds rest.now) self.now }
        ensures shown { result ≡ false → self.now.shown ≡ true }
    {
        !self.shown || !rest.meets_rect(self.boxed())
    }

    /// Whether nothing changes of the window.
    fn stays(&self, lost: &Region, rest: &Region, touch: Touch) -> bool
        requires placed { IsPlacedSeat ⟦<TakenWindow as Defined>⟧.loan self.now }
        ensures { result ≡ true → IsLeftAlone ⟦<TakenWindow as Defined>⟧.loan touch (holds lost.now) (holds rest.now)
            self.now }
    {
        if self.serial == touch.window {
            return false;
        }
        if lost.meets_rect(self.area.visible.bbox()) || lost.meets_rect(self.area.frame.bbox()) {
            return false;
        }
        self.is_beside(rest)
    }

    /// What the window takes of the rest of the changed area, and what it leaves.
    fn take(&self, alloc: Global, rest: Region) -> Result<Share, AllocError>
        requires placed { IsPlacedSeat ⟦<TakenWindow as Defined>⟧.loan self.now }
        ensures { IfOk result (λ s. IsShare ⟦<TakenWindow as Defined>⟧.loan (holds rest) self.now s.taken s.around
            (holds s.left)) }
    {
        if self.is_beside(&rest) {
            return Ok(Share {
                taken: Region::empty(alloc),
                around: Region::empty(alloc),
                left: rest,
            });
        }
        let WindowRegions { structure, content } = regions_of(
            alloc, self.place, self.size, self.taken,
        )?;
        let around = structure.sect(alloc, &rest)?.less(alloc, &content)?;
        let taken = content.cut_to(alloc, &rest)?;
        let left = rest.less(alloc, &structure)?;
        Ok(Share {
            taken,
            around,
            left,
        })
    }

    /// What the window has after the call, and what it leaves of the rest of the changed area.
    fn sweep(
        &self,
        alloc: Global,
        changed: &Region,
        lost: &Region,
        rest: Region,
        touch: Touch,
    ) -> Result<Swept, AllocError>
        requires placed { IsPlacedSeat ⟦<TakenWindow as Defined>⟧.loan self.now }
        requires near { IsNearSeat self.now }
        requires near_rest { IsNear rest }
        requires losing { IsLosing touch (holds changed.now) (holds lost.now) self.now }
        ensures swept { IfOk result (λ s. IsSwept ⟦<TakenWindow as Defined>⟧.loan touch (holds changed.now) (holds rest)
            self.now
            (area_then self.now.area.now s.area) s.part (holds s.left)) }
        ensures still { IfOk result (λ s. s.area ≡ None → way_of touch self.now.serial ≡ None) }
    {
        if self.stays(lost, &rest, touch) {
            return Ok(Swept {
                area: None,
                part: Repaint::empty(alloc),
                left: rest,
            });
        }
        let Share {
            taken,
            around,
            left,
        } = self.take(alloc, rest)?;
        let visible = kept_and(alloc, &self.area.visible, changed, taken)?;
        let frame = kept_and(alloc, &self.area.frame, changed, around)?;
        let by = touch.way_of(self.serial);
        let had = carried(alloc, &self.area.visible, by, &visible)?;
        let old = carried(alloc, &self.area.update, by, &visible)?;
        let erase = visible.diff(alloc, &had)?;
        let update = old.joined(alloc, erase.copy(alloc)?)?;
        let redraw = redraw_of(
            alloc,
            &frame,
            &self.area.frame,
            touch.draws_whole(self.serial),
        )?;
        Ok(Swept {
            area: Some(Area {
                visible,
                update,
                frame,
            }),
            part: Repaint { erase, redraw },
            left,
        })
    }
}
