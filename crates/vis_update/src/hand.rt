//! Where pixels change their owner, where a call puts one window anew among the others, makes it or takes it out.
ghost use Rattle.std.specs.Prelude.{false, IfOk};
ghost use Rattle.vis_update.specs.Seats.{IsPlacedSeat};
ghost use Rattle.vis_update.specs.Hands.{IsChangedWith, IsLostOf, covers};

use crate::place::regions_of;
use crate::{Area, Seat};
use def_iface::{Defined, TakenWindow, WindowRegions};
use scan_region::Region;
use std::alloc::{AllocError, Global};

/// What of the gray region a window had that is there no more.
pub fn changed_without(alloc: Global, gray: &Region, old: &Area) -> Result<Region, AllocError>
    ensures { IfOk result (IsChangedWith old.now (λ p. false) gray.now) }
{
    old.visible.union(alloc, &old.frame)?.cut_to(alloc, gray)
}

/// What of the changed area the window did not have: what others may lose.
pub fn lost_of(alloc: Global, changed: &Region, old: &Area) -> Result<Region, AllocError>
    ensures { IfOk result (IsLostOf old.now changed.now) }
{
    changed.diff(alloc, &old.visible)?.less(alloc, &old.frame)
}

/// What of the gray region a window had, and what it covers where it is to be, as its seat says.
pub fn changed_with(alloc: Global, gray: &Region, seat: &Seat<'_>) -> Result<Region, AllocError>
    requires { IsPlacedSeat ⟦<TakenWindow as Defined>⟧.loan seat.now }
    ensures { IfOk result (IsChangedWith seat.now.area.now (covers ⟦<TakenWindow as Defined>⟧.loan seat.now) gray.now) }
{
    if !seat.shown {
        return changed_without(alloc, gray, seat.area);
    }
    let WindowRegions { structure, .. } = regions_of(alloc, seat.place, seat.size, seat.taken)?;
    let had = seat.area.visible.union(alloc, &seat.area.frame)?;
    had.joined(alloc, structure)?.cut_to(alloc, gray)
}
