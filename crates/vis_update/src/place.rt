//! Where a window may be.
ghost use Rattle.std.specs.Prelude.{◌≡◌, ◌&&◌, true, Some, None, IfOk};
ghost use Rattle.tb_geom.specs.Rects.{is_in_range, moved_rect, rect_holds};
ghost use Rattle.def_iface.specs.WindowMeaning.{IsWithin};
ghost use Rattle.vis_update.specs.Places.{IsRegionsAt, is_placed};

use def_iface::{Defined, Size, TakenWindow, WindowRegions};
use std::alloc::{AllocError, Global};
use tb_geom::{Point, Rect};
use window_list::move_by;

/// Whether the rectangle, local to a window, and the one moved to the window's place have all sides
/// in the range of coordinates.
fn stays_in_range(judged: Rect, place: Point) -> bool
    ensures { result ≡ (is_in_range judged && is_in_range (moved_rect judged place.h place.v)) }
{
    judged.is_in_range() && judged.offset(place.h, place.v).is_ok()
}

/// Whether a window of this size and with this definition may be at the place. Its content then lies in the box of its
/// structure.
#[tactic(auto, unfolding(crate::specs::Places::is_placed))]
pub fn is_placed_with(place: Point, size: Size, taken: &TakenWindow) -> bool
    ensures placed { result ≡ is_placed (Some (⟦<TakenWindow as Defined>⟧.loan taken.now).definition) place size }
    ensures within { result ≡ true → IsWithin ((⟦<TakenWindow as Defined>⟧.loan taken.now).definition.content size)
        (rect_holds ((⟦<TakenWindow as Defined>⟧.loan taken.now).definition.bounds size)) }
{
    place.is_in_range() && (size.is_in_range() && stays_in_range(taken.bounds(size), place))
}

/// Whether a window of this size may be at the place, whatever its definition.
#[tactic(auto, unfolding(crate::specs::Places::is_placed))]
pub fn is_placed_alone(place: Point, size: Size) -> bool
    ensures { result ≡ is_placed None place size }
{
    place.is_in_range() && (size.is_in_range() && stays_in_range(size.rect(), place))
}

/// Structure and content of a window with this place, size and definition, on the screen.
pub fn regions_of(
    alloc: Global,
    place: Point,
    size: Size,
    taken: &TakenWindow,
) -> Result<WindowRegions, AllocError>
    requires { is_placed (Some (⟦<TakenWindow as Defined>⟧.loan taken.now).definition) place size ≡ true }
    ensures { IfOk result (IsRegionsAt place size (⟦<TakenWindow as Defined>⟧.loan taken.now).definition) }
{
    let mut regions = taken.regions_for(alloc, size)?;
    move_by(&mut regions.structure, place);
    move_by(&mut regions.content, place);
    Ok(regions)
}
