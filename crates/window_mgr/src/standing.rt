//! Where a window may stand.
ghost use Rattle.std.specs.Prelude.{◌≡◌, true};
ghost use Rattle.tb_geom.specs.Rects.{rect_holds};
ghost use Rattle.def_iface.specs.WindowMeaning.{IsWithin};
ghost use Rattle.vis_update.specs.Records.{record_of};
ghost use Rattle.window_mgr.specs.Refused.{may_stand};

use def_iface::{Defined, Size, TakenWindow};
use tb_geom::Point;
use vis_update::is_placed_with;
use window_list::Window;

/// Whether a window may be at this place with this size, and all its layers with it, shown or not. Its content then lies
/// in the box of its structure.
pub(crate) fn may_stand(window: &Window, place: Point, size: Size) -> bool
    ensures stands { result ≡ may_stand place size (record_of ⟦<TakenWindow as Defined>⟧.loan window.now) }
    ensures within { let d = (⟦<TakenWindow as Defined>⟧.loan window.now.taken).definition in
        result ≡ true → IsWithin (d.content size) (rect_holds (d.bounds size)) }
{
    is_placed_with(place, size, &window.taken) && window.layers.fit_at(place)
}
