//! What is read of the windows, and of the way that the mouse has come.
ghost use Rattle.std.specs.Prelude.{◌≡◌, ◌+ℤ◌, ◌-ℤ◌, true, MatchOption, IfSome, None, Some, map};
ghost use Rattle.tb_geom.specs.Points.{plus, minus};
ghost use Rattle.tb_geom.specs.Rects.{in_plane, is_coordinate};
ghost use Rattle.vis_update.specs.Records.{record_of};
ghost use Rattle.window_mgr.specs.Finding.{record_with};
ghost use Rattle.window_mgr.specs.Whole.{IsSettled};

use def_iface::{Defined, TakenWindow};
use tb_geom::Point;
use window_list::Window;
use window_mgr::{DeskWindows, WindowManager};

/// The window of this serial.
pub(crate) fn window_of(windows: &WindowManager, serial: u64) -> Option<&Window>
    requires { ⟦<WindowManager as DeskWindows>⟧.IsKept windows.now }
    ensures found { MatchOption result
        (record_with serial (map (record_of ⟦<TakenWindow as Defined>⟧.loan) windows.now.windows.records.items) ≡ None)
        (λ w. record_with serial (map (record_of ⟦<TakenWindow as Defined>⟧.loan) windows.now.windows.records.items)
        ≡ Some (record_of ⟦<TakenWindow as Defined>⟧.loan w.now)) }
    ensures settled { IfSome result (λ w. IsSettled (record_of ⟦<TakenWindow as Defined>⟧.loan w.now)) }
{
    let at = windows.find(serial)?;
    Some(windows.list().at(at))
}

/// The place, moved by the way from one point to another.
pub(crate) fn moved_place(place: Point, from: Point, to: Point) -> Point
    requires place { in_plane place ≡ true }
    requires from { in_plane from ≡ true }
    requires to { in_plane to ≡ true }
    ensures { result ≡ plus place (minus to from) }
{
    Point {
        h: moved_number(place.h, from.h, to.h),
        v: moved_number(place.v, from.v, to.v),
    }
}

/// The number, greater by the way from one number to another.
pub(crate) fn moved_number(number: i32, from: i32, to: i32) -> i32
    requires number { is_coordinate number ≡ true }
    requires from { is_coordinate from ≡ true }
    requires to { is_coordinate to ≡ true }
    ensures { result ≡ number +ℤ (to -ℤ from) }
{
    number + (to - from)
}
