//! The axis of a scroll bar, and what lies along it.
ghost use Rattle.std.specs.Prelude.{◌≡◌, ◌≤◌, true};
ghost use Rattle.def_iface.specs.ControlMeaning.{is_control_size};
ghost use Rattle.std_cdef.specs.Axes.{is_vertical, axis, is_long, room, along, first_box, last_box, track};

use def_iface::Size;
use looks::sides;
use tb_geom::Rect;

/// Whether the axis runs down, and not to the right.
pub(crate) fn is_vertical(size: Size) -> bool
    ensures { result ≡ is_vertical size }
{
    size.width <= size.height
}

/// How long the axis is.
#[tactic(auto, unfolding(crate::specs::Axes::axis))]
pub(crate) fn axis(size: Size) -> u16
    requires { is_control_size size ≡ true }
    ensures value { result ≡ axis size }
    ensures small { result ≤ 1024 }
{
    if is_vertical(size) {
        size.height as u16
    } else {
        size.width as u16
    }
}

/// Whether the scroll bar has room for its boxes and a thumb.
pub(crate) fn is_long(size: Size) -> bool
    requires { is_control_size size ≡ true }
    ensures { result ≡ is_long size }
{
    48 <= axis(size)
}

/// How far the thumb can move.
pub(crate) fn room(size: Size) -> u16
    requires { is_control_size size ≡ true }
    ensures value { result ≡ room size }
    ensures small { result ≤ 976 }
{
    axis(size).saturating_sub(48)
}

/// What lies between two places on the axis, across all of the control.
#[tactic(auto, unfolding(crate::specs::Axes::along))]
pub(crate) fn along(size: Size, from: u16, to: u16) -> Rect
    ensures { result ≡ along size from to }
{
    if is_vertical(size) {
        sides(0, i32::from(from), size.width, i32::from(to))
    } else {
        sides(i32::from(from), 0, i32::from(to), size.height)
    }
}

/// The box at the first end.
pub(crate) fn first_box(size: Size) -> Rect
    ensures { result ≡ first_box size }
{
    along(size, 0, 16)
}

/// The box at the last end.
pub(crate) fn last_box(size: Size) -> Rect
    requires { is_control_size size ≡ true }
    ensures { result ≡ last_box size }
{
    along(size, axis(size).saturating_sub(16), axis(size))
}

/// The track between the two.
pub(crate) fn track(size: Size) -> Rect
    requires { is_control_size size ≡ true }
    ensures { result ≡ track size }
{
    along(size, 16, axis(size).saturating_sub(16))
}
