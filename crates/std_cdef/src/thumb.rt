//! The thumb of a scroll bar.
ghost use Rattle.std.specs.Prelude.{◌≡◌, ◌≤◌, ◌<◌, ◌*◌, ◌/◌, true};
ghost use Rattle.def_iface.specs.ControlMeaning.{is_control_size};
ghost use Rattle.std_cdef.specs.Axes.{room};
ghost use Rattle.std_cdef.specs.Thumbs.{rise, reach, thumb_step, thumb, before_thumb, after_thumb, has_thumb};
ghost use Rattle.std_cdef.specs.Thumbs.{way, dragged_step, value_at, dragged_value};
ghost use Rattle.std_cdef.specs.Controls.{scrolled_value};

use crate::axis::{along, axis, is_long, is_vertical, room};
use control_values::{ControlValues, Highlight};
use def_iface::{KeptControl, Size};
use tb_geom::{Point, Rect};

/// How far the value lies above the minimum.
fn rise(values: ControlValues) -> u32
    ensures value { result ≡ rise values }
    ensures within { result ≤ reach values }
{
    (i32::from(values.value()) - i32::from(values.minimum())).unsigned_abs()
}

/// How far the maximum does.
fn reach(values: ControlValues) -> u32
    ensures value { result ≡ reach values }
    ensures small { result ≤ 65535 }
{
    (i32::from(values.maximum()) - i32::from(values.minimum())).unsigned_abs()
}

/// How far the thumb has moved from the first box.
#[tactic(auto, unfolding(crate::specs::Thumbs::thumb_step))]
fn thumb_step(size: Size, values: ControlValues) -> u16
    requires { is_control_size size ≡ true }
    ensures value { result ≡ thumb_step size values }
    ensures within { result ≤ room size }
    ensures small { result ≤ 976 }
{
    let reach = reach(values);
    if reach == 0 {
        0
    } else {
        (rise(values) * u32::from(room(size)) / reach) as u16
    }
}

/// The thumb.
pub(crate) fn thumb(size: Size, values: ControlValues) -> Rect
    requires { is_control_size size ≡ true }
    ensures { result ≡ thumb size values }
{
    let step = thumb_step(size, values);
    along(size, 16 + step, 32 + step)
}

/// The track before the thumb.
pub(crate) fn before_thumb(size: Size, values: ControlValues) -> Rect
    requires { is_control_size size ≡ true }
    ensures { result ≡ before_thumb size values }
{
    along(size, 16, 16 + thumb_step(size, values))
}

/// The track after it.
pub(crate) fn after_thumb(size: Size, values: ControlValues) -> Rect
    requires { is_control_size size ≡ true }
    ensures { result ≡ after_thumb size values }
{
    let step = thumb_step(size, values);
    along(size, 32 + step, axis(size).saturating_sub(16))
}

/// Whether a scroll bar has a thumb: it is long, its value can change, and it is active.
pub(crate) fn has_thumb(size: Size, values: ControlValues, highlight: Highlight) -> bool
    requires { is_control_size size ≡ true }
    ensures { result ≡ has_thumb size values highlight }
{
    is_long(size) && (values.minimum() < values.maximum() && !highlight.is_inactive())
}

/// How far the second point lies from the first along the axis.
#[tactic(auto, unfolding(crate::specs::Thumbs::way))]
fn way(size: Size, from: Point, to: Point) -> i64
    ensures { result ≡ way size from to }
{
    if is_vertical(size) {
        i64::from(to.v) - i64::from(from.v)
    } else {
        i64::from(to.h) - i64::from(from.h)
    }
}

/// Where a thumb comes to that is dragged so far, on or back.
#[tactic(auto, unfolding(crate::specs::Thumbs::dragged_step))]
fn dragged_step(size: Size, values: ControlValues, way: i64) -> u16
    requires { is_control_size size ≡ true }
    ensures value { result ≡ dragged_step size values way }
    ensures within { result ≤ room size }
{
    let step = u64::from(thumb_step(size, values));
    let far = way.unsigned_abs();
    if way < 0 {
        step.saturating_sub(far) as u16
    } else {
        step.saturating_add(far).min(u64::from(room(size))) as u16
    }
}

/// How far the value that a thumb stands for which has moved so far lies above the minimum.
fn value_above(size: Size, values: ControlValues, step: u16) -> u16
    requires size { is_control_size size ≡ true }
    requires some { 0 < room size }
    requires within { step ≤ room size }
    ensures value { result ≡ step * reach values / room size }
    ensures within { result ≤ reach values }
{
    (u32::from(step) * reach(values) / u32::from(room(size))) as u16
}

/// The value that a thumb stands for which has moved so far.
#[tactic(auto, unfolding(crate::specs::Thumbs::value_at))]
fn value_at(size: Size, values: ControlValues, step: u16) -> i16
    requires size { is_control_size size ≡ true }
    requires some { 0 < room size }
    requires within { step ≤ room size }
    ensures { result ≡ value_at size values step }
{
    let above = value_above(size, values, step);
    (i32::from(values.minimum()) + i32::from(above)) as i16
}

/// The value once the thumb was dragged so far.
#[tactic(auto, unfolding(crate::specs::Thumbs::dragged_value))]
fn dragged_value(size: Size, values: ControlValues, way: i64) -> i16
    requires { is_control_size size ≡ true }
    ensures { result ≡ dragged_value size values way }
{
    if way != 0 && 0 < room(size) {
        value_at(size, values, dragged_step(size, values, way))
    } else {
        values.value()
    }
}

/// The value of a scroll bar once its thumb was dragged from one point to another.
pub(crate) fn thumb_value(kept: &KeptControl, from: Point, to: Point) -> i16
    requires { is_control_size kept.now.size ≡ true }
    ensures { result ≡ scrolled_value kept.now from to }
{
    if has_thumb(kept.size, kept.values, kept.highlight) {
        dragged_value(kept.size, kept.values, way(kept.size, from, to))
    } else {
        kept.values.value()
    }
}
