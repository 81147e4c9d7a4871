//! What a ring looks like, which pixels it has, and which part of it a point lies in, as tables.
ghost use Rattle.std.specs.Prelude.{◌≡◌, true, pos, ◌+ℤ◌, ◌≤ℤ◌};
ghost use Rattle.tb_geom.specs.declared.point.Point.{Point};
ghost use Rattle.def_iface.specs.Sizes.{is_size};
ghost use Rattle.own_kind.specs.Rings.{across, down, hole, left_side, right_side, middle};
ghost use Rattle.own_kind.specs.Rings.{ring_region, is_raised, ring_look, ring_spots, ring_hit};

use control_values::{ControlPart, ControlValues, Highlight};
use def_iface::Size;
use looks::{Baseline, Piece, Spot, Step, first_part, sides};
use tb_geom::{Point, Rect};

/// The columns of the hole, and as many to the left of it.
#[tactic(auto, unfolding(crate::specs::Rings::across))]
fn across(size: Size) -> i32
    requires { is_size size ≡ true }
    ensures value { result ≡ across size }
    ensures low { pos 0 ≤ℤ result }
    ensures high { result ≤ℤ pos 5461 }
{
    size.width.div_euclid(3)
}

/// The rows of the hole, and as many above it.
#[tactic(auto, unfolding(crate::specs::Rings::down))]
fn down(size: Size) -> i32
    requires { is_size size ≡ true }
    ensures value { result ≡ down size }
    ensures low { pos 0 ≤ℤ result }
    ensures high { result ≤ℤ pos 5461 }
{
    size.height.div_euclid(3)
}

/// Where the hole ends, and the right side begins.
fn hole_right(size: Size) -> i32
    requires { is_size size ≡ true }
    ensures { result ≡ across size +ℤ across size }
{
    across(size) + across(size)
}

/// The row in which the hole ends.
fn hole_bottom(size: Size) -> i32
    requires { is_size size ≡ true }
    ensures { result ≡ down size +ℤ down size }
{
    down(size) + down(size)
}

/// The hole, which the region leaves out.
fn hole(size: Size) -> Rect
    requires { is_size size ≡ true }
    ensures { result ≡ hole size }
{
    sides(
        across(size),
        down(size),
        hole_right(size),
        hole_bottom(size),
    )
}

/// The columns to the left of the hole.
fn left_side(size: Size) -> Rect
    requires { is_size size ≡ true }
    ensures { result ≡ left_side size }
{
    sides(0, 0, across(size), size.height)
}

/// Those to the right of it.
fn right_side(size: Size) -> Rect
    requires { is_size size ≡ true }
    ensures { result ≡ right_side size }
{
    sides(hole_right(size), 0, size.width, size.height)
}

/// Those between the two: the hole, and what joins both sides above and below it.
fn middle(size: Size) -> Rect
    requires { is_size size ≡ true }
    ensures { result ≡ middle size }
{
    sides(across(size), 0, hole_right(size), size.height)
}

/// The region.
pub(crate) fn ring_region(size: Size) -> [Piece; 2]
    requires { is_size size ≡ true }
    ensures { result ≡ ring_region size }
{
    [Piece::added(size.rect()), Piece::removed(hole(size))]
}

/// Whether the value is above the minimum.
fn is_raised(values: ControlValues) -> bool
    ensures { result ≡ is_raised values }
{
    values.minimum() < values.value()
}

/// What the ring looks like.
#[tactic(auto, unfolding(crate::specs::Rings::ring_look))]
pub(crate) fn ring_look(size: Size, values: ControlValues, highlight: Highlight) -> [Step; 8]
    requires { is_size size ≡ true }
    ensures { result ≡ ring_look size values highlight }
{
    let whole = size.rect();
    let left = left_side(size);
    let right = right_side(size);
    [
        Step::light_gray_fill(middle(size)),
        Step::black_frame(left),
        Step::black_frame(right),
        Step::black_cross(right).when(is_raised(values)),
        Step::text_at(whole, 2, Baseline::Middle(size.height as u16)),
        Step::inverted(left).when(highlight.shows(ControlPart::UpButton)),
        Step::inverted(right).when(highlight.shows(ControlPart::DownButton)),
        Step::grayed(whole).when(highlight.is_inactive()),
    ]
}

/// Its two sides, each of which is a part.
fn ring_spots(size: Size) -> [Spot<Option<ControlPart>>; 2]
    requires { is_size size ≡ true }
    ensures { result ≡ ring_spots size }
{
    let whole = size.rect();
    [
        Spot::new(true, whole, left_side(size), Some(ControlPart::UpButton)),
        Spot::new(true, whole, right_side(size), Some(ControlPart::DownButton)),
    ]
}

/// The part of the ring that the point lies in: none between the two sides.
pub(crate) fn ring_hit(size: Size, point: Point) -> Option<ControlPart>
    requires { is_size size ≡ true }
    ensures { result ≡ ring_hit size point }
{
    first_part(&ring_spots(size), None, point)
}
