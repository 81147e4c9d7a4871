//! What a hollow window looks like, which pixels it has, and which part of it a point lies in, as tables.
ghost use Rattle.std.specs.Prelude.{◌≡◌, true, length, pos, ◌≤ℤ◌, ◌-ℤ◌};
ghost use Rattle.tb_geom.specs.Rects.{is_coordinate};
ghost use Rattle.def_iface.specs.Sizes.{is_size};
ghost use Rattle.own_kind.specs.HollowWindows.{outline, bar, lower_edge, go_away_box, zoom_box, third, hole};
ghost use Rattle.own_kind.specs.HollowWindows.{hollow_structure, hollow_content, bar_line, go_away_line, zoom_line};
ghost use Rattle.own_kind.specs.HollowWindows.{hollow_look, zoom_hit, hollow_spots, hollow_hit};

use def_iface::{Flags, Hit, Size};
use looks::{Look, Piece, Spot, Step, area_has, columns, first_part, from_right, more, sides};
use tb_geom::{Point, Rect};

/// All of the window, its hole too.
pub(crate) fn outline(size: Size) -> Rect
    requires { is_size size ≡ true }
    ensures { result ≡ outline size }
{
    sides(-1, -19, more(size.width, 1), more(size.height, 1))
}

/// The bar above the content.
fn bar(size: Size) -> Rect
    ensures { result ≡ bar size }
{
    sides(0, -18, size.width, -1)
}

/// The row below the content.
fn lower_edge(size: Size) -> Rect
    requires { is_size size ≡ true }
    ensures { result ≡ lower_edge size }
{
    sides(-1, size.height, more(size.width, 1), more(size.height, 1))
}

/// The go-away box.
fn go_away_box() -> Rect
    ensures { result ≡ go_away_box }
{
    sides(8, -16, 19, -5)
}

/// The zoom box.
fn zoom_box(size: Size) -> Rect
    requires { is_size size ≡ true }
    ensures { result ≡ zoom_box size }
{
    from_right(size.width, 19, -16, 8, -5)
}

/// The columns of the hole, and as many to the right of it.
#[tactic(auto, unfolding(crate::specs::HollowWindows::third))]
fn third(size: Size) -> i32
    requires { is_size size ≡ true }
    ensures value { result ≡ third size }
    ensures low { pos 0 ≤ℤ result }
    ensures high { result ≤ℤ pos 5461 }
{
    size.width.div_euclid(3)
}

/// Where the hole ends, and the right part of the content begins.
fn hole_right(size: Size) -> i32
    requires { is_size size ≡ true }
    ensures value { result ≡ size.width -ℤ third size }
    ensures within { is_coordinate result ≡ true }
{
    size.width - third(size)
}

/// Where the hole begins, and the left part of the content ends.
fn hole_left(size: Size) -> i32
    requires { is_size size ≡ true }
    ensures { result ≡ size.width -ℤ third size -ℤ third size }
{
    hole_right(size) - third(size)
}

/// The hole, which the structure and the content leave out.
fn hole(size: Size) -> Rect
    requires { is_size size ≡ true }
    ensures { result ≡ hole size }
{
    sides(hole_left(size), 0, hole_right(size), size.height)
}

/// The structure.
pub(crate) fn structure_of(size: Size) -> [Piece; 2]
    requires { is_size size ≡ true }
    ensures { result ≡ hollow_structure size }
{
    [Piece::added(outline(size)), Piece::removed(hole(size))]
}

/// The content, in two parts.
pub(crate) fn content_of(size: Size) -> [Piece; 2]
    requires { is_size size ≡ true }
    ensures { result ≡ hollow_content size }
{
    [Piece::added(size.rect()), Piece::removed(hole(size))]
}

/// Black, the bar with its frame, and the title.
fn bar_line(flags: Flags, size: Size) -> [Step; 4]
    requires { is_size size ≡ true }
    ensures { result ≡ bar_line flags size }
{
    [
        Step::black_fill(outline(size)),
        Step::white_fill(bar(size)),
        Step::black_frame(bar(size)).when(flags.highlighted),
        Step::black_text(bar(size), columns(size.width), -6),
    ]
}

/// The go-away box.
fn go_away_line(flags: Flags, size: Size) -> [Step; 3]
    ensures { result ≡ go_away_line flags size }
{
    let bar = bar(size);
    let closing = go_away_box();
    let mark = Step::black_fill(sides(11, -13, 16, -8));
    [
        Step::white_fill(closing).when(flags.go_away).cut_to(bar),
        Step::black_frame(closing).when(flags.go_away).cut_to(bar),
        mark.when(flags.tracked).cut_to(bar),
    ]
}

/// The zoom box.
fn zoom_line(flags: Flags, size: Size) -> [Step; 3]
    requires { is_size size ≡ true }
    ensures { result ≡ zoom_line flags size }
{
    let bar = bar(size);
    let mark = Step::black_fill(from_right(size.width, 16, -13, 11, -8));
    [
        Step::white_fill(zoom_box(size)).cut_to(bar),
        Step::black_frame(zoom_box(size)).cut_to(bar),
        mark.when(flags.zoomed).cut_to(bar),
    ]
}

/// What the window looks like.
#[tactic(auto, unfolding(crate::specs::HollowWindows::hollow_look))]
pub(crate) fn hollow_look(flags: Flags, size: Size) -> Look<10>
    requires { is_size size ≡ true }
    ensures steps { result.steps.items ≡ hollow_look flags size }
    ensures count { length result.steps.items ≡ 10 }
{
    Look::new()
        .with(&bar_line(flags, size))
        .with(&go_away_line(flags, size))
        .with(&zoom_line(flags, size))
}

/// What the zoom box does.
fn zoom_hit(flags: Flags) -> Hit
    ensures { result ≡ zoom_hit flags }
{
    if flags.zoomed {
        Hit::InZoomIn
    } else {
        Hit::InZoomOut
    }
}

/// The parts that a highlighted window has beside the one by which it is dragged.
fn spots_of(flags: Flags, size: Size) -> [Spot<Hit>; 3]
    requires { is_size size ≡ true }
    ensures { result ≡ hollow_spots flags size }
{
    let closes = flags.highlighted && flags.go_away;
    let edge = lower_edge(size);
    [
        Spot::new(closes, bar(size), go_away_box(), Hit::InGoAway),
        Spot::new(
            flags.highlighted,
            bar(size),
            zoom_box(size),
            zoom_hit(flags),
        ),
        Spot::new(flags.highlighted, edge, edge, Hit::InGrow),
    ]
}

/// The part of the window that the point lies in.
pub(crate) fn hollow_hit(flags: Flags, size: Size, point: Point) -> Hit
    requires { is_size size ≡ true }
    ensures { result ≡ hollow_hit flags size point }
{
    if area_has(&content_of(size), point) {
        Hit::InContent
    } else {
        first_part(&spots_of(flags, size), Hit::InDrag, point)
    }
}
