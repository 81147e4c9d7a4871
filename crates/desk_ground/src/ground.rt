//! A screen without windows: the menu bar above, and the gray desktop.
ghost use Rattle.std.specs.Prelude.{◌≡◌, true, if◌then◌else◌, IfOk, IfErr, int_lt};
ghost use Rattle.desk_ground.specs.Screens as screens;
ghost use Rattle.desk_ground.specs.Grounds.{IsGround, IsEmptyPainted, last_row};

use bit_blit::{Ink, draw_rect, fill};
use bit_map::{BitMap, Mode, Pattern};
use scan_region::Region;
use std::alloc::Global;
use tb_geom::{Point, Rect, Refusal};

/// The pattern of the desktop.
pub const DESKTOP: Pattern = Pattern::GRAY;

/// The fewest columns that a screen may have, and the fewest rows.
const SHORTEST_SIDE: i32 = 8;

/// The most columns that a screen may have, and the most rows.
const LONGEST_SIDE: i32 = 1024;

/// A screen without windows.
#[derive(Drop)]
pub struct Ground {
    pub screen: BitMap,
    /// The part of it below the menu bar.
    pub gray: Region,
    /// The same: no window owns any of it.
    pub desktop: Region,
}

/// A screen without windows, of `width` by `height` pixels: its first `bar` rows are the menu bar's, white,
/// the last of them black; the rest is gray. OutOfRange where a side lies outside 8..=1024, or `bar` is
/// neither 0 nor 20 or not less than the height; else NoMemory is the only refusal.
pub fn empty_ground(alloc: Global, width: i32, height: i32, bar: i32) -> Result<Ground, Refusal>
    ensures painted { IfOk result (IsGround width height bar) }
    ensures in_range { IfOk result (λ _. screens.is_screen width height bar ≡ true) }
    ensures refused { IfErr result (λ e.
        e ≡ (if screens.is_screen width height bar then Refusal.NoMemory else Refusal.OutOfRange)) }
{
    if !is_screen(width, height, bar) {
        return Err(Refusal::OutOfRange);
    }
    let mut screen = BitMap::new(alloc, width, height)?;
    let below = Rect {
        left: 0,
        top: bar,
        right: width,
        bottom: height,
    };
    let gray = Region::from_rect(alloc, below)?;
    let desktop = gray.copy(alloc)?;
    paint_empty(&mut screen, &gray, bar);
    Ok(Ground {
        screen,
        gray,
        desktop,
    })
}

/// Whether a screen may have these sides, and this many rows of menu bar.
pub fn is_screen(width: i32, height: i32, bar: i32) -> bool
    ensures { result ≡ screens.is_screen width height bar }
{
    is_screen_side(width) && (is_screen_side(height) && (is_bar(bar) && is_less(bar, height)))
}

/// Whether a screen may be so wide or so high.
fn is_screen_side(side: i32) -> bool
    ensures { result ≡ screens.is_screen_side side }
{
    SHORTEST_SIDE <= side && side <= LONGEST_SIDE
}

/// Whether a menu bar may have so many rows.
fn is_bar(bar: i32) -> bool
    ensures { result ≡ screens.is_bar bar }
{
    bar == 0 || bar == 20
}

/// Whether the bar has less rows than the screen.
fn is_less(bar: i32, height: i32) -> bool
    ensures { result ≡ int_lt bar height }
{
    bar < height
}

/// Paints the desktop in its pattern, and the last row of the menu bar black.
fn paint_empty(screen: &mut BitMap, gray: &Region, bar: i32)
    requires { screens.is_bar bar ≡ true }
    ensures { IsEmptyPainted bar gray.now screen.old screen.new }
{
    let origin = Point { h: 0, v: 0 };
    fill(screen, gray, origin, DESKTOP, Mode::Copy);
    let last_row = last_row(bar, screen.bounds().right);
    let black = Ink {
        pattern: Pattern::BLACK,
        offset: origin,
        mode: Mode::Copy,
    };
    draw_rect(screen, last_row, &black);
}

/// The last row of a menu bar of so many rows, up to a column.
fn last_row(bar: i32, right: i32) -> Rect
    requires { screens.is_bar bar ≡ true }
    ensures { result ≡ last_row bar right }
{
    Rect {
        left: 0,
        top: bar - 1,
        right,
        bottom: bar,
    }
}
