//! Regions of round shapes.
ghost use Rattle.std.specs.Prelude.{◌≡◌, true, false, IfOk, IfErr, Err};
ghost use Rattle.tb_geom.specs.declared.point.Point.{Point};
ghost use Rattle.tb_geom.specs.Rects.{is_in_range};
ghost use Rattle.tb_geom.specs.Pixels.{holds};
ghost use Rattle.shape_strips.specs.Rounds.{oval_holds, round_holds};

use crate::strip_region;
use scan_region::Region;
use shape_strips::{Corner, RoundStrip};
use std::alloc::Global;
use tb_geom::{Rect, Refusal};

/// The pixels of a rectangle with rounded corners (*Inside Macintosh* I, "QuickDraw": `PaintRoundRect`). OutOfRange
/// exactly where a side of the rectangle lies outside -16384..=16383, also of an empty one; else it refuses only for
/// want of memory.
pub fn round_rect_region(alloc: Global, rect: Rect, corner: Corner) -> Result<Region, Refusal>
    ensures pixels { IfOk result (λ region. (p : Point) → holds region p ≡ round_holds rect corner p) }
    ensures out_of_range { is_in_range rect ≡ false → result ≡ Err Refusal.OutOfRange }
    ensures refused { is_in_range rect ≡ true → IfErr result (λ e. e ≡ Refusal.NoMemory) }
{
    if !rect.is_in_range() {
        return Err(Refusal::OutOfRange);
    }
    Ok(strip_region(alloc, &RoundStrip { rect, corner })?)
}

/// The pixels of a rectangle whose centres lie in the oval that touches its four sides (*Inside Macintosh* I,
/// "QuickDraw": `PaintOval`). It refuses as `round_rect_region` does.
pub fn oval_region(alloc: Global, rect: Rect) -> Result<Region, Refusal>
    ensures pixels { IfOk result (λ region. (p : Point) → holds region p ≡ oval_holds rect p) }
    ensures out_of_range { is_in_range rect ≡ false → result ≡ Err Refusal.OutOfRange }
    ensures refused { is_in_range rect ≡ true → IfErr result (λ e. e ≡ Refusal.NoMemory) }
{
    if !rect.is_in_range() {
        return Err(Refusal::OutOfRange);
    }
    let corner = Corner::of_oval(rect);
    let oval = RoundStrip { rect, corner };
    Ok(strip_region(alloc, &oval)?)
}
