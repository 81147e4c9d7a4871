//! Regions of frames, and of the insides that they leave.
ghost use Rattle.std.specs.Prelude.{◌≡◌, true, false, IfOk, IfErr, Err};
ghost use Rattle.tb_geom.specs.declared.point.Point.{Point};
ghost use Rattle.tb_geom.specs.Rects.{is_in_range, rect_holds};
ghost use Rattle.tb_geom.specs.Pixels.{holds};
ghost use Rattle.shape_strips.specs.Rounds.{no_corner, oval_corner};
ghost use Rattle.shape_strips.specs.Frames.{frame_holds, inside_holds};

use crate::making::form_region;
use crate::rows::Rows;
use crate::strip::{placed_run, strip_region};
use crate::two_runs::TwoRuns;
use scan_region::Region;
use shape_strips::{Corner, InsideStrip, Pen, RoundStrip, Strip};
use std::alloc::Global;
use tb_geom::{Rect, Refusal};

/// The frame of a round shape, within its rectangle: the shape less its inside. A pen without width or height draws
/// nothing.
#[derive(Clone, Copy)]
pub struct Frame {
    pub rect: Rect,
    pub corner: Corner,
    pub pen: Pen,
    ghost in_range: { is_in_range rect ≡ true },
}

impl Rows for Frame {
    ghost pixels = { λ s. frame_holds s.rect s.corner s.pen };

    fn bounds(&self) -> Rect {
        self.rect
    }

    fn two_runs(&self, v: i32) -> TwoRuns {
        if !self.pen.has_size() {
            return TwoRuns::none();
        }
        let (rect, corner, pen) = (self.rect, self.corner, self.pen);
        let shape = RoundStrip { rect, corner };
        let inside = InsideStrip { rect, corner, pen };
        let outer = placed_run(&shape, shape.bounds(), v);
        TwoRuns::around(outer, placed_run(&inside, inside.bounds(), v))
    }
}

/// The frame of a rectangle with rounded corners, within it (*Inside Macintosh* I, "QuickDraw": `FrameRoundRect`):
/// the shape less its inside. A pen without width or height draws nothing. OutOfRange exactly where a side of the
/// rectangle lies outside -16384..=16383, also of an empty one; else it refuses only for want of memory.
pub fn frame_round_rect_region(
    alloc: Global,
    rect: Rect,
    corner: Corner,
    pen: Pen,
) -> Result<Region, Refusal>
    ensures pixels { IfOk result (λ region. (p : Point) → holds region p ≡ frame_holds rect corner pen p) }
    ensures out_of_range { is_in_range rect ≡ false → result ≡ Err Refusal.OutOfRange }
    ensures refused { is_in_range rect ≡ true → IfErr result (λ e. e ≡ Refusal.NoMemory) }
{
    if !rect.is_in_range() {
        return Err(Refusal::OutOfRange);
    }
    let frame = Frame { rect, corner, pen };
    Ok(form_region(alloc, &frame)?)
}

/// The frame of an oval, within its rectangle (*Inside Macintosh* I, "QuickDraw": `FrameOval`). It refuses as
/// `frame_round_rect_region` does.
pub fn frame_oval_region(alloc: Global, rect: Rect, pen: Pen) -> Result<Region, Refusal>
    ensures pixels { IfOk result (λ region. (p : Point) → holds region p ≡ frame_holds rect (oval_corner rect) pen p) }
    ensures out_of_range { is_in_range rect ≡ false → result ≡ Err Refusal.OutOfRange }
    ensures refused { is_in_range rect ≡ true → IfErr result (λ e. e ≡ Refusal.NoMemory) }
{
    if !rect.is_in_range() {
        return Err(Refusal::OutOfRange);
    }
    let corner = Corner::of_oval(rect);
    Ok(form_region(alloc, &Frame { rect, corner, pen })?)
}

/// The frame of a rectangle, within it (*Inside Macintosh* I, "QuickDraw": `FrameRect`). It refuses as
/// `frame_round_rect_region` does.
pub fn frame_rect_region(alloc: Global, rect: Rect, pen: Pen) -> Result<Region, Refusal>
    ensures pixels { IfOk result (λ region. (p : Point) → holds region p ≡ frame_holds rect no_corner pen p) }
    ensures out_of_range { is_in_range rect ≡ false → result ≡ Err Refusal.OutOfRange }
    ensures refused { is_in_range rect ≡ true → IfErr result (λ e. e ≡ Refusal.NoMemory) }
{
    if !rect.is_in_range() {
        return Err(Refusal::OutOfRange);
    }
    let corner = Corner::none();
    Ok(form_region(alloc, &Frame { rect, corner, pen })?)
}

/// What a frame leaves of a rectangle with rounded corners. It refuses as `frame_round_rect_region` does.
pub fn inside_region(alloc: Global, rect: Rect, corner: Corner, pen: Pen) -> Result<Region, Refusal>
    ensures pixels { IfOk result (λ region. (p : Point) → holds region p ≡ inside_holds rect corner pen p) }
    ensures out_of_range { is_in_range rect ≡ false → result ≡ Err Refusal.OutOfRange }
    ensures refused { is_in_range rect ≡ true → IfErr result (λ e. e ≡ Refusal.NoMemory) }
{
    if !rect.is_in_range() {
        return Err(Refusal::OutOfRange);
    }
    Ok(strip_region(alloc, &InsideStrip { rect, corner, pen })?)
}
