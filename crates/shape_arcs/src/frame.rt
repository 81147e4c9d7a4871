//! Frames of arcs, their regions, and the bytes of these.
ghost use Rattle.std.specs.Prelude.{◌≡◌, true, false, ℤ, IfOk, IfErr, Err, MatchResult};
ghost use Rattle.tb_geom.specs.declared.point.Point.{Point};
ghost use Rattle.tb_geom.specs.Rects.{is_in_range};
ghost use Rattle.tb_geom.specs.Pixels.{holds};
ghost use Rattle.pixel_rows.specs.Columns.{has_column};
ghost use Rattle.pixel_rows.specs.Told.{AreRegionBytes, IsNotTold};
ghost use Rattle.shape_region.specs.Rows.{two_runs, ArePlaced};
ghost use Rattle.shape_arcs.specs.Wedges.{frame_arc_holds};

use crate::arc::Arc;
use pixel_rows::{Columns, Combination, PixelRows, meant_columns, pixel_bytes};
use scan_region::Region;
use shape_region::{Frame, Rows, TwoRuns, form_region};
use shape_strips::{Corner, Pen, Run};
use std::alloc::{AllocError, Global};
use tb_geom::{Rect, Refusal};

/// The part of the frame of an oval that lies in a wedge, as that of an `Arc` (*Inside Macintosh* I, "QuickDraw":
/// `FrameArc`). The frame lies within the rectangle. A pen without width or height draws nothing.
#[derive(Clone, Copy)]
pub struct FrameArc {
    pub rect: Rect,
    pub start: i16,
    pub angle: i16,
    pub pen: Pen,
    ghost in_range: { is_in_range rect ≡ true },
}

/// The columns of a row of two runs at most.
fn columns_of(row: TwoRuns) -> Columns
    requires { ArePlaced row }
    ensures { (h : ℤ) → has_column result h ≡ two_runs row h }
{
    let mut columns = Columns::none();
    columns.put_run(Run {
        left: row.third,
        right: row.last,
    });
    columns.put_run(Run {
        left: row.first,
        right: row.second,
    });
    columns
}

impl FrameArc {
    ghost use Rattle.shape_strips.specs.Frames.{frame_holds};
    ghost use Rattle.shape_strips.specs.Rounds.{oval_corner};
    ghost use Rattle.shape_arcs.specs.Wedges.{arc_holds};

    /// The whole frame.
    fn frame(&self) -> Frame
        ensures rect { result.rect ≡ self.now.rect }
        ensures corner { result.corner ≡ oval_corner self.now.rect }
        ensures pen { result.pen ≡ self.now.pen }
    {
        let (rect, pen) = (self.rect, self.pen);
        let corner = Corner::of_oval(rect);
        Frame { rect, corner, pen }
    }

    /// The arc within the frame's outer side.
    fn arc(&self) -> Arc
        ensures rect { result.rect ≡ self.now.rect }
        ensures start { result.start ≡ self.now.start }
        ensures angle { result.angle ≡ self.now.angle }
    {
        Arc {
            rect: self.rect,
            start: self.start,
            angle: self.angle,
        }
    }

    /// The columns of the row `v` of the whole frame.
    fn frame_row(&self, v: i32) -> Columns
        ensures { (h : ℤ) → has_column result h
            ≡ frame_holds self.now.rect (oval_corner self.now.rect) self.now.pen (record { h = h; v = v }) }
    {
        columns_of(self.frame().two_runs(v))
    }

    /// The columns of the row `v` of the arc.
    fn arc_row(&self, v: i32) -> Columns
        ensures { (h : ℤ) → has_column result h
            ≡ arc_holds self.now.rect self.now.start self.now.angle (record { h = h; v = v }) }
    {
        columns_of(self.arc().two_runs(v))
    }

    /// The region of its pixels.
    fn region(&self, alloc: Global) -> Result<Region, AllocError>
        ensures { IfOk result (λ region. (p : Point) → holds region p
            ≡ frame_arc_holds self.now.rect self.now.start self.now.angle self.now.pen p) }
    {
        let frame = form_region(alloc, &self.frame())?;
        let arc = form_region(alloc, &self.arc())?;
        frame.sect(alloc, &arc)
    }
}

impl PixelRows for FrameArc {
    ghost pixels = { λ s. frame_arc_holds s.rect s.start s.angle s.pen };

    fn bounds(&self) -> Rect {
        self.rect
    }

    fn row(&self, v: i32) -> Columns {
        let (frame, arc) = (self.frame_row(v), self.arc_row(v));
        meant_columns(Combination::Sect, &frame, &arc, self.rect)
    }

    fn turns(&self, _v: i32) -> bool {
        true
    }
}

/// The region of the frame of an arc (*Inside Macintosh* I, "QuickDraw": `FrameArc`). It refuses as `arc_region` does.
pub fn frame_arc_region(
    alloc: Global,
    rect: Rect,
    start: i16,
    angle: i16,
    pen: Pen,
) -> Result<Region, Refusal>
    ensures pixels { IfOk result (λ region. (p : Point) → holds region p ≡ frame_arc_holds rect start angle pen p) }
    ensures out_of_range { is_in_range rect ≡ false → result ≡ Err Refusal.OutOfRange }
    ensures refused { is_in_range rect ≡ true → IfErr result (λ e. e ≡ Refusal.NoMemory) }
{
    if !rect.is_in_range() {
        return Err(Refusal::OutOfRange);
    }
    let frame = FrameArc {
        rect,
        start,
        angle,
        pen,
    };
    Ok(frame.region(alloc)?)
}

/// The bytes of the region of the frame of an arc, written row by row, without the region. It refuses as `arc_bytes`
/// does.
pub fn frame_arc_bytes(
    alloc: Global,
    rect: Rect,
    start: i16,
    angle: i16,
    pen: Pen,
) -> Result<Vec<u8>, Refusal>
    requires { is_in_range rect ≡ true }
    ensures { MatchResult result (λ bytes. AreRegionBytes (frame_arc_holds rect start angle pen) bytes.items)
        (IsNotTold (frame_arc_holds rect start angle pen)) }
{
    let frame = FrameArc {
        rect,
        start,
        angle,
        pen,
    };
    pixel_bytes(alloc, &frame)
}
