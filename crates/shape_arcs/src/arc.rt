//! Arcs, their regions, and the bytes of these.
ghost use Rattle.std.specs.Prelude.{◌≡◌, true, false, IfOk, IfErr, Err, MatchResult};
ghost use Rattle.tb_geom.specs.declared.point.Point.{Point};
ghost use Rattle.tb_geom.specs.Rects.{is_in_range};
ghost use Rattle.tb_geom.specs.Pixels.{holds};
ghost use Rattle.pixel_rows.specs.Told.{AreRegionBytes, IsNotTold};
ghost use Rattle.shape_arcs.specs.Wedges.{arc_holds};

use crate::sector::SectorStrip;
use crate::span::{Span, clockwise};
use scan_region::Region;
use shape_region::{Rows, TwoRuns, form_bytes, form_region, placed_run};
use shape_strips::{Corner, RoundStrip, Run};
use std::alloc::Global;
use tb_geom::{Rect, Refusal};

/// The part of an oval that lies in a wedge: from `start` on, over `angle` degrees clockwise, or back where `angle` is
/// below 0. A degree is a 360th of a turn from the top, where the rectangle is stretched to a square (*Inside
/// Macintosh* I, "QuickDraw": `PaintArc`). Where the wedge ends, its pixels do not belong to it.
#[derive(Clone, Copy)]
pub struct Arc {
    pub rect: Rect,
    pub start: i16,
    pub angle: i16,
    ghost in_range: { is_in_range rect ≡ true },
}

impl Arc {
    ghost use Rattle.std.specs.Prelude.{ℤ, pos, ◌+ℤ◌, int_le};
    ghost use Rattle.pixel_rows.specs.Bounds.{IsPlaced};
    ghost use Rattle.shape_strips.specs.Rounds.{oval_holds};
    ghost use Rattle.shape_strips.specs.Runs.{run_holds};
    ghost use Rattle.shape_arcs.specs.Halves.{sector_holds};

    /// The columns of the row `v` of the whole oval.
    fn oval_run(&self, v: i32) -> Run
        ensures placed { IsPlaced result }
        ensures pixels { (h : ℤ) → run_holds result h ≡ oval_holds self.now.rect (record { h = h; v = v }) }
    {
        let rect = self.rect;
        let corner = Corner::of_oval(rect);
        placed_run(&RoundStrip { rect, corner }, rect, v)
    }

    /// The columns of the row `v` of the oval that lie in the wedge, or, where it is broader than half a turn, of those
    /// that do not.
    fn sector_run(&self, span: Span, v: i32) -> Run
        ensures placed { IsPlaced result }
        ensures pixels { let narrow = int_le span.angle (pos 180) in (h : ℤ) → run_holds result h
            ≡ sector_holds self.now.rect span.start (span.start +ℤ span.angle) narrow (record { h = h; v = v }) }
    {
        let rect = self.rect;
        let sector = SectorStrip {
            rect,
            start: span.start,
            end: span.start + span.angle,
            narrow: span.angle <= 180,
        };
        placed_run(&sector, rect, v)
    }
}

impl Rows for Arc {
    ghost pixels = { λ s. arc_holds s.rect s.start s.angle };

    fn bounds(&self) -> Rect {
        self.rect
    }

    fn two_runs(&self, v: i32) -> TwoRuns {
        let span = clockwise(self.start, self.angle);
        let oval = self.oval_run(v);
        if 360 <= span.angle {
            return TwoRuns::one(oval);
        }
        let sector = self.sector_run(span, v);
        if span.angle <= 180 {
            return TwoRuns::one(sector);
        }
        TwoRuns::around(oval, sector)
    }
}

/// The region of an arc (*Inside Macintosh* I, "QuickDraw": `PaintArc`). OutOfRange exactly where a side of the
/// rectangle lies outside -16384..=16383, also of an empty one; else it refuses only for want of memory.
pub fn arc_region(alloc: Global, rect: Rect, start: i16, angle: i16) -> Result<Region, Refusal>
    ensures pixels { IfOk result (λ region. (p : Point) → holds region p ≡ arc_holds rect start angle p) }
    ensures out_of_range { is_in_range rect ≡ false → result ≡ Err Refusal.OutOfRange }
    ensures refused { is_in_range rect ≡ true → IfErr result (λ e. e ≡ Refusal.NoMemory) }
{
    if !rect.is_in_range() {
        return Err(Refusal::OutOfRange);
    }
    let arc = Arc { rect, start, angle };
    Ok(form_region(alloc, &arc)?)
}

/// The bytes of the region of an arc, written row by row, without the region. TooLong where they would be more than
/// 32766, also where memory is refused; else it refuses only for want of memory.
pub fn arc_bytes(alloc: Global, rect: Rect, start: i16, angle: i16) -> Result<Vec<u8>, Refusal>
    requires { is_in_range rect ≡ true }
    ensures { MatchResult result (λ bytes. AreRegionBytes (arc_holds rect start angle) bytes.items)
        (IsNotTold (arc_holds rect start angle)) }
{
    form_bytes(alloc, &Arc { rect, start, angle })
}
