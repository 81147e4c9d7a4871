//! Strips, and the runs of their rows.
ghost use Rattle.std.specs.Prelude.{◌≡◌, ℤ, IfOk};
ghost use Rattle.tb_geom.specs.declared.point.Point.{Point};
ghost use Rattle.tb_geom.specs.Pixels.{holds};
ghost use Rattle.shape_strips.specs.Runs.{run_holds};
ghost use Rattle.pixel_rows.specs.Bounds.{AreBounds, IsPlaced};

use crate::making::form_region;
use crate::rows::Solid;
use scan_region::Region;
use shape_strips::{Run, Strip};
use std::alloc::{AllocError, Global};
use tb_geom::Rect;

/// The region of the pixels of a strip, in its coordinate space.
pub fn strip_region<S: Strip>(alloc: Global, strip: &S) -> Result<Region, AllocError>
    ensures { IfOk result (λ region. (p : Point) → holds region p ≡ S.pixels strip.now p) }
{
    form_region(alloc, &Solid { strip })
}

/// The run of the row `v` of a strip, with its ends within the bounds also where it has no column.
pub fn placed_run<S: Strip>(strip: &S, bounds: Rect, v: i32) -> Run
    requires { AreBounds (S.pixels strip.now) bounds }
    ensures placed { IsPlaced result }
    ensures pixels { (h : ℤ) → run_holds result h ≡ S.pixels strip.now (record { h = h; v = v }) }
{
    let run = strip.run(v);
    if run.left < run.right {
        return run;
    }
    no_run(bounds)
}

/// A run without columns, at the left side of the bounds.
fn no_run(bounds: Rect) -> Run
    ensures { result ≡ record { left = bounds.left; right = bounds.left } }
{
    Run {
        left: bounds.left,
        right: bounds.left,
    }
}
