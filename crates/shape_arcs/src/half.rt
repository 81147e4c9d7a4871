//! Halves of a rectangle as strips.
ghost use Rattle.std.specs.Prelude.{◌≡◌, true, ℤ};
ghost use Rattle.tb_geom.specs.Rects.{is_in_range};
ghost use Rattle.shape_strips.specs.Runs.{run_holds};
ghost use Rattle.shape_arcs.specs.Halves.{half_holds};
ghost use Rattle.shape_arcs.specs.Rays.{ray_holds};

use crate::ray::turn_at;
use shape_strips::{Run, Strip};
use tb_geom::Rect;

/// The columns of the row `v` of a rectangle whose pixels are seen from a degree on, or, where `from` is not set, of
/// those that are not.
pub fn half_run(rect: Rect, degree: i32, v: i32, from: bool) -> Run
    requires { is_in_range rect ≡ true }
    ensures { (h : ℤ) → run_holds result h ≡ half_holds rect degree from (record { h = h; v = v }) }
{
    if rect.right <= rect.left || v < rect.top || rect.bottom <= v {
        return Run::empty();
    }
    let turn = turn_at(rect, degree, v);
    if turn.rises == from {
        return Run {
            left: turn.column,
            right: rect.right,
        };
    }
    Run {
        left: rect.left,
        right: turn.column,
    }
}

/// The pixels of a rectangle that are seen from its middle in the direction of a degree, or clockwise from there by
/// less than half a turn. The degree may be any.
#[derive(Clone, Copy)]
pub struct RayStrip {
    pub rect: Rect,
    pub degree: i32,
    ghost in_range: { is_in_range rect ≡ true },
}

impl Strip for RayStrip {
    ghost pixels = { λ s. ray_holds s.rect s.degree };

    fn bounds(&self) -> Rect {
        self.rect
    }

    fn run(&self, v: i32) -> Run {
        half_run(self.rect, self.degree, v, true)
    }
}
