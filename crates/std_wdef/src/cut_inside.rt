//! The insides of frames, cut to rectangles.
ghost use Rattle.std.specs.Prelude.{◌≡◌, ◌&&◌, true, false, ℤ};
ghost use Rattle.tb_geom.specs.declared.point.Point.{Point};
ghost use Rattle.tb_geom.specs.Rects.{is_in_range, rect_holds};
ghost use Rattle.shape_strips.specs.Frames.{inside_holds};
ghost use Rattle.shape_strips.specs.Runs.{run_holds};

use shape_strips::{InsideStrip, Run, Strip};
use tb_geom::{Point, Rect};

/// What the frame leaves, within a rectangle.
#[derive(Clone, Copy)]
pub(crate) struct CutInside {
    pub cut: Rect,
    pub inside: InsideStrip,
}

impl Strip for CutInside {
    ghost pixels = { λ s p. rect_holds s.cut p && inside_holds s.inside.rect s.inside.corner s.inside.pen p };

    fn bounds(&self) -> Rect {
        self.inside.bounds()
    }

    fn run(&self, v: i32) -> Run {
        let cut = self.cut;
        if v < cut.top || cut.bottom <= v {
            return Run::empty();
        }
        let columns = Run {
            left: cut.left,
            right: cut.right,
        };
        columns.sect(self.inside.run(v))
    }
}

/// Whether a strip has the point.
pub(crate) fn has<S: Strip>(strip: &S, point: Point) -> bool
    ensures { result ≡ S.pixels strip.now point }
{
    let run = strip.run(point.v);
    run.left <= point.h && point.h < run.right
}
