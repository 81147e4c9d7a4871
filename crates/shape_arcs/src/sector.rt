//! Sectors of ovals as strips.
ghost use Rattle.std.specs.Prelude.{◌≡◌, true};
ghost use Rattle.tb_geom.specs.Rects.{is_in_range};
ghost use Rattle.shape_arcs.specs.Halves.{sector_holds};

use crate::half::half_run;
use shape_strips::{Corner, RoundStrip, Run, Strip};
use tb_geom::Rect;

/// The pixels of the oval of a rectangle that are seen from the degree `start` on and not from the degree `end` on.
/// Where `narrow` is not set, those that are not seen from `start` on, and are from `end` on.
#[derive(Clone, Copy)]
pub struct SectorStrip {
    pub rect: Rect,
    pub start: i32,
    pub end: i32,
    pub narrow: bool,
    ghost in_range: { is_in_range rect ≡ true },
}

impl Strip for SectorStrip {
    ghost pixels = { λ s. sector_holds s.rect s.start s.end s.narrow };

    fn bounds(&self) -> Rect {
        self.rect
    }

    fn run(&self, v: i32) -> Run {
        let rect = self.rect;
        let corner = Corner::of_oval(rect);
        let oval = RoundStrip { rect, corner }.run(v);
        let from = half_run(rect, self.start, v, self.narrow);
        let to = half_run(rect, self.end, v, !self.narrow);
        oval.sect(from.sect(to))
    }
}
