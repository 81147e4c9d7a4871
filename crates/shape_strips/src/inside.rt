//! Insides of frames as strips.
ghost use Rattle.std.specs.Prelude.{◌≡◌, true, false, ◌-◌, ◌*◌, ℤ};
ghost use Rattle.tb_geom.specs.declared.point.Point.{Point};
ghost use Rattle.tb_geom.specs.Rects.{is_in_range, rect_holds};
ghost use Rattle.shape_strips.specs.Runs.{run_holds};
ghost use Rattle.shape_strips.specs.Rounds.{round_holds};
ghost use Rattle.shape_strips.specs.Frames.{inset_corner, inset_rect, inside_holds};

use crate::{Corner, Pen, RoundStrip, Run, Strip};
use tb_geom::Rect;

/// What a frame leaves of a round shape: the pixels of the shape that is smaller by the pen on each side, as far as the
/// whole shape has the four pixels beside each. So a frame has no gap, however flat the shape is.
#[derive(Clone, Copy)]
pub struct InsideStrip {
    pub rect: Rect,
    pub corner: Corner,
    pub pen: Pen,
    ghost in_range: { is_in_range rect ≡ true },
}

/// The rectangle less the pen's width on the left and on the right, and its height above and below.
fn inset_rect(rect: Rect, pen: Pen) -> Rect
    requires { is_in_range rect ≡ true }
    ensures { result ≡ inset_rect rect pen }
{
    let across = i32::from(pen.width);
    let down = i32::from(pen.height);
    Rect {
        left: rect.left + across,
        top: rect.top + down,
        right: rect.right - across,
        bottom: rect.bottom - down,
    }
}

/// A side of a corner, less a side of the pen twice.
fn inset_side(side: u16, pen: u16) -> u16
    ensures { result ≡ side - 2 * pen }
{
    side.saturating_sub(pen).saturating_sub(pen)
}

/// The corner that is left of it.
fn inset_corner(corner: Corner, pen: Pen) -> Corner
    ensures { result ≡ inset_corner corner pen }
{
    Corner {
        width: inset_side(corner.width, pen.width),
        height: inset_side(corner.height, pen.height),
    }
}

impl InsideStrip {
    /// The run of the shape that is smaller by the pen on each side.
    fn inset_run(&self, v: i32) -> Run
        ensures { let its = self.now in (h : ℤ) → run_holds result h
            ≡ round_holds (inset_rect its.rect its.pen) (inset_corner its.corner its.pen) (record { h = h; v = v }) }
    {
        let rect = inset_rect(self.rect, self.pen);
        if rect.is_empty() {
            return Run::empty();
        }
        let corner = inset_corner(self.corner, self.pen);
        RoundStrip { rect, corner }.run(v)
    }
}

impl Strip for InsideStrip {
    ghost pixels = { λ s. inside_holds s.rect s.corner s.pen };

    fn bounds(&self) -> Rect
        ensures in_range { is_in_range result ≡ true }
        ensures around { (p : Point) → rect_holds result p ≡ false
            → inside_holds self.now.rect self.now.corner self.now.pen p ≡ false }
        ensures own { result ≡ self.now.rect }
    {
        self.rect
    }

    fn run(&self, v: i32) -> Run {
        if v < self.rect.top || self.rect.bottom <= v {
            return Run::empty();
        }
        let shape = RoundStrip {
            rect: self.rect,
            corner: self.corner,
        };
        let own = shape.run(v);
        let above = shape.run(v - 1);
        let below = shape.run(v + 1);
        let beside = own.inner().sect(above.sect(below));
        self.inset_run(v).sect(own.sect(beside))
    }
}
