//! Wedges clockwise.
ghost use Rattle.std.specs.Prelude.{◌≡◌, ℤ, pos, negsuc, ◌≤ℤ◌};
ghost use Rattle.tb_geom.specs.declared.point.Point.{Point};
ghost use Rattle.tb_geom.specs.declared.rect.Rect.{Rect};
ghost use Rattle.shape_arcs.specs.Wedges.{clockwise, wedge_holds};

/// A wedge from a degree clockwise, so many degrees.
#[derive(Clone, Copy)]
pub struct Span {
    pub start: i32,
    pub angle: i32,
    ghost start_low: { negsuc 65535 ≤ℤ start },
    ghost start_high: { start ≤ℤ pos 32767 },
    ghost angle_low: { pos 0 ≤ℤ angle },
    ghost angle_high: { angle ≤ℤ pos 32768 },
}

/// The wedge from a degree over an angle, which goes back where the angle is below 0, as one that goes on.
pub fn clockwise(start: i16, angle: i16) -> Span
    ensures { (r : Rect) (p : Point) → clockwise r result.start result.angle p ≡ wedge_holds r start angle p }
{
    let (start, angle) = (i32::from(start), i32::from(angle));
    if angle < 0 {
        return Span {
            start: start + angle,
            angle: -angle,
        };
    }
    Span { start, angle }
}
