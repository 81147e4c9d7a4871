//! Parts of a window or a control.
ghost use Rattle.std.specs.Prelude.{◌≡◌};
ghost use Rattle.looks.specs.Spots.{first_part, spot};

use tb_geom::{Point, Rect};

/// A rectangle, and the part that it is; it holds no point where it is off.
#[derive(Clone, Copy, Debug, PartialEq, Eq)]
pub struct Spot<T> {
    pub on: bool,
    /// It holds no point outside.
    pub cut: Rect,
    pub rect: Rect,
    pub part: T,
}

impl<T: Copy> Spot<T> {
    /// The part that a rectangle is, cut to another, where `on` says so.
    pub fn new(on: bool, cut: Rect, rect: Rect, part: T) -> Spot<T>
        ensures { result ≡ spot on cut rect part }
    {
        Spot {
            on,
            cut,
            rect,
            part,
        }
    }
}

/// The part of the first spot that is on and holds the point, and `rest` where none does.
pub fn first_part<T: Copy>(spots: &[Spot<T>], rest: T, point: Point) -> T
    ensures { result ≡ first_part spots.now rest point }
{
    for spot in spots {
        if spot.on && (spot.cut.contains(point) && spot.rect.contains(point)) {
            return spot.part;
        }
    }
    rest
}
