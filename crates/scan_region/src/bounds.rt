//! The box of a region, kept as one value.
ghost use Rattle.std.specs.Prelude.{◌≡◌};

use std::marker::Model;
use tb_geom::Rect;

/// A rectangle seen as one value, so that a proof with regions at hand need not read its sides.
#[derive(Drop)]
pub struct Bounds {
    rect: Rect,
}

impl Model for Bounds {
    ghost use Rattle.tb_geom.specs.declared.rect.Rect.{Rect};

    ghost Value = { Rect };

    ghost view = { λ b. b.rect };
}

impl Bounds {
    /// The rectangle, kept.
    pub fn of(rect: Rect) -> Bounds
        ensures { result ≡ rect }
    {
        Bounds { rect }
    }

    /// The rectangle again.
    pub fn rect(&self) -> Rect
        ensures { result ≡ self.now }
    {
        self.rect
    }
}
