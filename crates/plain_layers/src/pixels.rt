//! The pixels of the model: what each shows, and whether it is to be redrawn.

use crate::desk::{COLUMNS, Owner, PlainDesk, SCREEN, seen_from};
use crate::steps::Effect;
use desk_call::LayerKind as Kind;
use desk_layers::Part;
use std::alloc::{AllocError, Global};
use tb_geom::Point;

/// A desk, and of each pixel, row by row, whether it is black, and whether it is to be redrawn.
#[derive(Drop)]
pub struct Plain {
    pub desk: PlainDesk,
    black: Vec<bool>,
    stale: Vec<bool>,
}

/// Whether a pixel of this owner belongs to these layers of the window.
fn is_of(serial: u64, kind: Kind, owner: Owner) -> bool {
    match owner {
        Owner::Content(of, Part::Picture) => of == serial && kind == Kind::Picture,
        Owner::Content(of, Part::Text(_)) => of == serial && kind == Kind::Texts,
        Owner::Content(of, Part::List(_)) => of == serial && kind == Kind::Lists,
        Owner::Content(of, Part::Control(_)) => of == serial && kind == Kind::Controls,
        _ => false,
    }
}

/// Where what an owner shows at a pixel came from.
fn source(effect: Effect, owner: Owner, point: Point) -> Point {
    match (effect, owner) {
        (Effect::Moves(moved, by), Owner::Content(serial, _)) if moved == serial => {
            seen_from(point, by)
        }
        (Effect::Scrolls(moved, by), Owner::Content(serial, Part::Picture)) if moved == serial => {
            seen_from(point, by)
        }
        _ => point,
    }
}

/// The bit of a pixel of the screen.
fn bit_at(bits: &[bool], point: Point) -> bool {
    let Ok(at) = usize::try_from(point.v.saturating_mul(COLUMNS).saturating_add(point.h)) else {
        return false;
    };
    match bits.get(at) {
        Some(bit) => *bit,
        None => false,
    }
}

impl Plain {
    /// A desk on which no window is visible.
    pub fn new(alloc: Global, desk: PlainDesk) -> Result<Plain, AllocError> {
        let mut black = Vec::new(alloc);
        let mut stale = Vec::new(alloc);
        for v in 0..16 {
            for h in 0..COLUMNS {
                black.push(desk.bit(Owner::Desktop, Point { h, v }))?;
                stale.push(false)?;
            }
        }
        Ok(Plain { desk, black, stale })
    }

    /// Whether a pixel of the screen is black.
    pub fn is_black(&self, point: Point) -> bool {
        bit_at(self.black.as_slice(), point)
    }

    /// Whether a pixel of the screen is to be redrawn.
    pub fn is_stale(&self, point: Point) -> bool {
        bit_at(self.stale.as_slice(), point)
    }

    /// Whether a pixel of the screen is black, and whether it is to be redrawn, where the desk becomes this one and that
    /// is done.
    fn pixel(&self, desk: &PlainDesk, effect: Effect, point: Point) -> (bool, bool) {
        let owner = desk.owner(point);
        let Owner::Content(_, _) = owner else {
            return (desk.bit(owner, point), false);
        };
        let is_drawn = match effect {
            Effect::Draws(drawn) => drawn == owner,
            Effect::Redraws(serial, kind) => is_of(serial, kind, owner) && self.is_stale(point),
            _ => false,
        };
        if is_drawn {
            return (desk.bit(owner, point), false);
        }
        let from = source(effect, owner, point);
        if !SCREEN.contains(from) || self.desk.owner(from) != owner {
            return (false, true);
        }
        let is_spoilt = match effect {
            Effect::Spoils(spoilt) => spoilt == owner,
            _ => false,
        };
        let is_inverted = match effect {
            Effect::Inverts(serial, rect) => {
                owner == Owner::Content(serial, Part::Picture) && rect.contains(point)
            }
            _ => false,
        };
        (
            self.is_black(from) != is_inverted,
            is_spoilt || self.is_stale(from),
        )
    }

    /// What is seen where what is to be redrawn of these layers of the window is drawn.
    pub fn redrawn(&self, alloc: Global, window: u64, layers: Kind) -> Result<Plain, AllocError> {
        self.after(alloc, self.desk, Effect::Redraws(window, layers))
    }

    /// What is seen where all that is to be redrawn of the window is drawn.
    pub fn served(&self, alloc: Global, window: u64) -> Result<Plain, AllocError> {
        let drawn = self.redrawn(alloc, window, Kind::Picture)?;
        let drawn = drawn.redrawn(alloc, window, Kind::Texts)?;
        let drawn = drawn.redrawn(alloc, window, Kind::Lists)?;
        drawn.redrawn(alloc, window, Kind::Controls)
    }

    /// What is seen where the desk becomes this one, and that is done.
    pub fn after(
        &self,
        alloc: Global,
        desk: PlainDesk,
        effect: Effect,
    ) -> Result<Plain, AllocError> {
        let mut black = Vec::new(alloc);
        let mut stale = Vec::new(alloc);
        for v in 0..16 {
            for h in 0..COLUMNS {
                let (is_black, is_stale) = self.pixel(&desk, effect, Point { h, v });
                black.push(is_black)?;
                stale.push(is_stale)?;
            }
        }
        Ok(Plain { desk, black, stale })
    }
}
