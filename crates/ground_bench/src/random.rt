//! A fixed linear congruential generator, and the regions that it makes.
ghost use Rattle.std.specs.Prelude.{pos, ◌≤ℤ◌, ◌<ℤ◌};

use scan_region::Region;
use std::alloc::{AllocError, Global};
use tb_geom::Rect;

/// How two numbers say where a rectangle begins and ends one way.
#[derive(Clone, Copy)]
pub enum Sides {
    /// A place, and 1 to 64 rows or columns from there on.
    Short,
    /// From the lesser number to the greater.
    Any,
}

impl Sides {
    /// The first row or column, and the one past the last, within 0..1024.
    fn ends(self, first: i32, second: i32) -> (i32, i32)
        requires first_low { pos 0 ≤ℤ first }
        requires first_high { first <ℤ pos 1024 }
        requires second_low { pos 0 ≤ℤ second }
        requires second_high { second <ℤ pos 1024 }
        ensures low { pos 0 ≤ℤ result.0 }
        ensures inside { result.0 <ℤ result.1 }
        ensures high { result.1 ≤ℤ pos 1024 }
    {
        match self {
            Sides::Short => {
                let place = first - first / 16;
                (place, place + (second / 16 + 1))
            }
            Sides::Any => (first.min(second), first.max(second) + 1),
        }
    }
}

/// The state of the generator, which begins at 1: each number is the high part of the next state.
#[derive(Drop)]
pub struct Random {
    state: u32,
}

impl Random {
    /// The generator at its start.
    pub fn new() -> Random {
        Random { state: 1 }
    }

    /// The next number, in 0..=1023.
    fn number(&mut self) -> i32
        ensures low { pos 0 ≤ℤ result }
        ensures high { result <ℤ pos 1024 }
    {
        self.state = self
            .state
            .wrapping_mul(1_664_525)
            .wrapping_add(1_013_904_223);
        (self.state >> 22) as i32
    }

    /// The next rectangle, within 0..1024 both ways, with a pixel at least.
    fn rect(&mut self, sides: Sides) -> Rect
        ensures left { pos 0 ≤ℤ result.left }
        ensures top { pos 0 ≤ℤ result.top }
        ensures across { result.left <ℤ result.right }
        ensures down { result.top <ℤ result.bottom }
        ensures right { result.right ≤ℤ pos 1024 }
        ensures bottom { result.bottom ≤ℤ pos 1024 }
    {
        let (h, v) = (self.number(), self.number());
        let (other_h, other_v) = (self.number(), self.number());
        let (left, right) = sides.ends(h, other_h);
        let (top, bottom) = sides.ends(v, other_v);
        Rect {
            left,
            top,
            right,
            bottom,
        }
    }

    /// The region of the next `count` rectangles.
    pub fn region(
        &mut self,
        alloc: Global,
        sides: Sides,
        count: u32,
    ) -> Result<Region, AllocError> {
        let mut region = Region::empty(alloc);
        for _ in 0..count {
            let one = Region::from_rect_in_range(alloc, self.rect(sides))?;
            region = region.union(alloc, &one)?;
        }
        Ok(region)
    }
}
