//! How often the pixels of a map were written.
ghost use Rattle.std.specs.Prelude.{◌≡◌, List, ℕ, []};
ghost use Rattle.std.specs.Prelude.{◌+ℤ◌, pos};
ghost use Rattle.bit_map.specs.Bits.{in_row};
ghost use Rattle.bit_map.specs.Counts.{raised};

use boxcar::tag::{Names, Tag};
use std::fmt::{Debug, Error, Formatter, Write};

/// A number for each pixel of a map, row by row: how often it was written. It takes no bytes, and only
/// `add` changes it.
#[derive(Drop)]
pub(crate) struct Writes {
    tag: Tag,
}

const _: () = prove!(size_of::<Writes>() == 0);

/// A write to `count` pixels of the row `v` of a map of this size, from the column `left` on.
#[derive(Clone, Copy, Drop)]
pub(crate) struct Written {
    pub width: u16,
    pub height: u16,
    pub v: i32,
    pub left: i32,
    pub count: usize,
}

/// The numbers of before and what is written now.
#[derive(Drop)]
struct Addition<'a> {
    before: &'a Tag,
    written: Written,
}

/// Adds one at the pixels that are written.
struct Adding;

impl Names<Addition<'_>> for Adding {
    ghost numbers = { λ a. raised a.written.width a.written.height
        (in_row a.written.v a.written.left (a.written.left +ℤ pos a.written.count)) a.before.now.numbers };
}

impl Writes {
    /// Of pixels that were never written.
    pub(crate) fn new() -> Writes
        ensures { result.tag.numbers ≡ [] }
    {
        Writes { tag: Tag::empty() }
    }

    /// Adds one at the pixels that are written.
    pub(crate) fn add(&mut self, written: Written)
        ensures { self.new.tag.numbers ≡ raised written.width written.height
            (in_row written.v written.left (written.left +ℤ pos written.count)) self.old.tag.numbers }
    {
        let addition = Addition {
            before: &self.tag,
            written,
        };
        self.tag = Tag::of::<Addition<'_>, Adding>(&addition);
    }
}

impl Debug for Writes {
    fn fmt<W: Write>(&self, f: &mut Formatter<W>) -> Result<(), Error> {
        f.write_str("Writes")
    }
}
