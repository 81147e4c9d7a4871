//! Pictures: lists of operations.
ghost use Rattle.std.specs.Prelude.{◌≡◌, ◌++◌, ◌∷◌, [], List, ℕ, Bool, nat_lt, ◌≤◌, length, IfOk, IfErr, OnOk, OnErr};
ghost use Rattle.std.specs.Prelude.{if◌then◌else◌};
ghost use Rattle.draw_port.specs.Ops.{picture_bit};

use crate::shapes::Op;
use std::alloc::{AllocError, Global};
use std::marker::Model;
use strike_font::Font;
use tb_geom::{Point, Refusal};

/// The most operations that a picture may have.
pub const MOST_OPERATIONS: usize = 1024;

/// At most 1024 operations, drawn one after another from white (*Imaging With QuickDraw*,
/// "Pictures"), each in the picture's coordinates. Contracts see the list of the operations.
#[derive(Drop)]
pub struct Picture {
    ops: Vec<Op>,
}

impl Model for Picture {
    ghost use Rattle.std.specs.Prelude.{List, ◌≤◌, length};
    ghost use Rattle.std.specs.Coded.{coded_list};
    ghost use Rattle.draw_port.specs.declared.shapes.Op.{Op};
    ghost use Rattle.draw_port.specs.contracts.shapes.Op as op;

    ghost Value = { List Op };

    ghost coded = { coded_list op.the_row.coded };

    ghost view = { λ p. p.ops.items };

    ghost invariant = { λ p. length p.ops.items ≤ 1024 };
}

impl Picture {
    /// The picture of no operation, which is white. It takes no memory.
    pub fn new(alloc: Global) -> Picture
        ensures { result ≡ [] }
    {
        Picture {
            ops: Vec::new(alloc),
        }
    }

    /// An equal picture.
    pub fn copy(&self, alloc: Global) -> Result<Picture, AllocError>
        ensures { IfOk result (λ picture. picture ≡ self.now) }
    {
        let mut ops = Vec::with_capacity(alloc, self.ops.len())?;
        for op in &self.ops {
            ops.push(op.copy(alloc)?)?;
        }
        Ok(Picture { ops })
    }

    /// Adds an operation, to be drawn last. TooMany exactly where there are 1024 already; else it
    /// refuses only for want of memory. A refused operation is let go, and the picture stays.
    pub fn push(&mut self, op: Op) -> Result<(), Refusal>
        ensures added { OnOk result (self.new ≡ self.old ++ op ∷ []) }
        ensures kept { OnErr result (self.new ≡ self.old) }
        ensures refused { IfErr result (λ e.
            e ≡ (if nat_lt (length self.old) 1024 then Refusal.NoMemory else Refusal.TooMany)) }
    {
        if self.ops.len() >= MOST_OPERATIONS {
            return Err(Refusal::TooMany);
        }
        self.ops.push(op)?;
        Ok(())
    }

    /// Lets every operation go: the picture is white.
    pub fn clear(&mut self)
        ensures { self.new ≡ [] }
    {
        self.ops.clear();
    }

    /// The operations, the first drawn first.
    pub fn ops(&self) -> &[Op]
        ensures same { result.now ≡ self.now }
        ensures short { length result.now ≤ 1024 }
    {
        self.ops.as_slice()
    }

    /// The value of the picture at a point in its own coordinates, in a font: whether it is black.
    pub fn bit(&self, font: &Font, point: Point) -> bool
        ensures { result ≡ picture_bit font.now self.now point }
    {
        let mut bit = false;
        for op in &self.ops {
            bit = op.value(font, point, bit);
        }
        bit
    }
}
