//! A definition on its way: out of its slot, in the record of what it draws, and back.
ghost use Rattle.std.specs.Prelude.{◌≡◌};
ghost use Rattle.def_iface.specs.Slots.{LoanOf};

use crate::{Held, Stage};

/// A definition that was taken out of a stock, and the number of its slot there. The two travel together until they are put
/// back.
#[derive(Drop)]
pub struct Taken<T> {
    pub(crate) definition: T,
    pub(crate) slot: usize,
}

/// What was taken, as contracts see it: the definition as a value, and its slot.
pub trait Defined {
    /// What a definition of its kind is, as a value.
    ghost Meaning: { Type 0 };

    /// What was taken.
    ghost loan: { Self → LoanOf Meaning };
}

impl<T: Held> Taken<T> {
    /// Ends a Live definition's use.
    pub fn dispose(&mut self)
        requires { T.stage_of (T.meaning self.old.definition) ≡ Stage.Live }
        ensures closed { T.stage_of (T.meaning self.new.definition) ≡ Stage.Closed }
        ensures same { T.IsAlike (T.meaning self.old.definition) (T.meaning self.new.definition) }
        ensures slot { self.new.slot ≡ self.old.slot }
    {
        self.definition.dispose();
    }
}
