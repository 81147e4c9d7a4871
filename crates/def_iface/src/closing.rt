//! The end of a definition's use.
ghost use Rattle.std.specs.Prelude.{◌≡◌, true};
ghost use Rattle.def_iface.specs.Slots.{is_left, loan_by, slots_by};
ghost use Rattle.def_iface.specs.Closing.{IsShut};

use crate::{Held, Slots, Stage, Taken};

/// Ends the use of a definition: it is disposed of, and put back Closed into the slot that it came from. It takes no memory.
pub fn put_away<T: Held>(taken: Taken<T>, stock: &mut Slots<T>)
    requires live { T.stage_of (T.meaning taken.definition) ≡ Stage.Live }
    requires left { is_left taken.slot (slots_by T.meaning stock.old) ≡ true }
    ensures { IsShut T.stage_of T.IsAlike (loan_by T.meaning taken)
        (slots_by T.meaning stock.old) (slots_by T.meaning stock.new) }
{
    let mut taken = taken;
    taken.dispose();
    stock.put_back(taken);
}
