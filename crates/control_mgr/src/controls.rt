//! What a Control Manager keeps, and how it begins.
ghost use Rattle.std.specs.Prelude.{◌≡◌, ◌≤◌, ◌+◌, [], length, Some, OnOk, IsOk, vec_capacity};
ghost use Rattle.control_mgr.specs.Making.{IsRoomier};

use crate::Control;
use std::alloc::{AllocError, Global};
use window_items::Items;

/// The controls of a desk's windows. Those of a desk have a `TakenControl` each.
#[derive(Drop)]
pub struct Controls<D> {
    pub(crate) alloc: Global,
    pub(crate) list: Items<Control<D>>,
}

impl<D> Controls<D> {
    /// No control.
    pub fn new(alloc: Global) -> Controls<D>
        ensures controls { result.list.items.items ≡ [] }
        ensures next { result.list.next ≡ Some 1 }
    {
        Controls {
            alloc,
            list: Items::new(alloc),
        }
    }

    /// The serial of the next control, if one is left to give.
    pub fn next_serial(&self) -> Option<u64>
        ensures { result ≡ self.now.list.next }
    {
        self.list.next
    }

    /// Makes room for so many controls more, so that they can be added without memory. With room for them already it takes none.
    pub fn reserve(&mut self, count: usize) -> Result<(), AllocError>
        ensures same { IsRoomier self.old self.new }
        ensures made { OnOk result (length self.new.list.items.items + count ≤ vec_capacity self.new.list.items) }
        ensures succeeds { length self.old.list.items.items + count ≤ vec_capacity self.old.list.items → IsOk result }
    {
        self.list.reserve(count)
    }
}
