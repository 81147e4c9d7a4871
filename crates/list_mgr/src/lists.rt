//! What a List Manager keeps, and how it begins.
ghost use Rattle.std.specs.Prelude.{◌≡◌, [], Some};

use crate::ListRecord;
use std::alloc::Global;
use window_items::Items;

/// The lists of a desk's windows. Those of a desk have a `TakenList` each.
#[derive(Drop)]
pub struct Lists<D> {
    pub(crate) alloc: Global,
    pub(crate) list: Items<ListRecord<D>>,
}

impl<D> Lists<D> {
    /// No list.
    pub fn new(alloc: Global) -> Lists<D>
        ensures lists { result.list.items.items ≡ [] }
        ensures next { result.list.next ≡ Some 1 }
    {
        Lists {
            alloc,
            list: Items::new(alloc),
        }
    }
}
