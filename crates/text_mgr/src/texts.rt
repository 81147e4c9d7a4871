//! What is kept of the text records of a desk, and how it begins.
ghost use Rattle.std.specs.Prelude.{◌≡◌, [], Some};

use std::alloc::Global;
use text_edits::Scrap;
use text_record::TextRecord;
use window_items::Items;

/// The text records of a desk's windows, and the scrap.
#[derive(Drop)]
pub struct Texts {
    pub(crate) alloc: Global,
    pub(crate) list: Items<TextRecord>,
    /// What was cut or copied last. It outlives windows.
    pub(crate) scrap: Scrap,
}

impl Texts {
    /// No text record, and nothing in the scrap.
    pub fn new(alloc: Global) -> Texts
        ensures texts { result.list.items.items ≡ [] }
        ensures next { result.list.next ≡ Some 1 }
        ensures scrap { result.scrap ≡ [] }
    {
        Texts {
            alloc,
            list: Items::new(alloc),
            scrap: Scrap::new(alloc),
        }
    }

    /// The serial of the next text record, if one is left to give.
    pub fn next_serial(&self) -> Option<u64>
        ensures { result ≡ self.now.list.next }
    {
        self.list.next
    }
}
