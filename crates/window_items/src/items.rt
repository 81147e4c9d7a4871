//! The items of a desk, of one kind.
ghost use Rattle.std.specs.Prelude.{◌≡◌, ◌<◌, ◌≤◌, ◌+◌, ◌++◌, [], ◌∷◌, None, Some, OnOk, IfSome, IsOk, vec_capacity};
ghost use Rattle.std.specs.Prelude.{slice_get, length};
ghost use Rattle.std.specs.Borrow.{sem};
ghost use Rattle.std.specs.List.{position, remove};
ghost use Rattle.window_items.specs.Items.{has_serial, item_index, count_of, place_among, last_index_of, youngest_of, without_youngest, serial_after};

use crate::Item;
use std::alloc::{AllocError, Global};

/// The items of a desk of one kind, in whichever window they are.
#[derive(Drop)]
pub struct Items<T> {
    /// The oldest first, whichever window they are in.
    pub items: Vec<Item<T>>,
    /// The serial of the next item, if one is left to give.
    pub next: Option<u64>,
}

impl<T> Items<T> {
    ghost use Rattle.window_items.specs.Lends.{lends_value};

    /// No item; the first will have the serial 1.
    pub fn new(alloc: Global) -> Items<T>
        ensures items { result.items.items ≡ [] }
        ensures next { result.next ≡ Some 1 }
    {
        Items {
            items: Vec::new(alloc),
            next: Some(1),
        }
    }

    /// Where the window's item of this serial stands in the list, if the window has it.
    pub fn find(&self, window: u64, serial: u64) -> Option<usize>
        ensures first { result ≡ item_index window serial self.now.items.items }
        ensures within { IfSome result (λ at. at < length self.now.items.items) }
    {
        self.items
            .iter()
            .position(|item| item.is_item(window, serial))
    }

    /// Where the item of this serial stands in the list, in whichever window it is, if there is one.
    pub fn with_serial(&self, serial: u64) -> Option<usize>
        ensures first { result ≡ position (has_serial serial) self.now.items.items }
        ensures within { IfSome result (λ at. at < length self.now.items.items) }
    {
        self.items.iter().position(|item| item.serial == serial)
    }

    /// How many items the window has.
    pub fn count(&self, window: u64) -> usize
        ensures { result ≡ count_of window self.now.items.items }
    {
        count_in(&self.items, window)
    }

    /// The place of the item at this index among the items of its window, from 0: how many of those are older.
    pub fn layer_index(&self, at: usize) -> usize
        requires { at < length self.now.items.items }
        ensures { result ≡ place_among at self.now.items.items }
    {
        let window = self.items[at].window;
        count_in(&self.items[..at], window)
    }

    /// Makes room for so many items more. With room for them already it takes no memory.
    pub fn reserve(&mut self, count: usize) -> Result<(), AllocError>
        ensures items { self.new.items.items ≡ self.old.items.items }
        ensures next { self.new.next ≡ self.old.next }
        ensures made { OnOk result (length self.new.items.items + count ≤ vec_capacity self.new.items) }
        ensures succeeds { length self.old.items.items + count ≤ vec_capacity self.old.items → IsOk result }
        ensures room { vec_capacity self.old.items ≤ vec_capacity self.new.items }
    {
        self.items.reserve(count)
    }

    /// Puts an item behind all others. There has to be room, and its serial is the next one.
    pub fn push(&mut self, item: Item<T>)
        requires room { length self.old.items.items < vec_capacity self.old.items }
        requires serial { self.old.next ≡ Some item.serial }
        ensures items { self.new.items.items ≡ self.old.items.items ++ item ∷ [] }
        ensures next { self.new.next ≡ serial_after item.serial }
        ensures room { vec_capacity self.old.items ≤ vec_capacity self.new.items }
    {
        self.next = serial_after(item.serial);
        self.items.push(item).unwrap();
    }

    /// What is kept of the item at this index, for writing.
    pub fn at_mut(&mut self, at: usize) -> &mut T
        requires { at < length self.old.items.items }
        ensures* writes_back { sem 𝓛 (lends_value T.row self.entry at result) }
        ensures value { IfSome (slice_get self.old.items.items at) (λ item. result.now ≡ item.kept) }
    {
        let item = &mut self.items[at];
        &mut item.kept
    }

    /// Takes the item at this index out of the list. The others stay in their order.
    pub fn remove(&mut self, at: usize) -> Item<T>
        requires { at < length self.old.items.items }
        ensures value { slice_get self.old.items.items at ≡ Some result }
        ensures items { self.new.items.items ≡ remove self.old.items.items at }
        ensures next { self.new.next ≡ self.old.next }
        ensures room { vec_capacity self.old.items ≤ vec_capacity self.new.items }
    {
        self.items.remove(at)
    }

    /// Takes the youngest item of the window out of the list, if the window has one.
    pub fn take_of(&mut self, window: u64) -> Option<Item<T>>
        ensures value { result ≡ youngest_of window self.old.items.items }
        ensures items { self.new.items.items ≡ without_youngest window self.old.items.items }
        ensures next { self.new.next ≡ self.old.next }
        ensures room { vec_capacity self.old.items ≤ vec_capacity self.new.items }
    {
        match self.last_of(window) {
            Some(at) => Some(self.remove(at)),
            None => None,
        }
    }

    /// Where the youngest item of the window stands in the list, if the window has one.
    fn last_of(&self, window: u64) -> Option<usize>
        ensures last { result ≡ last_index_of window self.now.items.items }
        ensures within { IfSome result (λ at. at < length self.now.items.items) }
    {
        let mut last = None;
        for (at, item) in self.items.iter().enumerate() {
            if item.is_in(window) {
                last = Some(at);
            }
        }
        last
    }
}

/// How many of these items are in the window.
#[tactic(auto, using(crate::proofs::ListLemmas::counted))]
fn count_in<T>(items: &[Item<T>], window: u64) -> usize
    ensures { result ≡ count_of window items.now }
{
    items.iter().filter(|item| item.is_in(window)).count()
}

/// The serial after this one, if there is one.
fn serial_after(serial: u64) -> Option<u64>
    ensures { result ≡ serial_after serial }
{
    serial.checked_add(1)
}
