//! A list of values that stay where they lie while their order changes.
ghost use Rattle.std.specs.Prelude.{◌≡◌, ◌<◌, ◌≤◌, [], ◌∷◌, length, slice_index_or, OnOk};
ghost use Rattle.std.specs.List.{insert, remove};
ghost use Rattle.std.specs.Borrow.{sem};
ghost use Rattle.window_list.specs.Ranks.{moved_item};

use slab::Slab;
use std::alloc::{AllocError, Global};
use std::marker::Model;

/// Values in an order of their own. They lie in a slab and do not move; the order is a list of their
/// keys.
#[derive(Drop)]
pub struct Ranks<T> {
    records: Slab<T>,
    order: Vec<usize>,
}

impl<T> Model for Ranks<T> {
    ghost use Rattle.std.specs.Prelude.{min, vec_capacity};
    ghost use Rattle.window_list.specs.Ranks.{Ranked, IsRanked, items_of};

    ghost Value = { Ranked T };

    ghost view = { λ r. record {
      items = items_of r.records r.order.items;
      capacity = min r.records.capacity (vec_capacity r.order);
    } };

    ghost invariant = { λ r. IsRanked r.records r.order.items };
}

impl<T> Ranks<T> {
    ghost use Rattle.window_list.specs.Lends.{lends_value};

    /// No values.
    pub fn new(alloc: Global) -> Ranks<T>
        ensures { result.items ≡ [] }
    {
        Ranks {
            records: Slab::new(alloc),
            order: Vec::new(alloc),
        }
    }

    /// How many values there are.
    pub fn len(&self) -> usize
        ensures { result ≡ length self.now.items }
    {
        self.order.len()
    }

    /// Makes room for one value more.
    pub fn reserve(&mut self) -> Result<(), AllocError>
        ensures items { self.new.items ≡ self.old.items }
        ensures room { OnOk result (length self.new.items < self.new.capacity) }
    {
        self.records.reserve(1)?;
        self.order.reserve(1)?;
        Ok(())
    }

    /// Puts a value before the one at this index, or behind all. There has to be room.
    pub fn insert(&mut self, at: usize, value: T)
        requires place { at ≤ length self.old.items }
        requires room { length self.old.items < self.old.capacity }
        ensures items { self.new.items ≡ insert self.old.items at value }
        ensures capacity { self.new.capacity ≡ self.old.capacity }
    {
        let key = self.records.insert_reserved(value);
        self.order.insert(at, key).unwrap();
    }

    /// Takes the value at this index out.
    pub fn remove(&mut self, at: usize) -> T
        requires { at < length self.old.items }
        ensures value { result ≡ slice_index_or self.old.items at result }
        ensures items { self.new.items ≡ remove self.old.items at }
        ensures capacity { self.new.capacity ≡ self.old.capacity }
    {
        let key = self.order.remove(at);
        self.records.remove(key)
    }

    /// The value at this index.
    pub fn at(&self, at: usize) -> &T
        requires { at < length self.now.items }
        ensures { result.now ≡ slice_index_or self.now.items at result.now }
    {
        &self.records[self.order[at]]
    }

    /// Moves the value at an index to another, counted without it.
    pub fn place(&mut self, from: usize, to: usize)
        requires from { from < length self.old.items }
        requires to { to < length self.old.items }
        ensures items { self.new.items ≡ moved_item self.old.items from to }
        ensures capacity { self.new.capacity ≡ self.old.capacity }
    {
        let key = self.order.remove(from);
        self.order.insert(to, key).unwrap();
    }

    /// The value at this index, for writing.
    pub fn at_mut(&mut self, at: usize) -> &mut T
        requires { at < length self.old.items }
        ensures* writes_back { sem 𝓛 (lends_value T.row self.entry at result) }
        ensures value { result.now ≡ slice_index_or self.old.items at result.now }
    {
        &mut self.records[self.order[at]]
    }
}
