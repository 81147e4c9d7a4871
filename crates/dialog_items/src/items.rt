//! The items of a window.
ghost use Rattle.std.specs.Prelude.{◌≡◌, ◌≤◌, ◌<◌, ◌++◌, [], ◌∷◌, true, IfErr, OnOk, nat_lt, length, vec_capacity, if◌then◌else◌};
ghost use Rattle.std.specs.List.{list_any};
ghost use Rattle.dialog_items.specs.Items.{edited_with, edits_one, is_edit, is_edit_number, is_number, item_of};
ghost use Rattle.dialog_items.specs.Items.{replaced, with_enabled, with_shown};

use crate::item::Item;
use std::alloc::Global;
use std::marker::Model;
use tb_geom::Refusal;

/// How many items a window may have.
const MOST_ITEMS: usize = 64;

/// The items of a window, and which of them is edited. Contracts see an `ItemList`.
#[derive(Drop)]
pub struct DialogItems {
    items: Vec<Item>,
    edited: usize,
}

impl Model for DialogItems {
    ghost use Rattle.std.specs.Prelude.{vec_capacity};
    ghost use Rattle.dialog_items.specs.Items.{ItemList, IsItemList};

    ghost Value = { ItemList };

    ghost view = { λ d. record { items = d.items.items; edited = d.edited; capacity = vec_capacity d.items } };

    ghost invariant = { λ d. IsItemList (record {
      items = d.items.items;
      edited = d.edited;
      capacity = vec_capacity d.items;
    }) };
}

impl DialogItems {
    /// No items, of which none is edited. It takes no memory.
    pub fn new(alloc: Global) -> DialogItems
        ensures items { result.items ≡ [] }
        ensures edited { result.edited ≡ 0 }
    {
        DialogItems {
            items: Vec::new(alloc),
            edited: 0,
        }
    }

    /// The items: the first has the number 1.
    pub fn items(&self) -> &[Item]
        ensures items { result.now ≡ self.now.items }
        ensures few { length result.now ≤ 64 }
    {
        self.items.as_slice()
    }

    /// The item of a number, if there is one.
    pub fn item(&self, number: usize) -> Option<Item>
        ensures { result ≡ item_of self.now.items number }
    {
        match number.checked_sub(1) {
            Some(at) => self.items.get(at).copied(),
            None => None,
        }
    }

    /// The number of the edited item, which is an edit item, and 0 where none is edited.
    pub fn edited(&self) -> usize
        ensures number { result ≡ self.now.edited }
        ensures within { result ≤ length self.now.items }
        ensures edits_one { edits_one self.now.items result ≡ true }
    {
        let number = self.edited;
        number
    }

    /// Makes room for one item more. TooMany where there are 64, NoMemory where there is no memory for one.
    pub fn reserve(&mut self) -> Result<(), Refusal>
        ensures items { self.new.items ≡ self.old.items }
        ensures edited { self.new.edited ≡ self.old.edited }
        ensures few { OnOk result (length self.new.items < 64) }
        ensures room { OnOk result (length self.new.items < self.new.capacity) }
        ensures refused { IfErr result (λ e.
            e ≡ (if nat_lt (length self.old.items) 64 then Refusal.NoMemory else Refusal.TooMany)) }
    {
        if self.items.len() >= MOST_ITEMS {
            return Err(Refusal::TooMany);
        }
        self.items.reserve(1)?;
        Ok(())
    }

    /// Puts an item behind all others, for which there has to be room, and answers its number. The first edit item that is ever
    /// made is edited.
    pub fn add(&mut self, item: Item) -> usize
        requires few { length self.old.items < 64 }
        requires room { length self.old.items < self.old.capacity }
        ensures number { result ≡ length self.new.items }
        ensures items { self.new.items ≡ self.old.items ++ item ∷ [] }
        ensures edited { self.new.edited ≡ edited_with item self.old }
    {
        let edited = self.edited_with(&item);
        push_item(&mut self.items, item);
        self.edited = edited;
        self.items.len()
    }

    /// Which item is edited once this one stands behind all others.
    fn edited_with(&self, item: &Item) -> usize
        requires { length self.now.items < 64 }
        ensures { result ≡ edited_with item.now self.now }
    {
        if item.is_edit() && !has_edit(&self.items) {
            self.items.len() + 1
        } else {
            self.edited
        }
    }

    /// Puts an item of the same kind in the place of another.
    fn put(&mut self, number: usize, item: Item)
        requires some { 1 ≤ number }
        requires within { number ≤ length self.old.items }
        requires kind { is_edit item ≡ is_edit_number self.old.items number }
        ensures { self.new ≡ record self.old { items = replaced number (λ _. item) self.old.items } }
    {
        self.items[number - 1] = item;
    }

    /// Enables or disables an item.
    pub fn enable(&mut self, number: usize, enabled: bool)
        requires some { 1 ≤ number }
        requires within { number ≤ length self.old.items }
        ensures { self.new ≡ record self.old { items = replaced number (with_enabled enabled) self.old.items } }
    {
        let item = self.items[number - 1];
        self.put(number, Item { enabled, ..item });
    }

    /// Shows or hides a user item. Of another item it says nothing.
    pub fn show(&mut self, number: usize, shown: bool)
        requires some { 1 ≤ number }
        requires within { number ≤ length self.old.items }
        ensures { self.new ≡ record self.old { items = replaced number (with_shown shown) self.old.items } }
    {
        let item = self.items[number - 1];
        self.put(number, Item { shown, ..item });
    }

    /// Edits an edit item, in place of the one that was edited.
    pub fn edit(&mut self, number: usize)
        requires { is_edit_number self.old.items number ≡ true }
        ensures { self.new ≡ record self.old { edited = number } }
    {
        self.edited = number;
    }

    /// Edits no item any more.
    pub fn stop_editing(&mut self)
        ensures { self.new ≡ record self.old { edited = 0 } }
    {
        self.edited = 0;
    }

    /// Whether there is an item of this number.
    pub fn is_number(&self, number: usize) -> bool
        ensures { result ≡ is_number self.now.items number }
    {
        1 <= number && number <= self.items.len()
    }
}

/// Puts an item behind others. There has to be room.
fn push_item(items: &mut Vec<Item>, item: Item)
    requires { length items.old.items < vec_capacity items.old }
    ensures { items.new.items ≡ items.old.items ++ item ∷ [] }
{
    items.push(item).unwrap();
}

/// Whether an edit item is among these.
fn has_edit(items: &[Item]) -> bool
    ensures { result ≡ list_any is_edit items.now }
{
    items.iter().any(|item| item.is_edit())
}
