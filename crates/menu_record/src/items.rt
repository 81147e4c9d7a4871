//! The items of a menu, as a list.
ghost use Rattle.std.specs.Prelude.{◌≡◌, ◌<◌, ◌≤◌, ◌+◌, ◌-◌, ◌++◌, [], length, nat_abs, None, Some, OnOk, OnErr, IfErr};
ghost use Rattle.std.specs.Prelude.{MatchResult, true, false, vec_len, vec_capacity};
ghost use Rattle.std.specs.Result.{result_err};
ghost use Rattle.std.specs.List.{list_any};
ghost use Rattle.menu_record.specs.Appending.{items_of, is_long, why_not_appended};
ghost use Rattle.menu_record.specs.Edits.{edit_item, is_item, with_check, with_enabled, with_text, why_no_item, why_no_text};
ghost use Rattle.menu_record.specs.Reads.{IsNotAppended};

use crate::MenuItem;
use crate::reading::{count_items, cut_item};
use draw_port::ShortText;
use std::alloc::Global;
use std::marker::Model;
use tb_geom::Refusal;

/// As many items as a menu may have.
const MOST_ITEMS: usize = 31;

/// The mark of an item that is checked.
const CHECK_MARK: u8 = b'*';

/// The items of a menu, from top to bottom: at most 31. Contracts see the list of the items.
#[derive(Drop)]
pub struct Items {
    items: Vec<MenuItem>,
}

impl Model for Items {
    ghost use Rattle.std.specs.Prelude.{List, ◌≤◌, length};
    ghost use Rattle.std.specs.Coded.{coded_list};
    ghost use Rattle.menu_record.specs.declared.item.MenuItem.{MenuItem};
    ghost use Rattle.menu_record.specs.contracts.item.MenuItem as item;

    ghost Value = { List MenuItem };

    ghost coded = { coded_list item.the_row.coded };

    ghost view = { λ m. m.items.items };

    ghost invariant = { λ m. length m.items.items ≤ 31 };
}

impl Items {
    /// No item. It takes no memory.
    pub fn new(alloc: Global) -> Items
        ensures { result ≡ [] }
    {
        Items {
            items: Vec::new(alloc),
        }
    }

    /// The items, from top to bottom.
    pub fn as_slice(&self) -> &[MenuItem]
        ensures same { result.now ≡ self.now }
        ensures few { length result.now ≤ 31 }
    {
        self.items.as_slice()
    }

    /// Appends the items that a text gives (AppendMenu). TooLong where the text of one has more than 255 characters, else
    /// TooMany where there would be more than 31 items; else NoMemory is the only refusal. A refusal changes nothing.
    pub fn append(&mut self, text: &[u8]) -> Result<(), Refusal>
        ensures appended { OnOk result (self.new ≡ self.old ++ items_of text.now) }
        ensures allowed { OnOk result (why_not_appended text.now (length self.old) ≡ None) }
        ensures refused { IfErr result (IsNotAppended text.now (length self.old)) }
        ensures kept { OnErr result (self.new ≡ self.old) }
    {
        let count = count_items(text)?;
        if count > MOST_ITEMS - self.items.len() {
            return Err(Refusal::TooMany);
        }
        self.items.reserve(count)?;
        push_items(&mut self.items, text);
        Ok(())
    }

    /// The place in the list of the item of this number, which counts from 1. NoSuchItem where there is none.
    fn place_of(&self, number: i32) -> Result<usize, Refusal>
        ensures { MatchResult result
            (λ place. (is_item number self.now ≡ true) × (place ≡ nat_abs number - 1) × (place < length self.now))
            (λ e. (e ≡ Refusal.NoSuchItem) × (is_item number self.now ≡ false)) }
    {
        let count = self.items.len() as i32;
        if number < 1 || count < number {
            return Err(Refusal::NoSuchItem);
        }
        Ok(number as usize - 1)
    }

    /// Sets the text of the item of this number, which counts from 1 (SetItem); no character of it is a sign. NoSuchItem
    /// where there is none, else TooLong where the text has more than 255 characters. A refusal changes nothing.
    pub fn set_text(&mut self, number: i32, text: &[u8]) -> Result<(), Refusal>
        ensures done { OnOk result (self.new ≡ edit_item (with_text text.now) number self.old) }
        ensures answered { result_err result ≡ why_no_text number text.now self.old }
        ensures kept { OnErr result (self.new ≡ self.old) }
    {
        let place = self.place_of(number)?;
        let text = ShortText::new(text)?;
        self.items[place].text = text;
        Ok(())
    }

    /// Enables or disables the item of this number, which counts from 1. NoSuchItem, with nothing changed, where there is
    /// none.
    pub fn set_enabled(&mut self, number: i32, enabled: bool) -> Result<(), Refusal>
        ensures done { OnOk result (self.new ≡ edit_item (with_enabled enabled) number self.old) }
        ensures answered { result_err result ≡ why_no_item number self.old }
        ensures kept { OnErr result (self.new ≡ self.old) }
    {
        let place = self.place_of(number)?;
        self.items[place].enabled = enabled;
        Ok(())
    }

    /// Gives the item of this number, which counts from 1, the check mark `*`, or takes its mark away (CheckItem).
    /// NoSuchItem, with nothing changed, where there is none.
    pub fn check(&mut self, number: i32, checked: bool) -> Result<(), Refusal>
        ensures done { OnOk result (self.new ≡ edit_item (with_check checked) number self.old) }
        ensures answered { result_err result ≡ why_no_item number self.old }
        ensures kept { OnErr result (self.new ≡ self.old) }
    {
        let place = self.place_of(number)?;
        self.items[place].mark = checked.then_some(CHECK_MARK);
        Ok(())
    }
}

/// Puts the items that a text gives behind others, where there is room for them.
fn push_items(items: &mut Vec<MenuItem>, text: &[u8])
    requires room { vec_len items.old + length (items_of text.now) ≤ vec_capacity items.old }
    requires short { list_any is_long (items_of text.now) ≡ false }
    ensures { items.new.items ≡ items.old.items ++ items_of text.now }
{
    let mut rest = text;
    while !rest.is_empty() {
        let (item, after) = cut_item(rest).unwrap();
        if let Some(item) = item {
            items.push(item).unwrap();
        }
        rest = after;
    }
}
