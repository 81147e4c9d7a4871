//! What changes one menu of the list.
ghost use Rattle.std.specs.Prelude.{◌≡◌, ◌≤◌, vec_capacity, ◌<◌, None, Some, OnOk, OnErr, IfErr, IfSome, length, slice_get};
ghost use Rattle.std.specs.Result.{result_err};
ghost use Rattle.menu_record.specs.Appending.{why_not_appended};
ghost use Rattle.menu_record.specs.Edits.{set_enabled, why_no_item, why_no_text, why_not_enabled};
ghost use Rattle.menu_record.specs.Reads.{IsNotAppended};
ghost use Rattle.menu_list.specs.Lists.{edit_at, with_menu, why_at};
ghost use Rattle.menu_list.specs.Editing.{with_items_of, with_item_text, with_item_checked};

use crate::MenuList;
use tb_geom::Refusal;

impl<D> MenuList<D> {
    /// Appends the items that a text gives to a menu (AppendMenu). TooLong where the text of one has more than 255
    /// characters, else TooMany where there would be more than 31 items; else NoMemory is the only refusal. A refusal
    /// changes nothing.
    pub fn append(&mut self, at: usize, text: &[u8]) -> Result<(), Refusal>
        requires { at < length self.old.menus.items }
        ensures appended { OnOk result (self.new.menus.items ≡ edit_at (with_menu (with_items_of text.now)) at
            self.old.menus.items) }
        ensures allowed { OnOk result (why_at (λ m. why_not_appended text.now (length m.items)) at self.old.menus.items
            ≡ None) }
        ensures refused { IfErr result (λ e. IfSome (slice_get self.old.menus.items at)
            (λ l. IsNotAppended text.now (length l.menu.items) e)) }
        ensures kept { OnErr result (self.new.menus.items ≡ self.old.menus.items) }
        ensures highlighted { self.new.highlighted ≡ self.old.highlighted }
        ensures room { vec_capacity self.old.menus ≤ vec_capacity self.new.menus }
    {
        self.menus[at].menu.items.append(text)
    }

    /// Sets the text of an item of a menu, by its number from 1 on (SetItem); no character of it is a sign. NoSuchItem where
    /// there is none, else TooLong where the text has more than 255 characters. A refusal changes nothing.
    pub fn set_text(&mut self, at: usize, item: i32, text: &[u8]) -> Result<(), Refusal>
        requires { at < length self.old.menus.items }
        ensures done { OnOk result (self.new.menus.items ≡ edit_at (with_menu (with_item_text item text.now)) at
            self.old.menus.items) }
        ensures answered { result_err result ≡ why_at (λ m. why_no_text item text.now m.items) at self.old.menus.items }
        ensures kept { OnErr result (self.new.menus.items ≡ self.old.menus.items) }
        ensures highlighted { self.new.highlighted ≡ self.old.highlighted }
        ensures room { vec_capacity self.old.menus ≤ vec_capacity self.new.menus }
    {
        self.menus[at].menu.items.set_text(item, text)
    }

    /// Enables or disables an item of a menu, by its number from 1 on, or with 0 the menu itself (EnableItem, DisableItem).
    /// NoSuchItem, with nothing changed, where the number is neither 0 nor that of an item.
    pub fn set_enabled(&mut self, at: usize, item: i32, enabled: bool) -> Result<(), Refusal>
        requires { at < length self.old.menus.items }
        ensures done { OnOk result (self.new.menus.items ≡ edit_at (with_menu (set_enabled item enabled)) at
            self.old.menus.items) }
        ensures answered { result_err result ≡ why_at (why_not_enabled item) at self.old.menus.items }
        ensures kept { OnErr result (self.new.menus.items ≡ self.old.menus.items) }
        ensures highlighted { self.new.highlighted ≡ self.old.highlighted }
        ensures room { vec_capacity self.old.menus ≤ vec_capacity self.new.menus }
    {
        self.menus[at].menu.set_enabled(item, enabled)
    }

    /// Gives an item of a menu, by its number from 1 on, the check mark `*`, or takes its mark away (CheckItem). NoSuchItem,
    /// with nothing changed, where there is none.
    pub fn check(&mut self, at: usize, item: i32, checked: bool) -> Result<(), Refusal>
        requires { at < length self.old.menus.items }
        ensures done { OnOk result (self.new.menus.items ≡ edit_at (with_menu (with_item_checked item checked)) at
            self.old.menus.items) }
        ensures answered { result_err result ≡ why_at (λ m. why_no_item item m.items) at self.old.menus.items }
        ensures kept { OnErr result (self.new.menus.items ≡ self.old.menus.items) }
        ensures highlighted { self.new.highlighted ≡ self.old.highlighted }
        ensures room { vec_capacity self.old.menus ≤ vec_capacity self.new.menus }
    {
        self.menus[at].menu.items.check(item, checked)
    }
}
