//! A menu.
ghost use Rattle.std.specs.Prelude.{◌≡◌, ◌<◌, ◌&&◌, OnOk, OnErr, IfOk, IfSome};
ghost use Rattle.std.specs.List.{position};
ghost use Rattle.std.specs.Result.{result_err};
ghost use Rattle.menu_record.specs.Menus.{is_bright, can_choose, has_key, item_with_key};
ghost use Rattle.menu_record.specs.Edits.{new_menu, set_enabled, why_no_menu, why_not_enabled};

use crate::{Items, MenuItem};
use draw_port::ShortText;
use std::alloc::Global;
use tb_geom::Refusal;

/// The greatest number that a menu may have; the least is 1.
const GREATEST_ID: i32 = 32767;

/// A menu: its number, its title and its items. Of the enable flags of *Inside Macintosh*, flag 0 is the menu's own, and
/// each other one its item's.
#[derive(Drop)]
pub struct Menu {
    /// In 1..=32767.
    pub id: u16,
    /// At most 255 characters.
    pub title: ShortText,
    /// Whether the menu is enabled. Of one that is not, no item can be chosen.
    pub enabled: bool,
    /// From top to bottom.
    pub items: Items,
}

impl Menu {
    /// A menu of this number and this title, enabled and without items (NewMenu). It takes no memory. OutOfRange where the
    /// number does not lie in 1..=32767, else TooLong where the title has more than 255 characters.
    pub fn new(alloc: Global, id: i32, title: &[u8]) -> Result<Menu, Refusal>
        ensures made { IfOk result (λ menu. menu ≡ new_menu id title.now) }
        ensures answered { result_err result ≡ why_no_menu id title.now }
    {
        if id < 1 || GREATEST_ID < id {
            return Err(Refusal::OutOfRange);
        }
        let title = ShortText::new(title)?;
        let items = Items::new(alloc);
        Ok(Menu {
            id: id as u16,
            title,
            enabled: true,
            items,
        })
    }

    /// Whether an item of this menu shows as enabled: both are.
    pub fn is_bright(&self, item: &MenuItem) -> bool
        ensures { result ≡ is_bright self.now item.now }
    {
        self.enabled && item.enabled
    }

    /// Whether an item of this menu can be chosen: it shows as enabled and is no dividing line.
    pub fn can_choose(&self, item: &MenuItem) -> bool
        ensures { result ≡ can_choose self.now item.now }
    {
        self.is_bright(item) && !item.is_line()
    }

    /// The place in the list of the first item, from the top, that can be chosen and for which this key stands.
    fn place_with_key(&self, key: u8) -> Option<usize>
        ensures first { result ≡ position (λ item. can_choose self.now item && has_key key item) self.now.items }
        ensures within { IfSome result (λ place. place < 31) }
    {
        self.items
            .as_slice()
            .iter()
            .position(|item| self.can_choose(item) && item.has_key(key))
    }

    /// The number of the first item, from the top, that can be chosen and for which this key stands, if there is one
    /// (MenuKey in one menu). Numbers count from 1.
    pub fn item_with_key(&self, key: u8) -> Option<u8>
        ensures { result ≡ item_with_key key self.now }
    {
        match self.place_with_key(key) {
            Some(place) => Some(place as u8 + 1),
            None => None,
        }
    }

    /// Enables or disables the item of this number, or with 0 the menu itself (EnableItem, DisableItem). NoSuchItem, with
    /// nothing changed, where the number is neither 0 nor that of an item.
    pub fn set_enabled(&mut self, number: i32, enabled: bool) -> Result<(), Refusal>
        ensures done { OnOk result (self.new ≡ set_enabled number enabled self.old) }
        ensures answered { result_err result ≡ why_not_enabled number self.old }
        ensures kept { OnErr result (self.new ≡ self.old) }
    {
        if number == 0 {
            self.enabled = enabled;
            return Ok(());
        }
        self.items.set_enabled(number, enabled)
    }
}
