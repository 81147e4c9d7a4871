//! A menu of a desk.
ghost use Rattle.std.specs.Prelude.{◌≡◌};
ghost use Rattle.menu_list.specs.Lists.{has_number, is_highlighted, title_of, key_in};

use desk_call::Choice;
use desk_ground::BarTitle;
use menu_record::Menu;

/// A menu of a desk.
#[derive(Drop)]
pub struct Listed<D> {
    pub menu: Menu,
    /// Whether it is in the menu bar.
    pub inserted: bool,
    /// What the menu is drawn by, or what stands for that.
    pub definition: D,
}

impl<D> Listed<D> {
    /// Whether the menu has this number.
    pub(crate) fn has_number(&self, id: i32) -> bool
        ensures { result ≡ has_number id self.now }
    {
        i32::from(self.menu.id) == id
    }

    /// Its title, highlighted where its number is this one.
    pub(crate) fn title(&self, highlighted: Option<u16>) -> BarTitle
        ensures { result ≡ title_of highlighted self.now }
    {
        BarTitle {
            menu: self.menu.id,
            text: self.menu.title.copy(),
            enabled: self.menu.enabled,
            highlighted: is_highlighted(self.menu.id, highlighted),
        }
    }

    /// The item of this menu that the key chooses, if the menu is in the bar and has one.
    pub(crate) fn with_key(&self, key: u8) -> Option<Choice>
        ensures { result ≡ key_in key self.now }
    {
        if !self.inserted {
            return None;
        }
        match self.menu.item_with_key(key) {
            Some(item) => Some(Choice {
                menu: self.menu.id,
                item,
            }),
            None => None,
        }
    }
}

/// Whether the highlighted menu, if one is, has this number.
fn is_highlighted(id: u16, highlighted: Option<u16>) -> bool
    ensures { result ≡ is_highlighted id highlighted }
{
    match highlighted {
        Some(highlighted) => highlighted == id,
        None => false,
    }
}
