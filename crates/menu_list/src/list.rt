//! The menus of a desk.
ghost use Rattle.std.specs.Prelude.{◌≡◌, ◌<◌, ◌++◌, [], ◌∷◌, None, Some, IfOk, IfSome, ◌≤◌, vec_capacity, slice_get, length};
ghost use Rattle.std.specs.List.{remove};
ghost use Rattle.menu_list.specs.Lists.{menu_index, without_highlight};

use crate::Listed;
use std::alloc::{AllocError, Global};

/// As many menus as a desk may have.
const MOST_MENUS: usize = 16;

/// The menus of a desk, at most 16. Those in the menu bar stand in the list as there, from left to right; where the others
/// stand means nothing.
#[derive(Drop)]
pub struct MenuList<D> {
    pub menus: Vec<Listed<D>>,
    /// The number of the menu whose title is highlighted, if one is.
    pub highlighted: Option<u16>,
}

impl<D> MenuList<D> {
    /// No menu, and room for 16.
    pub fn new(alloc: Global) -> Result<MenuList<D>, AllocError>
        ensures menus { IfOk result (λ list. list.menus.items ≡ []) }
        ensures highlighted { IfOk result (λ list. list.highlighted ≡ None) }
        ensures room { IfOk result (λ list. 16 ≤ vec_capacity list.menus) }
    {
        Ok(MenuList {
            menus: Vec::with_capacity(alloc, MOST_MENUS)?,
            highlighted: None,
        })
    }

    /// Where the first menu of this number stands in the list, if there is one.
    pub fn find(&self, id: i32) -> Option<usize>
        ensures first { result ≡ menu_index id self.now.menus.items }
        ensures within { IfSome result (λ at. at < length self.now.menus.items) }
    {
        self.menus.iter().position(|listed| listed.has_number(id))
    }

    /// Puts a menu behind all others. There has to be room.
    pub fn push(&mut self, listed: Listed<D>)
        requires { length self.old.menus.items < vec_capacity self.old.menus }
        ensures menus { self.new.menus.items ≡ self.old.menus.items ++ listed ∷ [] }
        ensures highlighted { self.new.highlighted ≡ self.old.highlighted }
        ensures room { vec_capacity self.old.menus ≤ vec_capacity self.new.menus }
    {
        self.menus.push(listed).unwrap();
    }

    /// Takes a menu out of the list. If it was highlighted, none is any more.
    pub fn remove(&mut self, at: usize) -> Listed<D>
        requires { at < length self.old.menus.items }
        ensures value { slice_get self.old.menus.items at ≡ Some result }
        ensures menus { self.new.menus.items ≡ remove self.old.menus.items at }
        ensures highlighted { self.new.highlighted ≡ without_highlight result.menu.id self.old.highlighted }
        ensures room { vec_capacity self.old.menus ≤ vec_capacity self.new.menus }
    {
        let listed = self.menus.remove(at);
        self.dim(listed.menu.id);
        listed
    }

    /// Takes the highlighting from the menu of this number, if it has it.
    pub(crate) fn dim(&mut self, id: u16)
        ensures menus { self.new.menus ≡ self.old.menus }
        ensures highlighted { self.new.highlighted ≡ without_highlight id self.old.highlighted }
    {
        self.highlighted = self.highlighted.filter(|highlighted| *highlighted != id);
    }
}
