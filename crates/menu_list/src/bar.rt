//! The menus that are in the menu bar.
ghost use Rattle.std.specs.Prelude.{◌≡◌, vec_capacity, ◌<◌, ◌≤◌, false, length};
ghost use Rattle.menu_list.specs.Lists.{edit_at, with_inserted, moved_before, place_before, without_highlight_at, is_in_bar, titles_of, key_choice};

use crate::MenuList;
use desk_call::Choice;
use desk_ground::Titles;

impl<D> MenuList<D> {
    /// Puts a menu into the menu bar, to the left of the menu of the number `before`, or to the right of all where no menu
    /// has that (InsertMenu). One that is in the bar already moves there. It takes no memory.
    pub fn insert(&mut self, at: usize, before: i32)
        requires { at < length self.old.menus.items }
        ensures menus { self.new.menus.items ≡ moved_before before at self.old.menus.items }
        ensures highlighted { self.new.highlighted ≡ self.old.highlighted }
        ensures room { vec_capacity self.old.menus ≤ vec_capacity self.new.menus }
    {
        let mut listed = self.menus.remove(at);
        listed.inserted = true;
        let place = self.place_before(before);
        self.menus.insert(place, listed).unwrap();
    }

    /// Where the menu of this number stands in the list, or the end of the list where there is none.
    fn place_before(&self, id: i32) -> usize
        ensures value { result ≡ place_before id self.now.menus.items }
        ensures within { result ≤ length self.now.menus.items }
    {
        match self.find(id) {
            Some(at) => at,
            None => self.menus.len(),
        }
    }

    /// Takes a menu out of the menu bar (DeleteMenu). If it was highlighted, none is any more.
    pub fn take_out(&mut self, at: usize)
        requires { at < length self.old.menus.items }
        ensures menus { self.new.menus.items ≡ edit_at (with_inserted false) at self.old.menus.items }
        ensures highlighted { self.new.highlighted ≡ without_highlight_at at self.old.menus.items self.old.highlighted }
        ensures room { vec_capacity self.old.menus ≤ vec_capacity self.new.menus }
    {
        let listed = &mut self.menus[at];
        listed.inserted = false;
        let id = listed.menu.id;
        self.dim(id);
    }

    /// Highlights the title of the menu of this number alone, or none.
    pub fn highlight(&mut self, menu: Option<u16>)
        ensures menus { self.new.menus ≡ self.old.menus }
        ensures highlighted { self.new.highlighted ≡ menu }
    {
        self.highlighted = menu;
    }

    /// Whether a menu of this number is in the menu bar.
    pub fn is_inserted(&self, id: i32) -> bool
        ensures { result ≡ is_in_bar id self.now.menus.items }
    {
        self.menus
            .iter()
            .any(|listed| listed.inserted && listed.has_number(id))
    }

    /// The titles of the menu bar. They take no memory.
    pub fn titles(&self) -> Titles
        requires { length self.now.menus.items ≤ 16 }
        ensures { result ≡ titles_of self.now.highlighted self.now.menus.items }
    {
        let mut titles = Titles::new();
        for listed in &self.menus {
            if listed.inserted {
                titles.push(listed.title(self.highlighted));
            }
        }
        titles
    }

    /// What a key chooses (MenuKey): of the menus in the bar that have an item that can be chosen and for which the key
    /// stands, the one furthest right, and in it the first such item from the top.
    pub fn with_key(&self, key: u8) -> Option<Choice>
        ensures { result ≡ key_choice key self.now.menus.items }
    {
        let mut chosen = None;
        for listed in &self.menus {
            chosen = listed.with_key(key).or(chosen);
        }
        chosen
    }
}
