//! What a Toolbox can be asked about menus, and what it answers.

use tb_geom::{BytesRef, Point};

/// A call about menus (*Inside Macintosh* I, "The Menu Manager"). A menu is named by its number, and an item by its number in
/// the menu, which counts from 1 at the top. Numbers are as they were asked for, judged by nobody.
#[derive(Drop)]
pub enum MenuCall<'a> {
    /// Makes a menu, enabled and without items (NewMenu). It is not in the menu bar yet.
    New(NewMenu<'a>),
    /// Appends the items that a text gives to a menu (AppendMenu).
    Append(AppendItems<'a>),
    /// Gives an item another text, in which no character is a sign (SetItem).
    SetItem(ItemText<'a>),
    /// Puts a menu into the menu bar, before another or at the right end (InsertMenu). One that is there already moves.
    Insert(InsertMenu),
    /// Takes a menu out of the menu bar (DeleteMenu). One that is not there stays as it is.
    Delete(i32),
    /// Takes a menu out of the menu bar and ends it: its definition is disposed of, and goes back Closed into its slot
    /// (DisposeMenu).
    Dispose(i32),
    /// Enables an item, or the menu itself, which is its item 0 (EnableItem).
    Enable(ItemOfMenu),
    /// Disables it (DisableItem).
    Disable(ItemOfMenu),
    /// Gives an item the check mark, or no mark (CheckItem).
    Check(CheckItem),
    /// The mouse button was pressed at this point of the screen: the menu on whose title it lies is pulled down and
    /// highlighted (MenuSelect, its begin). On no title nothing begins.
    Down(Point),
    /// The mouse is at this point of the screen, while a menu is pulled down: over another title that title's menu is pulled
    /// down, and over an item that can be chosen that item is highlighted (MenuSelect, a step).
    Move(Point),
    /// The mouse button was released at this point of the screen: the menu that is pulled down is put away, and an item that
    /// can be chosen there is chosen (MenuSelect, its end). The title of its menu stays highlighted; where none is chosen, no
    /// title is highlighted.
    Up(Point),
    /// A key was pressed that may stand for an item (MenuKey). The title of the menu of that item is highlighted.
    Key(u8),
    /// Highlights the title of this menu alone (HiliteMenu); none with 0, and none with the number of a menu that is not in
    /// the menu bar.
    Hilite(i32),
}

/// A menu to be made.
#[derive(Drop)]
pub struct NewMenu<'a> {
    /// In 1..=32767, and no other menu's.
    pub menu: i32,
    /// At most 255 bytes.
    pub title: BytesRef<'a>,
}

/// Items that are to be appended to a menu.
#[derive(Drop)]
pub struct AppendItems<'a> {
    pub menu: i32,
    /// The texts of the items, parted by `;` or by a return, with their signs.
    pub items: BytesRef<'a>,
}

/// An item that is to have another text.
#[derive(Drop)]
pub struct ItemText<'a> {
    pub menu: i32,
    pub item: i32,
    /// At most 255 bytes.
    pub text: BytesRef<'a>,
}

/// A menu that is to go into the menu bar.
#[derive(Clone, Copy, PartialEq, Eq)]
pub struct InsertMenu {
    pub menu: i32,
    /// The menu to the right of it then, another than itself; 0: none, it goes to the right end.
    pub before: i32,
}

/// An item of a menu, or with 0 the menu itself.
#[derive(Clone, Copy, PartialEq, Eq)]
pub struct ItemOfMenu {
    pub menu: i32,
    pub item: i32,
}

/// An item that is to be checked, or not.
#[derive(Clone, Copy, PartialEq, Eq)]
pub struct CheckItem {
    pub menu: i32,
    pub item: i32,
    pub checked: bool,
}

/// An item that was chosen.
#[derive(Clone, Copy, Debug, PartialEq, Eq)]
pub struct Choice {
    /// The number of its menu.
    pub menu: u16,
    /// Its number in the menu, from 1 on.
    pub item: u8,
}

/// The value of a call about menus that was done.
#[derive(Clone, Copy, Debug, PartialEq, Eq)]
pub enum MenuReply {
    /// Nothing more than that it was done.
    Done,
    /// The number of the menu that was pulled down, if one was.
    Pulled(Option<u16>),
    /// The number of the item that is highlighted, if one is.
    Item(Option<u8>),
    /// What was chosen, if something was.
    Chosen(Option<Choice>),
}
