//! The titles in a menu bar.
ghost use Rattle.std.specs.Prelude.{◌≡◌, ◌<◌, ◌≤◌, ◌++◌, [], ◌∷◌, length};

use arrayvec::ArrayVec;
use draw_port::ShortText;
use std::marker::Model;

/// As many titles as a bar may have.
pub const MOST_TITLES: usize = 16;

/// The title of an inserted menu.
#[derive(Drop)]
pub struct BarTitle {
    /// The number of the menu.
    pub menu: u16,
    /// At most 255 characters, each of one byte.
    pub text: ShortText,
    /// Whether the menu is enabled.
    pub enabled: bool,
    pub highlighted: bool,
}

/// A title without characters.
impl Default for BarTitle {
    ghost is_default = { λ t. t.text ≡ [] };

    fn default() -> BarTitle {
        BarTitle {
            menu: 0,
            text: ShortText::shortened(b""),
            enabled: false,
            highlighted: false,
        }
    }
}

/// The titles in a menu bar, from left to right: at most 16. They take no memory. Contracts see the list of the titles.
#[derive(Drop)]
pub struct Titles {
    titles: ArrayVec<BarTitle, MOST_TITLES>,
}

impl Model for Titles {
    ghost use Rattle.std.specs.Prelude.{List, ◌≤◌, length};
    ghost use Rattle.std.specs.Coded.{coded_list};
    ghost use Rattle.desk_ground.specs.declared.titles.BarTitle.{BarTitle};
    ghost use Rattle.desk_ground.specs.contracts.titles.BarTitle as title;

    ghost Value = { List BarTitle };

    ghost coded = { coded_list title.the_row.coded };

    ghost view = { λ t. t.titles.items };

    ghost invariant = { λ t. length t.titles.items ≤ 16 };
}

impl Titles {
    /// No title.
    pub fn new() -> Titles
        ensures { result ≡ [] }
    {
        Titles {
            titles: ArrayVec::new(),
        }
    }

    /// The titles, from left to right.
    pub fn as_slice(&self) -> &[BarTitle]
        ensures same { result.now ≡ self.now }
        ensures few { length result.now ≤ 16 }
    {
        self.titles.as_slice()
    }

    /// Puts a title behind the others, of which there are fewer than 16.
    pub fn push(&mut self, title: BarTitle)
        requires { length self.old < 16 }
        ensures { self.new ≡ self.old ++ title ∷ [] }
    {
        self.titles.push(title);
    }
}

/// A menu bar: how many rows of the screen it has, and its titles.
#[derive(Drop)]
pub struct MenuBar {
    pub rows: i32,
    pub titles: Titles,
}
