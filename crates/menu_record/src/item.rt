//! The items of menus.
ghost use Rattle.std.specs.Prelude.{◌≡◌};
ghost use Rattle.menu_record.specs.Menus.{is_line, has_key};

use draw_port::ShortText;

/// An item of a menu. Characters are bytes.
#[derive(Drop)]
pub struct MenuItem {
    /// At most 255 characters; those that are signs in a text that is appended are as good as any here.
    pub text: ShortText,
    /// The character in front of the text, if there is one.
    pub mark: Option<u8>,
    /// The key that stands for the item, if one does.
    pub key: Option<u8>,
    /// Whether the item is enabled. In a menu that is not, it shows as disabled all the same.
    pub enabled: bool,
}

impl MenuItem {
    /// Whether the item is a dividing line: whether its text is just `-`.
    pub fn is_line(&self) -> bool
        ensures { result ≡ is_line self.now }
    {
        self.text.as_slice() == b"-".as_slice()
    }

    /// Whether this key stands for the item. Both cases of a letter are the same key, where the letters are those of ASCII.
    pub fn has_key(&self, key: u8) -> bool
        ensures { result ≡ has_key key self.now }
    {
        match self.key {
            Some(own) => own.eq_ignore_ascii_case(&key),
            None => false,
        }
    }
}
