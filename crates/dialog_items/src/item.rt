//! An item.
ghost use Rattle.std.specs.Prelude.{◌≡◌};
ghost use Rattle.dialog_items.specs.Items.{dialog_type, is_edit, own_look};

use crate::kind::ItemKind;
use crate::look::ItemLook;
use tb_geom::Rect;

/// What shows an item. Each sort counts its serials for itself.
#[derive(Clone, Copy, Debug, PartialEq, Eq)]
pub enum LayerSort {
    Control,
    Text,
}

/// An item of a dialog.
#[derive(Clone, Copy, Debug, PartialEq, Eq)]
pub struct Item {
    pub kind: ItemKind,
    /// Whether a click or a key on it is answered.
    pub enabled: bool,
    /// The serial of its control or text record. A user item has none. An item whose layer was disposed of keeps the serial, which
    /// is never given again.
    pub layer: Option<u64>,
    /// The rectangle of a user item, in its window's coordinates. It says nothing of other items.
    pub rect: Rect,
    /// Whether a user item is shown. It says nothing of other items.
    pub shown: bool,
}

impl Item {
    /// Its item type (GetDItem): with itemDisable, 128, where it is not enabled.
    pub fn type_number(&self) -> u8
        ensures { result ≡ dialog_type self.now }
    {
        let number = self.kind.type_number();
        if self.enabled { number } else { number + 128 }
    }

    /// Whether it is an item of text that is edited.
    pub fn is_edit(&self) -> bool
        ensures { result ≡ is_edit self.now }
    {
        match self.kind {
            ItemKind::Edit => true,
            _ => false,
        }
    }

    /// How an item without a layer stands in its window: a user item as it says itself, and another nowhere.
    pub fn own_look(&self) -> ItemLook
        ensures { result ≡ own_look self.now }
    {
        match self.kind {
            ItemKind::User => ItemLook::new(self, self.shown, self.rect, false),
            _ => ItemLook::new(
                self,
                false,
                Rect {
                    left: 0,
                    top: 0,
                    right: 0,
                    bottom: 0,
                },
                false,
            ),
        }
    }
}
