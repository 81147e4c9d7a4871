//! What the definitions of items imply.
ghost use Rattle.std.specs.Prelude.{◌≡◌, ◌≤◌, true, length};
ghost use Rattle.dialog_items.specs.Items.{edits_one};

use crate::items::DialogItems;

/// The edited item of a window is none or an edit item, whatever was called before.
pub fn the_edited_item_is_an_edit_item(items: &DialogItems)
    ensures { edits_one items.now.items items.now.edited ≡ true }
{
    let _edited = items.edited();
}

/// A window has at most 64 items.
pub fn items_are_few(items: &DialogItems)
    ensures { length items.now.items ≤ 64 }
{
    let _items = items.items();
}
