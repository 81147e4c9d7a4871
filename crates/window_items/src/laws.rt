//! What the definitions of a desk's items imply.
ghost use Rattle.std.specs.Prelude.{◌≡◌, ◌++◌, ◌∷◌, [], ℕ, true, false, Some, List, length, option_to_list};
ghost use Rattle.std.specs.List.{list_any, position, remove};
ghost use Rattle.std.specs.Option.{option_map};
ghost use Rattle.window_items.specs.declared.item.Item.{Item};
ghost use Rattle.window_items.specs.Items.{has_serial, is_in, is_in_at, item_index, items_of, count_of, place_among};
ghost use Rattle.window_items.specs.Items.{youngest_of, without_youngest, are_before, serial_after, edit_at};

/// What is changed of an item, or that it is taken out, leaves the items of every other window.
#[tactic(auto, using(crate::proofs::LawLemmas::kept_by_change, crate::proofs::LawLemmas::kept_by_removal))]
pub fn other_windows_keep_their_items<T>()
    ensures changed { (f : Item T → Item T) → ((c : Item T) → (f c).window ≡ c.window)
        → (window : ℕ) (at : ℕ) (items : List (Item T)) → is_in_at window at items ≡ false
        → items_of window (edit_at f at items) ≡ items_of window items }
    ensures removed { (window : ℕ) (at : ℕ) (items : List (Item T)) → is_in_at window at items ≡ false
        → items_of window (remove items at) ≡ items_of window items }
{}

/// The items of a window are as many as are counted, and an item that is found in the list is found among them at its
/// place.
#[tactic(auto, using(crate::proofs::LawLemmas::as_many, crate::proofs::LawLemmas::found_among))]
pub fn an_item_has_its_place_in_its_window<T>()
    ensures many { (window : ℕ) (items : List (Item T))
        → count_of window items ≡ length (items_of window items) }
    ensures place { (window : ℕ) (serial : ℕ) (items : List (Item T))
        → option_map (λ at. place_among at items) (item_index window serial items)
        ≡ position (has_serial serial) (items_of window items) }
{}

/// Where each serial comes before the next one, the next one is no item's. An item of that serial is found behind the
/// others, and then each serial comes before the one after it.
#[tactic(auto, using(crate::proofs::LawLemmas::no_others, crate::proofs::LawLemmas::found_last, crate::proofs::LawLemmas::still_before))]
pub fn a_serial_is_given_once<T>()
    ensures new { (item : Item T) (items : List (Item T)) → are_before (Some item.serial) items ≡ true
        → list_any (has_serial item.serial) items ≡ false }
    ensures found { (window : ℕ) (item : Item T) (items : List (Item T))
        → are_before (Some item.serial) items ≡ true → is_in window item ≡ true
        → item_index window item.serial (items ++ item ∷ []) ≡ Some (length items) }
    ensures kept { (item : Item T) (items : List (Item T)) → are_before (Some item.serial) items ≡ true
        → are_before (serial_after item.serial) (items ++ item ∷ []) ≡ true }
{}

/// The youngest item of a window stood behind its others, which stay.
#[tactic(auto, using(crate::proofs::LawLemmas::emptied))]
pub fn a_window_loses_its_youngest_item<T>()
    ensures { (window : ℕ) (items : List (Item T)) → items_of window items
        ≡ items_of window (without_youngest window items) ++ option_to_list (youngest_of window items) }
{}
