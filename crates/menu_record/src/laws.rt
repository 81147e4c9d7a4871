//! What the definitions of menus imply.
ghost use Rattle.std.specs.Prelude.{◌≡◌, ◌≤◌, ◌+◌, ◌++◌, ◌∷◌, ◌&&◌, [], ℕ, Bool, true, false, List, length, All, Option};
ghost use Rattle.std.specs.Option.{option_map_or};
ghost use Rattle.tb_geom.specs.declared.refusal.Refusal.{Refusal};
ghost use Rattle.menu_record.specs.declared.item.MenuItem.{MenuItem};
ghost use Rattle.menu_record.specs.declared.menu.Menu.{Menu};
ghost use Rattle.menu_record.specs.Menus.{can_choose, has_key, item_at, item_with_key};
ghost use Rattle.menu_record.specs.Edits.{with_enabled};
ghost use Rattle.menu_record.specs.Appending.{is_parting, is_plain, items_of, item_saying, why_not_appended};

/// To append two texts, parted by `;` or by a return, is to append the items of the first and then those of the second. So
/// a text may be appended piece by piece.
#[tactic(auto, using(crate::proofs::LawLemmas::texts_in_turn))]
pub fn texts_are_appended_in_turn()
    ensures { (first : List ℕ) (c : ℕ) (second : List ℕ) → is_parting c ≡ true
        → items_of (first ++ c ∷ second) ≡ items_of first ++ items_of second }
{}

/// A text without a character that parts pieces, without a sign and without a `(`, gives one item, which has this text, no
/// mark and no key, and is enabled.
#[tactic(auto, using(crate::proofs::LawLemmas::plain_texts))]
pub fn plain_texts_are_one_item()
    ensures { (c : ℕ) (cs : List ℕ) → All (λ x. is_plain x ≡ true) (c ∷ cs)
        → items_of (c ∷ cs) ≡ item_saying (c ∷ cs) ∷ [] }
{}

/// A menu to which a text may be appended has at most 31 items after that.
pub fn at_most_31_items()
    ensures { (text : List ℕ) (count : ℕ) → why_not_appended text count ≡ Option.None
        → count + length (items_of text) ≤ 31 }
{}

/// An item that is disabled is not chosen, nor is any of a menu that is disabled.
pub fn disabled_items_are_not_chosen()
    ensures item { (menu : Menu) (item : MenuItem) → can_choose menu (with_enabled false item) ≡ false }
    ensures menu { (menu : Menu) (item : MenuItem) → menu.enabled ≡ false → can_choose menu item ≡ false }
{}

/// The item that a key finds is one of the menu's, can be chosen, and has the key.
#[tactic(auto, using(crate::proofs::LawLemmas::found_item))]
pub fn a_key_finds_an_item_that_can_be_chosen()
    ensures { (key : ℕ) (menu : Menu) (number : ℕ) → item_with_key key menu ≡ Option.Some number
        → option_map_or (λ item. can_choose menu item && has_key key item) (item_at number menu.items) false ≡ true }
{}

/// A capital letter and its small one are the same key.
#[tactic(auto, using(crate::proofs::LawLemmas::one_key))]
pub fn both_cases_of_a_letter_are_one_key()
    ensures { (letter : ℕ) (menu : Menu) → 65 ≤ letter → letter ≤ 90
        → item_with_key (letter + 32) menu ≡ item_with_key letter menu }
{}
