//! What the definitions of a desk's menus imply.
ghost use Rattle.std.specs.Prelude.{◌≡◌, ◌++◌, ◌∷◌, ◌&&◌, ◌==◌, [], ℕ, ℤ, Bool, true, false, List, All, Option, length};
ghost use Rattle.std.specs.Option.{option_map_or};
ghost use Rattle.std.specs.List.{list_any};
ghost use Rattle.desk_call.specs.declared.menu.Choice.{Choice};
ghost use Rattle.menu_record.specs.Menus.{can_choose, item_at};
ghost use Rattle.menu_list.specs.declared.listed.Listed.{Listed};
ghost use Rattle.menu_list.specs.Lists.{has_number, menu_index, in_bar, moved_before, put_before, titles_of, key_choice, with_inserted};

/// To insert a menu, or to move it in the bar, is to lose none and to make none.
#[tactic(auto, using(crate::proofs::LawLemmas::as_many, crate::proofs::LawLemmas::same_numbers))]
pub fn an_insertion_keeps_the_menus<D>()
    ensures many { (before : ℤ) (at : ℕ) (menus : List (Listed D))
        → length (moved_before before at menus) ≡ length menus }
    ensures numbers { (before : ℤ) (at : ℕ) (menus : List (Listed D)) (id : ℤ)
        → list_any (has_number id) (moved_before before at menus) ≡ list_any (has_number id) menus }
{}

/// A menu that is inserted before none is the one furthest right.
#[tactic(auto, using(crate::proofs::LawLemmas::at_the_end))]
pub fn a_menu_is_inserted_at_the_right_end<D>()
    ensures { (before : ℤ) (listed : Listed D) (menus : List (Listed D)) → menu_index before menus ≡ Option.None
        → in_bar (put_before before (with_inserted true listed) menus)
        ≡ in_bar menus ++ with_inserted true listed ∷ [] }
{}

/// Titles are highlighted of one number alone, that of the menu that is highlighted.
#[tactic(auto, using(crate::proofs::LawLemmas::one_number_highlighted))]
pub fn one_menu_is_highlighted<D>()
    ensures { (highlighted : Option ℕ) (menus : List (Listed D))
        → All (λ title. title.highlighted ≡ true → highlighted ≡ Option.Some title.menu) (titles_of highlighted menus) }
{}

/// What a key chooses is an item that can be chosen, of a menu in the bar.
#[tactic(auto, using(crate::proofs::LawLemmas::chosen_can_be))]
pub fn a_key_chooses_what_can_be_chosen<D>()
    ensures { (key : ℕ) (menus : List (Listed D)) (choice : Choice) → key_choice key menus ≡ Option.Some choice
        → list_any (λ l. l.inserted && ((l.menu.id == choice.menu)
        && option_map_or (can_choose l.menu) (item_at choice.item l.menu.items) false)) menus ≡ true }
{}
