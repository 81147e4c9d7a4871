//! What the standard definitions of menus and lists imply.
ghost use Rattle.std.specs.Prelude.{◌≡◌, ◌+◌, ℕ, List, [], Option, true, false, if◌then◌else◌, slice_get};
ghost use Rattle.tb_geom.specs.declared.point.Point.{Point};
ghost use Rattle.tb_geom.specs.Rects.{rect_holds};
ghost use Rattle.menu_record.specs.declared.item.MenuItem.{MenuItem};
ghost use Rattle.menu_record.specs.declared.menu.Menu.{Menu};
ghost use Rattle.menu_record.specs.Menus.{can_choose};
ghost use Rattle.def_iface.specs.declared.size.Size.{Size};
ghost use Rattle.std_mldef.specs.Measures.{menu_size};
ghost use Rattle.std_mldef.specs.Rows.{chosen, inner_box, inside_frame, row_of};
ghost use Rattle.std_mldef.specs.declared.std_list.StdList.{StdList};
ghost use Rattle.std_mldef.specs.Lists.{std_list_meaning};

/// The item in whose row a point lies, inside the frame, is chosen there if it can be chosen, and no other item is. In the
/// frame and outside of it none is chosen.
#[tactic(auto, using(crate::proofs::ChosenLemmas::own_row, crate::proofs::ChosenLemmas::outside_rows))]
pub fn a_point_chooses_the_item_of_its_row()
    ensures row { (font : List ℕ) (menu : Menu) (k : ℕ) (item : MenuItem) (p : Point)
        → slice_get menu.items k ≡ Option.Some item
        → rect_holds (inner_box (row_of (menu_size font menu) k)) p ≡ true
        → chosen font menu p ≡ (if can_choose menu item then Option.Some (k + 1) else Option.None) }
    ensures outside { (font : List ℕ) (menu : Menu) (p : Point)
        → rect_holds (inside_frame (menu_size font menu)) p ≡ false → chosen font menu p ≡ Option.None }
{}

/// A list that was told so highlights no pixel of an empty cell.
pub fn an_empty_cell_is_highlighted_only_where_told()
    ensures { (list : StdList) (size : Option Size) (font : List ℕ) (p : Point)
        → (std_list_meaning list).highlight (record { size = size; nil_hilited = Option.Some false }) font [] p
        ≡ false }
{}
