//! What the definitions of a view imply.
ghost use Rattle.std.specs.Prelude.{◌≡◌, ◌↔◌, ◌≤ℤ◌, ◌<ℤ◌, ◌-ℤ◌, ◌+◌, ℕ, ℤ, pos, true, Some, not, if◌then◌else◌, List};
ghost use Rattle.tb_geom.specs.declared.point.Point.{Point};
ghost use Rattle.tb_geom.specs.Rects.{rect_holds};
ghost use Rattle.list_cells.specs.declared.cell.Cell.{Cell};
ghost use Rattle.list_cells.specs.Grids.{Grid, IsGrid, is_cell};
ghost use Rattle.list_view.specs.declared.axis.Axis.{Axis};
ghost use Rattle.list_view.specs.Axes.{IsAxis, end_of, bound, scrolled_line, line_end};
ghost use Rattle.list_view.specs.Views.{View, IsView, IsCell, cell_rect, cell_at, columns_end, rows_end};
ghost use Rattle.def_iface.specs.ListMeaning.{ListDefinition};
ghost use Rattle.list_cells.specs.declared.selecting.Selecting.{Selecting};
ghost use Rattle.list_cells.specs.Selections.{IsSelecting};
ghost use Rattle.list_view.specs.Shown.{list_shown, is_turned};

/// A point finds a cell of a list exactly where the cell's rectangle, cut to the view, holds it, and finds nothing but cells of
/// the list.
#[tactic(auto, using(crate::proofs::LawLemmas::holder_is_found, crate::proofs::LawLemmas::found_is_cell))]
pub fn a_point_finds_the_cell_that_holds_it()
    ensures holder { (v : View) (list : Grid) (c : Cell) (p : Point) → IsView v → is_cell list c ≡ true
        → (cell_at list.columns list.rows v p ≡ Some c) ↔ (rect_holds (cell_rect v c) p ≡ true) }
    ensures of_the_list { (v : View) (list : Grid) (c : Cell) (p : Point) → IsView v
        → cell_at list.columns list.rows v p ≡ Some c → is_cell list c ≡ true }
{}

/// The cells from the one in the corner to before `columns_end` and `rows_end` show, if only in part.
#[tactic(auto, using(crate::proofs::ReachLemmas::shows))]
pub fn the_cells_within_the_ends_show()
    ensures { (v : View) (columns rows : ℕ) (c : Cell) → IsView v → v.first.column ≤ℤ c.column
        → c.column <ℤ pos (columns_end columns v) → v.first.row ≤ℤ c.row → c.row <ℤ pos (rows_end rows v)
        → (p : Point) × (rect_holds (cell_rect v c) p ≡ true) }
{}

/// No two cells hold a point.
#[tactic(auto, using(crate::proofs::LawLemmas::one_holder))]
pub fn one_cell_holds_a_point()
    ensures { (v : View) (c d : Cell) (p : Point) → IsView v → rect_holds (cell_rect v c) p ≡ true
        → rect_holds (cell_rect v d) p ≡ true → c ≡ d }
{}

/// A view is scrolled no further than from 0 to its bound, and where it is there already, scrolling by 0 leaves it.
#[tactic(auto, using(crate::proofs::LineLemmas::scrolled_least, crate::proofs::LineLemmas::scrolled_most, crate::proofs::LineLemmas::scrolled_stays))]
pub fn scrolling_stays_within()
    ensures least { (axis : Axis) (count : ℕ) (first lines : ℤ) → pos 0 ≤ℤ scrolled_line axis count first lines }
    ensures most { (axis : Axis) (count : ℕ) (first lines : ℤ)
        → scrolled_line axis count first lines ≤ℤ bound axis count }
    ensures stays { (axis : Axis) (count : ℕ) (first : ℤ) → pos 0 ≤ℤ first → first ≤ℤ bound axis count
        → scrolled_line axis count first (pos 0) ≡ first }
{}

/// Where a cell has room in the view, the bound of scrolling is the first line from which on the last one shows whole. Where
/// none has, the last line comes to the start.
#[tactic(auto, using(crate::proofs::LineLemmas::last_line_shows, crate::proofs::LineLemmas::no_less_shows, crate::proofs::LineLemmas::last_line_alone))]
pub fn scrolling_ends_where_the_last_line_shows()
    ensures shows { (axis : Axis) (count : ℕ) → IsAxis axis → axis.cell ≤ℤ axis.length
        → line_end axis (bound axis count) (pos count -ℤ pos 1) ≤ℤ end_of axis }
    ensures first { (axis : Axis) (count : ℕ) (first : ℤ) → IsAxis axis → pos 0 ≤ℤ first
        → line_end axis first (pos count -ℤ pos 1) ≤ℤ end_of axis → bound axis count ≤ℤ first }
    ensures alone { (axis : Axis) (count : ℕ) → IsAxis axis → axis.length <ℤ axis.cell
        → bound axis (count + 1) ≡ pos count }
{}

/// Each cell of a list is one that a view can be asked for.
#[tactic(auto, using(crate::proofs::LawLemmas::cell_of_list))]
pub fn each_cell_can_be_asked_for()
    ensures { (list : Grid) (c : Cell) → IsGrid list → is_cell list c ≡ true → IsCell c }
{}

/// What a list showed before a call that changed its selection, inverted where that call turns it, is what the list shows
/// after the call.
pub fn toggling_makes_what_is_shown()
    ensures { (font : List ℕ) (d : ListDefinition) (v : View) (before after : Grid) (s : Selecting) (p : Point)
        → IsSelecting before after s
        → list_shown font d v after p
        ≡ (if is_turned font d v before after p then not (list_shown font d v before p)
        else list_shown font d v before p) }
{}
