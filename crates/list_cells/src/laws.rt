//! What the definitions of a list's cells imply. A cell goes by its place among all: row times columns, and the column more.
ghost use Rattle.std.specs.Prelude.{◌≡◌, ◌<◌, ◌≤◌, ◌+◌, ◌-◌, ◌*◌, ℕ, Bool, List, length, true, false, None, Some};
ghost use Rattle.list_cells.specs.Contents.{Content, empty_content, bytes_held};
ghost use Rattle.list_cells.specs.declared.block.Block.{Block};
ghost use Rattle.list_cells.specs.declared.cell.Cell.{Cell};
ghost use Rattle.list_cells.specs.declared.click.ClickKeys.{ClickKeys};
ghost use Rattle.list_cells.specs.declared.click.SelectionFlags.{SelectionFlags};
ghost use Rattle.list_cells.specs.Clicks.{flags_number};
ghost use Rattle.list_cells.specs.Blocks.{IsFirst, content_at, is_in, smallest, clicked_cell};
ghost use Rattle.list_cells.specs.Grids.{Grid, IsGrid, place_of, first_from, rows_added, rows_deleted, columns_added, columns_deleted};

/// The block that a click extends the selection to holds the clicked cell and all selected ones, and every block that does
/// holds it.
#[tactic(auto, using(crate::proofs::LawLemmas::smallest_holds_clicked, crate::proofs::LawLemmas::smallest_holds, crate::proofs::LawLemmas::smallest_is_least))]
pub fn the_block_is_the_smallest()
    ensures clicked { (columns : ℕ) (cells : List Content) (place : ℕ)
        → is_in columns (smallest columns cells place) place ≡ true }
    ensures selected { (columns : ℕ) (cells : List Content) (place k : ℕ) → k < length cells
        → (content_at cells k).selected ≡ true → is_in columns (smallest columns cells place) k ≡ true }
    ensures least { (columns : ℕ) (cells : List Content) (place : ℕ) (block : Block) → is_in columns block place ≡ true
        → ((k : ℕ) → k < length cells → (content_at cells k).selected ≡ true → is_in columns block k ≡ true)
        → (k : ℕ) → is_in columns (smallest columns cells place) k ≡ true → is_in columns block k ≡ true }
{}

/// With lOnlyOne no cell is selected after a click but the clicked one.
#[tactic(auto, using(crate::proofs::LawLemmas::only_one_alone))]
pub fn only_one_is_selected()
    ensures { (flags : SelectionFlags) (keys : ClickKeys) (cell : Cell) (list : Grid) (k : ℕ) → flags.only_one ≡ true
        → (content_at (clicked_cell flags keys cell list).contents k).selected ≡ true → k ≡ place_of list cell }
{}

/// What a search finds passes its test, and no cell does that lies before it, from the first searched one on. Where it finds
/// nothing, no cell from there on passes.
#[tactic(auto, using(crate::proofs::LawLemmas::search_nothing))]
pub fn a_search_finds_the_first()
    ensures first { (test : Content → Bool) (list : Grid) (from found : Cell) → 0 < list.columns
        → first_from test list from ≡ Some found → IsFirst test list (place_of list from) (place_of list found) }
    ensures nothing { (test : Content → Bool) (list : Grid) (from : Cell) → first_from test list from ≡ None
        → (k : ℕ) → place_of list from ≤ k → k < length list.contents → test (content_at list.contents k) ≡ false }
{}

/// No number is that of two choices of flags.
#[tactic(auto, using(crate::proofs::LawLemmas::one_choice))]
pub fn a_number_is_one_choice_of_flags()
    ensures { (flags others : SelectionFlags) → flags_number flags ≡ flags_number others → flags ≡ others }
{}

/// The cells of added rows are empty and not selected. The cells above them stay what they are, and those below move down with
/// what they hold.
#[tactic(auto, using(crate::proofs::LawLemmas::added_row_empty, crate::proofs::LawLemmas::row_above_kept, crate::proofs::LawLemmas::row_below_pushed))]
pub fn added_rows_are_empty()
    ensures empty { (list : Grid) (at n row column : ℕ) → IsGrid list → at ≤ list.rows → at ≤ row → row < at + n
        → column < list.columns
        → content_at (rows_added at n list).contents (row * list.columns + column) ≡ empty_content }
    ensures above { (list : Grid) (at n row column : ℕ) → IsGrid list → at ≤ list.rows → row < at
        → column < list.columns → content_at (rows_added at n list).contents (row * list.columns + column)
        ≡ content_at list.contents (row * list.columns + column) }
    ensures below { (list : Grid) (at n row column : ℕ) → IsGrid list → at ≤ list.rows → at ≤ row
        → content_at (rows_added at n list).contents ((row + n) * list.columns + column)
        ≡ content_at list.contents (row * list.columns + column) }
{}

/// The cells of added columns are empty and not selected. The cells left of them stay what they are, and those right of them
/// move right with what they hold.
#[tactic(auto, using(crate::proofs::LawLemmas::added_column_empty, crate::proofs::LawLemmas::column_left_kept, crate::proofs::LawLemmas::column_right_pushed))]
pub fn added_columns_are_empty()
    ensures empty { (list : Grid) (at n row column : ℕ) → IsGrid list → at ≤ list.columns → row < list.rows
        → at ≤ column → column < at + n
        → content_at (columns_added at n list).contents (row * (list.columns + n) + column) ≡ empty_content }
    ensures left { (list : Grid) (at n row column : ℕ) → IsGrid list → at ≤ list.columns → row < list.rows
        → column < at → content_at (columns_added at n list).contents (row * (list.columns + n) + column)
        ≡ content_at list.contents (row * list.columns + column) }
    ensures right { (list : Grid) (at n row column : ℕ) → IsGrid list → at ≤ list.columns → row < list.rows
        → at ≤ column → column < list.columns
        → content_at (columns_added at n list).contents (row * (list.columns + n) + (column + n))
        ≡ content_at list.contents (row * list.columns + column) }
{}

/// Where rows are deleted, the cells above them stay what they are, and those below move up with what they hold.
#[tactic(auto, using(crate::proofs::LawLemmas::row_above_stays, crate::proofs::LawLemmas::row_below_moves))]
pub fn deleted_rows_keep_the_others()
    ensures above { (list : Grid) (at n row column : ℕ) → IsGrid list → at ≤ list.rows → row < at
        → column < list.columns → content_at (rows_deleted at n list).contents (row * list.columns + column)
        ≡ content_at list.contents (row * list.columns + column) }
    ensures below { (list : Grid) (at n row column : ℕ) → IsGrid list → at ≤ list.rows → at ≤ row
        → column < list.columns → content_at (rows_deleted at n list).contents (row * list.columns + column)
        ≡ content_at list.contents ((row + n) * list.columns + column) }
{}

/// Where columns are deleted, the cells left of them stay what they are, and those right of them move left with what they
/// hold.
#[tactic(auto, using(crate::proofs::LawLemmas::column_left_stays, crate::proofs::LawLemmas::column_right_moves))]
pub fn deleted_columns_keep_the_others()
    ensures left { (list : Grid) (at n row column : ℕ) → IsGrid list → at + n ≤ list.columns → row < list.rows
        → column < at → content_at (columns_deleted at n list).contents (row * (list.columns - n) + column)
        ≡ content_at list.contents (row * list.columns + column) }
    ensures right { (list : Grid) (at n row column : ℕ) → IsGrid list → at + n ≤ list.columns → row < list.rows
        → at ≤ column → column + n < list.columns
        → content_at (columns_deleted at n list).contents (row * (list.columns - n) + column)
        ≡ content_at list.contents (row * list.columns + (column + n)) }
{}

/// Rows and columns that are added or deleted never make the cells hold more bytes.
#[tactic(auto, using(crate::proofs::ByteLemmas::rows_added_held, crate::proofs::ByteLemmas::rows_deleted_held, crate::proofs::ByteLemmas::columns_added_held, crate::proofs::ByteLemmas::columns_deleted_held))]
pub fn rows_and_columns_bring_no_bytes()
    ensures rows_added { (list : Grid) (at n : ℕ)
        → bytes_held (rows_added at n list).contents ≤ bytes_held list.contents }
    ensures rows_deleted { (list : Grid) (at n : ℕ)
        → bytes_held (rows_deleted at n list).contents ≤ bytes_held list.contents }
    ensures columns_added { (list : Grid) (at n : ℕ)
        → bytes_held (columns_added at n list).contents ≤ bytes_held list.contents }
    ensures columns_deleted { (list : Grid) (at n : ℕ)
        → bytes_held (columns_deleted at n list).contents ≤ bytes_held list.contents }
{}
