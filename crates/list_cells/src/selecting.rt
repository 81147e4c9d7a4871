//! What a call is about to make of the selection.
ghost use Rattle.std.specs.Prelude.{◌≡◌, ◌<◌, ◌*◌, ℕ, IfSome, is_some, length, true};
ghost use Rattle.list_cells.specs.Blocks.{content_at, clicked, clicked_cell};
ghost use Rattle.list_cells.specs.Grids.{Grid, is_cell};
ghost use Rattle.list_cells.specs.Selections.{alone, beside_others, is_selected_after, content_after, chosen_cell};
ghost use Rattle.list_cells.specs.Selections.{is_toggled, IsSelecting, IsChange, AreToggled};

use crate::block::{Block, smallest_block};
use crate::cell::Cell;
use crate::click::{Click, ClickKeys, SelectionFlags};
use crate::content::CellContent;
use crate::list::ListCells;

/// What a call is about to make of the selection: the cells of a block are all selected or all deselected, and the others
/// stay what they are or are deselected. It is of the list that gave it, as that was then.
#[derive(Clone, Copy)]
pub struct Selecting {
    block: Block,
    selected: bool,
    keeps_others: bool,
}

impl Selecting {
    /// The cells of a block are selected, and no others.
    fn alone(block: Block) -> Selecting
        ensures { result ≡ alone block }
    {
        Selecting {
            block,
            selected: true,
            keeps_others: false,
        }
    }

    /// The cells of a block are selected or deselected, and the others stay what they are.
    fn beside_others(block: Block, selected: bool) -> Selecting
        ensures { result ≡ beside_others block selected }
    {
        Selecting {
            block,
            selected,
            keeps_others: true,
        }
    }

    /// Whether the cell at a place is selected afterwards, where `was` says whether it is before.
    fn selects(self, columns: usize, place: usize, was: bool) -> bool
        requires { 0 < columns }
        ensures { result ≡ is_selected_after columns self place was }
    {
        if self.block.holds(columns, place) {
            self.selected
        } else {
            self.keeps_others && was
        }
    }
}

/// Selects and deselects cells in so many columns as was said.
pub(crate) fn select_cells(contents: &mut [CellContent], columns: usize, selecting: Selecting)
    requires { 0 < columns }
    ensures { (place : ℕ) → place < length contents.old
        → content_at contents.new place ≡ content_after columns selecting place (content_at contents.old place) }
{
    for place in 0..contents.len() {
        let content = &mut contents[place];
        let was = content.is_selected();
        content.select(selecting.selects(columns, place, was));
    }
}

impl ListCells {
    /// What `select` is about to make of the selection, where the list has the cell.
    pub fn choosing(&self, cell: Cell, selected: bool, alone: bool) -> Option<Selecting>
        ensures found { is_some result ≡ is_cell self.now cell }
        ensures after { IfSome result (λ s. IsSelecting self.now (chosen_cell cell selected alone self.now) s) }
    {
        let Ok(place) = self.place(cell) else {
            return None;
        };
        let block = Block::at(self.columns, place);
        Some(if selected && alone {
            Selecting::alone(block)
        } else {
            Selecting::beside_others(block, selected)
        })
    }

    /// What `click` is about to make of the selection, where the list has the cell.
    pub fn clicking(&self, cell: Cell, flags: SelectionFlags, keys: ClickKeys) -> Option<Selecting>
        ensures found { is_some result ≡ is_cell self.now cell }
        ensures after { IfSome result (λ s. IsSelecting self.now (clicked_cell flags keys cell self.now) s) }
    {
        let Ok(place) = self.place(cell) else {
            return None;
        };
        let selected = self.contents[place].is_selected();
        Some(self.clicking_at(flags.click(keys, selected), place))
    }

    /// What a click of a kind makes of the selection, at the cell of a place.
    #[tactic(auto, unfolding(crate::specs::Blocks::clicked))]
    fn clicking_at(&self, click: Click, place: usize) -> Selecting
        requires { place < self.now.rows * self.now.columns }
        ensures { IsSelecting self.now
            (record self.now { contents = clicked click self.now.columns place self.now.contents }) result }
    {
        let cell = Block::at(self.columns, place);
        match click {
            Click::SelectsAlone => Selecting::alone(cell),
            Click::Toggles => {
                let selected = self.contents[place].is_selected();
                Selecting::beside_others(cell, !selected)
            }
            Click::Deselects => Selecting::beside_others(cell, false),
            Click::Extends => Selecting::alone(smallest_block(&self.contents, self.columns, place)),
        }
    }

    /// Whether a call that is about to make this of the selection toggles a cell: selects it where it is not selected, or
    /// deselects it where it is. The cells have to be those before that call.
    pub fn is_toggled(&self, cell: Cell, selecting: Selecting) -> bool
        requires { is_cell self.now cell ≡ true }
        ensures { (after : Grid) → IsSelecting self.now after selecting → result ≡ is_toggled self.now after cell }
    {
        let place = self.place(cell).unwrap();
        let was = self.contents[place].is_selected();
        selecting.selects(self.columns, place, was) != was
    }

    /// Whether a call that is about to make this of the selection toggles some cell. The cells have to be those before that call.
    pub fn changes_by(&self, selecting: Selecting) -> bool
        ensures { (after : Grid) → IsSelecting self.now after selecting → IsChange result self.now after }
    {
        self.columns > 0 && are_toggled(&self.contents, self.columns, selecting)
    }
}

/// Whether some of these cells in so many columns are toggled.
fn are_toggled(contents: &[CellContent], columns: usize, selecting: Selecting) -> bool
    requires { 0 < columns }
    ensures { AreToggled result columns selecting contents.now }
{
    for place in 0..contents.len() {
        let was = contents[place].is_selected();
        if selecting.selects(columns, place, was) != was {
            return true;
        }
    }
    false
}
