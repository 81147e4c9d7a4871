//! What is drawn of a cell.
ghost use Rattle.std.specs.Prelude.{◌≡◌, ℕ, true, not, ◌&&◌, if◌then◌else◌, List};
ghost use Rattle.bit_blit.specs.Draws.{Draws};
ghost use Rattle.draw_port.specs.Canvases.{canvas_holds, canvas_point, SameFrame};
ghost use Rattle.def_iface.specs.ListMeaning.{no_list_news, cell_bit};
ghost use Rattle.list_cells.specs.Grids.{Grid, is_cell, content_of};
ghost use Rattle.list_cells.specs.Selections.{is_toggled};
ghost use Rattle.list_view.specs.Walks.{CellValue, IsReady, selected_as};

use crate::drawn::DrawnList;
use draw_port::Canvas;
use list_cells::{Cell, ListCells, Selecting};

/// What is drawn of a cell of a list.
pub(crate) trait CellPen {
    /// It can draw.
    ghost is_ready: { Self → Type 0 };

    /// What it makes of the bit at a point of a cell of these cells, in a font.
    ghost value: { Self → Grid → List ℕ → CellValue };

    /// Draws a cell on a canvas whose origin is the cell's 0 0.
    fn draw(&self, cells: &ListCells, cell: Cell, canvas: &mut Canvas<'_>)
        requires ready { is_ready self.now }
        requires cell { is_cell cells.now cell ≡ true }
        ensures same_map { canvas.new.map.ghost_name ≡ canvas.old.map.ghost_name }
        ensures same_frame { SameFrame canvas.old canvas.new }
        ensures drawn { Draws (canvas_holds canvas.old)
            (λ p d. value self.now cells.now canvas.old.font.now cell (canvas_point canvas.old p) d)
            canvas.old.map.now canvas.new.map.now };
}

/// All that a cell shows.
#[derive(Drop)]
pub(crate) struct CellPicture<'a, D> {
    pub definition: &'a D,
}

impl<D: DrawnList> CellPen for CellPicture<'_, D> {
    ghost is_ready = { λ s. IsReady (D.list_loan s.definition.now).definition };

    ghost value = { λ s g font c p _. cell_bit (D.list_loan s.definition.now).definition (content_of g c).selected font
        (content_of g c).bytes p };

    fn draw(&self, cells: &ListCells, cell: Cell, canvas: &mut Canvas<'_>) {
        let bytes = cells.cell(cell).unwrap();
        let selected = cells.is_selected(cell).unwrap();
        self.definition.draw_cell(bytes, selected, canvas);
    }
}

/// What a call highlights otherwise of a cell that is about to make this of the selection, inverted where it stands.
#[derive(Drop)]
pub(crate) struct CellToggle<'a, D> {
    pub definition: &'a D,
    pub selecting: Selecting,
}

impl<D: DrawnList> CellPen for CellToggle<'_, D> {
    ghost is_ready = { λ s. IsReady (D.list_loan s.definition.now).definition };

    ghost value = { λ s g font c p d. if is_toggled g (selected_as s.selecting g) c
        && (D.list_loan s.definition.now).definition.highlight no_list_news font (content_of g c).bytes p then not d
        else d };

    fn draw(&self, cells: &ListCells, cell: Cell, canvas: &mut Canvas<'_>) {
        if cells.is_toggled(cell, self.selecting) {
            let bytes = cells.cell(cell).unwrap();
            self.definition.hilite_cell(bytes, canvas);
        }
    }
}
