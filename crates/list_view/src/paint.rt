//! What a list shows, and what a call highlights otherwise.
ghost use Rattle.std.specs.Prelude.{◌≡◌, true, not, if◌then◌else◌};
ghost use Rattle.tb_geom.specs.Rects.{in_plane};
ghost use Rattle.bit_blit.specs.Draws.{Draws};
ghost use Rattle.draw_port.specs.Canvases.{canvas_holds, canvas_point, SameFrame};
ghost use Rattle.def_iface.specs.ControlMeaning.{is_control_size};
ghost use Rattle.list_cells.specs.Grids.{Grid};
ghost use Rattle.list_cells.specs.Selections.{IsSelecting};
ghost use Rattle.list_view.specs.Shown.{list_shown, is_turned};

use crate::ListView;
use crate::drawn::DrawnList;
use crate::pens::{CellPicture, CellToggle};
use crate::walk::draw_rows;
use bit_map::{Mode, Pattern};
use def_iface::Stage;
use draw_port::Canvas;
use list_cells::{ListCells, Selecting};

/// Gives each pixel of the canvas, whose origin is the 0 0 of the list's window, the value that the list shows there in the
/// canvas's font: what the cell shows that lies there, and white where none does.
pub fn paint_list<D: DrawnList>(
    definition: &D,
    view: ListView,
    cells: &ListCells,
    canvas: &mut Canvas<'_>,
)
    requires live { (D.list_loan definition.now).definition.stage ≡ Stage.Live }
    requires told { is_control_size (D.list_loan definition.now).definition.size ≡ true }
    requires origin { in_plane canvas.old.origin ≡ true }
    ensures same_map { canvas.new.map.ghost_name ≡ canvas.old.map.ghost_name }
    ensures same_frame { SameFrame canvas.old canvas.new }
    ensures drawn { Draws (canvas_holds canvas.old)
        (λ p _. list_shown canvas.old.font.now (D.list_loan definition.now).definition view cells.now
        (canvas_point canvas.old p))
        canvas.old.map.now canvas.new.map.now }
{
    canvas.fill_all(Pattern::WHITE, Mode::Copy);
    draw_rows(&CellPicture { definition }, view, cells, canvas);
}

/// Inverts what a call highlights otherwise that is about to make this of the selection, on a canvas whose origin is the 0 0
/// of the list's window: of each cell that the call selects or deselects, the pixels of its highlight where it shows. The
/// cells have to be those before that call.
pub fn toggle_cells<D: DrawnList>(
    definition: &D,
    view: ListView,
    cells: &ListCells,
    selecting: Selecting,
    canvas: &mut Canvas<'_>,
)
    requires live { (D.list_loan definition.now).definition.stage ≡ Stage.Live }
    requires told { is_control_size (D.list_loan definition.now).definition.size ≡ true }
    requires origin { in_plane canvas.old.origin ≡ true }
    ensures same_map { canvas.new.map.ghost_name ≡ canvas.old.map.ghost_name }
    ensures same_frame { SameFrame canvas.old canvas.new }
    ensures drawn { (after : Grid) → IsSelecting cells.now after selecting → Draws (canvas_holds canvas.old)
        (λ p d. if is_turned canvas.old.font.now (D.list_loan definition.now).definition view cells.now after
        (canvas_point canvas.old p) then not d else d)
        canvas.old.map.now canvas.new.map.now }
{
    let pen = CellToggle {
        definition,
        selecting,
    };
    draw_rows(&pen, view, cells, canvas);
}
