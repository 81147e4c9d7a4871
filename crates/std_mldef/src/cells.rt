//! The cells of a list.
ghost use Rattle.std.specs.Prelude.{◌≡◌, ◌≤◌, ◌&&◌, true, false, not, length, if◌then◌else◌};
ghost use Rattle.bit_blit.specs.Draws.{Draws};
ghost use Rattle.tb_geom.specs.declared.point.Point.{Point};
ghost use Rattle.tb_geom.specs.Rects.{rect_holds};
ghost use Rattle.draw_port.specs.Canvases.{canvas_holds, canvas_point, SameFrame};
ghost use Rattle.def_iface.specs.ControlMeaning.{is_control_size};
ghost use Rattle.std_mldef.specs.Cells as cells;

use def_iface::Size;
use draw_port::Canvas;
use looks::{Baseline, Step, draw_look, draw_step, sides};
use tb_geom::Rect;

/// The rectangle of a cell.
pub(crate) fn cell_box(size: Size) -> Rect
    ensures { result ≡ cells.cell_box size }
{
    sides(0, 0, size.width, size.height)
}

/// The steps of a cell that is inverted or not.
fn cell_steps(size: Size, turned: bool) -> [Step; 2]
    requires { is_control_size size ≡ true }
    ensures { result ≡ cells.cell_steps size turned }
{
    let cell = cell_box(size);
    [
        Step::text_at(cell, 2, Baseline::Middle(size.height as u16)),
        Step::inverted(cell).when(turned),
    ]
}

/// Whether a cell of these bytes is highlighted where it is selected; one that holds none is where empty ones are.
pub(crate) fn is_hilited(empty_too: bool, bytes: &[u8]) -> bool
    ensures { result ≡ cells.is_hilited empty_too bytes.now }
{
    empty_too || !bytes.is_empty()
}

/// Draws a cell of these bytes, inverted or not.
pub(crate) fn draw_cell(canvas: &mut Canvas<'_>, size: Size, bytes: &[u8], turned: bool)
    requires size { is_control_size size ≡ true }
    requires short { length bytes.now ≤ 32000 }
    ensures same_map { canvas.new.map.ghost_name ≡ canvas.old.map.ghost_name }
    ensures same_frame { SameFrame canvas.old canvas.new }
    ensures drawn { Draws (canvas_holds canvas.old)
        (λ p _. cells.drawn_cell size turned canvas.old.font.now bytes.now (canvas_point canvas.old p))
        canvas.old.map.now canvas.new.map.now }
{
    draw_look(canvas, &cell_steps(size, turned), bytes);
}

/// Inverts all pixels of a cell, where the test holds.
pub(crate) fn invert_cell(canvas: &mut Canvas<'_>, size: Size, test: bool)
    ensures same_map { canvas.new.map.ghost_name ≡ canvas.old.map.ghost_name }
    ensures same_frame { SameFrame canvas.old canvas.new }
    ensures drawn { Draws (canvas_holds canvas.old)
        (λ p d. if test && rect_holds (cells.cell_box size) (canvas_point canvas.old p) then not d else d)
        canvas.old.map.now canvas.new.map.now }
{
    draw_step(canvas, Step::inverted(cell_box(size)).when(test), b"");
}
