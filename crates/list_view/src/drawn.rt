//! What the cells of a list are drawn by.
ghost use Rattle.std.specs.Prelude.{◌≡◌, ◌≤◌, true, not, if◌then◌else◌, length};
ghost use Rattle.bit_blit.specs.Draws.{Draws};
ghost use Rattle.draw_port.specs.Canvases.{canvas_holds, canvas_point, SameFrame};
ghost use Rattle.def_iface.specs.ControlMeaning.{is_control_size};
ghost use Rattle.def_iface.specs.ListMeaning.{ListLoan, no_list_news, cell_bit};
ghost use Rattle.def_iface.specs.Slots.{loan_by};

use def_iface::{Stage, TakenList};
use draw_port::Canvas;

/// What the cells of a list are drawn by.
pub trait DrawnList {
    ghost list_loan: { Self → ListLoan };

    /// Gives each pixel of the canvas, whose origin is the cell's 0 0, the value that a cell of these bytes shows there in the
    /// canvas's font: its picture, and where the cell is selected the pixels of its highlight inverted.
    fn draw_cell(&self, bytes: &[u8], selected: bool, canvas: &mut Canvas<'_>)
        requires live { (Self.list_loan self.now).definition.stage ≡ Stage.Live }
        requires told { is_control_size (Self.list_loan self.now).definition.size ≡ true }
        requires short { length bytes.now ≤ 32000 }
        ensures same_map { canvas.new.map.ghost_name ≡ canvas.old.map.ghost_name }
        ensures same_frame { SameFrame canvas.old canvas.new }
        ensures drawn { Draws (canvas_holds canvas.old)
            (λ p _. cell_bit (Self.list_loan self.now).definition selected canvas.old.font.now bytes.now
            (canvas_point canvas.old p))
            canvas.old.map.now canvas.new.map.now };

    /// Inverts each pixel of the canvas, whose origin is the cell's 0 0, that the highlight of a cell of these bytes has in the
    /// canvas's font.
    fn hilite_cell(&self, bytes: &[u8], canvas: &mut Canvas<'_>)
        requires live { (Self.list_loan self.now).definition.stage ≡ Stage.Live }
        requires told { is_control_size (Self.list_loan self.now).definition.size ≡ true }
        requires short { length bytes.now ≤ 32000 }
        ensures same_map { canvas.new.map.ghost_name ≡ canvas.old.map.ghost_name }
        ensures same_frame { SameFrame canvas.old canvas.new }
        ensures drawn { Draws (canvas_holds canvas.old)
            (λ p d. if (Self.list_loan self.now).definition.highlight no_list_news canvas.old.font.now bytes.now
            (canvas_point canvas.old p)
            then not d else d)
            canvas.old.map.now canvas.new.map.now };
}

impl DrawnList for TakenList {
    ghost list_loan = { loan_by (λ b. (ListDef-box b).list_meaning b.value) };

    fn draw_cell(&self, bytes: &[u8], selected: bool, canvas: &mut Canvas<'_>) {
        TakenList::draw_cell(self, bytes, selected, canvas);
    }

    fn hilite_cell(&self, bytes: &[u8], canvas: &mut Canvas<'_>) {
        TakenList::hilite_cell(self, bytes, canvas);
    }
}
