//! The interface of a list's definition.
ghost use Rattle.std.specs.Prelude.{◌≡◌, ◌≤◌, true, not, if◌then◌else◌, length};
ghost use Rattle.bit_blit.specs.Draws.{Draws};
ghost use Rattle.draw_port.specs.Canvases.{canvas_holds, canvas_point, SameFrame};
ghost use Rattle.def_iface.specs.ControlMeaning.{is_control_size};
ghost use Rattle.def_iface.specs.ListMeaning.{ListDefinition, ListHears, IsListDamage, SameListLook};
ghost use Rattle.def_iface.specs.ListMeaning.{no_list_news, told_list, cell_size_after, cell_bit};

use crate::{Size, Stage};
use draw_port::Canvas;
use tb_geom::Rect;

/// What a definition is told of its list.
#[derive(Clone, Copy, Debug, PartialEq, Eq)]
pub enum ListChange {
    /// The size of each of its cells.
    Resized(Size),
    /// Whether a cell that holds no byte is highlighted where it is selected (it is not with the flag lNoNilHilite).
    NilHilited(bool),
}

/// A list's definition (an LDEF: *Inside Macintosh* IV, "The List Manager Package", "Defining Your Own Lists"): what a cell
/// of the list looks like, and which of its pixels are inverted where it is selected. It is asked with the bytes of the cell,
/// of which there are at most 32000. All points are local to the cell, whose rectangle begins at 0 0.
pub trait ListDef: Drop {
    ghost list_meaning: { Self → ListDefinition };

    /// Where the definition stands in its life.
    fn stage(&self) -> Stage
        ensures { result ≡ (list_meaning self.now).stage };

    /// Makes a Fresh definition Live.
    fn begin(&mut self)
        requires { (list_meaning self.old).stage ≡ Stage.Fresh }
        ensures live { (list_meaning self.new).stage ≡ Stage.Live }
        ensures look { ListHears (λ n. n) (list_meaning self.old) (list_meaning self.new) };

    /// Tells a Live definition of a change. The answer is the damage: in every font and whatever a cell holds, its picture and
    /// its highlight are the same before and after outside it, within the range of coordinates.
    fn told(&mut self, change: ListChange) -> Rect
        requires live { (list_meaning self.old).stage ≡ Stage.Live }
        requires fits { is_control_size (cell_size_after change (list_meaning self.old).size) ≡ true }
        ensures stays { (list_meaning self.new).stage ≡ Stage.Live }
        ensures size { (list_meaning self.new).size ≡ cell_size_after change (list_meaning self.old).size }
        ensures heard { ListHears (told_list change) (list_meaning self.old) (list_meaning self.new) }
        ensures damage { IsListDamage result (list_meaning self.old) (list_meaning self.new) };

    /// Gives each pixel of the canvas the value that a cell of these bytes shows there in the canvas's font: its picture, and
    /// where the cell is selected the pixels of its highlight inverted.
    fn draw_cell(&self, bytes: &[u8], selected: bool, canvas: &mut Canvas<'_>)
        requires live { (list_meaning self.now).stage ≡ Stage.Live }
        requires told { is_control_size (list_meaning self.now).size ≡ true }
        requires short { length bytes.now ≤ 32000 }
        ensures same_map { canvas.new.map.ghost_name ≡ canvas.old.map.ghost_name }
        ensures same_frame { SameFrame canvas.old canvas.new }
        ensures drawn { Draws (canvas_holds canvas.old)
            (λ p _. cell_bit (list_meaning self.now) selected canvas.old.font.now bytes.now (canvas_point canvas.old p))
            canvas.old.map.now canvas.new.map.now };

    /// Inverts each pixel of the canvas that the highlight of a cell of these bytes has in the canvas's font.
    fn hilite_cell(&self, bytes: &[u8], canvas: &mut Canvas<'_>)
        requires live { (list_meaning self.now).stage ≡ Stage.Live }
        requires told { is_control_size (list_meaning self.now).size ≡ true }
        requires short { length bytes.now ≤ 32000 }
        ensures same_map { canvas.new.map.ghost_name ≡ canvas.old.map.ghost_name }
        ensures same_frame { SameFrame canvas.old canvas.new }
        ensures drawn { Draws (canvas_holds canvas.old)
            (λ p d. if (list_meaning self.now).highlight no_list_news canvas.old.font.now bytes.now
            (canvas_point canvas.old p)
            then not d else d)
            canvas.old.map.now canvas.new.map.now };

    /// Ends a Live definition's use. It answers as it did: the definition that goes back into its slot is told by that.
    fn dispose(&mut self)
        requires { (list_meaning self.old).stage ≡ Stage.Live }
        ensures closed { (list_meaning self.new).stage ≡ Stage.Closed }
        ensures same { SameListLook (list_meaning self.old) (list_meaning self.new) };
}
