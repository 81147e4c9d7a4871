//! A list's definition in its box: what it means, and its way out of its slot, in a list's record, and back.
ghost use Rattle.std.specs.Prelude.{◌≡◌, ◌≤◌, true, not, if◌then◌else◌, length};
ghost use Rattle.bit_blit.specs.Draws.{Draws};
ghost use Rattle.draw_port.specs.Canvases.{canvas_holds, canvas_point, SameFrame};
ghost use Rattle.def_iface.specs.ControlMeaning.{is_control_size};
ghost use Rattle.def_iface.specs.ListMeaning.{ListDefinition, ListHears, IsListBegun, IsListDamage, SameListLook};
ghost use Rattle.def_iface.specs.ListMeaning.{no_list_news, told_list, cell_size_after, cell_bit};
ghost use Rattle.def_iface.specs.Slots.{loan_by, slots_by};

use crate::{Defined, Held, ListChange, ListDef, Size, Slots, Stage, Stocked, Taken};
use draw_port::Canvas;
use tb_geom::Rect;

/// A list's definition that was taken out of a stock, with its slot there.
pub type TakenList = Taken<Box<dyn ListDef>>;

/// Slots of list definitions.
pub type ListStock = Slots<Box<dyn ListDef>>;

impl Held for Box<dyn ListDef> {
    ghost Meaning = { ListDefinition };

    ghost meaning = { λ b. (ListDef-box b).list_meaning b.value };

    ghost stage_of = { λ d. d.stage };

    ghost IsAlike = { SameListLook };

    fn stage(&self) -> Stage {
        (**self).stage()
    }

    fn dispose(&mut self) {
        (**self).dispose();
    }
}

impl Defined for TakenList {
    ghost Meaning = { ListDefinition };

    ghost loan = { loan_by (λ b. (ListDef-box b).list_meaning b.value) };
}

impl Stocked for ListStock {
    ghost Meaning = { ListDefinition };

    ghost slots = { slots_by (λ b. (ListDef-box b).list_meaning b.value) };
}

impl TakenList {
    /// Makes a Fresh definition Live, and tells it all there is to tell of a new list: the size of its cells, and whether an
    /// empty one that is selected is highlighted.
    pub fn begin(&mut self, size: Size, nil_hilited: bool)
        requires fresh { (⟦<TakenList as Defined>⟧.loan self.old).definition.stage ≡ Stage.Fresh }
        requires fits { is_control_size size ≡ true }
        ensures begun { IsListBegun size nil_hilited (⟦<TakenList as Defined>⟧.loan self.old).definition
            (⟦<TakenList as Defined>⟧.loan self.new).definition }
        ensures slot { (⟦<TakenList as Defined>⟧.loan self.new).slot ≡ (⟦<TakenList as Defined>⟧.loan self.old).slot }
    {
        self.wake();
        let _damage = self.told(ListChange::Resized(size));
        let _damage = self.told(ListChange::NilHilited(nil_hilited));
    }

    /// Makes a Fresh definition Live.
    fn wake(&mut self)
        requires { (⟦<TakenList as Defined>⟧.loan self.old).definition.stage ≡ Stage.Fresh }
        ensures live { (⟦<TakenList as Defined>⟧.loan self.new).definition.stage ≡ Stage.Live }
        ensures look { ListHears (λ n. n) (⟦<TakenList as Defined>⟧.loan self.old).definition
            (⟦<TakenList as Defined>⟧.loan self.new).definition }
        ensures slot { (⟦<TakenList as Defined>⟧.loan self.new).slot ≡ (⟦<TakenList as Defined>⟧.loan self.old).slot }
    {
        self.definition.begin();
    }

    /// Tells a Live definition of a change. The answer is the damage: in every font and whatever a cell holds, its picture and
    /// its highlight are the same before and after outside it, within the range of coordinates.
    pub fn told(&mut self, change: ListChange) -> Rect
        requires live { (⟦<TakenList as Defined>⟧.loan self.old).definition.stage ≡ Stage.Live }
        requires fits { is_control_size (cell_size_after change
            (⟦<TakenList as Defined>⟧.loan self.old).definition.size) ≡ true }
        ensures stays { (⟦<TakenList as Defined>⟧.loan self.new).definition.stage ≡ Stage.Live }
        ensures size { (⟦<TakenList as Defined>⟧.loan self.new).definition.size
            ≡ cell_size_after change (⟦<TakenList as Defined>⟧.loan self.old).definition.size }
        ensures heard { ListHears (told_list change) (⟦<TakenList as Defined>⟧.loan self.old).definition
            (⟦<TakenList as Defined>⟧.loan self.new).definition }
        ensures damage { IsListDamage result (⟦<TakenList as Defined>⟧.loan self.old).definition
            (⟦<TakenList as Defined>⟧.loan self.new).definition }
        ensures slot { (⟦<TakenList as Defined>⟧.loan self.new).slot ≡ (⟦<TakenList as Defined>⟧.loan self.old).slot }
    {
        self.definition.told(change)
    }

    /// Gives each pixel of the canvas the value that a cell of these bytes shows there in the canvas's font: its picture, and
    /// where the cell is selected the pixels of its highlight inverted.
    pub fn draw_cell(&self, bytes: &[u8], selected: bool, canvas: &mut Canvas<'_>)
        requires live { (⟦<TakenList as Defined>⟧.loan self.now).definition.stage ≡ Stage.Live }
        requires told { is_control_size (⟦<TakenList as Defined>⟧.loan self.now).definition.size ≡ true }
        requires short { length bytes.now ≤ 32000 }
        ensures same_map { canvas.new.map.ghost_name ≡ canvas.old.map.ghost_name }
        ensures same_frame { SameFrame canvas.old canvas.new }
        ensures drawn { Draws (canvas_holds canvas.old)
            (λ p _. cell_bit (⟦<TakenList as Defined>⟧.loan self.now).definition selected
            canvas.old.font.now bytes.now (canvas_point canvas.old p))
            canvas.old.map.now canvas.new.map.now }
    {
        self.definition.draw_cell(bytes, selected, canvas);
    }

    /// Inverts each pixel of the canvas that the highlight of a cell of these bytes has in the canvas's font.
    pub fn hilite_cell(&self, bytes: &[u8], canvas: &mut Canvas<'_>)
        requires live { (⟦<TakenList as Defined>⟧.loan self.now).definition.stage ≡ Stage.Live }
        requires told { is_control_size (⟦<TakenList as Defined>⟧.loan self.now).definition.size ≡ true }
        requires short { length bytes.now ≤ 32000 }
        ensures same_map { canvas.new.map.ghost_name ≡ canvas.old.map.ghost_name }
        ensures same_frame { SameFrame canvas.old canvas.new }
        ensures drawn { Draws (canvas_holds canvas.old)
            (λ p d. if (⟦<TakenList as Defined>⟧.loan self.now).definition.highlight no_list_news
            canvas.old.font.now bytes.now (canvas_point canvas.old p) then not d else d)
            canvas.old.map.now canvas.new.map.now }
    {
        self.definition.hilite_cell(bytes, canvas);
    }
}
