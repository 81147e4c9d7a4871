//! The standard definition of lists.
ghost use Rattle.std.specs.Prelude.{◌≡◌};
ghost use Rattle.std_mldef.specs.Lists.{std_list_meaning, fresh_list};

use crate::cells::{cell_box, draw_cell, invert_cell, is_hilited};
use def_iface::{ListChange, ListDef, Size, Stage};
use draw_port::Canvas;
use looks::sides;
use tb_geom::Rect;

/// The standard definition of lists (*Inside Macintosh* IV, "The List Manager Package"). A cell is white; its text begins at
/// column 2, on the baseline that puts the font's rows in the middle of the cell's, and is cut to the cell. A selected cell is
/// inverted, an empty one only where it was told so.
#[derive(Drop)]
pub struct StdList {
    stage: Stage,
    /// The size of each cell; no pixel before it is told the first one.
    size: Size,
    /// Whether an empty cell is highlighted where it is selected.
    nil_hilited: bool,
}

impl StdList {
    /// A Fresh definition.
    pub fn new() -> StdList
        ensures fresh { (⟦<StdList as ListDef>⟧.list_meaning result).stage ≡ Stage.Fresh }
        ensures value { result ≡ fresh_list }
    {
        let size = Size {
            width: 0,
            height: 0,
        };
        StdList {
            stage: Stage::Fresh,
            size,
            nil_hilited: true,
        }
    }
}

impl ListDef for StdList {
    ghost list_meaning = { std_list_meaning };

    fn stage(&self) -> Stage {
        self.stage
    }

    fn begin(&mut self) {
        self.stage = Stage::Live;
    }

    fn told(&mut self, change: ListChange) -> Rect {
        let old = cell_box(self.size);
        match change {
            ListChange::Resized(size) => {
                self.size = size;
                old.union(cell_box(size))
            }
            ListChange::NilHilited(hilited) => {
                let damage = if hilited == self.nil_hilited {
                    sides(0, 0, 0, 0)
                } else {
                    old
                };
                self.nil_hilited = hilited;
                damage
            }
        }
    }

    fn draw_cell(&self, bytes: &[u8], selected: bool, canvas: &mut Canvas<'_>) {
        let turned = selected && is_hilited(self.nil_hilited, bytes);
        draw_cell(canvas, self.size, bytes, turned);
    }

    fn hilite_cell(&self, bytes: &[u8], canvas: &mut Canvas<'_>) {
        invert_cell(canvas, self.size, is_hilited(self.nil_hilited, bytes));
    }

    fn dispose(&mut self) {
        self.stage = Stage::Closed;
    }
}
