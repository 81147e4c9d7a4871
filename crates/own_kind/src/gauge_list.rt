//! The gauge: a kind of list each of whose cells shows a bar. How wide it is, the first byte of the cell says. Where the cell is
//! selected, a frame stands around the bar.
ghost use Rattle.std.specs.Prelude.{◌≡◌, ◌≤ℤ◌, true, pos};
ghost use Rattle.def_iface.specs.ControlMeaning.{is_control_size};
ghost use Rattle.own_kind.specs.Gauges.{around, bar, bar_columns, bar_step, frame_step, gauge_look, gauge_meaning};

use bit_map::{Mode, Pattern};
use def_iface::{ListChange, ListDef, Size, Stage};
use draw_port::{Canvas, Shade};
use looks::{Mark, Step, draw_look, draw_step, sides};
use tb_geom::Rect;

/// Each pixel in its other color.
const TURNED: Shade = Shade {
    pattern: Pattern::BLACK,
    mode: Mode::Xor,
};

/// The definition of a gauge: where it stands in its life, and the size of its cells.
#[derive(Drop)]
pub struct GaugeList {
    stage: Stage,
    /// No pixel before it is told the first one.
    size: Size,
}

impl GaugeList {
    /// A Fresh definition.
    pub fn new() -> GaugeList
        ensures { (⟦<GaugeList as ListDef>⟧.list_meaning result).stage ≡ Stage.Fresh }
    {
        let size = Size {
            width: 0,
            height: 0,
        };
        GaugeList {
            stage: Stage::Fresh,
            size,
        }
    }
}

/// How many columns a bar has.
fn bar_columns(bytes: &[u8]) -> i32
    ensures value { result ≡ pos (bar_columns bytes.now) }
    ensures few { result ≤ℤ pos 15 }
{
    match bytes.first() {
        Some(byte) => i32::from(*byte % 16),
        None => 0,
    }
}

/// The bar of a cell.
fn bar(size: Size, bytes: &[u8]) -> Rect
    requires { is_control_size size ≡ true }
    ensures { result ≡ bar size bytes.now }
{
    sides(3, 3, 3 + bar_columns(bytes), size.height - 3)
}

/// The rectangle around the bar.
fn around(size: Size, bytes: &[u8]) -> Rect
    requires { is_control_size size ≡ true }
    ensures { result ≡ around size bytes.now }
{
    sides(1, 1, 5 + bar_columns(bytes), size.height - 1)
}

/// The bar in black.
fn bar_step(size: Size, bytes: &[u8]) -> Step
    requires { is_control_size size ≡ true }
    ensures { result ≡ bar_step size bytes.now }
{
    Step::black_fill(bar(size, bytes)).cut_to(size.rect())
}

/// The frame around the bar, turned.
fn frame_step(size: Size, bytes: &[u8]) -> Step
    requires { is_control_size size ≡ true }
    ensures { result ≡ frame_step size bytes.now }
{
    Step {
        on: true,
        cut: size.rect(),
        mark: Mark::Frame(around(size, bytes), TURNED),
    }
}

/// What a cell looks like, selected or not.
fn gauge_look(size: Size, bytes: &[u8], selected: bool) -> [Step; 2]
    requires { is_control_size size ≡ true }
    ensures { result ≡ gauge_look size bytes.now selected }
{
    [
        bar_step(size, bytes),
        frame_step(size, bytes).when(selected),
    ]
}

impl ListDef for GaugeList {
    ghost list_meaning = { gauge_meaning };

    fn stage(&self) -> Stage {
        self.stage
    }

    fn begin(&mut self) {
        self.stage = Stage::Live;
    }

    /// Whether empty cells are highlighted is nothing to it.
    fn told(&mut self, change: ListChange) -> Rect {
        match change {
            ListChange::Resized(size) => {
                let damage = self.size.rect().union(size.rect());
                self.size = size;
                damage
            }
            ListChange::NilHilited(_) => sides(0, 0, 0, 0),
        }
    }

    fn draw_cell(&self, bytes: &[u8], selected: bool, canvas: &mut Canvas<'_>) {
        draw_look(canvas, &gauge_look(self.size, bytes, selected), b"");
    }

    fn hilite_cell(&self, bytes: &[u8], canvas: &mut Canvas<'_>) {
        draw_step(canvas, frame_step(self.size, bytes), b"");
    }

    fn dispose(&mut self) {
        self.stage = Stage::Closed;
    }
}
