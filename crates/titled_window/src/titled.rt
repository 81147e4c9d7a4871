//! The titled kind of window: a black frame around the content, of four pixels on top and of one elsewhere.
ghost use Rattle.std.specs.Prelude.{◌≡◌, true};
ghost use Rattle.def_iface.specs.Sizes.{is_size};
ghost use Rattle.titled_window.specs.TitledWindows.{titled_box, titled_window};

use bit_map::{Mode, Pattern};
use def_iface::{Hit, Size, Stage, WindowChange, WindowDef, WindowRegions, frame_lines};
use draw_port::Canvas;
use scan_region::Region;
use std::alloc::{AllocError, Global};
use tb_geom::{Point, Rect};

/// The definition of a titled window. It is dragged by its frame.
#[derive(Drop)]
pub struct Titled {
    stage: Stage,
    size: Size,
}

impl Titled {
    /// A Fresh definition, with no size yet.
    pub fn new() -> Titled
        ensures { (⟦<Titled as WindowDef>⟧.meaning result).stage ≡ Stage.Fresh }
    {
        Titled {
            stage: Stage::Fresh,
            size: Size {
                width: 0,
                height: 0,
            },
        }
    }
}

/// The box of the structure that a titled window of this size has.
fn titled_box(size: Size) -> Rect
    requires { is_size size ≡ true }
    ensures { result ≡ titled_box size }
{
    Rect {
        left: -1,
        top: -4,
        right: size.width + 1,
        bottom: size.height + 1,
    }
}

impl WindowDef for Titled {
    ghost meaning = { λ w. titled_window w.stage w.size };

    fn stage(&self) -> Stage {
        self.stage
    }

    fn begin(&mut self) {
        self.stage = Stage::Live;
    }

    fn told(&mut self, change: WindowChange<'_>) -> Rect {
        let size = match change {
            WindowChange::Resized(size) => size,
            _ => self.size,
        };
        let damage = self.size.rect().union(size.rect());
        self.size = size;
        damage
    }

    fn regions_for(&self, alloc: Global, size: Size) -> Result<WindowRegions, AllocError> {
        let structure = Region::from_rect_in_range(alloc, titled_box(size))?;
        let content = Region::from_rect_in_range(alloc, size.rect())?;
        Ok(WindowRegions { structure, content })
    }

    fn bounds(&self, size: Size) -> Rect {
        titled_box(size)
    }

    fn grow_lines(&self, size: Size) -> [Rect; 8] {
        frame_lines(titled_box(size))
    }

    fn hit(&self, point: Point) -> Hit {
        if self.size.rect().contains(point) {
            Hit::InContent
        } else {
            Hit::InDrag
        }
    }

    fn draw(&self, canvas: &mut Canvas<'_>) {
        canvas.fill_all(Pattern::BLACK, Mode::Copy);
        canvas.fill(self.size.rect(), Pattern::WHITE, Mode::Copy);
    }

    fn dispose(&mut self) {
        self.stage = Stage::Closed;
    }
}
