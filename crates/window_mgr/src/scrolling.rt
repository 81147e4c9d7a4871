//! A scroll of a window's picture, planned and drawn. It moves no window, so it asks and changes nothing of the others.
ghost use Rattle.std.specs.Prelude.{◌<◌, IfOk, length};
ghost use Rattle.window_mgr.specs.Scrolls.{IsPlanOfScroll, IsScrollDrawn};

use crate::{DeskWindows, WindowManager};
use def_iface::{Defined, TakenWindow};
use std::alloc::AllocError;
use tb_geom::Point;
use vis_update::{Scrolled, scroll_of};
use window_paint::scroll_content;

impl WindowManager {
    /// All that changes on the screen where the picture of the window at this index moves by so much in its content, and
    /// all growth.
    pub(crate) fn plan_scroll(&self, at: usize, by: Point) -> Result<Scrolled, AllocError>
        requires kept { ⟦<Self as DeskWindows>⟧.IsKept self.now }
        requires at { at < length self.now.windows.records.items }
        ensures { IfOk result (IsPlanOfScroll ⟦<TakenWindow as Defined>⟧.loan at by self.now) }
    {
        let covered = self.windows.at(at).layers.covered();
        scroll_of(self.alloc, self.area(at), covered, by)
    }

    /// Draws what the plan of a scroll says, and keeps the update region of the window at this index.
    pub(crate) fn commit_scroll(&mut self, at: usize, scrolled: Scrolled, by: Point)
        requires { at < length self.old.areas.items }
        ensures { IsScrollDrawn at by scrolled self.old self.new }
    {
        scroll_content(&mut self.screen, &scrolled.copied, &scrolled.erase, by);
        self.put_update(at, scrolled.update);
    }
}
