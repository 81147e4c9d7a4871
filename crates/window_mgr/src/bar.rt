//! The titles in the menu bar.
ghost use Rattle.std.specs.Prelude.{◌≡◌};
ghost use Rattle.window_mgr.specs.BarShown.{IsBarShown};

use crate::{DeskWindows, WindowManager};
use desk_ground::{Titles, draw_bar};

impl WindowManager {
    /// Shows other titles in the menu bar. It takes no memory.
    pub fn set_titles(&mut self, titles: Titles)
        requires { ⟦<Self as DeskWindows>⟧.IsKept self.old }
        ensures { ⟦<Self as DeskWindows>⟧.LeavesState (IsBarShown titles) self.old self.new }
    {
        self.bar.titles = titles;
        draw_bar(
            &mut self.screen,
            self.bar.rows,
            &self.font,
            &self.bar.titles,
        );
    }
}
