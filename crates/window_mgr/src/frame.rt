//! What a window's definition is told of its window, and the window's frame, drawn anew where it shows.
ghost use Rattle.std.specs.Prelude.{◌≡◌, ◌<◌, ◌==◌, length, true};
ghost use Rattle.def_iface.specs.WindowNews.{no_news, told_change};
ghost use Rattle.window_list.specs.Changes.{keeps_size, has_short_title};
ghost use Rattle.window_mgr.specs.DrawnWithin.{WritesFrame};
ghost use Rattle.window_mgr.specs.Edits.{IsWindowAt};
ghost use Rattle.window_mgr.specs.FrameNotices.{IsFrameNotified, notified_record};
ghost use Rattle.window_mgr.specs.Sparing.{Repaints};

use crate::{DeskWindows, WindowManager};
use def_iface::{Defined, TakenWindow, WindowChange};
use window_paint::paint_frame;

impl WindowManager {
    /// Notifies the definition of the window at this index of a change, and draws the window's frame anew where it shows,
    /// within the damage that the definition answers: no other pixel is written. The record keeps what it is told. A change
    /// of the size is told by `WindowCall::Size`, and a title has at most 255 bytes. It takes no memory.
    pub fn notify(&mut self, at: usize, change: WindowChange<'_>)
        requires kept { ⟦<Self as DeskWindows>⟧.IsKept self.old }
        requires at { at < length self.old.windows.records.items }
        requires size { keeps_size change ≡ true }
        requires title { has_short_title change ≡ true }
        ensures told { (w : _) → IsWindowAt self.old.windows.records.items at w
            → ⟦<Self as DeskWindows>⟧.LeavesState
            (IsFrameNotified w.serial (λ _. told_change change.entry) (notified_record change.entry)) self.old
            self.new }
        ensures repainted { (w : _) → IsWindowAt self.old.windows.records.items at w
            → Repaints ⟦<TakenWindow as Defined>⟧.loan (λ n. n == w.serial) self.old self.new }
        ensures within { (w : _) → IsWindowAt self.old.windows.records.items at w
            → WritesFrame ⟦<TakenWindow as Defined>⟧.loan w.serial w.place
            ((⟦<TakenWindow as Defined>⟧.loan w.taken).definition.damage (told_change change.entry no_news))
            self.old self.new }
    {
        let damage = self.windows.notify(at, change);
        paint_frame(
            &mut self.screen,
            &self.areas[at].frame,
            self.windows.at(at),
            damage,
            &self.font,
        );
    }
}
