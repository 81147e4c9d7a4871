//! The calls that change which picture a window shows, and where.
ghost use Rattle.std.specs.Prelude.{◌≡◌, true, false, IfNone, IfSome, OnErr};
ghost use Rattle.tb_geom.specs.Points.{plus};
ghost use Rattle.tb_geom.specs.Rects.{in_plane};
ghost use Rattle.desk_call.specs.declared.window.WindowCall.TheVariants as asks;
ghost use Rattle.window_mgr.specs.Step.{IsWindowStep};

use crate::{DeskWindows, NewPicture, ScrollPicture, WindowManager, WindowReply};
use tb_geom::{Point, Refusal};

impl WindowManager {
    /// Gives a window another picture, all of which is to be redrawn where it shows.
    #[tactic(auto, using(crate::proofs::SameDeskLemmas::on_refusal))]
    pub(crate) fn set_picture(&mut self, new: &NewPicture<'_>) -> Result<WindowReply, Refusal>
        requires { ⟦<Self as DeskWindows>⟧.IsKept self.old }
        ensures step { ⟦<Self as DeskWindows>⟧.LeavesState (IsWindowStep (asks.SetPicture new.now) result) self.old
            self.new }
        ensures quiet { OnErr result (self.new.screen ≡ self.old.screen) }
    {
        let Some(at) = self.find(new.window) else {
            return Err(Refusal::NoSuchWindow);
        };
        if !new.origin.is_in_range() {
            return Err(Refusal::OutOfRange);
        }
        let picture = new.picture.copy(self.alloc)?;
        let area = &self.areas[at];
        let shown = area
            .visible
            .diff(self.alloc, self.windows.at(at).layers.covered())?;
        let update = area.update.union(self.alloc, &shown)?;
        self.windows.set_picture(at, picture, new.origin);
        self.put_update(at, update);
        Ok(WindowReply::Done)
    }

    /// Moves a window's picture in its content. What comes into sight of it is to be redrawn.
    pub(crate) fn scroll(&mut self, scroll: ScrollPicture) -> Result<WindowReply, Refusal>
        requires { ⟦<Self as DeskWindows>⟧.IsKept self.old }
        ensures step { ⟦<Self as DeskWindows>⟧.LeavesState (IsWindowStep (asks.Scroll scroll) result) self.old self.new }
        ensures quiet { OnErr result (self.new.screen ≡ self.old.screen) }
    {
        let Some(at) = self.find(scroll.window) else {
            return Err(Refusal::NoSuchWindow);
        };
        let found = self.windows.at(at);
        let Some(origin) = moved_origin(found.origin, scroll.by) else {
            return Err(Refusal::OutOfRange);
        };
        let Ok(scrolled) = self.plan_scroll(at, scroll.by) else {
            return Err(Refusal::NoMemory);
        };
        self.commit_scroll(at, scrolled, scroll.by);
        self.windows.set_origin(at, origin);
        Ok(WindowReply::Done)
    }
}

/// The origin of a picture, moved; None where that is no point.
fn moved_origin(origin: Point, by: Point) -> Option<Point>
    ensures none { IfNone result (in_plane (plus origin by) ≡ false) }
    ensures some { IfSome result (λ p. (p ≡ plus origin by) × (in_plane p ≡ true)) }
{
    let moved = Point {
        h: origin.h.checked_add(by.h)?,
        v: origin.v.checked_add(by.v)?,
    };
    if moved.is_in_range() {
        Some(moved)
    } else {
        None
    }
}
