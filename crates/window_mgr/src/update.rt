//! What the calls of updates read and change of a window: its area on the screen.
ghost use Rattle.std.specs.Prelude.{◌≡◌, ◌<◌, ◌&&◌, not, length, true, slice_index_or};
ghost use Rattle.tb_geom.specs.declared.point.Point.{Point};
ghost use Rattle.tb_geom.specs.Pixels.{holds};
ghost use Rattle.vis_update.specs.Areas.{is_content_of, stale_in};
ghost use Rattle.vis_update.specs.declared.area.Area.{Area};
ghost use Rattle.window_mgr.specs.Edits.{IsWindowAt};
ghost use Rattle.window_paint.specs.Kinds.{is_kind_there};
ghost use Rattle.window_mgr.specs.Updating.{IsRemarked, IsRefreshed, IsUpdatePut, is_of_kind};

use crate::{DeskWindows, WindowManager};
use desk_call::LayerKind;
use scan_region::Region;
use tb_geom::Point;
use vis_update::Area;
use window_paint::{Showing, paint_content, paint_kind};

impl WindowManager {
    /// What the window at this index owns of the screen.
    pub fn area(&self, at: usize) -> &Area
        requires { at < length self.now.areas.items }
        ensures { result.now ≡ slice_index_or self.now.areas.items at result.now }
    {
        &self.areas[at]
    }

    /// Whether the pixel is in the update region of a window.
    pub fn is_stale(&self, point: Point) -> bool
        ensures { result ≡ stale_in self.now.areas.items point }
    {
        for area in &self.areas {
            if area.update.contains(point) {
                return true;
            }
        }
        false
    }

    /// Makes these pixels of a window's visible content its update region, and draws nothing: no pixel is written.
    pub fn set_update(&mut self, at: usize, update: Region)
        requires kept { ⟦<Self as DeskWindows>⟧.IsKept self.old }
        requires at { at < length self.old.windows.records.items }
        requires within { (a : Area) → a ≡ slice_index_or self.old.areas.items at a
            → (p : Point) → holds update p ≡ true → holds a.visible p ≡ true }
        ensures remarked { (w : _) → IsWindowAt self.old.windows.records.items at w
            → ⟦<Self as DeskWindows>⟧.LeavesState (IsRemarked w.serial update) self.old self.new }
        ensures quiet { self.new.screen ≡ self.old.screen }
    {
        self.put_update(at, update);
    }

    /// Makes this region the update region of the window at this index. Beside the sweep, which makes the areas of all
    /// windows, nothing else sets one.
    pub(crate) fn put_update(&mut self, at: usize, update: Region)
        requires { at < length self.old.areas.items }
        ensures { IsUpdatePut at update self.old self.new }
    {
        self.areas[at].update = update;
    }

    /// Draws what is to be redrawn of a window's layers of one kind, which is then no longer to be; what is left of the
    /// update region is given: what of it other layers have.
    pub fn serve_kind<S: Showing>(&mut self, at: usize, kind: LayerKind, rest: Region, layers: &S)
        requires kept { ⟦<Self as DeskWindows>⟧.IsKept self.old }
        requires at { at < length self.old.windows.records.items }
        requires whole { S.is_whole layers.now }
        requires rest { (a : Area) → a ≡ slice_index_or self.old.areas.items at a
            → (w : _) → IsWindowAt self.old.windows.records.items at w
            → (p : Point) → holds rest p ≡ (holds a.update p && not (is_kind_there kind w p)) }
        ensures { (w : _) → IsWindowAt self.old.windows.records.items at w
            → ⟦<Self as DeskWindows>⟧.LeavesShowing (S.shows layers.now)
            (IsRefreshed (is_of_kind kind w.serial)) self.old self.new }
    {
        paint_kind(
            &mut self.screen,
            &self.areas[at].update,
            self.windows.at(at),
            kind,
            layers,
            &self.font,
        );
        self.put_update(at, rest);
    }

    /// Draws all that is to be redrawn of a window's content, of which nothing is then to be.
    pub fn serve_all<S: Showing>(&mut self, at: usize, layers: &S)
        requires kept { ⟦<Self as DeskWindows>⟧.IsKept self.old }
        requires at { at < length self.old.windows.records.items }
        requires whole { S.is_whole layers.now }
        ensures { (w : _) → IsWindowAt self.old.windows.records.items at w
            → ⟦<Self as DeskWindows>⟧.LeavesShowing (S.shows layers.now) (IsRefreshed (is_content_of w.serial))
            self.old self.new }
    {
        let stale = &self.areas[at].update;
        paint_content(
            &mut self.screen,
            stale,
            self.windows.at(at),
            layers,
            &self.font,
        );
        let nothing = Region::empty(self.alloc);
        self.put_update(at, nothing);
    }
}
