//! An update: begun, drawn and ended.
ghost use Rattle.std.specs.Prelude.{◌≡◌, ℕ, List, true, IfOk, Ok};
ghost use Rattle.desk_layers.specs.declared.part.Part.{Part};
ghost use Rattle.desk_call.specs.declared.activity.Activity.TheVariants.{Idle, Updating};
ghost use Rattle.desk_call.specs.declared.window.WindowReply.TheVariants.{Done};
ghost use Rattle.tb_geom.specs.declared.point.Point.{Point};
ghost use Rattle.tb_geom.specs.Points.{PixelSet, plus};
ghost use Rattle.tb_geom.specs.Pixels.{holds};
ghost use Rattle.tb_geom.specs.Rects.{in_plane};
ghost use Rattle.scan_region.specs.Moves.{is_pixel_in_range};
ghost use Rattle.desk_call.specs.declared.update.UpdateCall.TheVariants as asks;
ghost use Rattle.window_mgr.specs.DeskStates.{Opened};
ghost use Rattle.window_update.specs.WholeUpdates.{opened};
ghost use Rattle.window_update.specs.UpdateSteps.{IsUpdateStep};

use crate::choices::Choices;
use crate::{DeskUpdates, LayerDraw, Updates};
use desk_call::{Activity, WindowReply};
use scan_region::Region;
use std::alloc::{AllocError, Global};
use tb_geom::{Point, Refusal};
use window_list::{local, move_by};
use window_mgr::{DeskWindows, WindowManager};
use window_paint::Showing;

impl Updates {
    /// Begins the update of a window, which is open then.
    pub(crate) fn begin(
        &mut self,
        windows: &WindowManager,
        activity: &mut Activity,
        window: u64,
    ) -> Result<WindowReply, Refusal>
        requires kept { ⟦<WindowManager as DeskWindows>⟧.IsKept windows.now }
        requires whole { ⟦<Self as DeskUpdates>⟧.IsWhole activity.old windows.now self.old }
        ensures step { (shows : List ℕ → Part → PixelSet)
            → ⟦<WindowManager as DeskWindows>⟧.LeavesDeskShowing shows (IsUpdateStep (asks.Begin window) result)
            windows.now (opened activity.old self.old) windows.now (opened activity.new self.new) }
        ensures whole { ⟦<Self as DeskUpdates>⟧.IsWhole activity.new windows.now self.new }
    {
        let Some(at) = windows.find(window) else {
            return Err(Refusal::NoSuchWindow);
        };
        let record = windows.list().at(at);
        let update = &windows.area(at).update;
        let Ok(begun) = seen_from(self.alloc, update, record.place) else {
            return Err(Refusal::NoMemory);
        };
        let Ok(choices) = Choices::of(self.alloc, record, update) else {
            return Err(Refusal::NoMemory);
        };
        self.begun = begun;
        self.choices = choices;
        *activity = Activity::Updating(window);
        Ok(WindowReply::Done)
    }

    /// Draws what is to be redrawn of a window's picture, of its text records, of its lists or of its controls, in its update.
    /// What was drawn in it is not drawn again.
    pub(crate) fn draw<S: Showing>(
        &mut self,
        windows: &mut WindowManager,
        draw: LayerDraw,
        layers: &S,
    ) -> Result<WindowReply, Refusal>
        requires kept { ⟦<WindowManager as DeskWindows>⟧.IsKept windows.old }
        requires whole { ⟦<Self as DeskUpdates>⟧.IsWhole (Updating draw.window) windows.old self.old }
        requires layers { S.is_whole layers.now }
        ensures step { (o : Opened) → ⟦<WindowManager as DeskWindows>⟧.LeavesDeskShowing (S.shows layers.now)
            (IsUpdateStep (asks.Draw draw) result) windows.old o windows.new o }
        ensures whole { ⟦<Self as DeskUpdates>⟧.IsWhole (Updating draw.window) windows.new self.new }
        ensures same { self.new.begun ≡ self.old.begun }
    {
        let Some(at) = windows.find(draw.window) else {
            return Err(Refusal::NoSuchWindow);
        };
        if self.choices.has_drawn(draw.layers) {
            return Ok(WindowReply::Done);
        }
        let left = self.choices.draw(draw.layers);
        windows.serve_kind(at, draw.layers, left, layers);
        Ok(WindowReply::Done)
    }

    /// Ends the update that is open.
    pub(crate) fn end(&mut self, activity: &mut Activity) -> Result<WindowReply, Refusal>
        ensures idle { activity.new ≡ Idle }
        ensures buffer { self.new.buffer ≡ self.old.buffer }
        ensures done { result ≡ Ok Done }
    {
        self.begun = Region::empty(self.alloc);
        self.choices = Choices::none(self.alloc);
        *activity = Activity::Idle;
        Ok(WindowReply::Done)
    }
}

/// Begins the update of a window, draws its layers, and ends it. Nothing comes between, so that what was to be redrawn is not
/// kept.
pub(crate) fn serve<S: Showing>(
    windows: &mut WindowManager,
    activity: &mut Activity,
    window: u64,
    layers: &S,
) -> Result<WindowReply, Refusal>
    requires kept { ⟦<WindowManager as DeskWindows>⟧.IsKept windows.old }
    requires idle { activity.old ≡ Idle }
    requires layers { S.is_whole layers.now }
    ensures step { (begun : PixelSet)
        → ⟦<WindowManager as DeskWindows>⟧.LeavesDeskShowing (S.shows layers.now)
        (IsUpdateStep (asks.Serve window) result)
        windows.old (record { activity = activity.old; begun = begun }) windows.new
        (record { activity = activity.new; begun = begun }) }
    ensures idle { activity.new ≡ Idle }
    ensures width { windows.new.screen.width ≡ windows.old.screen.width }
    ensures height { windows.new.screen.height ≡ windows.old.screen.height }
{
    let Some(at) = windows.find(window) else {
        return Err(Refusal::NoSuchWindow);
    };
    windows.serve_all(at, layers);
    *activity = Activity::Idle;
    Ok(WindowReply::Done)
}

/// A region of the screen, as a window at this place sees it.
fn seen_from(alloc: Global, region: &Region, place: Point) -> Result<Region, AllocError>
    requires place { in_plane place ≡ true }
    requires there { (p : Point) → holds region.now (plus p place) ≡ true → is_pixel_in_range p ≡ true }
    ensures { IfOk result (λ seen. (p : Point) → holds seen p ≡ holds region.now (plus p place)) }
{
    let mut seen = region.copy(alloc)?;
    move_by(&mut seen, local(Point { h: 0, v: 0 }, place));
    Ok(seen)
}
