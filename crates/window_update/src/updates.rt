//! What is kept for updates, and the calls about them.
ghost use Rattle.std.specs.Prelude.{◌≡◌, IfOk, None, Some, MatchOption, MatchResult, pos, [], true, false};
ghost use Rattle.tb_geom.specs.declared.point.Point.{Point};
ghost use Rattle.tb_geom.specs.Points.{PixelSet};
ghost use Rattle.tb_geom.specs.Pixels.{holds};
ghost use Rattle.tb_geom.specs.Rects.{rect_holds};
ghost use Rattle.desk_ground.specs.Screens as screens;
ghost use Rattle.desk_call.specs.declared.activity.Activity.{Activity};
ghost use Rattle.desk_call.specs.Gates.{gate, update_standing};
ghost use Rattle.window_mgr.specs.Records.{state_showing};
ghost use Rattle.window_mgr.specs.Refused.{is_missing};
ghost use Rattle.window_mgr.specs.DeskStates.{narrowed_to};
ghost use Rattle.window_update.specs.WholeUpdates.{opened};
ghost use Rattle.window_update.specs.Rightness.{IsJudgement};
ghost use Rattle.window_update.specs.UpdateSteps.{IsUpdateStep, IsToldOf};

use crate::areas::JudgedArea;
use crate::choices::Choices;
use crate::serving::serve;
use crate::{DeskUpdates, UpdateCall};
use bit_map::BitMap;
use desk_call::{Activity, Asked, WindowReply};
use scan_region::Region;
use std::alloc::{AllocError, Global};
use tb_geom::{Rect, Refusal};
use window_mgr::{DeskWindows, WindowManager};
use window_paint::Showing;

/// What calls about updates keep from one to the next.
#[derive(Drop)]
pub struct Updates {
    pub(crate) alloc: Global,
    /// While an update is open, what was to be redrawn when it began, in the window's own coordinates.
    pub(crate) begun: Region,
    /// While an update is open, what its draws leave of the update region.
    pub(crate) choices: Choices,
    /// A map to compare the screen with, as wide and high as the screen.
    pub(crate) buffer: BitMap,
}

impl Updates {
    /// For a desk on a screen of `width` by `height` pixels, of which each is 8 to 1024.
    pub fn new(alloc: Global, width: i32, height: i32) -> Result<Updates, AllocError>
        requires width { screens.is_screen_side width ≡ true }
        requires height { screens.is_screen_side height ≡ true }
        ensures sides { IfOk result (λ u. (pos u.buffer.width ≡ width) × (pos u.buffer.height ≡ height)) }
    {
        match BitMap::new(alloc, width, height) {
            Ok(buffer) => Ok(Updates {
                alloc,
                begun: Region::empty(alloc),
                choices: Choices::none(alloc),
                buffer,
            }),
            Err(_) => Err(AllocError),
        }
    }

    /// Performs one call, which may come while this is open, on these windows, whose layers show what `layers`
    /// says, and gives its answer. A refused call changes nothing; which refusal comes first where several would do stands with the call.
    pub fn perform<S: Showing>(
        &mut self,
        windows: &mut WindowManager,
        activity: &mut Activity,
        call: &UpdateCall<'_>,
        layers: &S,
    ) -> Result<WindowReply, Refusal>
        requires kept { ⟦<WindowManager as DeskWindows>⟧.IsKept windows.old }
        requires whole { ⟦<Self as DeskUpdates>⟧.IsWhole activity.old windows.old self.old }
        requires layers { S.is_whole layers.now }
        requires admitted { gate activity.old (update_standing call.now) ≡ None }
        ensures whole { ⟦<Self as DeskUpdates>⟧.IsWhole activity.new windows.new self.new }
        ensures step { ⟦<WindowManager as DeskWindows>⟧.LeavesDeskShowing (S.shows layers.now)
            (IsUpdateStep call.now result)
            windows.old (opened activity.old self.old) windows.new (opened activity.new self.new) }
    {
        match call {
            UpdateCall::Invalidate(marking) => self.invalidate(windows, marking),
            UpdateCall::Validate(marking) => self.validate(windows, marking, layers),
            UpdateCall::Begin(window) => self.begin(windows, activity, *window),
            UpdateCall::Draw(drawing) => self.draw(windows, *drawing, layers),
            UpdateCall::End(_) => self.end(activity),
            UpdateCall::Serve(window) => serve(windows, activity, *window, layers),
        }
    }

    /// The answer, while this is open, where what is asked for is a region of the window whose update it is: its visible region
    /// is what was to be redrawn when the update began, and its update region is empty.
    pub fn answers(&self, activity: Activity, asks: Asked) -> Option<Result<WindowReply, Refusal>>
        ensures { let asked = narrowed_to asks activity (opened activity self.now).begun in
            MatchOption result (asked ≡ None) (λ answer. (set : PixelSet) × (asked ≡ Some set) × IsToldOf set answer) }
    {
        let Activity::Updating(open) = activity else {
            return None;
        };
        match asks {
            Asked::VisibleRegion(window) if window == open => Some(told(self.alloc, &self.begun)),
            Asked::UpdateRegion(window) if window == open => {
                Some(told(self.alloc, &Region::empty(self.alloc)))
            }
            _ => None,
        }
    }

    /// Whether the pixels of a window's content that show in a rectangle, which is in the window's own coordinates and may
    /// be any, are right. Takes no memory. NoSuchWindow is the only refusal.
    pub fn pixels_right<S: Showing>(
        &mut self,
        windows: &WindowManager,
        window: u64,
        rect: Rect,
        layers: &S,
    ) -> Result<bool, Refusal>
        requires kept { ⟦<WindowManager as DeskWindows>⟧.IsKept windows.now }
        requires width { self.old.buffer.width ≡ windows.now.screen.width }
        requires height { self.old.buffer.height ≡ windows.now.screen.height }
        requires layers { S.is_whole layers.now }
        ensures whole { (activity : Activity) → ⟦<Self as DeskUpdates>⟧.IsWhole activity windows.now self.old
            → ⟦<Self as DeskUpdates>⟧.IsWhole activity windows.now self.new }
        ensures same { self.new.begun ≡ self.old.begun }
        ensures right { let state = state_showing (S.shows layers.now) (⟦<WindowManager as DeskWindows>⟧.state_over
            windows.now []) in
            MatchResult result
            (λ right. (is_missing window state.desk.windows ≡ false) × IsJudgement window (rect_holds rect) state right)
            (λ e. (is_missing window state.desk.windows ≡ true) × (e ≡ Refusal.NoSuchWindow)) }
    {
        match windows.find(window) {
            Some(at) => Ok(self.is_right(windows, at, &JudgedArea::Rect(rect), layers)),
            None => Err(Refusal::NoSuchWindow),
        }
    }
}

/// The region as an answer tells it.
fn told(alloc: Global, region: &Region) -> Result<WindowReply, Refusal>
    ensures { (set : PixelSet) → ((p : Point) → holds region.now p ≡ set p) → IsToldOf set result }
{
    match region.to_bytes(alloc) {
        Ok(bytes) => Ok(WindowReply::Region(bytes)),
        Err(refusal) => Err(refusal),
    }
}
