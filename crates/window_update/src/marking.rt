//! Pixels of a window that are to be redrawn, or are right as they are.
ghost use Rattle.std.specs.Prelude.{◌≡◌, ◌&&◌, ℕ, List, true, length, ◌<◌, IfOk, MatchResult, [], None, Some};
ghost use Rattle.tb_geom.specs.declared.point.Point.{Point};
ghost use Rattle.tb_geom.specs.Points.{PixelSet, minus, plus};
ghost use Rattle.desk_layers.specs.declared.part.Part.{Part};
ghost use Rattle.tb_geom.specs.Pixels.{holds};
ghost use Rattle.tb_geom.specs.Rects.{in_plane};
ghost use Rattle.scan_region.specs.Moves.{is_pixel_in_range};
ghost use Rattle.desk_call.specs.declared.update.UpdateCall.TheVariants as asks;
ghost use Rattle.window_mgr.specs.DeskStates.{Opened};
ghost use Rattle.window_mgr.specs.Edits.{IsWindowAt, StandsAt};
ghost use Rattle.window_mgr.specs.Records.{state_showing};
ghost use Rattle.window_update.specs.Marks.{IsMarkedBy, IsUpdateAfter, marked_by};
ghost use Rattle.window_update.specs.Rightness.{IsJudgement};
ghost use Rattle.window_update.specs.Sets.{IsAreaOf, judged_set};
ghost use Rattle.window_update.specs.UpdateRefusals.{IsAreaRefusal};
ghost use Rattle.window_update.specs.UpdateSteps.{IsUpdateStep};

use crate::areas::{JudgedArea, judge, region_of};
use crate::right::agree;
use crate::{AreaRef, Updates, WindowArea};
use def_iface::{Defined, TakenWindow};
use desk_call::WindowReply;
use scan_region::Region;
use std::alloc::{AllocError, Global};
use tb_geom::{Point, Refusal};
use vis_update::Area;
use window_list::{local, move_by};
use window_mgr::{DeskWindows, WindowManager};
use window_paint::{Showing, paint_content};

impl Updates {
    /// Puts what lies in an area of a window's visible content into its update region.
    pub(crate) fn invalidate(
        &self,
        windows: &mut WindowManager,
        marking: &WindowArea<'_>,
    ) -> Result<WindowReply, Refusal>
        requires kept { ⟦<WindowManager as DeskWindows>⟧.IsKept windows.old }
        ensures step { (shows : List ℕ → Part → PixelSet) (o : Opened)
            → ⟦<WindowManager as DeskWindows>⟧.LeavesDeskShowing shows
            (IsUpdateStep (asks.Invalidate marking.now) result)
            windows.old o windows.new o }
        ensures width { windows.new.screen.width ≡ windows.old.screen.width }
        ensures height { windows.new.screen.height ≡ windows.old.screen.height }
    {
        let target = match target_of(windows, marking) {
            Ok(target) => target,
            Err(refusal) => return Err(refusal),
        };
        mark(
            self.alloc,
            windows,
            target.at,
            &marking.area,
            Verdict::Stale,
        )
    }

    /// Takes what lies in an area of a window's visible content out of its update region, where its pixels are right.
    pub(crate) fn validate<S: Showing>(
        &mut self,
        windows: &mut WindowManager,
        marking: &WindowArea<'_>,
        layers: &S,
    ) -> Result<WindowReply, Refusal>
        requires kept { ⟦<WindowManager as DeskWindows>⟧.IsKept windows.old }
        requires width { self.old.buffer.width ≡ windows.old.screen.width }
        requires height { self.old.buffer.height ≡ windows.old.screen.height }
        requires layers { S.is_whole layers.now }
        ensures step { (o : Opened) → ⟦<WindowManager as DeskWindows>⟧.LeavesDeskShowing (S.shows layers.now)
            (IsUpdateStep (asks.Validate marking.now) result) windows.old o windows.new o }
        ensures same { self.new.begun ≡ self.old.begun }
        ensures width { self.new.buffer.width ≡ windows.new.screen.width }
        ensures height { self.new.buffer.height ≡ windows.new.screen.height }
    {
        let target = match target_of(windows, marking) {
            Ok(target) => target,
            Err(refusal) => return Err(refusal),
        };
        if !self.is_right(windows, target.at, &target.area, layers) {
            return Err(Refusal::StalePixels);
        }
        mark(
            self.alloc,
            windows,
            target.at,
            &marking.area,
            Verdict::Right,
        )
    }

    /// Whether what shows of a window's content in an area is right.
    pub(crate) fn is_right<S: Showing>(
        &mut self,
        windows: &WindowManager,
        at: usize,
        area: &JudgedArea<'_>,
        layers: &S,
    ) -> bool
        requires kept { ⟦<WindowManager as DeskWindows>⟧.IsKept windows.now }
        requires width { self.old.buffer.width ≡ windows.now.screen.width }
        requires height { self.old.buffer.height ≡ windows.now.screen.height }
        requires at { at < length windows.now.windows.records.items }
        requires layers { S.is_whole layers.now }
        ensures width { self.new.buffer.width ≡ windows.now.screen.width }
        ensures height { self.new.buffer.height ≡ windows.now.screen.height }
        ensures same { self.new ≡ record self.old { buffer = self.new.buffer } }
        ensures right { (w : _) → IsWindowAt windows.now.windows.records.items at w
            → IsJudgement w.serial (judged_set area.now)
            (state_showing (S.shows layers.now) (⟦<WindowManager as DeskWindows>⟧.state_over windows.now [])) result }
    {
        let parts = windows.parts();
        let window = parts.windows.at(at);
        let visible = &windows.area(at).visible;
        paint_content(&mut self.buffer, visible, window, layers, parts.font);
        agree(windows.screen(), &self.buffer, visible, window.place, area)
    }
}

/// A window's index in the list, and an area of it that was judged.
#[derive(Drop)]
struct Target<'a> {
    at: usize,
    area: JudgedArea<'a>,
}

/// The window that an area is of, and the area. The refusal is the first of these: BadRegion, NoSuchWindow, OutOfRange.
fn target_of<'a>(windows: &WindowManager, marking: &WindowArea<'a>) -> Result<Target<'a>, Refusal>
    requires kept { ⟦<WindowManager as DeskWindows>⟧.IsKept windows.now }
    ensures { MatchResult result
        (λ r. StandsAt windows.now.windows.records.items marking.now.window r.at
        × IsAreaOf marking.now.area (judged_set r.area)
        × IsAreaRefusal marking.now (⟦<WindowManager as DeskWindows>⟧.state_over windows.now []) None)
        (λ e. IsAreaRefusal marking.now (⟦<WindowManager as DeskWindows>⟧.state_over windows.now []) (Some e)) }
{
    match (judge(&marking.area), windows.find(marking.window)) {
        (Err(Refusal::BadRegion), _) => Err(Refusal::BadRegion),
        (Ok(area), Some(at)) => Ok(Target { at, area }),
        (Err(refusal), Some(_)) => Err(refusal),
        (Ok(_), None) => Err(Refusal::NoSuchWindow),
        (Err(_), None) => Err(Refusal::NoSuchWindow),
    }
}

/// Marks an area of the window at this index. NoMemory is the only refusal.
fn mark(
    alloc: Global,
    windows: &mut WindowManager,
    at: usize,
    area: &AreaRef<'_>,
    verdict: Verdict,
) -> Result<WindowReply, Refusal>
    requires kept { ⟦<WindowManager as DeskWindows>⟧.IsKept windows.old }
    requires at { at < length windows.old.windows.records.items }
    ensures { IsMarkedBy ⟦<TakenWindow as Defined>⟧.loan verdict at area.now result windows.old windows.new }
{
    match update_after(alloc, windows, at, area, verdict) {
        Ok(update) => {
            windows.set_update(at, update);
            Ok(WindowReply::Done)
        }
        Err(AllocError) => Err(Refusal::NoMemory),
    }
}

/// The update region of the window at this index, once an area is marked.
fn update_after(
    alloc: Global,
    windows: &WindowManager,
    at: usize,
    area: &AreaRef<'_>,
    verdict: Verdict,
) -> Result<Region, AllocError>
    requires kept { ⟦<WindowManager as DeskWindows>⟧.IsKept windows.now }
    requires at { at < length windows.now.windows.records.items }
    ensures { IfOk result (IsUpdateAfter windows.now at area.now verdict) }
{
    let pixels = region_of(alloc, area)?;
    let place = windows.list().at(at).place;
    marked(alloc, windows.area(at), place, &pixels, verdict)
}

/// What a mark does with pixels of an update region.
#[derive(Clone, Copy)]
pub(crate) enum Verdict {
    /// They are put in.
    Stale,
    /// They are taken out.
    Right,
}

/// The update region of a window at this place of the screen, once these pixels, which are in the window's own coordinates, are marked
/// where its content shows.
fn marked(
    alloc: Global,
    area: &Area,
    place: Point,
    pixels: &Region,
    verdict: Verdict,
) -> Result<Region, AllocError>
    requires place { in_plane place ≡ true }
    requires there { (p : Point) → holds area.now.visible (plus p place) ≡ true → is_pixel_in_range p ≡ true }
    requires here { (p : Point) → holds area.now.visible p ≡ true → is_pixel_in_range p ≡ true }
    ensures { IfOk result (λ update. (p : Point) → holds update p
        ≡ marked_by verdict (holds area.now.update p) (holds area.now.visible p && holds pixels.now (minus p place))) }
{
    let mut shown = area.visible.copy(alloc)?;
    move_by(&mut shown, local(Point { h: 0, v: 0 }, place));
    let mut part = shown.sect(alloc, pixels)?;
    move_by(&mut part, place);
    match verdict {
        Verdict::Stale => area.update.union(alloc, &part),
        Verdict::Right => area.update.diff(alloc, &part),
    }
}
