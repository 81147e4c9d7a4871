//! Where controls lie in their windows, and whether they are shown.
ghost use Rattle.std.specs.Prelude.{◌≡◌, ◌<◌, Some, true, length, slice_get, IfOk, IfSome};
ghost use Rattle.def_iface.specs.ControlMeaning.{is_control_size};
ghost use Rattle.desk_call.specs.declared.control.ControlOf.{ControlOf as Named};
ghost use Rattle.desk_call.specs.declared.control.ControlCall.TheVariants as asks;
ghost use Rattle.window_mgr.specs.DeskStates.{Opened};
ghost use Rattle.window_mgr.specs.Edits.{IsWindowAt};
ghost use Rattle.control_mgr.specs.ControlSteps.{IsChangedAt, IsControlStep};
ghost use Rattle.control_mgr.specs.Judged.{judged_box, lies_in_range, may_be_placed};
ghost use Rattle.control_mgr.specs.Laying.{IsShapeOf, IsLaidOrShort, MayLie, MayLieSo, definition_if, shown_call};
ghost use Rattle.control_mgr.specs.Spots.{IsSpot, IsSpotOf, IsTellable, with_lie};

use crate::spots::ControlAt;
use crate::{Controls, ControlsOnStock, DeskControls};
use def_iface::{Defined, Size, TakenControl, TakenWindow};
use desk_call::{ControlOf, ControlReply, MoveControl, SizeControl};
use std::alloc::{AllocError, Global};
use tb_geom::{Point, Rect, Refusal};
use window_list::{LayerShape, move_by};
use window_mgr::{DeskWindows, WindowManager};

/// The widest and highest that a control may be.
const LARGEST: i32 = 1024;

/// How a control is to lie in its window.
#[derive(Clone, Copy)]
pub(crate) struct Lie {
    pub place: Point,
    pub size: Size,
    pub shown: bool,
}

/// Whether the width and the height lie in 1..=1024.
fn is_control_size(size: Size) -> bool
    ensures { result ≡ is_control_size size }
{
    (1 <= size.width && size.width <= LARGEST) && (1 <= size.height && size.height <= LARGEST)
}

/// Whether a box lies in the range of coordinates at this place of a window that lies there, in the window's own and in those of
/// the screen.
fn lies_in_range(bounds: Rect, place: Point, window: Point) -> bool
    ensures { result ≡ lies_in_range bounds place window }
{
    match bounds.offset(place.h, place.v) {
        Ok(there) => there.offset(window.h, window.v).is_ok(),
        Err(_) => false,
    }
}

/// The rectangle by which a control's size is judged: with a definition the box of its region.
fn judged_box(taken: Option<&TakenControl>, size: Size) -> Rect
    requires { is_control_size size ≡ true }
    ensures { result ≡ judged_box (definition_if ⟦<TakenControl as Defined>⟧.loan taken.entry) size }
{
    match taken {
        Some(taken) => taken.bounds(size),
        None => size.rect(),
    }
}

/// Whether a control with this definition, if it has one, may be at a place of a window that lies there, with this size: its width
/// and its height lie in 1..=1024, its place is a point, and the box of its region, or of its size where it has no definition,
/// lies in the range of coordinates, by itself, where it is in the window, and on the screen.
pub fn may_be_placed(taken: Option<&TakenControl>, place: Point, size: Size, window: Point) -> bool
    ensures { result ≡ may_be_placed (definition_if ⟦<TakenControl as Defined>⟧.loan taken.entry) place size window }
{
    if !place.is_in_range() || !is_control_size(size) {
        return false;
    }
    let bounds = judged_box(taken, size);
    bounds.is_in_range() && lies_in_range(bounds, place, window)
}

/// The region of a control with this definition that lies so.
pub(crate) fn shape_of(
    alloc: Global,
    taken: &TakenControl,
    lie: Lie,
) -> Result<LayerShape, AllocError>
    requires { MayLieSo (⟦<TakenControl as Defined>⟧.loan taken.now).definition lie }
    ensures { IfOk result (IsShapeOf (⟦<TakenControl as Defined>⟧.loan taken.now).definition lie) }
{
    let mut region = taken.regions_for(alloc, lie.size)?;
    move_by(&mut region, lie.place);
    let bounds = taken.bounds(lie.size);
    Ok(LayerShape {
        shown: lie.shown,
        region,
        bounds: bounds.offset(lie.place.h, lie.place.v).unwrap(),
    })
}

impl Controls<TakenControl> {
    /// How the control at this index lies.
    fn lie(&self, at: usize) -> Lie
        requires { at < length self.now.list.items.items }
        ensures { IfSome (slice_get (⟦<Self as ControlsOnStock>⟧.records self.now) at) (λ c.
            result ≡ record { place = c.kept.place; size = c.kept.size; shown = c.kept.shown }) }
    {
        let control = &self.list.items[at];
        Lie {
            place: control.kept.place,
            size: control.kept.size,
            shown: control.kept.shown,
        }
    }

    /// Whether the control that stands here may lie so in its window.
    fn may_lie(&self, windows: &WindowManager, spot: ControlAt, lie: Lie) -> bool
        requires window { spot.window < length windows.now.windows.records.items }
        requires control { spot.control < length self.now.list.items.items }
        ensures { IfSome (slice_get (⟦<Self as ControlsOnStock>⟧.records self.now) spot.control) (λ c.
            (w : _) → IsWindowAt windows.now.windows.records.items spot.window w
            → result ≡ may_be_placed (Some c.kept.definition.definition) lie.place lie.size w.place) }
    {
        let definition = &self.list.items[spot.control].kept.definition;
        let window = windows.list().at(spot.window).place;
        may_be_placed(Some(definition), lie.place, lie.size, window)
    }

    /// Lays a control so in its window, and draws all that it then owns.
    fn lay(
        &mut self,
        windows: &mut WindowManager,
        spot: ControlAt,
        lie: Lie,
    ) -> Result<ControlReply, Refusal>
        requires kept { ⟦<WindowManager as DeskWindows>⟧.IsKept windows.old }
        requires beside { ⟦<Self as DeskControls>⟧.AreBeside windows.old self.old }
        requires spot { IsSpot ⟦<TakenWindow as Defined>⟧.loan ⟦<TakenControl as Defined>⟧.loan windows.old self.old
            spot }
        requires may { MayLie ⟦<TakenControl as Defined>⟧.loan windows.old self.old spot lie }
        ensures { (c : Named) → IsSpotOf ⟦<TakenWindow as Defined>⟧.loan ⟦<TakenControl as Defined>⟧.loan c windows.old
            self.old spot
            → (o : Opened) → ⟦<Self as DeskControls>⟧.Leaves
            (IsLaidOrShort c (with_lie lie) result) windows.old o self.old windows.new o self.new }
    {
        let definition = &self.list.items[spot.control].kept.definition;
        let shape = shape_of(self.alloc, definition, lie)?;
        let layer = self.list.layer_index(spot.control);
        let layers = &windows.list().at(spot.window).layers;
        let relaid = layers.with_shape(self.alloc, layer, shape)?;
        let update = &windows.area(spot.window).update;
        let relaying = windows.plan_layers(spot.window, update, &relaid, Some(layer))?;
        self.put_lie(spot.control, lie);
        windows.commit_layers(spot.window, relaid.layers, relaying, Some(layer), &*self);
        Ok(ControlReply::Done)
    }

    /// Notes that the control at this index lies so, and tells its definition.
    fn put_lie(&mut self, at: usize, lie: Lie)
        requires at { at < length self.old.list.items.items }
        requires tellable { IfSome (slice_get (⟦<Self as ControlsOnStock>⟧.records self.old) at)
            (λ c. IsTellable (with_lie lie c)) }
        ensures changed { IsChangedAt (with_lie lie) at (⟦<Self as ControlsOnStock>⟧.records self.old)
            (⟦<Self as ControlsOnStock>⟧.records self.new) }
        ensures next { self.new.list.next ≡ self.old.list.next }
        ensures alloc { self.new.alloc ≡ self.old.alloc }
    {
        let control = self.list.at_mut(at);
        control.place = lie.place;
        control.size = lie.size;
        control.shown = lie.shown;
        self.tell(at);
    }

    /// Shows a control, or hides it.
    pub(crate) fn show(
        &mut self,
        windows: &mut WindowManager,
        control: ControlOf,
        shown: bool,
    ) -> Result<ControlReply, Refusal>
        requires kept { ⟦<WindowManager as DeskWindows>⟧.IsKept windows.old }
        requires beside { ⟦<Self as DeskControls>⟧.AreBeside windows.old self.old }
        ensures { (o : Opened) → ⟦<Self as DeskControls>⟧.Leaves
            (IsControlStep (shown_call shown control) result) windows.old o self.old windows.new o self.new }
    {
        let spot = self.spot(windows, control)?;
        let lie = Lie {
            shown,
            ..self.lie(spot.control)
        };
        self.lay(windows, spot, lie)
    }

    /// Moves a control in its window.
    pub(crate) fn move_control(
        &mut self,
        windows: &mut WindowManager,
        moved: MoveControl,
    ) -> Result<ControlReply, Refusal>
        requires kept { ⟦<WindowManager as DeskWindows>⟧.IsKept windows.old }
        requires beside { ⟦<Self as DeskControls>⟧.AreBeside windows.old self.old }
        ensures { (o : Opened) → ⟦<Self as DeskControls>⟧.Leaves
            (IsControlStep (asks.Move moved) result) windows.old o self.old windows.new o self.new }
    {
        let spot = self.spot(windows, moved.control)?;
        let lie = Lie {
            place: moved.place,
            ..self.lie(spot.control)
        };
        if !self.may_lie(windows, spot, lie) {
            return Err(Refusal::OutOfRange);
        }
        self.lay(windows, spot, lie)
    }

    /// Gives a control another size.
    pub(crate) fn size_control(
        &mut self,
        windows: &mut WindowManager,
        sized: SizeControl,
    ) -> Result<ControlReply, Refusal>
        requires kept { ⟦<WindowManager as DeskWindows>⟧.IsKept windows.old }
        requires beside { ⟦<Self as DeskControls>⟧.AreBeside windows.old self.old }
        ensures { (o : Opened) → ⟦<Self as DeskControls>⟧.Leaves
            (IsControlStep (asks.Size sized) result) windows.old o self.old windows.new o self.new }
    {
        let spot = self.spot(windows, sized.control)?;
        let lie = Lie {
            size: sized.size,
            ..self.lie(spot.control)
        };
        if !self.may_lie(windows, spot, lie) {
            return Err(Refusal::OutOfRange);
        }
        self.lay(windows, spot, lie)
    }
}
