//! The layers of a window of the library changed, as whoever keeps its controls, its lists and its text records would.
ghost use Rattle.std.specs.Prelude.{◌≡◌, ◌<◌, ◌≤◌, length, List, IfOk};
ghost use Rattle.def_iface.specs.WindowSlots.{WindowSlot};
ghost use Rattle.window_list.specs.Holders.{ArePartsApart, IsLayerAt};
ghost use Rattle.window_mgr.specs.Edits.{IsWindowAt};
ghost use Rattle.striped_layers.specs.Relaying.{IsRelaying};

use crate::stripes::Stripes;
use desk_layers::Part;
use scan_region::Region;
use std::alloc::Global;
use tb_geom::{Point, Rect, Refusal};
use window_list::{Layer, LayerShape, Layers, Relaid};
use window_mgr::{DeskWindows, WindowManager};

/// New layers of a window, and the index of the one that is to be drawn afresh, if one is.
#[derive(Drop)]
pub struct Relaying {
    relaid: Relaid,
    afresh: Option<usize>,
}

/// A layer of rectangular shape, in its window's own coordinates. OutOfRange where it may not lie so in a window at this
/// place.
fn layer_of(
    alloc: Global,
    place: Point,
    part: Part,
    shown: bool,
    rect: Rect,
) -> Result<Layer, Refusal>
    ensures lies { IfOk result (IsLayerAt place) }
    ensures part { IfOk result (λ l. l.part ≡ part) }
{
    if !rect.is_in_range() {
        return Err(Refusal::OutOfRange);
    }
    let region = Region::from_rect_in_range(alloc, rect)?;
    let layer = Layer {
        part,
        shown,
        region,
        bounds: rect,
    };
    if layer.fits_at(place) {
        Ok(layer)
    } else {
        Err(Refusal::OutOfRange)
    }
}

/// Where a layer of this part goes among others: controls before lists, these before text records, and the oldest first.
fn rank(part: Part) -> u64 {
    match part {
        Part::Control(serial) => serial,
        Part::List(_) => 10,
        Part::Text(_) => 15,
        Part::Picture => 20,
    }
}

/// How many of the layers go before one of this part.
fn rank_among(layers: &Layers, part: Part) -> usize
    ensures { result ≤ length layers.now.layers }
{
    for at in 0..layers.len() {
        if rank(layers.at(at).part) > rank(part) {
            return at;
        }
    }
    layers.len()
}

/// The layers with this one, put in, or so where there is one of its part.
fn with_layer(alloc: Global, layers: &Layers, layer: Layer) -> Result<Relaying, Refusal>
    requires lies { IsLayerAt layers.now.place layer }
    requires apart { ArePartsApart layers.now.layers }
    ensures { IfOk result (IsRelaying layers.now) }
{
    if layer.part.is(Part::Picture) {
        return Err(Refusal::BadSyntax);
    }
    match layers.find(layer.part) {
        Some(at) => with_shape(alloc, layers, at, layer),
        None => {
            let at = rank_among(layers, layer.part);
            let relaid = layers.with(alloc, at, layer)?;
            let afresh = Some(at);
            Ok(Relaying { relaid, afresh })
        }
    }
}

/// The layers, the one at this index shown or not and lying as this one.
fn with_shape(alloc: Global, layers: &Layers, at: usize, layer: Layer) -> Result<Relaying, Refusal>
    requires at { at < length layers.now.layers }
    requires lies { IsLayerAt layers.now.place layer }
    requires apart { ArePartsApart layers.now.layers }
    ensures { IfOk result (IsRelaying layers.now) }
{
    let Layer {
        part: _,
        shown,
        region,
        bounds,
    } = layer;
    let shape = LayerShape {
        shown,
        region,
        bounds,
    };
    let relaid = layers.with_shape(alloc, at, shape)?;
    let afresh = Some(at);
    Ok(Relaying { relaid, afresh })
}

/// The layers without the one of this part. OutOfRange where there is none.
fn without(alloc: Global, layers: &Layers, part: Part) -> Result<Relaying, Refusal>
    requires apart { ArePartsApart layers.now.layers }
    ensures { IfOk result (IsRelaying layers.now) }
{
    let Some(at) = layers.find(part) else {
        return Err(Refusal::OutOfRange);
    };
    let relaid = layers.without(alloc, at)?;
    let afresh = None;
    Ok(Relaying { relaid, afresh })
}

/// Gives the window at this index these layers.
fn relay(windows: &mut WindowManager, at: usize, relaying: Relaying) -> Result<(), Refusal>
    requires kept { ⟦<WindowManager as DeskWindows>⟧.IsKept windows.old }
    requires at { at < length windows.old.windows.records.items }
    requires is { (w : _) → IsWindowAt windows.old.windows.records.items at w → IsRelaying w.layers relaying }
    ensures { (slots : List WindowSlot) → ⟦<WindowManager as DeskWindows>⟧.IsWholeOver windows.old slots
        → ⟦<WindowManager as DeskWindows>⟧.IsWholeOver windows.new slots }
{
    let Relaying { relaid, afresh } = relaying;
    if !relaid.layers.fit_at(windows.list().at(at).place) {
        return Err(Refusal::OutOfRange);
    }
    let plan = windows.plan_layers(at, &windows.area(at).update, &relaid, afresh)?;
    windows.commit_layers(at, relaid.layers, plan, afresh, &Stripes);
    Ok(())
}

/// Puts a layer in a window, or makes the one of its part so.
pub fn put(
    alloc: Global,
    windows: &mut WindowManager,
    window: u64,
    part: Part,
    shown: bool,
    rect: Rect,
) -> Result<(), Refusal>
    requires { ⟦<WindowManager as DeskWindows>⟧.IsKept windows.old }
    ensures { (slots : List WindowSlot) → ⟦<WindowManager as DeskWindows>⟧.IsWholeOver windows.old slots
        → ⟦<WindowManager as DeskWindows>⟧.IsWholeOver windows.new slots }
{
    let Some(at) = windows.find(window) else {
        return Err(Refusal::NoSuchWindow);
    };
    let found = windows.list().at(at);
    let layer = layer_of(alloc, found.place, part, shown, rect)?;
    let relaying = with_layer(alloc, &found.layers, layer)?;
    relay(windows, at, relaying)
}

/// Takes the layer of this part out of a window.
pub fn take_out(
    alloc: Global,
    windows: &mut WindowManager,
    window: u64,
    part: Part,
) -> Result<(), Refusal>
    requires { ⟦<WindowManager as DeskWindows>⟧.IsKept windows.old }
    ensures { (slots : List WindowSlot) → ⟦<WindowManager as DeskWindows>⟧.IsWholeOver windows.old slots
        → ⟦<WindowManager as DeskWindows>⟧.IsWholeOver windows.new slots }
{
    let Some(at) = windows.find(window) else {
        return Err(Refusal::NoSuchWindow);
    };
    let relaying = without(alloc, &windows.list().at(at).layers, part)?;
    relay(windows, at, relaying)
}
