//! One window: its frame, and its content over that.
ghost use Rattle.std.specs.Prelude.{◌≡◌, ◌&&◌, true, IfOk, OnOk};
ghost use Rattle.tb_geom.specs.declared.point.Point.{Point};
ghost use Rattle.tb_geom.specs.Points.{minus};
ghost use Rattle.tb_geom.specs.Pixels.{holds};
ghost use Rattle.tb_geom.specs.Rects.{in_plane};
ghost use Rattle.scan_region.specs.Moves.{StaysInRange};
ghost use Rattle.bit_blit.specs.Draws.{Draws};
ghost use Rattle.draw_port.specs.Ops.{picture_bit};
ghost use Rattle.def_iface.specs.WindowNews.{no_news};
ghost use Rattle.window_list.specs.Holders.{layer_has};
ghost use Rattle.vis_update.specs.Records.{record_of};
ghost use Rattle.window_mgr.specs.Whole.{IsSettled};
ghost use Rattle.scratch_paint.specs.Paints.{IsLocalContent, layers_value, look_in, window_value};

use bit_map::BitMap;
use def_iface::{Defined, TakenWindow, WindowRegions};
use desk_layers::Part;
use draw_port::Canvas;
use scan_region::Region;
use std::alloc::{AllocError, Global};
use strike_font::Font;
use tb_geom::Point;
use vis_update::regions_of;
use window_list::{Layer, Window, move_by, picture_place};
use window_paint::{Showing, meeting};

/// Paints a window, if it is visible, on the gray region: its frame, and its content over that.
pub(crate) fn paint_window<S: Showing>(
    alloc: Global,
    image: &mut BitMap,
    gray: &Region,
    window: &Window,
    layers: &S,
    font: &Font,
) -> Result<(), AllocError>
    requires settled { IsSettled (record_of ⟦<TakenWindow as Defined>⟧.loan window.now) }
    requires layers { S.is_whole layers.now }
    ensures { OnOk result (Draws (holds gray.now)
        (window_value (look_in (S.shows layers.now) font.now) (record_of ⟦<TakenWindow as Defined>⟧.loan window.now))
        image.old image.new) }
{
    if !window.shown {
        return Ok(());
    }
    let regions = regions_of(alloc, window.place, window.size, &window.taken)?;
    let WindowRegions { structure, content } = regions;
    paint_frame(image, gray, &structure, window, font);
    paint_picture(image, gray, &content, window, font);
    let local = window.taken.regions_for(alloc, window.size)?;
    paint_layers(alloc, image, gray, &local.content, window, layers, font)?;
    Ok(())
}

/// Paints what a window's definition draws on what of the structure lies in the gray region.
fn paint_frame<'a>(
    image: &mut BitMap,
    gray: &'a Region,
    structure: &'a Region,
    window: &Window,
    font: &Font,
)
    requires { IsSettled (record_of ⟦<TakenWindow as Defined>⟧.loan window.now) }
    ensures { Draws (λ p. holds gray.now p && holds structure.now p)
        (λ p _. (⟦<TakenWindow as Defined>⟧.loan window.now.taken).definition.picture no_news font.now
        (minus p window.now.place))
        image.old image.new }
{
    let cut = meeting(gray, structure);
    let clip = structure.bbox();
    let mut canvas = Canvas {
        map: image,
        clip,
        origin: window.place,
        cut: &cut,
        font,
    };
    window.taken.draw(&mut canvas);
}

/// Paints a window's picture, over white, on what of the content lies in the gray region.
fn paint_picture<'a>(
    image: &mut BitMap,
    gray: &'a Region,
    content: &'a Region,
    window: &Window,
    font: &Font,
)
    requires { IsSettled (record_of ⟦<TakenWindow as Defined>⟧.loan window.now) }
    ensures { Draws (λ p. holds gray.now p && holds content.now p)
        (λ p _. picture_bit font.now window.now.picture (minus (minus p window.now.place) window.now.origin))
        image.old image.new }
{
    let cut = meeting(gray, content);
    let clip = content.bbox();
    let mut canvas = Canvas {
        map: image,
        clip,
        origin: picture_place(window.place, window.origin),
        cut: &cut,
        font,
    };
    canvas.paint_picture(&window.picture);
}

/// Paints the controls, lists and text records of a visible window on the gray region, the rearmost first, each on what it takes
/// of the content, whatever is to cover it. The content is in the window's own coordinates.
fn paint_layers<S: Showing>(
    alloc: Global,
    image: &mut BitMap,
    gray: &Region,
    content: &Region,
    window: &Window,
    layers: &S,
    font: &Font,
) -> Result<(), AllocError>
    requires settled { IsSettled (record_of ⟦<TakenWindow as Defined>⟧.loan window.now) }
    requires shown { window.now.shown ≡ true }
    requires content { IsLocalContent (record_of ⟦<TakenWindow as Defined>⟧.loan window.now) content.now }
    requires layers { S.is_whole layers.now }
    ensures { OnOk result (Draws (holds gray.now)
        (layers_value (look_in (S.shows layers.now) font.now) (record_of ⟦<TakenWindow as Defined>⟧.loan window.now)
        window.now.layers.layers)
        image.old image.new) }
{
    for at in (0..window.layers.len()).rev() {
        let layer = window.layers.at(at);
        let region = layer_region(alloc, layer, content, window.place)?;
        paint_layer(image, gray, &region, layer.part, window.place, layers, font);
    }
    Ok(())
}

/// What a layer takes on the screen of the content of a window at this place: nothing where it is hidden. The content is in
/// the window's own coordinates, as the layer is.
fn layer_region(
    alloc: Global,
    layer: &Layer,
    content: &Region,
    place: Point,
) -> Result<Region, AllocError>
    requires { StaysInRange content.now place }
    ensures { IfOk result (λ region. (p : Point) → holds region p
        ≡ (holds content.now (minus p place) && layer_has layer.now (minus p place))) }
{
    if !layer.shown {
        return Ok(Region::empty(alloc));
    }
    let mut region = content.sect(alloc, &layer.region)?;
    move_by(&mut region, place);
    Ok(region)
}

/// Paints what a control, list or text record of a window at this place shows on what of a region of the screen lies in the gray
/// one.
fn paint_layer<'a, S: Showing>(
    image: &mut BitMap,
    gray: &'a Region,
    region: &'a Region,
    part: Part,
    place: Point,
    layers: &S,
    font: &Font,
)
    requires placed { in_plane place ≡ true }
    requires layers { S.is_whole layers.now }
    ensures { Draws (λ p. holds gray.now p && holds region.now p)
        (λ p _. S.shows layers.now font.now part (minus p place))
        image.old image.new }
{
    let cut = meeting(gray, region);
    let clip = region.bbox();
    let mut canvas = Canvas {
        map: image,
        clip,
        origin: place,
        cut: &cut,
        font,
    };
    layers.draw(part, &mut canvas);
}
