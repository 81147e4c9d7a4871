//! The layers of a window's content, drawn where they own the pixels, and the whole content.
ghost use Rattle.std.specs.Prelude.{◌≡◌, ◌<◌, ◌&&◌, not, if◌then◌else◌, true, length, slice_index_or};
ghost use Rattle.tb_geom.specs.Points.{minus};
ghost use Rattle.tb_geom.specs.Pixels.{holds};
ghost use Rattle.tb_geom.specs.Rects.{in_plane, rect_holds};
ghost use Rattle.scan_region.specs.Cuts.{cut_holds, cut_meeting};
ghost use Rattle.tb_geom.specs.declared.point.Point.{Point};
ghost use Rattle.bit_blit.specs.Draws.{Draws, IsWritten};
ghost use Rattle.window_list.specs.declared.layer.Layer.{Layer};
ghost use Rattle.window_list.specs.Holders.{belongs_to, ArePartsApart};
ghost use Rattle.window_paint.specs.Shown.{content_shown};

use crate::pictures::paint_picture;
use crate::showing::{Showing, Toggling};
use bit_map::BitMap;
use draw_port::{Canvas, placed_within};
use scan_region::{Cut, Region};
use strike_font::Font;
use tb_geom::Rect;
use window_list::Window;

/// Draws the layer at this index of a window on the pixels of a region of the screen that it owns.
pub fn paint_layer<S: Showing>(
    map: &mut BitMap,
    region: &Region,
    window: &Window,
    at: usize,
    layers: &S,
    font: &Font,
)
    requires placed { in_plane window.now.place ≡ true }
    requires at { at < length window.now.layers.layers }
    requires apart { ArePartsApart window.now.layers.layers }
    requires whole { S.is_whole layers.now }
    ensures { (l : Layer) → l ≡ slice_index_or window.now.layers.layers at l
        → Draws (λ p. holds region.now p && belongs_to l.part window.now.layers.layers
        (minus p window.now.layers.place))
        (λ p _. S.shows layers.now font.now l.part (minus p window.now.place))
        map.old map.new }
{
    let cut = meeting(region, window.layers.owned(at));
    draw_layer(map, region.bbox(), &cut, window, at, layers, font);
}

/// Draws the layer at this index of a window anew within a rectangle of the window, on the pixels of a region of the screen that it
/// owns, but for those of another region.
pub fn show_layer<S: Showing>(
    map: &mut BitMap,
    region: &Region,
    but: &Region,
    window: &Window,
    at: usize,
    within: Rect,
    layers: &S,
    font: &Font,
)
    requires placed { in_plane window.now.place ≡ true }
    requires at { at < length window.now.layers.layers }
    requires apart { ArePartsApart window.now.layers.layers }
    requires whole { S.is_whole layers.now }
    ensures drawn { (l : Layer) → l ≡ slice_index_or window.now.layers.layers at l
        → Draws (λ p. ((holds region.now p && belongs_to l.part window.now.layers.layers
        (minus p window.now.layers.place))
        && not (holds but.now p)) && rect_holds within (minus p window.now.place))
        (λ p _. S.shows layers.now font.now l.part (minus p window.now.place))
        map.old map.new }
    ensures written { (l : Layer) → l ≡ slice_index_or window.now.layers.layers at l
        → IsWritten (λ p. ((holds region.now p && belongs_to l.part window.now.layers.layers
        (minus p window.now.layers.place))
        && not (holds but.now p)) && rect_holds within (minus p window.now.place))
        map.old map.new }
{
    let cut = meeting_but(region, window.layers.owned(at), but);
    let clip = placed_within(region.bbox(), within, window.place);
    draw_layer(map, clip, &cut, window, at, layers, font);
}

/// Inverts what a change of a selection does of the layer at this index of a window, on the pixels of a region of the screen that
/// the layer owns.
pub fn invert_layer<T: Toggling>(
    map: &mut BitMap,
    region: &Region,
    window: &Window,
    at: usize,
    toggling: &T,
    font: &Font,
)
    requires placed { in_plane window.now.place ≡ true }
    requires at { at < length window.now.layers.layers }
    requires apart { ArePartsApart window.now.layers.layers }
    requires ready { T.is_ready toggling.now }
    ensures { (l : Layer) → l ≡ slice_index_or window.now.layers.layers at l
        → Draws (λ p. holds region.now p && belongs_to l.part window.now.layers.layers
        (minus p window.now.layers.place))
        (λ p d. if T.toggles toggling.now font.now (minus p window.now.place) then not d else d)
        map.old map.new }
{
    let own = meeting(region, window.layers.owned(at));
    let origin = window.place;
    let mut canvas = Canvas {
        map,
        clip: region.bbox(),
        origin,
        cut: &own,
        font,
    };
    toggling.invert(&mut canvas);
}

/// Draws the layer at this index of a window on the pixels of a rectangle of the screen that a cut leaves.
fn draw_layer<S: Showing>(
    map: &mut BitMap,
    clip: Rect,
    cut: &Cut<'_>,
    window: &Window,
    at: usize,
    layers: &S,
    font: &Font,
)
    requires placed { in_plane window.now.place ≡ true }
    requires at { at < length window.now.layers.layers }
    requires whole { S.is_whole layers.now }
    ensures drawn { (l : Layer) → l ≡ slice_index_or window.now.layers.layers at l
        → Draws (λ p. rect_holds clip p && cut_holds cut.now p)
        (λ p _. S.shows layers.now font.now l.part (minus p window.now.place))
        map.old map.new }
    ensures written { IsWritten (λ p. rect_holds clip p && cut_holds cut.now p) map.old map.new }
{
    let layer = window.layers.at(at);
    let mut canvas = Canvas {
        map,
        clip,
        origin: window.place,
        cut,
        font,
    };
    layers.draw(layer.part, &mut canvas);
}

/// Draws all that a window's content shows on a region of the screen: its picture, over white, and each layer.
pub fn paint_content<S: Showing>(
    map: &mut BitMap,
    region: &Region,
    window: &Window,
    layers: &S,
    font: &Font,
)
    requires placed { in_plane window.now.place ≡ true }
    requires origin { in_plane window.now.origin ≡ true }
    requires apart { ArePartsApart window.now.layers.layers }
    requires whole { S.is_whole layers.now }
    ensures { Draws (holds region.now) (λ p _. content_shown font.now (S.shows layers.now font.now) window.now p)
        map.old map.new }
{
    paint_picture(map, region, window, font);
    for at in 0..window.layers.len() {
        paint_layer(map, region, window, at, layers, font);
    }
}

/// The pixels that two regions share.
pub fn meeting<'a>(region: &'a Region, other: &'a Region) -> Cut<'a>
    ensures { result ≡ cut_meeting region.entry other.entry }
{
    Cut {
        inside: [Some(region), Some(other), None],
        outside: None,
    }
}

/// The pixels that two regions share, but for those of a third.
fn meeting_but<'a>(region: &'a Region, other: &'a Region, but: &'a Region) -> Cut<'a>
    ensures { (p : Point) → cut_holds result p ≡ ((holds region.now p && holds other.now p) && not (holds but.now p)) }
{
    Cut {
        inside: [Some(region), Some(other), None],
        outside: Some(but),
    }
}
