//! The layers of one kind: a window's picture, its text records, its lists or its controls.
ghost use Rattle.std.specs.Prelude.{◌≡◌, ◌&&◌, true};
ghost use Rattle.tb_geom.specs.Pixels.{holds};
ghost use Rattle.tb_geom.specs.Rects.{in_plane};
ghost use Rattle.bit_blit.specs.Draws.{Draws};
ghost use Rattle.window_list.specs.Holders.{ArePartsApart};
ghost use Rattle.window_paint.specs.Shown.{content_shown};
ghost use Rattle.window_paint.specs.Kinds.{is_of, is_kind_there};

use crate::layers::paint_layer;
use crate::pictures::paint_picture;
use crate::showing::Showing;
use bit_map::BitMap;
use desk_call::LayerKind;
use desk_layers::Part;
use scan_region::Region;
use strike_font::Font;
use window_list::Window;

/// Whether a part of a window's content is of these layers.
pub fn is_of(kind: LayerKind, part: Part) -> bool
    ensures { result ≡ is_of kind part }
{
    match (kind, part) {
        (LayerKind::Picture, Part::Picture) => true,
        (LayerKind::Texts, Part::Text(_)) => true,
        (LayerKind::Lists, Part::List(_)) => true,
        (LayerKind::Controls, Part::Control(_)) => true,
        _ => false,
    }
}

/// Draws a window's layers of one kind on the pixels of a region of the screen that they own. The picture is drawn over white.
pub fn paint_kind<S: Showing>(
    map: &mut BitMap,
    region: &Region,
    window: &Window,
    kind: LayerKind,
    layers: &S,
    font: &Font,
)
    requires placed { in_plane window.now.place ≡ true }
    requires origin { in_plane window.now.origin ≡ true }
    requires apart { ArePartsApart window.now.layers.layers }
    requires whole { S.is_whole layers.now }
    ensures { Draws (λ p. holds region.now p && is_kind_there kind window.now p)
        (λ p _. content_shown font.now (S.shows layers.now font.now) window.now p)
        map.old map.new }
{
    if is_of(kind, Part::Picture) {
        paint_picture(map, region, window, font);
        return;
    }
    for at in 0..window.layers.len() {
        if is_of(kind, window.layers.at(at).part) {
            paint_layer(map, region, window, at, layers, font);
        }
    }
}
