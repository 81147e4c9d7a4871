//! Pictures of windows, drawn where no layer in front of them hides them.
ghost use Rattle.std.specs.Prelude.{◌≡◌, ◌++◌, ◌∷◌, [], ◌&&◌, not, true, List};
ghost use Rattle.tb_geom.specs.declared.point.Point.{Point};
ghost use Rattle.tb_geom.specs.Points.{minus};
ghost use Rattle.tb_geom.specs.Pixels.{holds};
ghost use Rattle.tb_geom.specs.Rects.{in_plane};
ghost use Rattle.scan_region.specs.Cuts.{cut_holds};
ghost use Rattle.bit_blit.specs.Draws.{Draws};
ghost use Rattle.draw_port.specs.declared.shapes.Op.{Op};
ghost use Rattle.draw_port.specs.Ops.{op_value, picture_bit};
ghost use Rattle.window_paint.specs.Hidden.{is_hidden};

use bit_map::BitMap;
use draw_port::Canvas;
use scan_region::{Cut, Region};
use strike_font::Font;
use window_list::{Window, picture_place};

/// Draws a window's picture, over white, on the pixels of a region of the screen that no layer in front of it has.
pub fn paint_picture(map: &mut BitMap, region: &Region, window: &Window, font: &Font)
    requires placed { in_plane window.now.place ≡ true }
    requires origin { in_plane window.now.origin ≡ true }
    ensures { Draws (λ p. holds region.now p && not (is_hidden window.now p))
        (λ p _. picture_bit font.now window.now.picture (minus (minus p window.now.place) window.now.origin))
        map.old map.new }
{
    let cut = picture_cut(region, window);
    let clip = region.bbox();
    let origin = picture_place(window.place, window.origin);
    let mut canvas = Canvas {
        map,
        clip,
        origin,
        cut: &cut,
        font,
    };
    canvas.paint_picture(&window.picture);
}

/// Draws the last operation of a window's picture on the pixels of a region of the screen that no layer in front of the picture
/// has, and nothing where the picture has no operation.
pub fn paint_last_operation(map: &mut BitMap, region: &Region, window: &Window, font: &Font)
    requires placed { in_plane window.now.place ≡ true }
    requires origin { in_plane window.now.origin ≡ true }
    ensures none { window.now.picture ≡ [] → map.new ≡ map.old }
    ensures drawn { (before : List Op) (op : Op) → window.now.picture ≡ before ++ op ∷ []
        → Draws (λ p. holds region.now p && not (is_hidden window.now p))
        (λ p value. op_value font.now op (minus (minus p window.now.place) window.now.origin) value)
        map.old map.new }
{
    let Some(operation) = window.picture.ops().last() else {
        return;
    };
    let cut = picture_cut(region, window);
    let clip = region.bbox();
    let mut canvas = Canvas {
        map,
        clip,
        origin: picture_place(window.place, window.origin),
        cut: &cut,
        font,
    };
    canvas.paint(operation);
}

/// The pixels of a region of the screen that no layer in front of the window's picture has.
fn picture_cut<'a>(region: &'a Region, window: &'a Window) -> Cut<'a>
    ensures { (p : Point) → cut_holds result p ≡ (holds region.now p && not (is_hidden window.now p)) }
{
    Cut {
        inside: [Some(region), None, None],
        outside: Some(window.layers.covered()),
    }
}
