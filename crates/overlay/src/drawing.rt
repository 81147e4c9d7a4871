//! A menu on a map.
ghost use Rattle.std.specs.Prelude.{◌≡◌, true, ◌+ℤ◌};
ghost use Rattle.tb_geom.specs.Points.{minus};
ghost use Rattle.tb_geom.specs.Rects.{rect_holds};
ghost use Rattle.bit_blit.specs.Draws.{Draws, IsWritten};
ghost use Rattle.def_iface.specs.MenuMeaning.{is_menu_size, no_menu_news};
ghost use Rattle.overlay.specs.Overlays.{is_menu_place, pulled_rect};

use bit_map::BitMap;
use def_iface::{Defined, Size, Stage, TakenMenu};
use draw_port::Canvas;
use menu_record::Menu;
use scan_region::Cut;
use strike_font::Font;
use tb_geom::{Point, Rect};

/// Draws a menu whose corner lies at a place, within a rectangle.
pub(crate) fn draw_menu(
    map: &mut BitMap,
    within: Rect,
    taken: &TakenMenu,
    menu: &Menu,
    place: Point,
    font: &Font,
)
    requires live { (⟦<TakenMenu as Defined>⟧.loan taken.now).definition.stage ≡ Stage.Live }
    requires place { is_menu_place place ≡ true }
    ensures drawn { Draws (rect_holds within)
        (λ p _. (⟦<TakenMenu as Defined>⟧.loan taken.now).definition.picture no_menu_news font.now menu.now
        (minus p place))
        map.old map.new }
    ensures written { IsWritten (rect_holds within) map.old map.new }
{
    let cut = Cut {
        inside: [None, None, None],
        outside: None,
    };
    let mut canvas = Canvas {
        map,
        clip: within,
        origin: place,
        cut: &cut,
        font,
    };
    taken.draw(menu, &mut canvas);
}

/// The rectangle of a menu of this size whose corner lies at a place of the screen, before it is cut to that.
pub fn pulled_rect(place: Point, size: Size) -> Rect
    requires place { is_menu_place place ≡ true }
    requires size { is_menu_size size ≡ true }
    ensures { result ≡ pulled_rect place size }
{
    Rect {
        left: place.h,
        top: place.v,
        right: right_side(place, size),
        bottom: lower_side(place, size),
    }
}

/// The column after the last one of such a menu.
fn right_side(place: Point, size: Size) -> i32
    requires place { is_menu_place place ≡ true }
    requires size { is_menu_size size ≡ true }
    ensures { result ≡ place.h +ℤ size.width }
{
    place.h + size.width
}

/// The row after its last one.
fn lower_side(place: Point, size: Size) -> i32
    requires place { is_menu_place place ≡ true }
    requires size { is_menu_size size ≡ true }
    ensures { result ≡ place.v +ℤ size.height }
{
    place.v + size.height
}

/// Draws a menu of this size, whose corner lies at a place of the map: each pixel of its rectangle that the map has gets
/// the value of the menu's picture, and every other one stays. It takes no memory.
pub fn draw_pulled(
    map: &mut BitMap,
    taken: &TakenMenu,
    menu: &Menu,
    place: Point,
    size: Size,
    font: &Font,
)
    requires live { (⟦<TakenMenu as Defined>⟧.loan taken.now).definition.stage ≡ Stage.Live }
    requires place { is_menu_place place ≡ true }
    requires size { is_menu_size size ≡ true }
    ensures { Draws (rect_holds (pulled_rect place size))
        (λ p _. (⟦<TakenMenu as Defined>⟧.loan taken.now).definition.picture no_menu_news font.now menu.now
        (minus p place))
        map.old map.new }
{
    draw_menu(map, pulled_rect(place, size), taken, menu, place, font);
}
