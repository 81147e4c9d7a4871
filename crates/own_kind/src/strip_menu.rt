//! The strip: a kind of menu whose items stand side by side, from left to right.
ghost use Rattle.std.specs.Prelude.{◌≡◌, ◌<◌, true, false};
ghost use Rattle.tb_geom.specs.declared.point.Point.{Point};
ghost use Rattle.tb_geom.specs.Rects.{in_plane, rect_holds};
ghost use Rattle.def_iface.specs.MenuMeaning.{is_choice, is_menu_size};
ghost use Rattle.looks.specs.Damages.{IsWithin, joined};
ghost use Rattle.own_kind.specs.Strips.{all_cells, cell, choice_at, chosen, is_lit, lit_cell, place_of, strip_look, strip_meaning, strip_size};

use def_iface::{MenuChange, MenuDef, Size, Stage};
use draw_port::Canvas;
use looks::{Step, draw_look, sides};
use menu_record::Menu;
use strike_font::Font;
use tb_geom::{Point, Rect};

/// The definition of a strip: where it stands in its life, and which item it was told is highlighted.
#[derive(Drop)]
pub struct StripMenu {
    stage: Stage,
    highlighted: Option<u8>,
}

impl StripMenu {
    /// A Fresh definition.
    pub fn new() -> StripMenu
        ensures { (⟦<StripMenu as MenuDef>⟧.menu_meaning result).stage ≡ Stage.Fresh }
    {
        StripMenu {
            stage: Stage::Fresh,
            highlighted: None,
        }
    }
}

/// How large a strip is.
fn strip_size(menu: &Menu) -> Size
    ensures value { result ≡ strip_size menu.now }
    ensures fits { is_menu_size result ≡ true }
{
    Size {
        width: 12 * menu.items.as_slice().len() as i32 + 2,
        height: 12,
    }
}

/// The cell of an item, by its number from 1 on.
fn cell(number: u8) -> Rect
    ensures { result ≡ cell number }
{
    let right = 12 * i32::from(number);
    sides(right - 11, 1, right + 1, 11)
}

/// The cell of the highlighted item, and no pixel where none is.
fn lit_cell(highlighted: Option<u8>) -> Rect
    ensures { result ≡ lit_cell highlighted }
{
    match highlighted {
        Some(number) => cell(number),
        None => sides(0, 0, 0, 0),
    }
}

/// What a strip of this size looks like.
fn strip_look(size: Size, highlighted: Option<u8>) -> [Step; 2]
    ensures { result ≡ strip_look size highlighted }
{
    [
        Step::black_frame(sides(0, 0, size.width, size.height)),
        Step::inverted(lit_cell(highlighted)),
    ]
}

/// A rectangle outside which a strip looks the same with another item highlighted: both cells.
fn cells_damage(old: Option<u8>, new: Option<u8>) -> Rect
    ensures alike { (p : Point) → in_plane p ≡ true → rect_holds result p ≡ false
        → (is_lit old p ≡ false) × (is_lit new p ≡ false) }
    ensures small { IsWithin result (joined (lit_cell old) (lit_cell new)) }
{
    lit_cell(old).union(lit_cell(new))
}

/// The place of the item in whose cell a point lies, from 0 on. It is one of the cells of as many items as a menu may have.
fn place_of(point: Point) -> u8
    requires { rect_holds all_cells point ≡ true }
    ensures value { result ≡ place_of point }
    ensures low { result < 31 }
{
    ((point.h - 1) as u32 / 12) as u8
}

/// The item at a place, from 0 on, by its number from 1 on, if it can be chosen.
fn choice_at(menu: &Menu, place: u8) -> Option<u8>
    requires { place < 31 }
    ensures value { result ≡ choice_at menu.now place }
    ensures choice { is_choice menu.now result ≡ true }
{
    match menu.items.as_slice().get(usize::from(place)) {
        Some(item) if menu.can_choose(item) => Some(place + 1),
        _ => None,
    }
}

/// The item in whose cell the point lies, if it can be chosen.
fn chosen(menu: &Menu, point: Point) -> Option<u8>
    ensures value { result ≡ chosen menu.now point }
    ensures choice { is_choice menu.now result ≡ true }
{
    if !sides(1, 1, 373, 11).contains(point) {
        return None;
    }
    choice_at(menu, place_of(point))
}

impl MenuDef for StripMenu {
    ghost menu_meaning = { strip_meaning };

    fn stage(&self) -> Stage {
        self.stage
    }

    fn begin(&mut self) {
        self.stage = Stage::Live;
    }

    fn told(&mut self, change: MenuChange) -> Rect {
        let MenuChange::Highlighted(item) = change;
        let damage = cells_damage(self.highlighted, item);
        self.highlighted = item;
        damage
    }

    fn size(&self, menu: &Menu, font: &Font) -> Size {
        strip_size(menu)
    }

    fn choose(&self, menu: &Menu, font: &Font, point: Point) -> Option<u8> {
        chosen(menu, point)
    }

    fn draw(&self, menu: &Menu, canvas: &mut Canvas<'_>) {
        draw_look(canvas, &strip_look(strip_size(menu), self.highlighted), b"");
    }

    fn dispose(&mut self) {
        self.stage = Stage::Closed;
    }
}
