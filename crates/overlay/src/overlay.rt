//! The map in front.
ghost use Rattle.std.specs.Prelude.{◌≡◌, ◌≤◌, true, None, Some, IfOk, List, ℕ, pos, ◌&&◌};
ghost use Rattle.tb_geom.specs.Points.{minus};
ghost use Rattle.tb_geom.specs.Rects.{rect_holds};
ghost use Rattle.bit_map.specs.Bits.{Bits, is_side};
ghost use Rattle.bit_blit.specs.Draws.{IsWritten};
ghost use Rattle.def_iface.specs.MenuMeaning.{MenuDefinition, IsMenuDamage, is_menu_size};
ghost use Rattle.overlay.specs.Overlays.{IsShown, is_menu_place, pulled_rect};

use crate::base::cover;
use crate::drawing::{draw_menu, draw_pulled, pulled_rect};
use bit_map::BitMap;
use def_iface::{Defined, Size, Stage, TakenMenu};
use draw_port::placed_within;
use menu_record::Menu;
use std::alloc::{AllocError, Global};
use strike_font::Font;
use tb_geom::{Point, Rect};

/// What the screen shows while a menu is pulled down or an outline is shown: a map in front of the base image, which stays as
/// it is.
#[derive(Drop)]
pub struct Overlay {
    pub(crate) front: BitMap,
}

impl Overlay {
    /// A map of this many columns and rows, each 0..=32767.
    pub fn new(alloc: Global, width: i32, height: i32) -> Result<Overlay, AllocError>
        requires { (is_side width && is_side height) ≡ true }
        ensures { IfOk result (λ o. (pos o.front.width ≡ width) × (pos o.front.height ≡ height)) }
    {
        match BitMap::new(alloc, width, height) {
            Ok(front) => Ok(Overlay { front }),
            Err(_) => Err(AllocError),
        }
    }

    /// The map in front.
    pub fn front(&self) -> &BitMap
        ensures { result.now ≡ self.now.front }
    {
        &self.front
    }

    /// Shows a base image of the same size, and no menu.
    pub fn show(&mut self, base: &BitMap)
        requires width { self.old.front.width ≡ base.now.width }
        requires height { self.old.front.height ≡ base.now.height }
        ensures { (font : List ℕ) → IsShown font None base.now self.new.front }
    {
        let bounds = base.bounds();
        cover(&mut self.front, bounds, base);
    }

    /// Shows a menu over the base image.
    pub fn pull(&mut self, taken: &TakenMenu, menu: &Menu, place: Point, size: Size, font: &Font)
        requires live { (⟦<TakenMenu as Defined>⟧.loan taken.now).definition.stage ≡ Stage.Live }
        requires place { is_menu_place place ≡ true }
        requires size { is_menu_size size ≡ true }
        ensures { (base : Bits) → IsShown font.now None base self.old.front → IsShown font.now (Some (record {
          definition = (⟦<TakenMenu as Defined>⟧.loan taken.now).definition;
          menu = menu.now;
          place = place;
          size = size;
        })) base self.new.front }
    {
        draw_pulled(&mut self.front, taken, menu, place, size, font);
    }

    /// Shows a menu anew whose definition was told something, and answered this damage, which is local to the menu. No other
    /// pixel of the map is written.
    pub fn redraw(
        &mut self,
        taken: &TakenMenu,
        menu: &Menu,
        place: Point,
        size: Size,
        damage: Rect,
        font: &Font,
    )
        requires live { (⟦<TakenMenu as Defined>⟧.loan taken.now).definition.stage ≡ Stage.Live }
        requires place { is_menu_place place ≡ true }
        requires size { is_menu_size size ≡ true }
        requires screen { (self.old.front.width ≤ 1024) × (self.old.front.height ≤ 1024) }
        ensures shown { (base : Bits) (old : MenuDefinition)
            → IsMenuDamage damage old (⟦<TakenMenu as Defined>⟧.loan taken.now).definition
            → IsShown font.now (Some (record { definition = old; menu = menu.now; place = place; size = size })) base
            self.old.front
            → IsShown font.now (Some (record {
              definition = (⟦<TakenMenu as Defined>⟧.loan taken.now).definition;
              menu = menu.now;
              place = place;
              size = size;
            })) base self.new.front }
        ensures within { IsWritten (λ p. rect_holds (pulled_rect place size) p && rect_holds damage (minus p place))
            self.old.front self.new.front }
    {
        let within = placed_within(pulled_rect(place, size), damage, place);
        draw_menu(&mut self.front, within, taken, menu, place, font);
    }
}
