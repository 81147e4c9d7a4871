//! The menu that is pulled down.
ghost use Rattle.std.specs.Prelude.{if◌then◌else◌};
ghost use Rattle.std.specs.Prelude.{◌≡◌, ◌<◌, ◌≤◌, [], length, Some, None, IfSome, true, pos};
ghost use Rattle.std.specs.Prelude.{◌≤ℤ◌, slice_get, is_none};
ghost use Rattle.tb_geom.specs.Points.{PixelSet, minus};
ghost use Rattle.tb_geom.specs.Rects.{in_plane};
ghost use Rattle.def_iface.specs.MenuMeaning.{is_menu_size};
ghost use Rattle.desk_call.specs.declared.activity.Activity.TheVariants.{Idle, Pulling};
ghost use Rattle.desk_call.specs.declared.menu.MenuCall.TheVariants as asks;
ghost use Rattle.menu_list.specs.Lists.{menu_index, titles_of};
ghost use Rattle.menu_list.specs.Seen.{seen};
ghost use Rattle.overlay.specs.declared.overlay.Overlay.{Overlay as FrontMap};
ghost use Rattle.overlay.specs.Overlays.{IsShown, is_menu_place};
ghost use Rattle.window_mgr.specs.BarShown.{IsBarShown};
ghost use Rattle.menu_mgr.specs.Leaving.{indexed, of_another, opened};
ghost use Rattle.menu_mgr.specs.MenuSteps.{IsMenuStep, choice_of};
ghost use Rattle.menu_mgr.specs.Pulling.{as_pulled, is_pulled_at, item_under, pulled_below, pulled_of, title_under};
ghost use Rattle.menu_mgr.specs.WholeMenus.{AreLive, IsPlaced};

use crate::{Choice, DeskMenus, MenuReply, Menus, MenusOnStock};
use def_iface::{Defined, TakenMenu};
use desk_call::{Activity, PulledMenu};
use desk_ground::{TitleHit, title_at};
use overlay::{Overlay, pulled_place, pulled_rect, shown_size};
use tb_geom::{Point, Refusal};
use window_mgr::{DeskView, DeskWindows, WindowManager};

/// A title of the menu bar that a point is on.
#[derive(Clone, Copy)]
pub(crate) struct Titled {
    /// The index of its menu.
    pub at: usize,
    pub hit: TitleHit,
}

/// A point of the screen, seen from the corner of a menu.
fn seen_from(place: Point, point: Point) -> Point
    requires place { is_menu_place place ≡ true }
    requires point { in_plane point ≡ true }
    ensures { result ≡ minus point place }
{
    Point {
        h: point.h - place.h,
        v: point.v - place.v,
    }
}

/// What is chosen where the pulled menu has this item.
fn chosen(pulled: PulledMenu, item: Option<u8>) -> Option<Choice>
    ensures { result ≡ choice_of pulled item }
{
    match item {
        Some(item) => Some(Choice {
            menu: pulled.menu,
            item,
        }),
        None => None,
    }
}

impl Menus {
    /// Where the first menu of this number stands in the list, if there is one.
    pub(crate) fn index_of(&self, menu: u16) -> Option<usize>
        ensures first { result ≡ menu_index (pos menu) self.now.list.menus.items }
        ensures within { IfSome result (λ at. at < length self.now.list.menus.items) }
    {
        self.list.find(i32::from(menu))
    }

    /// The title of the menu bar that a point of the screen is on, if it is on one.
    fn title_under(&self, windows: &WindowManager, point: Point) -> Option<Titled>
        ensures value { result ≡ indexed self.now.list.menus.items
            (title_under (⟦<WindowManager as DeskWindows>⟧.desk windows.now []) point) }
        ensures within { IfSome result (λ t. t.at < length self.now.list.menus.items) }
        ensures near { IfSome result (λ t. (pos 0 ≤ℤ t.hit.left) × (t.hit.left ≤ℤ pos 1200000)) }
    {
        let DeskView {
            bar,
            titles,
            font,
            ..
        } = windows.parts();
        if bar == 0 || !windows.screen().bounds().contains(point) {
            return None;
        }
        let hit = title_at(font, titles, point)?;
        let at = self.index_of(hit.menu)?;
        Some(Titled { at, hit })
    }

    /// The title that a point of the screen is on, if it is that of another menu than the pulled one.
    fn other_title(
        &self,
        windows: &WindowManager,
        pulled: PulledMenu,
        point: Point,
    ) -> Option<Titled>
        ensures value { result ≡ of_another pulled (indexed self.now.list.menus.items
            (title_under (⟦<WindowManager as DeskWindows>⟧.desk windows.now []) point)) }
        ensures within { IfSome result (λ t. t.at < length self.now.list.menus.items) }
        ensures near { IfSome result (λ t. (pos 0 ≤ℤ t.hit.left) × (t.hit.left ≤ℤ pos 1200000)) }
    {
        match self.title_under(windows, point) {
            Some(title) if title.hit.menu != pulled.menu => Some(title),
            _ => None,
        }
    }

    /// The item of the pulled menu that a point of the screen is over, if it is one that can be chosen.
    fn item_under(&self, windows: &WindowManager, pulled: PulledMenu, point: Point) -> Option<u8>
        requires place { is_menu_place pulled.place ≡ true }
        requires size { is_menu_size pulled.size ≡ true }
        requires point { in_plane point ≡ true }
        ensures { result ≡ item_under (⟦<WindowManager as DeskWindows>⟧.desk windows.now []) pulled
            (⟦<Self as MenusOnStock>⟧.menus self.now) point }
    {
        let at = self.index_of(pulled.menu)?;
        let area = pulled_rect(pulled.place, pulled.size);
        if !windows.screen().bounds().contains(point) || !area.contains(point) {
            return None;
        }
        let listed = &self.list.menus[at];
        let font = windows.parts().font;
        listed
            .definition
            .choose(&listed.menu, font, seen_from(pulled.place, point))
    }

    /// Whether a point is a pixel of the screen that the menu has which is pulled down, if one is.
    pub fn has_point(&self, windows: &WindowManager, activity: Activity, point: Point) -> bool
        requires { IsPlaced activity }
        ensures { result ≡ is_pulled_at (⟦<WindowManager as DeskWindows>⟧.desk windows.now [])
            (pulled_of activity (⟦<Self as MenusOnStock>⟧.menus self.now)) point }
    {
        match activity {
            Activity::Pulling(pulled) => self.is_over(windows, pulled, point),
            _ => false,
        }
    }

    /// Whether it is one of the pulled menu.
    fn is_over(&self, windows: &WindowManager, pulled: PulledMenu, point: Point) -> bool
        requires place { is_menu_place pulled.place ≡ true }
        requires size { is_menu_size pulled.size ≡ true }
        ensures { result ≡ is_pulled_at (⟦<WindowManager as DeskWindows>⟧.desk windows.now [])
            (pulled_of (Pulling pulled) (⟦<Self as MenusOnStock>⟧.menus self.now)) point }
    {
        match self.index_of(pulled.menu) {
            Some(_) => {
                windows.screen().bounds().contains(point)
                    && pulled_rect(pulled.place, pulled.size).contains(point)
            }
            None => false,
        }
    }

    /// Pulls a menu down below its title, which alone is highlighted then. No item is. Takes no memory.
    fn pull(
        &mut self,
        windows: &mut WindowManager,
        front: &mut Overlay,
        title: Titled,
    ) -> PulledMenu
        requires kept { ⟦<WindowManager as DeskWindows>⟧.IsKept windows.old }
        requires few { length self.old.list.menus.items ≤ 16 }
        requires at { title.at < length self.old.list.menus.items }
        requires near { (pos 0 ≤ℤ title.hit.left) × (title.hit.left ≤ℤ pos 1200000) }
        requires live { AreLive (⟦<Self as MenusOnStock>⟧.menus self.old) }
        requires width { front.old.front.width ≡ windows.old.screen.width }
        requires height { front.old.front.height ≡ windows.old.screen.height }
        ensures menus { self.new.list.menus ≡ self.old.list.menus }
        ensures highlighted { self.new.list.highlighted ≡ Some title.hit.menu }
        ensures alloc { self.new.alloc ≡ self.old.alloc }
        ensures bar { ⟦<WindowManager as DeskWindows>⟧.LeavesState
            (IsBarShown (titles_of (Some title.hit.menu) self.old.list.menus.items)) windows.old windows.new }
        ensures pulled { IfSome (slice_get self.old.list.menus.items title.at) (λ l.
            let listed = seen ⟦<TakenMenu as Defined>⟧.loan l in
            (result ≡ pulled_below (⟦<WindowManager as DeskWindows>⟧.desk windows.old [])
            (record { hit = title.hit; record_of = listed }))
            × IsShown windows.new.font (Some (as_pulled result listed)) windows.new.screen front.new.front) }
        ensures placed { (is_menu_place result.place ≡ true) × (is_menu_size result.size ≡ true) }
        ensures spared { windows.old.bar.titles ≡ titles_of self.new.list.highlighted self.new.list.menus.items
            → windows.new ≡ windows.old }
    {
        let pulled = self.below(windows, title);
        self.list.highlight(Some(title.hit.menu));
        self.show_titles(windows);
        self.show_pulled(windows, front, title.at, pulled);
        pulled
    }

    /// The menu of a title, where it lies below that.
    fn below(&self, windows: &WindowManager, title: Titled) -> PulledMenu
        requires kept { ⟦<WindowManager as DeskWindows>⟧.IsKept windows.now }
        requires at { title.at < length self.now.list.menus.items }
        requires near { (pos 0 ≤ℤ title.hit.left) × (title.hit.left ≤ℤ pos 1200000) }
        ensures pulled { IfSome (slice_get self.now.list.menus.items title.at) (λ l. result
            ≡ pulled_below (⟦<WindowManager as DeskWindows>⟧.desk windows.now [])
            (record { hit = title.hit; record_of = seen ⟦<TakenMenu as Defined>⟧.loan l })) }
        ensures placed { (is_menu_place result.place ≡ true) × (is_menu_size result.size ≡ true) }
    {
        let DeskView { width, font, .. } = windows.parts();
        let listed = &self.list.menus[title.at];
        let size = shown_size(&listed.menu, listed.definition.size(&listed.menu, font));
        PulledMenu {
            menu: title.hit.menu,
            place: pulled_place(width, title.hit.left, size),
            size,
            item: None,
        }
    }

    /// Takes the highlighting from every title where nothing was chosen.
    fn dim_unless(&mut self, choice: Option<Choice>)
        ensures menus { self.new.list.menus ≡ self.old.list.menus }
        ensures highlighted { self.new.list.highlighted ≡ (if is_none choice then None else self.old.list.highlighted) }
        ensures alloc { self.new.alloc ≡ self.old.alloc }
    {
        if choice.is_none() {
            self.list.highlight(None);
        }
    }

    /// The mouse button was pressed at a point of the screen.
    pub(crate) fn press_at(
        &mut self,
        windows: &mut WindowManager,
        front: &mut Overlay,
        activity: &mut Activity,
        point: Point,
    ) -> Result<MenuReply, Refusal>
        requires kept { ⟦<WindowManager as DeskWindows>⟧.IsKept windows.old }
        requires menus { ⟦<Self as MenusOnStock>⟧.AreKept activity.old self.old }
        requires front { ⟦<Self as DeskMenus>⟧.IsFront activity.old windows.old self.old front.old }
        requires idle { activity.old ≡ Idle }
        ensures step { (begun : PixelSet) → ⟦<Self as DeskMenus>⟧.Leaves
            (IsMenuStep (asks.Down point) result)
            windows.old (opened activity.old begun) self.old windows.new (opened activity.new begun) self.new }
        ensures front { ⟦<Self as DeskMenus>⟧.IsFront activity.new windows.new self.new front.new }
        ensures spared { windows.old.bar.titles ≡ titles_of self.new.list.highlighted self.new.list.menus.items
            → windows.new ≡ windows.old }
    {
        if !point.is_in_range() {
            return Err(Refusal::OutOfRange);
        }
        match self.title_under(windows, point) {
            Some(title) => {
                *activity = Activity::Pulling(self.pull(windows, front, title));
                Ok(MenuReply::Pulled(Some(title.hit.menu)))
            }
            None => Ok(MenuReply::Pulled(None)),
        }
    }

    /// The mouse is at a point of the screen while a menu is pulled down.
    pub(crate) fn move_to(
        &mut self,
        windows: &mut WindowManager,
        front: &mut Overlay,
        activity: &mut Activity,
        pulled: PulledMenu,
        point: Point,
    ) -> Result<MenuReply, Refusal>
        requires kept { ⟦<WindowManager as DeskWindows>⟧.IsKept windows.old }
        requires menus { ⟦<Self as MenusOnStock>⟧.AreKept activity.old self.old }
        requires front { ⟦<Self as DeskMenus>⟧.IsFront activity.old windows.old self.old front.old }
        requires pulling { activity.old ≡ Pulling pulled }
        ensures step { (begun : PixelSet) → ⟦<Self as DeskMenus>⟧.Leaves
            (IsMenuStep (asks.Move point) result)
            windows.old (opened activity.old begun) self.old windows.new (opened activity.new begun) self.new }
        ensures front { ⟦<Self as DeskMenus>⟧.IsFront activity.new windows.new self.new front.new }
        ensures spared { windows.old.bar.titles ≡ titles_of self.new.list.highlighted self.new.list.menus.items
            → windows.new ≡ windows.old }
    {
        if !point.is_in_range() {
            return Err(Refusal::OutOfRange);
        }
        match self.other_title(windows, pulled, point) {
            Some(title) => {
                self.dim_pulled(pulled);
                *activity = Activity::Pulling(self.pull(windows, front, title));
                Ok(MenuReply::Item(None))
            }
            None => {
                let item = self.item_under(windows, pulled, point);
                self.tell(front, windows.parts().font, pulled, item);
                *activity = Activity::Pulling(PulledMenu { item, ..pulled });
                Ok(MenuReply::Item(item))
            }
        }
    }

    /// The mouse button was released at a point of the screen while a menu is pulled down.
    pub(crate) fn release_at(
        &mut self,
        windows: &mut WindowManager,
        activity: &mut Activity,
        pulled: PulledMenu,
        point: Point,
    ) -> Result<MenuReply, Refusal>
        requires kept { ⟦<WindowManager as DeskWindows>⟧.IsKept windows.old }
        requires menus { ⟦<Self as MenusOnStock>⟧.AreKept activity.old self.old }
        requires pulling { activity.old ≡ Pulling pulled }
        ensures step { (begun : PixelSet) → ⟦<Self as DeskMenus>⟧.Leaves
            (IsMenuStep (asks.Up point) result)
            windows.old (opened activity.old begun) self.old windows.new (opened activity.new begun) self.new }
        ensures front { (front : FrontMap)
            → ⟦<Self as DeskMenus>⟧.IsFront activity.old windows.old self.old front
            → ⟦<Self as DeskMenus>⟧.IsFront activity.new windows.new self.new front }
        ensures spared { windows.old.bar.titles ≡ titles_of self.new.list.highlighted self.new.list.menus.items
            → windows.new ≡ windows.old }
    {
        if !point.is_in_range() {
            return Err(Refusal::OutOfRange);
        }
        let choice = chosen(pulled, self.item_under(windows, pulled, point));
        self.dim_pulled(pulled);
        self.dim_unless(choice);
        self.show_titles(windows);
        *activity = Activity::Idle;
        Ok(MenuReply::Chosen(choice))
    }
}
