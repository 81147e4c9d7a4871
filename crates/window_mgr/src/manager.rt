//! What a window manager keeps, and how it begins.
ghost use Rattle.std.specs.Prelude.{◌≡◌, true, if◌then◌else◌, IfOk, IfErr, List, [], All, pos};
ghost use Rattle.def_iface.specs.WindowSlots.{WindowSlot, IsFull};
ghost use Rattle.desk_ground.specs.Screens as screens;

use crate::DeskWindows;
use bit_map::BitMap;
use desk_ground::{Ground, MenuBar, Titles, empty_ground};
use scan_region::Region;
use std::alloc::Global;
use strike_font::Font;
use tb_geom::Refusal;
use vis_update::Area;
use window_list::WindowList;

/// A desk: its screen, its windows, and what of them has to be drawn.
#[derive(Drop)]
pub struct WindowManager {
    pub(crate) alloc: Global,
    pub(crate) screen: BitMap,
    /// The menu bar: its rows and its titles.
    pub(crate) bar: MenuBar,
    /// The font of all texts.
    pub(crate) font: Font,
    /// The screen without the menu bar.
    pub(crate) gray: Region,
    /// What of that no window owns.
    pub(crate) desktop: Region,
    /// From front to back.
    pub(crate) windows: WindowList,
    /// Of each window, in the same order.
    pub(crate) areas: Vec<Area>,
}

/// A font that comes back, and why no desk was begun with it.
#[derive(Drop)]
pub struct NotBegun {
    pub refusal: Refusal,
    /// The font that was handed in.
    pub font: Font,
}

/// What painting a desk from nothing needs of it: neither what the screen shows, nor any region that is kept.
#[derive(Clone, Copy)]
pub struct DeskView<'a> {
    /// The sides of the screen.
    pub width: i32,
    pub height: i32,
    /// The rows of the menu bar.
    pub bar: i32,
    /// The titles in it.
    pub titles: &'a Titles,
    /// The font of all texts.
    pub font: &'a Font,
    /// From front to back.
    pub windows: &'a WindowList,
}

impl WindowManager {
    /// A desk without windows, which are to lie in this empty list, on a screen of `width` by `height`
    /// pixels whose first `bar` rows are the menu bar's: white, the last of them black. The rest is gray.
    /// Its texts are drawn in the font. OutOfRange where a side lies outside 8..=1024, or `bar` is neither 0 nor 20 or not less
    /// than the height; else NoMemory is the only refusal. A refusal gives the font back.
    pub fn new(
        alloc: Global,
        width: i32,
        height: i32,
        bar: i32,
        font: Font,
        windows: WindowList,
    ) -> Result<WindowManager, NotBegun>
        requires none { windows.records.items ≡ [] }
        requires active { windows.active ≡ None }
        requires first { windows.next ≡ Some 1 }
        ensures begun { IfOk result (λ t. (slots : List WindowSlot) → All IsFull slots
            → ⟦<Self as DeskWindows>⟧.IsEmpty width height bar font t slots) }
        ensures in_range { IfOk result (λ t. screens.is_screen width height bar ≡ true) }
        ensures refused { IfErr result (λ e. (e.font ≡ font)
            × (e.refusal ≡ (if screens.is_screen width height bar then Refusal.NoMemory else Refusal.OutOfRange))) }
    {
        let titles = Titles::new();
        match empty_ground(alloc, width, height, bar) {
            Ok(
                Ground {
                    screen,
                    gray,
                    desktop,
                },
            ) => Ok(WindowManager {
                alloc,
                screen,
                bar: MenuBar { rows: bar, titles },
                font,
                gray,
                desktop,
                windows,
                areas: Vec::new(alloc),
            }),
            Err(refusal) => Err(NotBegun { refusal, font }),
        }
    }

    /// The screen.
    pub fn screen(&self) -> &BitMap
        ensures { result.now ≡ self.now.screen }
    {
        &self.screen
    }

    /// Its windows.
    pub fn list(&self) -> &WindowList
        ensures { result.now ≡ self.now.windows }
    {
        &self.windows
    }

    /// What painting the desk from nothing needs of it.
    pub fn parts(&self) -> DeskView<'_>
        ensures width { result.width ≡ pos self.now.screen.width }
        ensures height { result.height ≡ pos self.now.screen.height }
        ensures bar { result.bar ≡ self.now.bar.rows }
        ensures titles { result.titles.now ≡ self.now.bar.titles }
        ensures font { result.font.now ≡ self.now.font }
        ensures windows { result.windows.now ≡ self.now.windows }
    {
        let bounds = self.screen.bounds();
        DeskView {
            width: bounds.right,
            height: bounds.bottom,
            bar: self.bar.rows,
            titles: &self.bar.titles,
            font: &self.font,
            windows: &self.windows,
        }
    }
}
