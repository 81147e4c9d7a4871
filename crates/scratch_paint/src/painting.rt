//! Painting back to front.
ghost use Rattle.std.specs.Prelude.{◌≡◌, pos, true, [], map, All, IfOk, OnOk};
ghost use Rattle.tb_geom.specs.Pixels.{holds};
ghost use Rattle.bit_blit.specs.Draws.{Draws};
ghost use Rattle.desk_ground.specs.Screens as screens;
ghost use Rattle.desk_call.specs.Outlines.{IsOutlineKept};
ghost use Rattle.vis_update.specs.Records.{record_of};
ghost use Rattle.window_mgr.specs.Records.{desk_showing};
ghost use Rattle.window_mgr.specs.Whole.{IsSettled};
ghost use Rattle.menu_mgr.specs.WholeMenus.{AreLive, IsPlaced, menus_of};
ghost use Rattle.desk_toolbox.specs.Boxed.{no_slots};
ghost use Rattle.scratch_paint.specs.Paints.{IsPaintedDesk, look_in, windows_value};
ghost use Rattle.scratch_paint.specs.Screens.{IsFrontPainted, IsPaintedScreen};

use crate::windows::paint_window;
use bit_map::BitMap;
use def_iface::{Defined, TakenMenu, TakenWindow};
use desk_ground::{Ground, draw_bar, empty_ground};
use desk_toolbox::{Activity, Desk, Toolbox};
use menu_mgr::Menus;
use overlay::draw_outline;
use scan_region::Region;
use std::alloc::{AllocError, Global};
use strike_font::Font;
use tb_geom::Refusal;
use window_list::WindowList;
use window_mgr::{DeskView, DeskWindows, WindowManager};
use window_paint::Showing;

/// A new map, of the size of the screen, with the whole desk painted from nothing, back to front: what the windows, the menu
/// bar and the desktop show, controls, lists and text records among that, and over it the menu that is pulled down, or the
/// outline of a window that is dragged or grown. It reads neither the screen's pixels nor any region that the Toolbox keeps.
pub fn paint(alloc: Global, toolbox: &Toolbox) -> Result<BitMap, AllocError>
    requires { ⟦<Toolbox as Desk>⟧.IsDrawable toolbox.now }
    ensures { IfOk result (IsPaintedScreen (⟦<Toolbox as Desk>⟧.state_over toolbox.now no_slots)) }
{
    let windows = toolbox.windows();
    let mut image = paint_base(alloc, windows, &toolbox.contents())?;
    let parts = windows.parts();
    paint_front(
        &mut image,
        parts.font,
        parts.bar,
        toolbox.menus(),
        toolbox.activity(),
    );
    Ok(image)
}

/// Draws the menu that is pulled down, if one is, over a base image, or the outline of a window that is dragged or grown, which
/// leaves the first `bar` rows. It takes no memory.
fn paint_front(map: &mut BitMap, font: &Font, bar: i32, menus: &Menus, activity: Activity)
    requires live { AreLive (menus_of ⟦<TakenMenu as Defined>⟧.loan menus.now.list.menus.items) }
    requires placed { IsPlaced activity }
    requires outline { IsOutlineKept activity }
    ensures { IsFrontPainted font.now bar activity
        (menus_of ⟦<TakenMenu as Defined>⟧.loan menus.now.list.menus.items) map.old map.new }
{
    match activity {
        Activity::Pulling(pulled) => menus.paint_pulled(map, font, pulled),
        Activity::Dragging(dragged) => draw_outline(map, bar, &dragged.outline),
        Activity::Growing(grown) => draw_outline(map, bar, &grown.outline),
        _ => {}
    }
}

/// The same without what lies in front: the base image, where controls, lists and text records show what `layers` says.
fn paint_base<S: Showing>(
    alloc: Global,
    windows: &WindowManager,
    layers: &S,
) -> Result<BitMap, AllocError>
    requires sides { screens.is_screen (pos windows.now.screen.width) (pos windows.now.screen.height) windows.now.bar.rows
        ≡ true }
    requires settled { All IsSettled (map (record_of ⟦<TakenWindow as Defined>⟧.loan) windows.now.windows.records.items) }
    requires layers { S.is_whole layers.now }
    ensures { IfOk result (IsPaintedDesk
        (desk_showing (S.shows layers.now) (⟦<WindowManager as DeskWindows>⟧.desk windows.now []))) }
{
    let DeskView {
        width,
        height,
        bar,
        titles,
        font,
        windows,
    } = windows.parts();
    let Ground { screen, gray, .. } = match empty_ground(alloc, width, height, bar) {
        Ok(ground) => ground,
        Err(Refusal::NoMemory) => return Err(AllocError),
        Err(_) => unreachable!(),
    };
    let mut image = screen;
    paint_windows(alloc, &mut image, &gray, windows, layers, font)?;
    draw_bar(&mut image, bar, font, titles);
    Ok(image)
}

/// Paints the visible windows on the gray region, the rearmost first.
fn paint_windows<S: Showing>(
    alloc: Global,
    image: &mut BitMap,
    gray: &Region,
    windows: &WindowList,
    layers: &S,
    font: &Font,
) -> Result<(), AllocError>
    requires settled { All IsSettled (map (record_of ⟦<TakenWindow as Defined>⟧.loan) windows.now.records.items) }
    requires layers { S.is_whole layers.now }
    ensures { OnOk result (Draws (holds gray.now)
        (windows_value (look_in (S.shows layers.now) font.now)
        (map (record_of ⟦<TakenWindow as Defined>⟧.loan) windows.now.records.items))
        image.old image.new) }
{
    for at in (0..windows.len()).rev() {
        paint_window(alloc, image, gray, windows.at(at), layers, font)?;
    }
    Ok(())
}
