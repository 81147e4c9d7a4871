//! The end of a desk.
ghost use Rattle.std.specs.Prelude.{◌≡◌, All, map};
ghost use Rattle.vis_update.specs.Records.{record_of};
ghost use Rattle.window_mgr.specs.Whole.{IsSettled, IsStocked};
ghost use Rattle.window_mgr.specs.Closing.{IsClosed};

use crate::{DeskWindows, WindowManager};
use def_iface::{Defined, Stocked, TakenWindow, WindowStock, put_away};
use window_list::WindowList;

impl WindowManager {
    /// Ends the desk: the definition of every window is disposed of, and put back Closed into its
    /// slot, while every other slot stays as it was. Takes no memory, and refuses nothing.
    pub fn close(self, stock: &mut WindowStock)
        requires { ⟦<Self as DeskWindows>⟧.IsWhole self stock.old }
        ensures { IsClosed (⟦<Self as DeskWindows>⟧.desk self
            (⟦<WindowStock as Stocked>⟧.slots stock.old)).windows
            (⟦<WindowStock as Stocked>⟧.slots stock.old) (⟦<WindowStock as Stocked>⟧.slots stock.new) }
    {
        let WindowManager { windows, .. } = self;
        put_all_away(windows, stock);
    }
}

/// Ends the use of every window's definition.
fn put_all_away(windows: WindowList, stock: &mut WindowStock)
    requires settled { All IsSettled (map (record_of ⟦<TakenWindow as Defined>⟧.loan) windows.records.items) }
    requires stocked { IsStocked (map (record_of ⟦<TakenWindow as Defined>⟧.loan) windows.records.items)
        (⟦<WindowStock as Stocked>⟧.slots stock.old) }
    ensures { IsClosed (map (record_of ⟦<TakenWindow as Defined>⟧.loan) windows.records.items)
        (⟦<WindowStock as Stocked>⟧.slots stock.old) (⟦<WindowStock as Stocked>⟧.slots stock.new) }
{
    let mut windows = windows;
    while let Some(taken) = windows.next_box() {
        put_away(taken, stock);
    }
}
