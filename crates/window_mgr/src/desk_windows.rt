//! A window manager over its stock, as contracts see the two.
ghost use Rattle.std.specs.Prelude.{ℕ, ℤ, List};
ghost use Rattle.tb_geom.specs.Points.{PixelSet};
ghost use Rattle.desk_layers.specs.declared.part.Part.{Part};
ghost use Rattle.def_iface.specs.WindowSlots.{WindowSlot};
ghost use Rattle.window_mgr.specs.Boxed as boxed;
ghost use Rattle.window_mgr.specs.DeskStates.{DeskState, Opened};
ghost use Rattle.window_mgr.specs.FullDesk.{FullDesk, FullState};

use crate::WindowManager;
use def_iface::{WindowDef, WindowStock};

/// The windows of a desk over the stock that their definitions come from, as contracts see the two. Where a clause speaks
/// of any stock, it names the same over slots.
pub trait DeskWindows {
    /// What their definitions come from.
    type Stock;
    /// The boxes that their definitions lie in: what these mean, the members say.
    type Boxes;

    /// The desk over slots, as plain data.
    ghost desk: { Self → List WindowSlot → FullDesk };

    /// Its state: the desk, what is to be redrawn, and the screen.
    ghost state: { Self → Self.Stock → FullState };

    /// Its state over slots.
    ghost state_over: { Self → List WindowSlot → FullState };

    /// It and the stock are whole, as they are between calls: what is kept agrees with the desk.
    ghost IsWhole: { Self → Self.Stock → Type 0 };

    /// It is whole over slots.
    ghost IsWholeOver: { Self → List WindowSlot → Type 0 };

    /// It is whole over some slots.
    ghost IsKept: { Self → Type 0 };

    /// It is a new desk, over slots: without windows, on a screen of this width and height, below a menu bar of so many
    /// rows, in this font.
    ghost IsEmpty: { ℤ → ℤ → ℤ → List ℕ → Self → List WindowSlot → Type 0 };

    /// Over any slots over which it is whole, it is whole afterwards too, and this holds of its states.
    ghost LeavesState: { (FullState → FullState → Type 0) → Self → Self → Type 0 };

    /// The same where controls, lists and text records show this.
    ghost LeavesShowing: { (List ℕ → Part → PixelSet) → (FullState → FullState → Type 0) → Self → Self → Type 0 };

    /// The same as `LeavesState`, of its states with what is open.
    ghost LeavesDesk: { (DeskState → DeskState → Type 0) → Self → Opened → Self → Opened → Type 0 };

    /// The same where controls, lists and text records show this.
    ghost LeavesDeskShowing: { (List ℕ → Part → PixelSet) → (DeskState → DeskState → Type 0)
        → Self → Opened → Self → Opened → Type 0 };
}

impl DeskWindows for WindowManager {
    type Stock = WindowStock;

    type Boxes = Box<dyn WindowDef>;

    ghost desk = { boxed.desk WindowDef-box };

    ghost state = { boxed.state WindowDef-box };

    ghost state_over = { boxed.state_over WindowDef-box };

    ghost IsWhole = { boxed.IsWhole WindowDef-box };

    ghost IsWholeOver = { boxed.IsWholeOver WindowDef-box };

    ghost IsKept = { boxed.IsKept WindowDef-box };

    ghost IsEmpty = { boxed.IsEmpty WindowDef-box };

    ghost LeavesState = { boxed.LeavesState WindowDef-box };

    ghost LeavesShowing = { boxed.LeavesShowing WindowDef-box };

    ghost LeavesDesk = { boxed.LeavesDesk WindowDef-box };

    ghost LeavesDeskShowing = { boxed.LeavesDeskShowing WindowDef-box };
}
