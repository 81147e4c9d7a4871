//! The Window Manager: a desk of windows on one screen, and the calls that change it.
//!
//! What a desk is, `specs/` says as plain data, which stands nowhere in code: a `FullDesk` has the windows' records, from
//! front to back, each with the operations of its picture, and no region and no saved pixel. `Step` says what a call
//! leaves and answers (`IsWindowStep`): a call that nothing refuses has its effect; a refused one changes nothing, and its
//! answer is the first refusal of the written order whose condition holds (`Refused`), or NoMemory where none holds and
//! the call may ask for memory. There are few kinds of effect (`Effects`): a window is made or disposed of, an operation
//! is drawn, a picture is replaced or scrolled, windows are arranged, one is given another place or size, something is
//! told. How each call arranges the windows, and which becomes active, stands in `Arrange`.
//!
//! A `WindowManager` keeps more than the desk: the screen, and for each window the regions that its content and its frame
//! own on the screen and what of the content is not yet drawn (`Area`). `Records` reads the desk and its state off it;
//! `IsWholeManager` (in `Whole`) says that what is kept agrees with the desk. Every call keeps it.
//!
//! Definitions wait outside, in a `WindowStock` that each call is handed. A window's record holds its definition together
//! with the number of the slot that it came from. Where the window or the desk ends, the definition goes back there, Closed.
//! A call that leaves the stock alone is a step over any slots with which the windows are whole (`LeavesState`).
//! `DeskWindows` has the words of the contracts, for whoever calls: what the desk and its state are, and that it is whole.
//!
//! A call is judged and takes all its memory before the first change: its plan (`vis_update`) says what each window
//! will own and what changes on the screen, and `commit` draws it, whichever call it was made for. `arrange` puts one
//! window anew among the others, `size` gives one another size and `zoom` zooms it, `new_window` adds one,
//! `dispose_window` takes one out, `draw` draws in one, `repicture` replaces its picture or scrolls it, `frame` tells a
//! window's definition of a change and draws the frame anew. A scroll moves no window, so it has a plan of its own,
//! which `scrolling` draws. `update` is for the crate that redraws windows: it changes an update region, or draws what
//! is in it. `bar` shows other titles in the menu bar, which is drawn whole then. `relayering` gives a window other layers in
//! front of its picture, for whoever keeps its controls, lists and text records. What a window shows is drawn by
//! `window_paint`; which pixels it is drawn on is said here.
//!
//! `find` reads off the same regions whose a pixel is: its owner is the window whose visible content or frame has it.
//! There may be 64 windows.
#![tactic(auto)]

mod arrange;
mod arranging;
mod bar;
mod close;
mod commit;
mod desk_windows;
mod dispose_window;
mod draw;
mod find;
mod forms;
mod frame;
mod manager;
mod new_window;
mod perform;
mod relayering;
mod repicture;
mod scrolling;
mod size;
mod standing;
mod tell;
mod update;
mod zoom;

pub use desk_call::{
    Drawing, Found, MoveWindow, NewPicture, NewWindow, ScrollPicture, SendBehind, ShowHide,
    SizeWindow, WindowCall, WindowInfo, WindowPart, WindowReply, Zoom, ZoomWindow,
};
pub use desk_windows::DeskWindows;
pub use forms::form_refusal;
pub use manager::{DeskView, NotBegun, WindowManager};
