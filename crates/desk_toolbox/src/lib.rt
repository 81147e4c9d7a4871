//! The Toolbox: a desk, and the calls of all its managers, one by one and in a row.
//!
//! A `Call` says which manager it is for. What each does, its manager says (`window_mgr` for windows, `window_update` for
//! update regions, `window_frame` for titles, highlighting and go-away boxes, `window_outline` for outlines, `control_mgr` for
//! controls, `list_mgr` for lists, `text_mgr` for text records, `menu_mgr` for menus, `event_queue` for events); here steps are strung together (`Run`). What
//! follows of every step and run, `desk_laws` says.
//!
//! At most one thing is open at a time. Whether a call may come then, one table says for every call (`desk_call`'s `gate`):
//! Busy where it has to wait, NotBusy where what it goes on with is not open. A call that may not come is still refused first
//! for what is wrong with it alone: a name that no table has, or bytes without their form.
//!
//! The screen is the windows', and a map in front of it while a menu is pulled down or a window is dragged or grown. That map is
//! the Toolbox's own: the managers that show something on it are lent it, and `IsFrontRight` says what it shows.
//!
//! Definitions live outside, in a `Stock` that each call is handed; `Toolbox::close` puts them back Closed. Contracts see the
//! two together, as the members of `Desk` say.
#![tactic(auto)]

mod answering;
mod contents;
mod desk;
mod events;
mod outlining;
mod toolbox;

pub use answering::form_refusal_of;
pub use contents::Contents;
pub use desk::Desk;
pub use desk_call::{
    Activity, AppendItems, AreaRef, Call, CheckItem, Choice, ClickText, ControlCall, ControlInfo,
    ControlNumber, ControlOf, ControlReply, ControlTitle, DragWindow, DraggedWindow, Drawing,
    EventCall, EventReply, FlushEvents, Found, FoundControl, FrameCall, FrameReply, GoAwayPoint,
    GrowWindow, GrownWindow, HiliteWindow, InsertMenu, ItemOfMenu, ItemText, LayerDraw, LayerKind,
    ListCall, ListReply, MenuCall, MenuReply, MoveControl, MoveWindow, NewControl, NewMenu,
    NewPicture, NewText, NewTitle, NewWindow, OutlineCall, OutlineReply, PictureRef, PlaceText,
    PointAtControl, PointInText, PointInWindow, PostEvent, PulledMenu, Reply, ScrollPicture,
    ScrollText, SelectText, SelectedText, SendBehind, ShowHide, SizeControl, SizeLimits,
    SizeWindow, TextBytes, TextCall, TextFlag, TextInfo, TextNumber, TextOf, TextPlace, TextReply,
    TrackedControl, UpdateCall, WindowArea, WindowCall, WindowInfo, WindowPart, WindowReply, Zoom,
    ZoomWindow,
};
pub use toolbox::Toolbox;
pub use window_mgr::NotBegun;
