//! The interfaces of definitions, and the stock that they wait in.
//!
//! A definition is the code behind a kind of window, control, menu or list (*Inside Macintosh* I, "The Window Manager",
//! "The Control Manager" and "The Menu Manager", "Defining Your Own ..."; IV, "The List Manager Package"): it answers which
//! pixels belong to a thing of some size, which of its parts a point lies in, and it draws it. The program makes its
//! definitions, and hands them in as boxes of the traits `WindowDef`, `ControlDef`, `MenuDef` and `ListDef`. The Toolbox knows
//! no more of a box than the value that the trait's contract gives it (`WindowDefinition`, `ControlDefinition`, `MenuDefinition`,
//! `ListDefinition` in specs): its stage, what is a function of the size alone, as its regions, and its picture, which is
//! asked with a font, the desk's: at each point it has a value in each font. Points are local to the window, control, menu or
//! list cell, whose content or rectangle begins at 0 0.
//!
//! A definition's life has three stages. It is Fresh when it is made. `begin` makes it Live, and from then on it can draw, and
//! can be told of changes: of a window its size, title, highlighting, go-away box with its tracking, and zoom state; of a
//! control its size, title, setting and highlighting; of a menu which item is highlighted; of a list the size of its cells and
//! whether empty ones are highlighted. Each change is answered by a rectangle outside which the picture stayed as it was, in
//! every font and within the range of coordinates. What it was told last of each of these is part of its meaning, and it
//! forgets nothing of it. `dispose` makes it Closed, and Closed it remains: nothing is made with it again.
//!
//! What holds of a definition of whichever kind is said once, of `Held`: it has a meaning, of which its stage is a part, and it
//! can be disposed of. So there is one stock for things of a kind, `Slots`, one definition out of its slot, `Taken`, and one way
//! to end its use, `put_away`.
//!
//! Definitions wait in a `Stock`, which has such slots for each of the four: `WindowStock`, `ControlStock`, `ListStock` and
//! `MenuStock`. A slot is for a kind that goes by its name, and several slots may be for one kind. `take` gives the first
//! Fresh definition of a kind, in the order in which the slots were added, and leaves its slot empty. What it gives, a
//! `TakenWindow` or its like, has the box together with the number of its slot. So in a stock whose boxes come back to it each
//! slot has one definition for good, whether that is in it or out: the box goes back to the very place that it left, and
//! putting it back takes no memory and cannot fail. A Closed definition is put back too. Its slot is then still one of the
//! kind, which is how a kind that is used up differs from one that never was.
//!
//! A definition draws on a `draw_port::Canvas`, by any of its calls: fills, images, texts, operations and whole pictures. The
//! canvas carries the font of the picture, and its own coordinates are those local to what is drawn. The definition gives each
//! pixel of the canvas its value, also white ones: nothing of what stood there shows through. Of a window definition's picture
//! the desk shows the frame's pixels alone, so such a definition may fill all of the canvas and put the rest on top, whatever
//! that gives to pixels outside its frame.
//!
//! One law says what being told is for: once a window's definition is told all there is to tell, what it shows is a function of
//! that alone, whatever it was told before.
//!
//! Modules: `size` has sizes, `lines` the lines of windows' outlines; `window_def`, `control_def`, `menu_def` and
//! `list_def` the traits; `keeping` and `control_keeping` what most definitions keep of what they are told; `held` what holds
//! of all definitions, `slots` and `stock` the slots; `taken` the definition out of its slot, and `taken_..` what one of each
//! trait answers there; `closing` the end of its use; `laws` the law.
#![tactic(auto)]

mod closing;
mod control_def;
mod control_keeping;
mod held;
mod keeping;
pub mod laws;
mod lines;
mod list_def;
mod menu_def;
mod size;
mod slots;
mod stock;
mod taken;
mod taken_control;
mod taken_list;
mod taken_menu;
mod taken_window;
mod window_def;

pub use closing::put_away;
pub use control_def::{ControlChange, ControlDef};
pub use control_keeping::KeptControl;
pub use held::Held;
pub use keeping::Flags;
pub use lines::{NO_LINE, frame_lines};
pub use list_def::{ListChange, ListDef};
pub use menu_def::{MenuChange, MenuDef};
pub use size::Size;
pub use slots::{Returned, Slots, Stocked};
pub use stock::{Stock, StockedAll};
pub use taken::{Defined, Taken};
pub use taken_control::{ControlStock, TakenControl};
pub use taken_list::{ListStock, TakenList};
pub use taken_menu::{MenuStock, TakenMenu};
pub use taken_window::{TakenWindow, WindowStock};
pub use window_def::{Hit, Stage, WindowChange, WindowDef, WindowRegions};
