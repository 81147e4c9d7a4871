//! The program `desk` over a kind of window, a kind of control, a kind of menu and a kind of list that are not its own: a script
//! comes in on standard input, and what each of its lines answers goes out, with the check of the screen at the end.
//!
//! Each kind of window that a script can name is the hollow one here (`hollow_window`), whose structure has a hole and whose
//! content has two parts, each kind of control is the ring (`ring_control`), whose region has a hole between two parts, each menu
//! is a strip (`strip_menu`), whose items stand side by side, and each list is a gauge (`gauge_list`), whose cells show bars. So
//! every script runs, and `tests/own-kind` sees that it is answered as it has to be whatever windows, controls, menus and lists
//! are.
#![tactic(auto)]

mod gauge_list;
mod hollow_window;
mod ring_control;
mod ring_tables;
mod strip_menu;
mod tables;

use anyhow::{Result, bail};
use def_iface::{ControlStock, ListStock, MenuStock, Stock, WindowStock};
use gauge_list::GaugeList;
use hollow_window::HollowWindow;
use ring_control::RingControl;
use script_runner::run;
use std::io;
use strip_menu::StripMenu;
use watched_io::{WatchedReader, WatchedWriter};

/// How many definitions of each kind of window the stock begins with.
const DEFINITIONS: u8 = 16;

/// How many of each kind of control.
const CONTROLS: u8 = 64;

/// How many of menus.
const MENUS: u8 = 32;

/// How many of each kind of list.
const LISTS: u8 = 16;

/// The names of the kinds of window, as scripts have them.
static WINDOW_KINDS: [&[u8]; 8] = [
    b"document",
    b"dialog",
    b"plain",
    b"shadow",
    b"nogrow",
    b"zoom",
    b"notched",
    b"round",
];

/// Those of the kinds of control.
static CONTROL_KINDS: [&[u8]; 5] = [b"button", b"check", b"radio", b"scroll", b"rbutton"];

/// Those of the kinds of list: the one of scripts, and one that is its own.
static LIST_KINDS: [&[u8]; 2] = [b"text", b"gauge"];

fn main(rt: HostRuntime) -> Result<()> {
    let alloc = rt.alloc();
    let mut windows = WindowStock::new(alloc);
    for _ in 0..DEFINITIONS {
        for kind in &WINDOW_KINDS {
            let window = Box::new(alloc, HollowWindow::new())?;
            let Ok(()) = windows.add(kind, window) else {
                bail!("no memory for the stock");
            };
        }
    }
    let mut controls = ControlStock::new(alloc);
    for _ in 0..CONTROLS {
        for kind in &CONTROL_KINDS {
            let control = Box::new(alloc, RingControl::new())?;
            let Ok(()) = controls.add(kind, control) else {
                bail!("no memory for the stock");
            };
        }
    }
    let mut menus = MenuStock::new(alloc);
    for _ in 0..MENUS {
        let menu = Box::new(alloc, StripMenu::new())?;
        let Ok(()) = menus.add(b"menu", menu) else {
            bail!("no memory for the stock");
        };
    }
    let mut lists = ListStock::new(alloc);
    for _ in 0..LISTS {
        for kind in &LIST_KINDS {
            let list = Box::new(alloc, GaugeList::new())?;
            let Ok(()) = lists.add(kind, list) else {
                bail!("no memory for the stock");
            };
        }
    }
    let mut stock = Stock::new(alloc);
    stock.windows = windows;
    stock.controls = controls;
    stock.lists = lists;
    stock.menus = menus;
    let mut source = WatchedReader::new(rt.reader());
    let mut sink = WatchedWriter::new(io::writer(&rt));
    if let Err(refusal) = run(alloc, &mut source, &mut sink, &mut stock, None, false, true) {
        bail!("{refusal}");
    }
    Ok(())
}
