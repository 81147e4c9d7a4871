//! The program `desk` over a stock that fills the largest desk, so that it can be measured: a script comes in on standard input,
//! and what each of its lines answers goes out.
//!
//! There is a definition for each of 64 plain windows, and one for each of 64 buttons in each of them. It prints no time, and
//! no memory: it is to be measured from outside, as `tests/costs` does.
#![tactic(auto)]

use anyhow::{Result, bail};
use def_iface::{ControlStock, ListStock, MenuStock, Stock, WindowStock};
use script_runner::run;
use std::io;
use std_cdef::StdButton;
use std_wdef::{StdWindow, Variation};
use watched_io::{WatchedReader, WatchedWriter};

/// How many windows a desk may have.
const WINDOWS: u8 = 64;

/// How many controls a window may have.
const CONTROLS: u8 = 64;

fn main(rt: HostRuntime) -> Result<()> {
    let alloc = rt.alloc();
    let mut windows = WindowStock::new(alloc);
    let mut controls = ControlStock::new(alloc);
    for _ in 0..WINDOWS {
        let window = Box::new(alloc, StdWindow::new(Variation::Plain))?;
        let Ok(()) = windows.add(b"plain", window) else {
            bail!("no memory for the stock");
        };
        for _ in 0..CONTROLS {
            let button = Box::new(alloc, StdButton::new())?;
            let Ok(()) = controls.add(b"button", button) else {
                bail!("no memory for the stock");
            };
        }
    }
    let mut stock = Stock {
        windows,
        controls,
        lists: ListStock::new(alloc),
        menus: MenuStock::new(alloc),
    };
    let mut source = WatchedReader::new(rt.reader());
    let mut sink = WatchedWriter::new(io::writer(&rt));
    if let Err(refusal) = run(
        alloc,
        &mut source,
        &mut sink,
        &mut stock,
        None,
        false,
        false,
    ) {
        bail!("{refusal}");
    }
    Ok(())
}
