//! A first program over the library: a kind of window of its own, and a desk with two windows of that kind.
//!
//! `banner` has the definition of the kind. `main` fills a stock, makes a desk, asks it some things, prints its
//! answers and its screen, and ends it. That the desk and the stock fit each other, which each call requires, is
//! proved: `proofs/main` says why.
#![tactic(auto)]

mod banner;

use anyhow::{Result, bail};
use banner::Banner;
use def_iface::{Size, Stock};
use desk_toolbox::{Call, NewWindow, Reply, Toolbox, WindowCall};
use screen_pbm::write_p1;
use std::alloc::AllocError;
use std::io;
use strike_font::Font;
use tb_geom::{BytesRef, Point, Refusal};
use watched_io::WatchedWriter;

/// The call that makes a window. Its content, of 30 by 14 pixels, begins at this place of the screen.
fn window_at(h: i32, v: i32) -> Call<'static> {
    Call::Window(WindowCall::New(NewWindow {
        kind: BytesRef::new(b"banner"),
        place: Point { h, v },
        size: Size {
            width: 30,
            height: 14,
        },
        shown: true,
        go_away: false,
        title: BytesRef::new(b""),
    }))
}

/// The call that asks whose a point of the screen is.
fn find(h: i32, v: i32) -> Call<'static> {
    Call::Window(WindowCall::Find(Point { h, v }))
}

/// What the calls of a run answered.
type Answers = Vec<Result<Reply, Refusal>>;

/// Prints a line for each answer, where there was memory for them.
fn print_answers(rt: &impl Print, answers: Result<Answers, AllocError>) -> Result<()> {
    for answer in answers? {
        println!(rt; "{answer:?}")?;
    }
    Ok(())
}

fn main(rt: HostRuntime) -> Result<()> {
    let alloc = rt.alloc();

    // A window takes its definition out of a stock, by the name of the kind. So there is one box for each
    // window that we will make.
    let mut stock = Stock::new(alloc);
    let first = Box::new(alloc, Banner::new())?;
    let Ok(()) = stock.windows.add(b"banner", first) else {
        bail!("no memory for the stock");
    };
    let second = Box::new(alloc, Banner::new())?;
    let Ok(()) = stock.windows.add(b"banner", second) else {
        bail!("no memory for the stock");
    };

    // A desk on a screen of 64 by 64 pixels, of which the first 20 rows are the menu bar. Its texts are in the
    // built-in font; a refusal would give the font back.
    let font = Font::built_in(alloc)?;
    let mut desk = match Toolbox::new(alloc, 64, 64, 20, font) {
        Ok(desk) => desk,
        Err(not_begun) => bail!("no desk: {}", not_begun.refusal),
    };

    // Two windows, the second in front of the first, and three questions. A call that is refused changes
    // nothing, and its answer says why.
    let calls = [
        window_at(6, 32),
        window_at(24, 44),
        find(8, 28),
        find(30, 45),
        Call::Window(WindowCall::Front),
    ];
    let answered = print_answers(&rt, desk.run(&calls, &mut stock));

    // The screen, as an image in the plain PBM format.
    let mut output = WatchedWriter::new(io::writer(&rt));
    let shown = write_p1(&mut output, desk.screen());

    // The end of the desk: each definition goes back to its slot, used up. No line between the desk's beginning
    // and its end returns, so that the desk ends whatever the output does.
    desk.close(&mut stock);
    answered?;
    shown?;
    Ok(())
}
