//! A desk of two windows that overlap, begun and called by a list. It prints what the calls answer, the screen after them, the
//! desk painted from nothing, whether each of two rectangles of a window is right, and what the stock has left after the desk's
//! end.
//!
//! So it shows what no clause says of `desk_toolbox` with the managers below it, of `desk_after` and of `scratch_paint`, and no
//! script does: that calls succeed where memory is not refused, in a list too; a picture that is given whole; which pixels are
//! right; and the desk painted from nothing. What it has to print was written by hand, from what the calls mean.
#![tactic(auto)]

mod calls;

use anyhow::{Result, bail};
use bit_map::BitMap;
use calls::{bar, calls};
use def_iface::Stock;
use desk_laws::desk_after::desk_after;
use desk_toolbox::Reply;
use scratch_paint::paint;
use std_wdef::{StdWindow, Variation};
use strike_font::Font;
use tb_geom::{Point, Rect, Refusal};

/// The columns of the content of window 1 that window 2 never covered.
const UNCOVERED: Rect = Rect {
    left: 0,
    top: 0,
    right: 3,
    bottom: 6,
};

/// Those over which it lay.
const COVERED: Rect = Rect {
    left: 3,
    top: 0,
    right: 6,
    bottom: 6,
};

/// Prints a line for each row of a map, with `#` for each black pixel.
fn print_map(rt: &impl Print, map: &BitMap) -> Result<()> {
    let bounds = map.bounds();
    for v in bounds.top..bounds.bottom {
        for h in bounds.left..bounds.right {
            let point = Point { h, v };
            let is_black = bounds.contains(point) && map.get(point);
            print!(rt; "{}", if is_black { '#' } else { '.' })?;
        }
        println!(rt)?;
    }
    Ok(())
}

/// Prints a line for each answer.
fn print_answers(rt: &impl Print, answers: Vec<Result<Reply, Refusal>>) -> Result<()> {
    for answer in answers {
        println!(rt; "{answer:?}")?;
    }
    Ok(())
}

fn main(rt: HostRuntime) -> Result<()> {
    let alloc = rt.alloc();

    // Two plain windows, and no more.
    let mut stock = Stock::new(alloc);
    let first = Box::new(alloc, StdWindow::new(Variation::Plain))?;
    let Ok(()) = stock.windows.add(b"plain", first) else {
        bail!("no memory for the stock");
    };
    let second = Box::new(alloc, StdWindow::new(Variation::Plain))?;
    let Ok(()) = stock.windows.add(b"plain", second) else {
        bail!("no memory for the stock");
    };

    let picture = bar(alloc)?;

    // A desk on a screen of 16 by 10 pixels, without a menu bar, which made the calls.
    let font = Font::built_in(alloc)?;
    let (mut desk, answers) = match desk_after(
        alloc,
        16,
        10,
        0,
        font,
        &calls(&picture),
        &mut stock,
    ) {
        Ok(after) => after,
        Err(refusal) => bail!("no desk: {refusal}"),
    };

    // Until the desk has ended nothing returns, so that its windows' definitions always go back into the stock.
    let answered = print_answers(&rt, answers);
    let shown = print_map(&rt, desk.screen());
    let painted = paint(alloc, &desk);
    let uncovered = desk.pixels_right(1, UNCOVERED);
    let covered = desk.pixels_right(1, COVERED);
    desk.close(&mut stock);
    answered?;
    shown?;

    // Where window 2 lay over window 1, nothing was drawn yet; the desk painted from nothing has all of the picture.
    print_map(&rt, &painted?)?;
    println!(rt; "{uncovered:?}")?;
    println!(rt; "{covered:?}")?;
    println!(rt; "{:?}", stock.windows.take(b"plain").err())?;
    Ok(())
}
