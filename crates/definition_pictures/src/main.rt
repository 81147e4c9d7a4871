//! Draws the standard controls, menus and lists in many sizes and states, each on a map of its own, and asks them which part a
//! point lies in, where a dragged thumb leads and which item a point chooses. It prints a line for each group of cases: what
//! they have in common, and a checksum of all that came of them. `tests/pictures` computes the same lines from the tables of
//! the looks, apart from this code.
#![tactic(auto)]

mod boxes;
mod cells;
mod checksum;
mod controls;
mod menus;
mod scrolls;
mod sizes;
mod tools;

use anyhow::Result;
use strike_font::Font;
use tools::Tools;

fn main(rt: HostRuntime) -> Result<()> {
    let font = Font::built_in(rt.alloc())?;
    let tools = Tools {
        alloc: rt.alloc(),
        font: &font,
    };
    boxes::print(&rt, tools)?;
    scrolls::print(&rt, tools)?;
    menus::print(&rt, tools)?;
    cells::print(&rt, tools)
}
