//! Combines and walks regions, and draws, so that it can be measured. `ground_bench regions ROUNDS RECTANGLES WHAT..` does each
//! WHAT in as many rounds as ROUNDS says, each time with the next of twelve pairs of regions of so many random rectangles.
//! `ground_bench drawings ROUNDS WHAT..` does each WHAT as many times. One may follow the other on one command line. A line for
//! each WHAT has a checksum, of what came of a drawing last. The program prints no time: it is to be timed from outside, by two
//! numbers of rounds, whose difference leaves out what both runs do once.
//!
//! `random` makes the regions, and `sums` the checksums. `pairs` has what is done with pairs of regions. `regions`, `shapes` and
//! `drawings` have what is done by the word `drawings`.
#![tactic(auto)]

mod drawings;
mod pairs;
mod random;
mod regions;
mod shapes;
mod sums;

use anyhow::{Context, Result, bail};
use pairs::{Pair, What};
use shapes::Made;
use std::alloc::Global;
use std::env;

const USAGE: &str =
    "ground_bench regions ROUNDS RECTANGLES WHAT.., or ground_bench drawings ROUNDS WHAT..";

/// What is done with regions.
const OF_REGIONS: &str =
    "WHAT is union, sect, diff, xor, copy, less, cut_to, spans, spans_up, meets, cut or none";

/// What is done by the word `drawings`.
const OF_DRAWINGS: &str =
    "WHAT is union, write, read, oval, ring, line, polygon, shift, text, fill, cut, frame, image, clipped or disk";

/// What the words that follow are done with.
#[derive(Drop)]
enum Bench {
    Regions(Vec<Pair>),
    Drawings,
}

impl Bench {
    /// The checksum of what comes of these rounds.
    fn measured(&self, alloc: Global, what: &str, rounds: u32) -> Result<u32> {
        Ok(match self {
            Bench::Regions(pairs) => {
                let what = What::named(what).context(OF_REGIONS)?;
                pairs::all_rounds(alloc, pairs.as_slice(), what, rounds)?
            }
            Bench::Drawings => drawn(alloc, what, rounds)?,
        })
    }
}

/// The checksum of what these rounds draw.
fn drawn(alloc: Global, what: &str, rounds: u32) -> Result<u32> {
    Ok(match what {
        "union" => regions::unite(alloc, rounds)?,
        "write" => regions::write(alloc, rounds)?,
        "read" => regions::read(alloc, rounds)?,
        "oval" => shapes::make(alloc, Made::Oval, rounds)?,
        "ring" => shapes::make(alloc, Made::Ring, rounds)?,
        "line" => shapes::make(alloc, Made::Line, rounds)?,
        "polygon" => shapes::make(alloc, Made::Polygon, rounds)?,
        "shift" => drawings::shift_all(alloc, rounds)?,
        "text" => drawings::draw_text(alloc, rounds)?,
        "fill" => drawings::fill_all(alloc, rounds)?,
        "cut" => drawings::fill_cut(alloc, rounds)?,
        "frame" => drawings::draw_frame(alloc, rounds)?,
        "image" => drawings::draw_image(alloc, rounds)?,
        "clipped" => drawings::fill_clipped(alloc, rounds)?,
        "disk" => drawings::fill_oval(alloc, rounds)?,
        _ => bail!(OF_DRAWINGS),
    })
}

/// The number that a word of the command line says.
fn number(word: Option<String>) -> Result<u32> {
    word.context(USAGE)?.parse::<u32>().context(USAGE)
}

fn main(rt: HostRuntime) -> Result<()> {
    let alloc = rt.alloc();
    let mut words = env::args(&rt)?.skip(1);
    let (mut bench, mut rounds) = (None, 0);
    for _ in 0..u64::MAX {
        let Some(word) = words.next() else {
            break;
        };
        if word.as_str() == "regions" {
            rounds = number(words.next())?;
            let rectangles = number(words.next())?;
            bench = Some(Bench::Regions(pairs::pairs(alloc, rectangles)?));
        } else if word.as_str() == "drawings" {
            rounds = number(words.next())?;
            bench = Some(Bench::Drawings);
        } else {
            let sum = bench
                .as_ref()
                .context(USAGE)?
                .measured(alloc, &word, rounds)?;
            println!(rt; "{word} {sum}")?;
        }
    }
    Ok(())
}
