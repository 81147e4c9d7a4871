//! What is done with pairs of regions.

use crate::random::{Random, Sides};
use crate::sums::{plus, plus_box, plus_span, plus_spans};
use scan_region::{Cut, Region};
use std::alloc::{AllocError, Global};
use test_pixels::rect;

/// How many pairs of regions there are.
const PAIRS: usize = 12;

/// What is done with a pair of regions.
#[derive(Clone, Copy)]
pub enum What {
    Union,
    Sect,
    Diff,
    Xor,
    Copy,
    Less,
    CutTo,
    Spans,
    SpansUp,
    Meets,
    Cut,
    None,
}

impl What {
    /// The one of this name. It is looked up before the first round, so that no round looks for it.
    pub fn named(name: &str) -> Option<What> {
        Some(match name {
            "union" => What::Union,
            "sect" => What::Sect,
            "diff" => What::Diff,
            "xor" => What::Xor,
            "copy" => What::Copy,
            "less" => What::Less,
            "cut_to" => What::CutTo,
            "spans" => What::Spans,
            "spans_up" => What::SpansUp,
            "meets" => What::Meets,
            "cut" => What::Cut,
            "none" => What::None,
            _ => return None,
        })
    }
}

/// Two regions.
#[derive(Drop)]
pub struct Pair {
    first: Region,
    second: Region,
}

/// Walks a region from the bottom.
fn walked_up(region: &Region, from: u32) -> u32 {
    let mut sum = from;
    for span in region.spans_up() {
        sum = plus_span(sum, span);
    }
    sum
}

/// Walks what a cut leaves of a rectangle.
fn walked_cut(cut: &Cut<'_>, right: i32, bottom: i32, from: u32) -> u32 {
    let mut sum = from;
    for span in cut.spans_within(rect!(0, 0, right, bottom)) {
        sum = plus_span(sum, span);
    }
    sum
}

/// The cut of one region, or of none.
fn cut_of(region: Option<&Region>) -> Cut<'_> {
    Cut {
        inside: [region, None, None],
        outside: None,
    }
}

/// Does it once.
fn one_round(alloc: Global, what: What, pair: &Pair, sum: u32) -> Result<u32, AllocError> {
    let (a, b) = (&pair.first, &pair.second);
    Ok(match what {
        What::Union => plus_box(sum, a.union(alloc, b)?.bbox()),
        What::Sect => plus_box(sum, a.sect(alloc, b)?.bbox()),
        What::Diff => plus_box(sum, a.diff(alloc, b)?.bbox()),
        What::Xor => plus_box(sum, a.xor(alloc, b)?.bbox()),
        What::Copy => plus_box(sum, a.copy(alloc)?.bbox()),
        What::Spans => plus_spans(sum, a),
        What::SpansUp => walked_up(a, sum),
        What::Meets => plus(sum, i32::from(a.meets_rect(b.bbox()))),
        What::Cut => walked_cut(&cut_of(Some(a)), 1024, 1024, sum),
        What::None => walked_cut(&cut_of(None), 512, 342, sum),
        What::Less => plus_box(sum, a.copy(alloc)?.less(alloc, b)?.bbox()),
        What::CutTo => plus_box(sum, a.copy(alloc)?.cut_to(alloc, b)?.bbox()),
    })
}

/// The pairs of regions, each of so many rectangles.
pub fn pairs(alloc: Global, rectangles: u32) -> Result<Vec<Pair>, AllocError> {
    let mut random = Random::new();
    let mut pairs = Vec::new(alloc);
    for _ in 0..PAIRS {
        let first = random.region(alloc, Sides::Short, rectangles)?;
        let second = random.region(alloc, Sides::Short, rectangles)?;
        pairs.push(Pair { first, second })?;
    }
    Ok(pairs)
}

/// Does it in each round, with the next pair, and gives the checksum.
pub fn all_rounds(
    alloc: Global,
    pairs: &[Pair],
    what: What,
    rounds: u32,
) -> Result<u32, AllocError> {
    let mut sum = 1;
    for round in 0..rounds {
        if let Some(pair) = pairs.get((round % 12) as usize) {
            sum = one_round(alloc, what, pair, sum)?;
        }
    }
    Ok(sum)
}
