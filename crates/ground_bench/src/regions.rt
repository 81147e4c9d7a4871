//! Regions of 100 random rectangles each.

use crate::random::{Random, Sides};
use crate::sums::{plus, plus_spans};
use scan_region::Region;
use std::alloc::{AllocError, Global};
use tb_geom::Refusal;

/// The region of the next 100 rectangles.
fn next_region(random: &mut Random, alloc: Global) -> Result<Region, AllocError> {
    random.region(alloc, Sides::Any, 100)
}

/// A number that tells bytes apart.
fn sum_of_bytes(bytes: &[u8]) -> u32 {
    let mut sum: u32 = 0;
    for byte in bytes {
        sum = plus(sum, i32::from(*byte));
    }
    sum
}

/// Unites two regions.
pub fn unite(alloc: Global, rounds: u32) -> Result<u32, AllocError> {
    let mut random = Random::new();
    let first = next_region(&mut random, alloc)?;
    let second = next_region(&mut random, alloc)?;
    let mut both = first.union(alloc, &second)?;
    for _ in 1..rounds {
        both = first.union(alloc, &second)?;
    }
    Ok(plus_spans(0, &both))
}

/// Writes the bytes of a region.
pub fn write(alloc: Global, rounds: u32) -> Result<u32, Refusal> {
    let region = next_region(&mut Random::new(), alloc)?;
    let mut bytes = region.to_bytes(alloc)?;
    for _ in 1..rounds {
        bytes = region.to_bytes(alloc)?;
    }
    Ok(sum_of_bytes(&bytes))
}

/// Makes a region of its bytes.
pub fn read(alloc: Global, rounds: u32) -> Result<u32, Refusal> {
    let bytes = next_region(&mut Random::new(), alloc)?.to_bytes(alloc)?;
    let mut region = Region::from_bytes(alloc, &bytes)?;
    for _ in 1..rounds {
        region = Region::from_bytes(alloc, &bytes)?;
    }
    Ok(plus_spans(0, &region))
}
