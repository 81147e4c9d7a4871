//! A source that is read to its end.
ghost use Rattle.std.specs.Prelude.{◌≡◌, ◌++◌, List, ℕ, take, IfOk, OnOk, IfErr, false};
ghost use Rattle.watched_io.specs.Reads.{Input, IsOpen, IsEntire, IsKeptOf, IsNotHad};

use crate::source::{MOST_READS, Source};
use std::alloc::{AllocError, Global};
use tb_geom::Refusal;

/// The first `most` bytes of the source, or all where they are no more. The source is read to its end, and what is
/// not kept takes no memory. ReadFault exactly where a read fails, or 1,000,000 come without the end; NoMemory where
/// there is none to hold the bytes.
pub fn read_to_end<R: Source>(
    alloc: Global,
    source: &mut R,
    most: usize,
) -> Result<Vec<u8>, Refusal>
    requires unread { (R.input source.old).reads ≡ 0 }
    requires going { IsOpen (R.input source.old) }
    ensures whole { IfOk result (λ bytes. IsKeptOf most (IsEntire (R.input source.old) (R.input source.new))
        bytes.items) }
    ensures quiet { OnOk result ((R.input source.new).has_failed ≡ false) }
    ensures refused { IfErr result (IsNotHad (R.input source.old) (R.input source.new)) }
{
    let mut bytes = Vec::new(alloc);
    let mut buffer = [0u8; 4096];
    for read in 1..MOST_READS {
        let count = source.read_some(&mut buffer)?;
        if count == 0 {
            return Ok(bytes);
        }
        keep(&mut bytes, &buffer[..count], most)?;
    }
    // The last read that may be can only come to the end: bytes of it would take one more.
    match source.read_some(&mut buffer)? {
        0 => Ok(bytes),
        _ => Err(Refusal::ReadFault),
    }
}

/// Adds bytes to those that are kept, as long as they are no more than `most`.
fn keep(bytes: &mut Vec<u8>, more: &[u8], most: usize) -> Result<(), AllocError>
    ensures { (all : List ℕ) → bytes.old.items ≡ take most all
        → OnOk result (bytes.new.items ≡ take most (all ++ more.now)) }
{
    let room = most.saturating_sub(bytes.len());
    bytes.extend_from_slice(&more[..room.min(more.len())])
}
