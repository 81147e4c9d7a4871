//! What the definitions of a region's rows and spans say of each other.
ghost use Rattle.std.specs.Prelude.{◌≡◌, ◌≢◌, ◌⊎◌, ◌<◌, ℕ, List, length, ℤ, pos, ◌-ℤ◌, All, IfOk, IfErr};
ghost use Rattle.tb_geom.specs.Pixels.{Pixels};
ghost use Rattle.region_bytes.specs.Bytes.{IsBad, IsTooLong};
ghost use Rattle.region_rows.specs.Edges.{differ, inside};
ghost use Rattle.region_rows.specs.Hull.{row_in};
ghost use Rattle.region_rows.specs.Rows.{AreRows, EdgeRow, has_in_rows};
ghost use Rattle.scan_region.specs.Scan.{IsScan};
ghost use Rattle.scan_region.specs.declared.spans.Span.{Span};

use crate::region::Region;
use std::alloc::Global;
use tb_geom::Refusal;

/// Rows of regions that have the same pixels are the same rows, point by point: a set of pixels is kept
/// in one way alone.
#[tactic(auto, using(region_rows::proofs::Plane::same_list))]
pub fn one_list_of_rows()
    ensures { (a b : List EdgeRow) → AreRows a → AreRows b
        → ((h v : ℤ) → has_in_rows a h v ≡ has_in_rows b h v) → a ≡ b }
{}

/// Between the rows of points nothing turns: a row without points has the columns of the row above it. A row
/// of points turns those columns at which, or left of which, an odd number of its points lies.
pub fn rows_turn_at_their_points()
    ensures without { (rows : List EdgeRow) (v : ℤ) → All (λ row. row.0 ≢ v) rows
        → (h : ℤ) → has_in_rows rows h v ≡ has_in_rows rows h (v -ℤ pos 1) }
    ensures points { (rows : List EdgeRow) (k : ℕ) → AreRows rows → k < length rows
        → (h : ℤ) → has_in_rows rows h (row_in rows k).0
        ≡ differ (has_in_rows rows h ((row_in rows k).0 -ℤ pos 1)) (inside (row_in rows k).1 h) }
{}

/// A set of pixels has one list of spans alone, whatever form it is kept in.
pub fn one_list_of_spans()
    ensures { (a b : List Span) (s : Pixels) → IsScan a s → IsScan b s → a ≡ b }
{}

/// A region that is written and read again is the same; it is refused only where its bytes would be too
/// long, or for want of memory.
pub fn written_and_read(alloc: Global, region: &Region) -> Result<Region, Refusal>
    ensures same { IfOk result (λ again. again ≡ region.now) }
    ensures refused { IfErr result (λ e.
        ((e ≡ Refusal.TooLong) × IsTooLong region.now) ⊎ (e ≡ Refusal.NoMemory)) }
{
    let bytes = region.to_bytes(alloc)?;
    Region::from_bytes(alloc, bytes.as_slice())
}

/// Bytes that are read and written again are the same; they are refused only where they are no region's,
/// or for want of memory.
pub fn read_and_written(alloc: Global, bytes: &[u8]) -> Result<Vec<u8>, Refusal>
    ensures same { IfOk result (λ again. again.items ≡ bytes.now) }
    ensures refused { IfErr result (λ e. IsBad bytes.now e ⊎ (e ≡ Refusal.NoMemory)) }
{
    let region = Region::from_bytes(alloc, bytes)?;
    region.to_bytes(alloc)
}
