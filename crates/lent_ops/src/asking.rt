//! Regions that calls ask for: why they are refused, and their bytes.
ghost use Rattle.std.specs.Prelude.{◌≡◌, ◌⊎◌, ◌↔◌, true, false, IsTrue, MatchResult};
ghost use Rattle.region_bytes.specs.Text.{pixels_of};
ghost use Rattle.pixel_rows.specs.Told.{AreRegionBytes, IsNotTold};
ghost use Rattle.lent_ops.specs.Asked.{asked_holds, is_distance, IsGoodRegion, IsInset, IsMoved, IsRegionRefused};
ghost use Rattle.lent_ops.specs.Forms.{is_pen};
ghost use Rattle.lent_ops.specs.OpRefs.{HasForm, IsFormOutOfRange, IsRegion};

use crate::form_ref::{FormRef, PenRef};
use crate::judging::is_in_range;
use crate::region_ref::{Distance, RegionRef};
use pixel_rows::{can_move, combined_bytes, moved_bytes};
use region_bytes::RegionBytes;
use region_inset::{can_inset, frame_region_bytes, inset_bytes};
use std::alloc::Global;
use tb_geom::{BytesRef, Refusal};

impl RegionRef<'_> {
    /// Judges the region without memory. The refusal is the first of these that applies: BadSyntax where the bytes of a
    /// polygon are not four for each point; BadRegion where bytes have not the form of a region's; OutOfRange where a number of a shape leaves its range, a coordinate of a region or a distance lies
    /// outside -16384..=16383, or a pixel of a region that is moved or inset outside -16384..=16382; TooLong where a polygon has more than 1024 points.
    pub fn judge(&self) -> Result<(), Refusal>
        ensures { MatchResult result (λ _. IsGoodRegion self.now) (IsRegionRefused self.now) }
    {
        match self {
            RegionRef::Form(form) => judge_form(form),
            RegionRef::Rgn(bytes) => in_range(is_in_range(bytes)?),
            RegionRef::Offset(bytes, distance) => judge_moved(bytes, *distance),
            RegionRef::Inset(bytes, distance) => judge_inset(bytes, *distance),
            RegionRef::FrameRgn(bytes, pen) => judge_frame(bytes, *pen),
            RegionRef::Combined(_, first, second) => judge_both(first, second),
        }
    }

    /// The bytes of the region (*Inside Macintosh* I, "QuickDraw": the type `Region`), in the coordinate space of what it is
    /// made of. It refuses as `judge` does; as TooLong where the bytes would be more than 32766; and after that only for want
    /// of memory.
    pub fn to_bytes(&self, alloc: Global) -> Result<Vec<u8>, Refusal>
        ensures { MatchResult result
            (λ bytes. IsGoodRegion self.now × AreRegionBytes (asked_holds self.now) bytes.items)
            (λ e. IsRegionRefused self.now e ⊎ (IsGoodRegion self.now × IsNotTold (asked_holds self.now) e)) }
    {
        self.judge()?;
        match self {
            RegionRef::Form(form) => form.to_bytes(alloc),
            RegionRef::Rgn(bytes) => copied(alloc, bytes.as_slice()),
            RegionRef::Offset(bytes, distance) => {
                moved_bytes(alloc, &read(bytes), distance.dh, distance.dv)
            }
            RegionRef::Inset(bytes, distance) => {
                inset_bytes(alloc, &read(bytes), distance.dh, distance.dv)
            }
            RegionRef::FrameRgn(bytes, pen) => {
                frame_region_bytes(alloc, &read(bytes), pen.to_pen())
            }
            RegionRef::Combined(how, first, second) => {
                combined_bytes(alloc, *how, &read(first), &read(second))
            }
        }
    }
}

/// Judges a form.
fn judge_form(form: &FormRef) -> Result<(), Refusal>
    ensures { MatchResult result (λ _. IsGoodRegion (RegionRef.Form form.now)) (IsRegionRefused (RegionRef.Form form.now)) }
{
    if !form.has_points() {
        return Err(Refusal::BadSyntax);
    }
    if !form.is_near() {
        return Err(Refusal::OutOfRange);
    }
    if form.is_long() {
        return Err(Refusal::TooLong);
    }
    Ok(())
}

/// The bytes once more.
fn copied(alloc: Global, bytes: &[u8]) -> Result<Vec<u8>, Refusal>
    ensures { MatchResult result (λ copy. copy.items ≡ bytes.now) (λ e. e ≡ Refusal.NoMemory) }
{
    let mut copy = Vec::with_capacity(alloc, bytes.len())?;
    copy.extend_from_slice(bytes)?;
    Ok(copy)
}

/// OutOfRange where it is not.
fn in_range(is_in_range: bool) -> Result<(), Refusal>
    ensures { MatchResult result (λ _. is_in_range ≡ true) (λ e. (e ≡ Refusal.OutOfRange) × (is_in_range ≡ false)) }
{
    if is_in_range {
        Ok(())
    } else {
        Err(Refusal::OutOfRange)
    }
}

/// Judges the bytes of a region and how far it is moved.
fn judge_moved(bytes: &BytesRef, distance: Distance) -> Result<(), Refusal>
    ensures { MatchResult result (λ _. IsRegion bytes.now × IsMoved bytes.now distance)
        (λ e. ((e ≡ Refusal.BadRegion) × (HasForm bytes.now → ⊥))
        ⊎ ((e ≡ Refusal.OutOfRange) × (IsFormOutOfRange bytes.now ⊎ (IsRegion bytes.now × (IsMoved bytes.now distance → ⊥))))) }
{
    if !is_in_range(bytes)? {
        return Err(Refusal::OutOfRange);
    }
    in_range(may_move(bytes, distance))
}

/// Judges the bytes of a region and how far it is inset.
fn judge_inset(bytes: &BytesRef, distance: Distance) -> Result<(), Refusal>
    ensures { MatchResult result (λ _. IsRegion bytes.now × IsInset bytes.now distance)
        (λ e. ((e ≡ Refusal.BadRegion) × (HasForm bytes.now → ⊥))
        ⊎ ((e ≡ Refusal.OutOfRange) × (IsFormOutOfRange bytes.now ⊎ (IsRegion bytes.now × (IsInset bytes.now distance → ⊥))))) }
{
    if !is_in_range(bytes)? {
        return Err(Refusal::OutOfRange);
    }
    in_range(may_inset(bytes, distance))
}

/// Judges the bytes of a region and the pen that frames it.
fn judge_frame(bytes: &BytesRef, pen: PenRef) -> Result<(), Refusal>
    ensures { MatchResult result (λ _. IsRegion bytes.now × (is_pen pen ≡ true))
        (λ e. ((e ≡ Refusal.BadRegion) × (HasForm bytes.now → ⊥))
        ⊎ ((e ≡ Refusal.OutOfRange) × (HasForm bytes.now × (IsFormOutOfRange bytes.now ⊎ (is_pen pen ≡ false))))) }
{
    let is_in_range = is_in_range(bytes)?;
    in_range(is_in_range & pen.is_near())
}

/// Judges the bytes of two regions.
fn judge_both(first: &BytesRef, second: &BytesRef) -> Result<(), Refusal>
    ensures { MatchResult result (λ _. IsRegion first.now × IsRegion second.now)
        (λ e. ((e ≡ Refusal.BadRegion) × ((HasForm first.now → ⊥) ⊎ (HasForm second.now → ⊥)))
        ⊎ ((e ≡ Refusal.OutOfRange) × ((HasForm first.now × HasForm second.now)
        × (IsFormOutOfRange first.now ⊎ IsFormOutOfRange second.now)))) }
{
    let first = is_in_range(first)?;
    let second = is_in_range(second)?;
    in_range(first & second)
}

/// The region of bytes that were judged.
fn read<'a>(bytes: &BytesRef<'a>) -> RegionBytes<'a>
    requires { IsRegion bytes.now }
    ensures { result ≡ pixels_of bytes.now }
{
    match RegionBytes::read(bytes.as_slice()) {
        Ok(region) => region,
        Err(_) => unreachable!(),
    }
}

/// Whether a region of these bytes may be moved so far: both numbers lie in -16384..=16383, and each moved pixel in
/// -16384..=16382.
fn may_move(bytes: &BytesRef, distance: Distance) -> bool
    requires { IsRegion bytes.now }
    ensures { IsTrue result ↔ IsMoved bytes.now distance }
{
    let Distance { dh, dv } = distance;
    distance.is_near() && can_move(&read(bytes), dh, dv)
}

/// Whether a region of these bytes may be inset so far: both numbers lie in -16384..=16383, and each pixel of what that
/// gives in -16384..=16382.
fn may_inset(bytes: &BytesRef, distance: Distance) -> bool
    requires { IsRegion bytes.now }
    ensures { IsTrue result ↔ IsInset bytes.now distance }
{
    let Distance { dh, dv } = distance;
    distance.is_near() && can_inset(&read(bytes), dh, dv)
}

impl Distance {
    /// Whether both numbers lie in -16384..=16383.
    fn is_near(self) -> bool
        ensures { result ≡ is_distance self }
    {
        (-16384 <= self.dh && self.dh <= 16383) && (-16384 <= self.dv && self.dv <= 16383)
    }
}
