//! The public calls: each wraps a function of the rows.
ghost use Rattle.std.specs.Prelude.{◌≡◌, true, false, ◌&&◌, ◌||◌, not, ◌↔◌, ℕ, List, ℤ, ◌≤ℤ◌, ◌<ℤ◌, IsTrue, IfOk};
ghost use Rattle.std.specs.Prelude.{IfErr, OnOk, OnErr, MatchResult, reverse};
ghost use Rattle.tb_geom.specs.declared.point.Point.{Point};
ghost use Rattle.tb_geom.specs.declared.rect.Rect.{Rect};
ghost use Rattle.tb_geom.specs.Points.{minus};
ghost use Rattle.tb_geom.specs.Rects.{rect_holds, is_in_range, IsBoxOf, empty_rect};
ghost use Rattle.tb_geom.specs.Pixels.{has, holds};
ghost use Rattle.region_bytes.specs.Points.{in_rows};
ghost use Rattle.region_rows.specs.Edges.{applied, differ};
ghost use Rattle.region_rows.specs.Rows.{AreRows};

use crate::bounds::Bounds;
use crate::boxed::{Boxed, is_rect, seen_rect};
use crate::cut::{alone, walk_meets};
use crate::spans::Spans;
use crate::spans_up::SpansUp;
use region_bytes::RegionBytes;
use region_rows::{
    Layer, Line, NOTHING, Operator, Row, combined_rows, copy_rows, form_rows, is_in_rows,
    meets_rows, move_rows, next_column, rect_of, rect_rows, rows_hull, same_rows, write_rows,
};
use std::alloc::{AllocError, Global};
use std::marker::Model;
use tb_geom::{Point, Rect, Refusal};

/// A finite set of pixels, in the coordinate space of the call that uses it.
#[derive(Drop)]
pub struct Region {
    /// The smallest rectangle around the pixels.
    bounds: Bounds,
    rows: Vec<Row>,
}

impl Model for Region {
    ghost use Rattle.tb_geom.specs.Pixels.{Pixels, pixels_code, pixels_where};

    ghost Value = { Pixels };

    ghost coded = { pixels_code };

    ghost use Rattle.region_bytes.specs.Points.{in_rows};
    ghost use Rattle.scan_region.specs.Kept.{IsKept};

    ghost view = { λ r. pixels_where (in_rows r.rows.items) };

    ghost invariant = { λ r. IsKept r.rows.items r.bounds };
}

impl Region {
    ghost use Rattle.scan_region.specs.Cuts.{cut_holds};
    ghost use Rattle.region_rows.specs.Layers.{HasRows, IsLayer};
    ghost use Rattle.region_rows.specs.Lines.{IsLine};
    ghost use Rattle.scan_region.specs.Scan.{IsScan};
    ghost use Rattle.region_rows.specs.Seen.{seen_point};
    ghost use Rattle.region_rows.specs.Moves.{StaysInRange, LeavesRange};
    ghost use Rattle.region_bytes.specs.Bytes.{IsRegionBytes, IsUnread, IsUnwritten};

    /// The region of no pixel (*Inside Macintosh* I, "QuickDraw": `NewRgn`), in any coordinate space.
    /// It takes no memory.
    pub fn empty(alloc: Global) -> Region
        ensures { (p : Point) → holds result p ≡ false }
    {
        Region {
            bounds: Bounds::of(NOTHING),
            rows: Vec::new(alloc),
        }
    }

    /// The pixels of a rectangle. OutOfRange exactly where one of its sides lies outside
    /// -16384..=16383, also of an empty rectangle; else it refuses only for want of memory.
    pub fn from_rect(alloc: Global, rect: Rect) -> Result<Region, Refusal>
        ensures pixels { IfOk result (λ region. (p : Point) → holds region p ≡ rect_holds rect p) }
        ensures out_of_range { is_in_range rect ≡ false → result ≡ Err Refusal.OutOfRange }
        ensures refused { is_in_range rect ≡ true → IfErr result (λ e. e ≡ Refusal.NoMemory) }
    {
        if !rect.is_in_range() {
            return Err(Refusal::OutOfRange);
        }
        Ok(Region::from_rect_in_range(alloc, rect)?)
    }

    /// The pixels of a rectangle whose sides lie in -16384..=16383.
    pub fn from_rect_in_range(alloc: Global, rect: Rect) -> Result<Region, AllocError>
        requires { is_in_range rect ≡ true }
        ensures { IfOk result (λ region. (p : Point) → holds region p ≡ rect_holds rect p) }
    {
        let rows = rect_rows(alloc, rect)?;
        Ok(Region::of_rows(rows))
    }

    /// The region whose bytes these are, as `to_bytes` gives them. BadRegion where they have not the form
    /// of a region's bytes, OutOfRange where they have it and a coordinate lies outside -16384..=16383,
    /// else it refuses only for want of memory.
    pub fn from_bytes(alloc: Global, bytes: &[u8]) -> Result<Region, Refusal>
        ensures { MatchResult result (λ region. IsRegionBytes bytes.now region) (IsUnread bytes.now) }
    {
        let read = RegionBytes::read(bytes)?;
        let rows = form_rows(alloc, read.form())?;
        Ok(Region::of_rows(rows))
    }

    /// The region whose rows of inversion points these are, in their coordinate space. It takes no memory.
    pub fn of_rows(rows: Vec<Row>) -> Region
        requires { AreRows rows.items }
        ensures { (h v : ℤ) → has result h v ≡ in_rows rows.items h v }
    {
        let bounds = Bounds::of(rows_hull(rows.as_slice()));
        Region { bounds, rows }
    }

    /// A region of the same pixels (*Inside Macintosh* I, "QuickDraw": `CopyRgn`), in the same
    /// coordinate space.
    pub fn copy(&self, alloc: Global) -> Result<Region, AllocError>
        ensures { IfOk result (λ region. region ≡ self.now) }
    {
        let rows = copy_rows(alloc, self.rows.as_slice(), &[])?;
        Ok(Region {
            bounds: Bounds::of(self.bounds.rect()),
            rows,
        })
    }

    /// The pixels of both regions.
    pub fn sect(&self, alloc: Global, other: &Region) -> Result<Region, AllocError>
        ensures { IfOk result (λ region. (p : Point)
            → holds region p ≡ (holds self.now p && holds other.now p)) }
    {
        if self.is_held_by(other) {
            return self.copy(alloc);
        }
        if other.is_held_by(self) {
            return other.copy(alloc);
        }
        if self.is_apart(other) {
            return Ok(Region::empty(alloc));
        }
        self.combined(alloc, other, Operator::Intersection)
    }

    /// The pixels of either region, whose box is the rectangle around both boxes.
    pub fn union(&self, alloc: Global, other: &Region) -> Result<Region, AllocError>
        ensures { IfOk result (λ region. (p : Point)
            → holds region p ≡ (holds self.now p || holds other.now p)) }
    {
        if self.is_held_by(other) {
            return other.copy(alloc);
        }
        if other.is_held_by(self) {
            return self.copy(alloc);
        }
        let (a, b) = (self.rows.as_slice(), other.rows.as_slice());
        let rows = combined_rows(alloc, a, b, Operator::Union)?;
        let bounds = Bounds::of(self.bounds.rect().union(other.bounds.rect()));
        Ok(Region { bounds, rows })
    }

    /// The pixels of this region that the other lacks.
    pub fn diff(&self, alloc: Global, other: &Region) -> Result<Region, AllocError>
        ensures { IfOk result (λ region. (p : Point)
            → holds region p ≡ (holds self.now p && not (holds other.now p))) }
    {
        if self.is_held_by(other) {
            return Ok(Region::empty(alloc));
        }
        if self.is_apart(other) {
            return self.copy(alloc);
        }
        self.combined(alloc, other, Operator::Difference)
    }

    /// The pixels of one of the two regions alone, in the coordinate space of both (*Inside Macintosh*
    /// I, "QuickDraw": `XorRgn`).
    pub fn xor(&self, alloc: Global, other: &Region) -> Result<Region, AllocError>
        ensures { IfOk result (λ region. (p : Point)
            → holds region p ≡ differ (holds self.now p) (holds other.now p)) }
    {
        self.combined(alloc, other, Operator::SymmetricDifference)
    }

    /// The pixels of both regions, as `sect` answers them, where this one is not needed any more: within a
    /// rectangle it stays as it is, and takes no memory.
    pub fn cut_to(self, alloc: Global, other: &Region) -> Result<Region, AllocError>
        ensures { IfOk result (λ region. (p : Point)
            → holds region p ≡ (holds self p && holds other.now p)) }
    {
        if self.is_held_by(other) {
            return Ok(self);
        }
        self.sect(alloc, other)
    }

    /// The pixels of this region that the other lacks, as `diff` answers them, where this one is not
    /// needed any more: where their boxes are apart it stays as it is, and takes no memory.
    pub fn less(self, alloc: Global, other: &Region) -> Result<Region, AllocError>
        ensures { IfOk result (λ region. (p : Point)
            → holds region p ≡ (holds self p && not (holds other.now p))) }
    {
        if self.is_apart(other) {
            return Ok(self);
        }
        self.diff(alloc, other)
    }

    /// The pixels of either region, as `union` answers them, where neither is needed any more: beside
    /// a region of no pixel the other one is the answer, and takes no memory.
    pub fn joined(self, alloc: Global, other: Region) -> Result<Region, AllocError>
        ensures { IfOk result (λ region. (p : Point)
            → holds region p ≡ (holds self p || holds other p)) }
    {
        if self.is_empty() {
            Ok(other)
        } else if other.is_empty() {
            Ok(self)
        } else {
            self.union(alloc, &other)
        }
    }

    /// Moves the region `dh` columns to the right and `dv` rows down, taking no memory. OutOfRange,
    /// with nothing changed, exactly where a moved pixel lies outside -16384..=16382 in `h` or `v`.
    pub fn offset(&mut self, dh: i32, dv: i32) -> Result<(), Refusal>
        ensures moved { OnOk result ((p : Point)
            → holds self.new p ≡ holds self.old (minus p (record { h = dh; v = dv }))) }
        ensures fits { OnOk result (StaysInRange self.old (record { h = dh; v = dv })) }
        ensures refused { IfErr result (λ e.
            (e ≡ Refusal.OutOfRange) × LeavesRange self.old (record { h = dh; v = dv })) }
        ensures kept { OnErr result (self.new ≡ self.old) }
    {
        if self.rows.is_empty() {
            return Ok(());
        }
        self.bounds = Bounds::of(self.bounds.rect().offset(dh, dv)?);
        move_rows(self.rows.as_mut_slice(), dh, dv);
        Ok(())
    }

    /// Whether the region has the pixel at `point`, which may lie anywhere.
    pub fn contains(&self, point: Point) -> bool
        ensures { result ≡ holds self.now point }
    {
        if !self.bounds.rect().contains(point) {
            return false;
        }
        is_in_rows(self.rows.as_slice(), point.h, point.v)
    }

    /// Whether the region has no pixel (*Inside Macintosh* I, "QuickDraw": `EmptyRgn`).
    pub fn is_empty(&self) -> bool
        ensures { IsTrue result ↔ ((p : Point) → holds self.now p ≡ false) }
    {
        self.rows.is_empty()
    }

    /// Whether the two regions, in one coordinate space, have the same pixels (*Inside Macintosh* I,
    /// "QuickDraw": `EqualRgn`).
    pub fn equals(&self, other: &Region) -> bool
        ensures { IsTrue result ↔ (self.now ≡ other.now) }
    {
        same_rows(self.rows.as_slice(), other.rows.as_slice())
    }

    /// Whether the region has a pixel of `rect`, whose sides are in the region's coordinate space and
    /// may be any (*Inside Macintosh* I, "QuickDraw": `RectInRgn`). A rectangle that lies in a hole or
    /// beside an arm of the region, within its bounds, has none.
    pub fn meets_rect(&self, rect: Rect) -> bool
        ensures { IsTrue result
            ↔ ((p : Point) × (holds self.now p ≡ true) × (rect_holds rect p ≡ true)) }
    {
        let bounds = self.bounds.rect();
        let area = bounds.sect(rect);
        if area.is_empty() {
            return false;
        }
        if is_rect(self.rows.as_slice(), bounds) {
            return true;
        }
        if let Some(met) = meets_rows(self.rows.as_slice(), area) {
            return met;
        }
        walk_meets(self, area)
    }

    /// The smallest rectangle around the pixels of the region, in its coordinate space, 0 0 0 0 where
    /// it has none (*Inside Macintosh* I, "QuickDraw": the field `rgnBBox`).
    pub fn bbox(&self) -> Rect
        ensures exact { IsBoxOf result (holds self.now) }
        ensures none { ((p : Point) → holds self.now p ≡ false) → result ≡ empty_rect }
    {
        self.bounds.rect()
    }

    /// The spans of the region, by rising rows and columns: its maximal runs of pixels in a row.
    pub fn spans(&self) -> Spans<'_>
        ensures { IsScan result self.now }
    {
        Spans::new(alone(self).spans_within(self.bounds.rect()))
    }

    /// The spans of the region the other way round: from the bottom up, and from right to left.
    pub fn spans_up(&self) -> SpansUp<'_>
        ensures { IsScan (reverse result) self.now }
    {
        SpansUp::new(alone(self).spans_seen(true, seen_rect(true, self.bounds.rect())))
    }

    /// The bytes of the region (*Inside Macintosh* I, "QuickDraw": the type `Region`): big-endian words,
    /// the size in bytes, the box as top, left, bottom and right, and, but for no pixel or a rectangle,
    /// the rows of inversion points. TooLong where they would be more than 32766, else it refuses only
    /// for want of memory.
    pub fn to_bytes(&self, alloc: Global) -> Result<Vec<u8>, Refusal>
        ensures { MatchResult result (λ bytes. IsRegionBytes bytes.items self.now) (IsUnwritten self.now) }
    {
        write_rows(alloc, self.rows.as_slice()).finish(alloc)
    }

    /// A layer that lets through what the line has, turned where the region, seen so, has its points.
    pub(crate) fn layer(&self, up: bool, line: Line) -> Layer<'_>
        ensures layer { (words : List ℕ) → IsLine words line (λ h. line.first) → (v : ℤ)
            → IsLayer words result (λ p. differ line.first (holds self.now (seen_point up p))) v line.right }
        ensures line { result.line ≡ line }
        ensures rows { HasRows result }
    {
        Layer {
            rows: self.rows.as_slice(),
            up,
            line,
            counts: line.first,
        }
    }

    /// The first column right of `h`, as it is seen, at which a row of the region turns, or the limit if that
    /// comes first.
    pub(crate) fn next_column(&self, up: bool, h: i32, limit: i32) -> i32
        requires { h <ℤ limit }
        ensures on { h <ℤ result }
        ensures within { result ≤ℤ limit }
        ensures steady { (x v : ℤ) → h ≤ℤ x → x <ℤ result → holds self.now (seen_point up (record { h = x; v = v }))
            ≡ holds self.now (seen_point up (record { h = h; v = v })) }
    {
        next_column(self.rows.as_slice(), up, h, limit)
    }

    /// The box of the region, as it is seen, and whether it is full.
    pub(crate) fn boxed(&self, up: bool) -> Boxed
        ensures within { (p : Point) → holds self.now (seen_point up p) ≡ true → rect_holds result.bounds p ≡ true }
        ensures full { IsTrue result.is_full → (p : Point)
            → holds self.now (seen_point up p) ≡ rect_holds result.bounds p }
    {
        let bounds = self.bounds.rect();
        Boxed {
            bounds: seen_rect(up, bounds),
            is_full: is_rect(self.rows.as_slice(), bounds),
        }
    }

    /// Whether the boxes of the two regions are apart.
    fn is_apart(&self, other: &Region) -> bool
        ensures none { IsTrue result → (p : Point) → (holds self.now p && holds other.now p) ≡ false }
        ensures boxes { ((r s : Rect) → IsBoxOf r (holds self.now) → IsBoxOf s (holds other.now)
            → (p : Point) → (rect_holds r p && rect_holds s p) ≡ false) → IsTrue result }
    {
        self.bounds.rect().sect(other.bounds.rect()).is_empty()
    }

    /// Whether the other region is a rectangle that holds the box of this one.
    fn is_held_by(&self, other: &Region) -> bool
        ensures none { IsTrue result → (p : Point) → (holds self.now p && not (holds other.now p)) ≡ false }
        ensures held { (r : Rect) → is_in_range r ≡ true → ((p : Point) → holds other.now p ≡ rect_holds r p)
            → ((p : Point) → (holds self.now p && not (holds other.now p)) ≡ false)
            → (q : Point) → holds self.now q ≡ true → IsTrue result }
    {
        let (own, others) = (self.bounds.rect(), other.bounds.rect());
        if own.left < others.left || others.right < own.right {
            return false;
        }
        match rect_of(other.rows.as_slice()) {
            Some(rect) => own.sect(rect) == own,
            None => false,
        }
    }

    /// The pixels that the operator keeps of the two regions.
    fn combined(
        &self,
        alloc: Global,
        other: &Region,
        operator: Operator,
    ) -> Result<Region, AllocError>
        ensures { IfOk result (λ region. (p : Point)
            → holds region p ≡ applied operator (holds self.now p) (holds other.now p)) }
    {
        let rows = combined_rows(alloc, self.rows.as_slice(), other.rows.as_slice(), operator)?;
        Ok(Region::of_rows(rows))
    }
}
