//! Region bytes in place.
ghost use Rattle.std.specs.Prelude.{◌≡◌, ◌&&◌, true, int_le, MatchResult};
ghost use Rattle.tb_geom.specs.declared.point.Point.{Point};
ghost use Rattle.tb_geom.specs.Rects.{IsBoxOf, is_empty_rect, empty_rect};
ghost use Rattle.tb_geom.specs.Pixels.{holds};
ghost use Rattle.region_bytes.specs.Edges.{differ};
ghost use Rattle.region_bytes.specs.Points.{inverted, IsDown};
ghost use Rattle.region_bytes.specs.Bytes.{IsRegionBytes, IsBad};

use crate::parting::parted;
use crate::points::Points;
use crate::texts::is_text;
use std::marker::Model;
use tb_geom::{Point, Rect, Refusal};

/// The bytes of a region, borrowed and judged. Contracts see the set of pixels that they say.
#[derive(Debug, Drop)]
pub struct RegionBytes<'a> {
    bytes: &'a [u8],
}

/// The form in which a region's bytes say a set of pixels.
#[derive(Clone, Copy, Debug)]
pub enum Form<'a> {
    /// The pixels of a rectangle, with its sides in -16384..=16383; none are 0 0 0 0.
    Rect(Rect),
    /// The data: rows of inversion points in canonical form, with all numbers in -16384..=16383.
    Rows(&'a [u8]),
}

impl<'a> Model for RegionBytes<'a> {
    ghost use Rattle.tb_geom.specs.Pixels.{Pixels, pixels_code};

    ghost Value = { Pixels };

    ghost coded = { pixels_code };

    ghost use Rattle.region_bytes.specs.Bytes.{IsRegionBytes};
    ghost use Rattle.region_bytes.specs.Text.{pixels_of};

    ghost view = { λ s. pixels_of s.bytes.now };

    ghost invariant = { λ s. IsRegionBytes s.bytes.now (pixels_of s.bytes.now) };
}

impl<'a> RegionBytes<'a> {
    ghost use Rattle.region_bytes.specs.Forms.{IsFormOf};

    /// Judges bytes, without memory: BadRegion where they have not the form of a region's, and
    /// OutOfRange where they have it and a coordinate lies outside -16384..=16383.
    pub fn read(bytes: &'a [u8]) -> Result<RegionBytes<'a>, Refusal>
        ensures { MatchResult result (λ region. IsRegionBytes bytes.entry.now region) (IsBad bytes.entry.now) }
    {
        let Some((bounds, after)) = parted(bytes) else {
            return Err(Refusal::BadRegion);
        };
        if !is_text(bounds, after) {
            return Err(Refusal::BadRegion);
        }
        if !bounds.is_in_range() {
            return Err(Refusal::OutOfRange);
        }
        Ok(RegionBytes { bytes })
    }

    /// The form in which the bytes say the set.
    pub fn form(&self) -> Form<'a>
        ensures { IsFormOf self.now result }
    {
        let Some((bounds, after)) = parted(self.bytes) else {
            unreachable!()
        };
        if after.is_empty() {
            Form::Rect(bounds)
        } else {
            Form::Rows(after)
        }
    }

    /// The inversion points of the set, row by row from the top down.
    pub fn points(&self) -> Points<'a>
        ensures pixels { (p : Point) → inverted result p ≡ holds self.now p }
        ensures down { IsDown result }
    {
        match self.form() {
            Form::Rect(rect) => Points::of_rect(rect),
            Form::Rows(bytes) => Points::of_data(bytes),
        }
    }

    /// Whether the set has the pixel at a point.
    pub fn contains(&self, point: Point) -> bool
        ensures { result ≡ holds self.now point }
    {
        let mut inside = false;
        for p in self.points() {
            inside = differ(leads_to(p, point), inside);
        }
        inside
    }

    /// The smallest rectangle that holds the pixels; 0 0 0 0 where there are none.
    pub fn bbox(&self) -> Rect
        ensures exact { IsBoxOf result (holds self.now) }
        ensures none { is_empty_rect result ≡ true → result ≡ empty_rect }
    {
        match parted(self.bytes) {
            Some((bounds, _)) => bounds,
            None => unreachable!(),
        }
    }
}

/// Whether a pixel lies at a point, below it, right of it or both.
fn leads_to(p: Point, pixel: Point) -> bool
    ensures { result ≡ (int_le p.h pixel.h && int_le p.v pixel.v) }
{
    p.h <= pixel.h && p.v <= pixel.v
}

/// One of the two, and not both.
fn differ(a: bool, b: bool) -> bool
    ensures { result ≡ differ a b }
{
    a != b
}
