//! Operations made of those that calls carry.
ghost use Rattle.std.specs.Prelude.{◌≡◌, ◌⊎◌, ◌≤◌, ◌≤ℤ◌, pos, nat_abs, true, false, length, IfOk, MatchResult};
ghost use Rattle.region_bytes.specs.Bytes.{IsRegionBytes};
ghost use Rattle.lent_ops.specs.Forms.{is_pen};
ghost use Rattle.lent_ops.specs.OpRefs.{frame_pixels, has_bytes, is_shape_in_range, is_line, is_long, IsGood, IsRefused, IsMeant, MeansShape, MeansClip};

use crate::form_ref::PenRef;
use crate::op_ref::{BitsRef, LineRef, OpRef, ShapeRef, TextRef};
use draw_port::{Bytes, Line, Op, RowsOfBits, Shape, ShortText, TextRun};
use region_bytes::RegionBytes;
use region_inset::frame_of_region;
use scan_region::Region;
use std::alloc::{AllocError, Global};
use tb_geom::{BytesRef, Refusal};

impl OpRef<'_> {
    /// The operation that this one means, with bytes and regions of its own. It refuses as `judge` does,
    /// and after that only for want of memory.
    pub fn to_op(&self, alloc: Global) -> Result<Op, Refusal>
        ensures { MatchResult result
            (λ op. IsGood self.now × IsMeant self.now op)
            (λ e. IsRefused self.now e ⊎ ((e ≡ Refusal.NoMemory) × IsGood self.now)) }
    {
        self.judge()?;
        Ok(Op {
            clip: to_clip(&self.clip, alloc)?,
            shape: self.shape.to_shape(alloc)?,
        })
    }
}

/// The region of bytes that were judged, so that only memory can be refused.
fn to_region(bytes: &BytesRef, alloc: Global) -> Result<Region, AllocError>
    ensures { IfOk result (IsRegionBytes bytes.now) }
{
    match Region::from_bytes(alloc, bytes.as_slice()) {
        Ok(region) => Ok(region),
        Err(_) => Err(AllocError),
    }
}

/// The region of the frame of a region whose bytes were judged, so that only memory can be refused.
fn to_frame(bytes: &BytesRef, pen: PenRef, alloc: Global) -> Result<Region, AllocError>
    requires { is_pen pen ≡ true }
    ensures { IfOk result (λ region. region ≡ frame_pixels bytes.now pen) }
{
    match RegionBytes::read(bytes.as_slice()) {
        Ok(region) => frame_of_region(alloc, &region, pen.to_pen()),
        Err(_) => Err(AllocError),
    }
}

fn to_clip(clip: &Option<BytesRef>, alloc: Global) -> Result<Option<Region>, AllocError>
    ensures { IfOk result (MeansClip clip.now) }
{
    match clip {
        None => Ok(None),
        Some(bytes) => Ok(Some(to_region(bytes, alloc)?)),
    }
}

impl ShapeRef<'_> {
    fn to_shape(&self, alloc: Global) -> Result<Shape, AllocError>
        requires bytes { has_bytes self.now ≡ true }
        requires near { is_shape_in_range self.now ≡ true }
        requires short { is_long self.now ≡ false }
        ensures { IfOk result (MeansShape self.now) }
    {
        match self {
            ShapeRef::Erase(rect) => Ok(Shape::Erase(*rect)),
            ShapeRef::Invert(rect) => Ok(Shape::Invert(*rect)),
            ShapeRef::Fill(rect, shade) => Ok(Shape::Fill(*rect, *shade)),
            ShapeRef::Frame(rect, shade) => Ok(Shape::Frame(*rect, *shade)),
            ShapeRef::HLine(line, shade) => Ok(Shape::HLine(line.to_line(), *shade)),
            ShapeRef::VLine(line, shade) => Ok(Shape::VLine(line.to_line(), *shade)),
            ShapeRef::Text(run) => Ok(Shape::Text(run.to_run())),
            ShapeRef::Bits(bits) => Ok(Shape::Bits(bits.to_rows(alloc)?)),
            ShapeRef::FillRgn(bytes, shade) => Ok(Shape::FillRgn(to_region(bytes, alloc)?, *shade)),
            ShapeRef::FrameRgn(bytes, pen, shade) => {
                Ok(Shape::FillRgn(to_frame(bytes, *pen, alloc)?, *shade))
            }
            ShapeRef::Form(form, shade) => Ok(Shape::FillRgn(form.to_region(alloc)?, *shade)),
        }
    }
}

impl LineRef {
    fn to_line(&self) -> Line
        requires { is_line self.now ≡ true }
        ensures { result ≡ record { start = self.now.start; count = nat_abs self.now.count } }
    {
        Line {
            start: self.start,
            count: self.count as u16,
        }
    }
}

impl TextRef<'_> {
    fn to_run(&self) -> TextRun
        requires { length self.now.text ≤ 255 }
        ensures { result ≡ record { pen = self.now.pen; mode = self.now.mode; text = self.now.text } }
    {
        TextRun {
            pen: self.pen,
            mode: self.mode,
            text: ShortText::new(self.text.as_slice()).unwrap(),
        }
    }
}

impl BitsRef<'_> {
    fn to_rows(&self, alloc: Global) -> Result<RowsOfBits, AllocError>
        requires wide { (pos 0 ≤ℤ self.now.width) × (self.now.width ≤ℤ pos 256) }
        requires high { (pos 0 ≤ℤ self.now.height) × (self.now.height ≤ℤ pos 256) }
        ensures { IfOk result
            (λ rows. rows ≡ record {
              place = self.now.place;
              width = nat_abs self.now.width;
              height = nat_abs self.now.height;
              mode = self.now.mode;
              rows = self.now.rows;
            }) }
    {
        Ok(RowsOfBits {
            place: self.place,
            width: self.width as u16,
            height: self.height as u16,
            mode: self.mode,
            rows: Bytes::new(alloc, self.rows.as_slice())?,
        })
    }
}
