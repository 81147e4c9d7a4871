//! Why operations that calls carry are refused.
ghost use Rattle.std.specs.Prelude.{◌≡◌, Some, MatchResult};
ghost use Rattle.lent_ops.specs.OpRefs.{has_bytes, is_line, is_shape_in_range, is_long, region_of, HasForm, HasSome, Stands, IsGood, IsRefused};

use crate::op_ref::{BitsRef, LineRef, OpRef, ShapeRef};
use draw_port::LONGEST_TEXT;
use region_bytes::RegionBytes;
use tb_geom::{BytesRef, Refusal};

/// The most pixels that a line may have.
const LONGEST_LINE: i32 = 1024;

/// The most columns that an image may have, and the most rows.
const LONGEST_SIDE: i32 = 256;

impl OpRef<'_> {
    /// Judges the operation without memory. The refusal is the first of these that applies: BadSyntax
    /// where an image is without rows or columns, or its bytes are not `(width + 7) / 8` for each row, or those of a polygon
    /// not four for each point;
    /// BadRegion where the bytes of the clip or of the shape's region have not the form of a region's;
    /// OutOfRange where a coordinate of the shape or of a region lies outside -16384..=16383, the count
    /// of a line outside 0..=1024, a side of a form's corner outside 0..=32767 or of its pen outside 0..=1024, or an
    /// image is wider or higher than 256; TooLong where a text has more than 255 characters,
    /// or a polygon more than 1024 points.
    pub fn judge(&self) -> Result<(), Refusal>
        ensures { MatchResult result (λ _. IsGood self.now) (IsRefused self.now) }
    {
        if !self.shape.has_bytes() {
            return Err(Refusal::BadSyntax);
        }
        let is_clip_in_range = is_clip_in_range(&self.clip)?;
        let is_region_in_range = self.shape.is_region_in_range()?;
        if !self.shape.is_near() || !is_clip_in_range || !is_region_in_range {
            return Err(Refusal::OutOfRange);
        }
        if self.shape.is_long() {
            return Err(Refusal::TooLong);
        }
        Ok(())
    }
}

/// Whether the bytes of a region say coordinates in range alone. BadRegion where they have not the
/// form of a region's.
pub(crate) fn is_in_range(bytes: &BytesRef) -> Result<bool, Refusal>
    ensures { MatchResult result
        (Stands (Some bytes.now))
        (λ e. (e ≡ Refusal.BadRegion) × (HasForm bytes.now → ⊥)) }
{
    match RegionBytes::read(bytes.as_slice()) {
        Ok(_) => Ok(true),
        Err(Refusal::OutOfRange) => Ok(false),
        Err(_) => Err(Refusal::BadRegion),
    }
}

/// The same of the bytes of a clip, where there is one.
fn is_clip_in_range(clip: &Option<BytesRef>) -> Result<bool, Refusal>
    ensures { MatchResult result
        (Stands clip.now)
        (λ e. (e ≡ Refusal.BadRegion) × HasSome clip.now (λ bytes. HasForm bytes → ⊥)) }
{
    match clip {
        None => Ok(true),
        Some(bytes) => is_in_range(bytes),
    }
}

impl ShapeRef<'_> {
    /// The same of the bytes of the shape's region, where it has one.
    fn is_region_in_range(&self) -> Result<bool, Refusal>
        ensures { MatchResult result
            (Stands (region_of self.now))
            (λ e. (e ≡ Refusal.BadRegion) × HasSome (region_of self.now) (λ bytes. HasForm bytes → ⊥)) }
    {
        match self {
            ShapeRef::FillRgn(bytes, _) | ShapeRef::FrameRgn(bytes, _, _) => is_in_range(bytes),
            _ => Ok(true),
        }
    }

    /// Whether an image has rows and columns, and just the bytes of its rows, and a polygon the bytes of points.
    fn has_bytes(&self) -> bool
        ensures { result ≡ has_bytes self.now }
    {
        match self {
            ShapeRef::Bits(bits) => bits.has_rows(),
            ShapeRef::Form(form, _) => form.has_points(),
            _ => true,
        }
    }

    /// Whether each number of the shape lies in its range.
    fn is_near(&self) -> bool
        ensures { result ≡ is_shape_in_range self.now }
    {
        match self {
            ShapeRef::Erase(rect) | ShapeRef::Invert(rect) => rect.is_in_range(),
            ShapeRef::Fill(rect, _) | ShapeRef::Frame(rect, _) => rect.is_in_range(),
            ShapeRef::HLine(line, _) | ShapeRef::VLine(line, _) => line.is_near(),
            ShapeRef::Text(run) => run.pen.is_in_range(),
            ShapeRef::Bits(bits) => bits.is_near(),
            ShapeRef::FillRgn(..) => true,
            ShapeRef::FrameRgn(_, pen, _) => pen.is_near(),
            ShapeRef::Form(form, _) => form.is_near(),
        }
    }

    /// Whether a text has more than 255 characters, or a polygon more than 1024 points.
    fn is_long(&self) -> bool
        ensures { result ≡ is_long self.now }
    {
        match self {
            ShapeRef::Text(run) => run.text.as_slice().len() > LONGEST_TEXT,
            ShapeRef::Form(form, _) => form.is_long(),
            _ => false,
        }
    }
}

impl LineRef {
    /// Whether the line begins at a coordinate, and has 1024 pixels at most.
    fn is_near(&self) -> bool
        ensures { result ≡ is_line self.now }
    {
        self.start.is_in_range() && (0 <= self.count && self.count <= LONGEST_LINE)
    }
}

impl BitsRef<'_> {
    /// Whether the image lies at a coordinate, and is no wider or higher than 256.
    fn is_near(&self) -> bool
        ensures { result ≡ is_shape_in_range (ShapeRef.Bits self.now) }
    {
        self.place.is_in_range() && (self.width <= LONGEST_SIDE && self.height <= LONGEST_SIDE)
    }

    /// Whether the image has rows and columns, and just the bytes of its rows.
    fn has_rows(&self) -> bool
        ensures { result ≡ has_bytes (ShapeRef.Bits self.now) }
    {
        self.rows.are_rows(self.width, self.height)
    }
}
