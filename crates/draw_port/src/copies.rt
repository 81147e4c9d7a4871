//! Copies of operations.
ghost use Rattle.std.specs.Prelude.{◌≡◌, IfOk};

use crate::bytes::Bytes;
use crate::shapes::{Op, RowsOfBits, Shape, TextRun};
use scan_region::Region;
use std::alloc::{AllocError, Global};

impl TextRun {
    fn copy(&self) -> TextRun
        ensures { result ≡ self.now }
    {
        TextRun {
            pen: self.pen,
            mode: self.mode,
            text: self.text.copy(),
        }
    }
}

impl RowsOfBits {
    fn copy(&self, alloc: Global) -> Result<RowsOfBits, AllocError>
        ensures { IfOk result (λ rows. rows ≡ self.now) }
    {
        Ok(RowsOfBits {
            place: self.place,
            width: self.width,
            height: self.height,
            mode: self.mode,
            rows: Bytes::new(alloc, self.rows.as_slice())?,
        })
    }
}

impl Shape {
    fn copy(&self, alloc: Global) -> Result<Shape, AllocError>
        ensures { IfOk result (λ shape. shape ≡ self.now) }
    {
        Ok(match self {
            Shape::Erase(rect) => Shape::Erase(*rect),
            Shape::Invert(rect) => Shape::Invert(*rect),
            Shape::Fill(rect, shade) => Shape::Fill(*rect, *shade),
            Shape::Frame(rect, shade) => Shape::Frame(*rect, *shade),
            Shape::HLine(line, shade) => Shape::HLine(*line, *shade),
            Shape::VLine(line, shade) => Shape::VLine(*line, *shade),
            Shape::Text(run) => Shape::Text(run.copy()),
            Shape::Bits(rows) => Shape::Bits(rows.copy(alloc)?),
            Shape::FillRgn(region, shade) => Shape::FillRgn(region.copy(alloc)?, *shade),
        })
    }
}

/// The same clip once more.
fn copy_clip(clip: &Option<Region>, alloc: Global) -> Result<Option<Region>, AllocError>
    ensures { IfOk result (λ copy. copy ≡ clip.now) }
{
    match clip {
        None => Ok(None),
        Some(region) => Ok(Some(region.copy(alloc)?)),
    }
}

impl Op {
    /// An equal operation, in the same coordinates.
    pub fn copy(&self, alloc: Global) -> Result<Op, AllocError>
        ensures { IfOk result (λ op. op ≡ self.now) }
    {
        Ok(Op {
            clip: copy_clip(&self.clip, alloc)?,
            shape: self.shape.copy(alloc)?,
        })
    }
}
