//! The rows of points of region bytes.
ghost use Rattle.std.specs.Prelude.{◌≡◌, ◌∷◌, ◌++◌, ◌≤◌, List, ℤ, pos, length, All, IfOk};
ghost use Rattle.tb_geom.specs.Pixels.{Pixels, has};
ghost use Rattle.region_bytes.specs.Forms.{IsFormOf};
ghost use Rattle.region_bytes.specs.Points.{PointRow, IsInRange, in_rows};
ghost use Rattle.region_bytes.specs.Words.{words_in, data_words};
ghost use Rattle.region_rows.specs.Rows.{AreRows};
ghost use Rattle.region_rows.specs.Restored.{IsRowData, IsColumns};

use crate::rect::rect_rows;
use crate::row::Row;
use region_bytes::{END, Form, first_word};
use smallvec::SmallVec;
use std::alloc::{AllocError, Global};

/// The columns of a row of points, and the bytes after its end.
#[derive(Drop)]
struct Columns<'a> {
    columns: SmallVec<i32, 4>,
    rest: &'a [u8],
}

/// Reads the columns of a row of points.
fn read_columns<'a>(alloc: Global, bytes: &'a [u8]) -> Result<Columns<'a>, AllocError>
    ensures columns { (columns after : List ℤ)
        → words_in bytes.entry.now ≡ columns ++ pos 32767 ∷ after
        → IfOk result (λ read. IsColumns read.columns.items (words_in bytes.entry.now) (words_in read.rest.now)) }
    ensures shorter { IfOk result (λ read. length read.rest.now ≤ length bytes.entry.now) }
{
    let mut columns = SmallVec::new(alloc);
    let mut rest = bytes;
    while let Some((word, after)) = first_word(rest) {
        rest = after;
        if word == END {
            return Ok(Columns { columns, rest });
        }
        columns.push(word)?;
    }
    Ok(Columns { columns, rest })
}

/// The rows of the data of rows of points.
fn restored_rows(alloc: Global, bytes: &[u8]) -> Result<Vec<Row>, AllocError>
    requires { IsRowData (words_in bytes.now) }
    ensures { IfOk result (λ rows. (points : List PointRow) → All IsInRange points
        → data_words points ≡ words_in bytes.now → rows.items ≡ points) }
{
    let mut rows = Vec::new(alloc);
    let mut rest = bytes;
    while let Some((v, after)) = first_word(rest) {
        if v == END {
            return Ok(rows);
        }
        let read = read_columns(alloc, after)?;
        rows.push(Row::new(v, read.columns))?;
        rest = read.rest;
    }
    Ok(rows)
}

/// The rows of a set of pixels, from the form in which bytes say it.
pub fn form_rows(alloc: Global, form: Form<'_>) -> Result<Vec<Row>, AllocError>
    requires { (s : Pixels) × IsFormOf s form }
    ensures rows { IfOk result (λ rows. AreRows rows.items) }
    ensures pixels { IfOk result (λ rows. (s : Pixels) → IsFormOf s form.entry
        → (h v : ℤ) → in_rows rows.items h v ≡ has s h v) }
{
    match form {
        Form::Rect(rect) => rect_rows(alloc, rect),
        Form::Rows(bytes) => restored_rows(alloc, bytes),
    }
}
