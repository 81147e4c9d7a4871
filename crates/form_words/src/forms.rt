//! The words of forms: shapes that are painted or framed, and lines.
ghost use Rattle.std.specs.Prelude.{◌≡◌};
ghost use Rattle.line_words.specs.Tables.{named};
ghost use Rattle.form_words.specs.Forms.{angles_at, corner_at, pen_at, points_at, form_at, drawn_forms};

use lent_ops::{AnglesRef, CornerRef, FormRef, PenRef, are_points};
use line_words::{Words, named};
use tb_geom::{BytesRef, Refusal};

/// The name of a form. It says which words follow.
#[derive(Clone, Copy)]
pub enum FormWord {
    Rect,
    Round,
    Oval,
    FrameRect,
    FrameRound,
    FrameOval,
    Arc,
    FrameArc,
    Line,
    Polygon,
    FramePolygon,
}

/// Each name that `draw` has for a form, and what it stands for.
static DRAWN_FORMS: [(&[u8], FormWord); 10] = [
    (b"round", FormWord::Round),
    (b"oval", FormWord::Oval),
    (b"frect", FormWord::FrameRect),
    (b"fround", FormWord::FrameRound),
    (b"foval", FormWord::FrameOval),
    (b"arc", FormWord::Arc),
    (b"farc", FormWord::FrameArc),
    (b"line", FormWord::Line),
    (b"poly", FormWord::Polygon),
    (b"fpoly", FormWord::FramePolygon),
];

/// The form with this name in `draw`, byte by byte; None of a word that names none.
pub fn drawn_form_of(word: &[u8]) -> Option<FormWord>
    ensures { result ≡ named word.now drawn_forms }
{
    named(&DRAWN_FORMS, word)
}

impl FormWord {
    /// The numbers and bytes of a form, and the words after them.
    pub fn form<'a>(self, words: Words<'a>) -> Result<(FormRef<'a>, Words<'a>), Refusal>
        ensures { result ≡ form_at self words.entry }
    {
        match self {
            FormWord::Rect => {
                let (rect, words) = words.rect()?;
                Ok((FormRef::Rect(rect), words))
            }
            FormWord::Round => {
                let (rect, words) = words.rect()?;
                let (corner, words) = corner(words)?;
                Ok((FormRef::Round(rect, corner), words))
            }
            FormWord::Oval => {
                let (rect, words) = words.rect()?;
                Ok((FormRef::Oval(rect), words))
            }
            FormWord::FrameRect => {
                let (rect, words) = words.rect()?;
                let (pen, words) = pen(words)?;
                Ok((FormRef::FrameRect(rect, pen), words))
            }
            FormWord::FrameRound => {
                let (rect, words) = words.rect()?;
                let (corner, words) = corner(words)?;
                let (pen, words) = pen(words)?;
                Ok((FormRef::FrameRound(rect, corner, pen), words))
            }
            FormWord::FrameOval => {
                let (rect, words) = words.rect()?;
                let (pen, words) = pen(words)?;
                Ok((FormRef::FrameOval(rect, pen), words))
            }
            FormWord::Arc => {
                let (rect, words) = words.rect()?;
                let (angles, words) = angles(words)?;
                Ok((FormRef::Arc(rect, angles), words))
            }
            FormWord::FrameArc => {
                let (rect, words) = words.rect()?;
                let (angles, words) = angles(words)?;
                let (pen, words) = pen(words)?;
                Ok((FormRef::FrameArc(rect, angles, pen), words))
            }
            FormWord::Line => line(words),
            FormWord::Polygon => {
                let (points, words) = points(words)?;
                Ok((FormRef::Polygon(points), words))
            }
            FormWord::FramePolygon => {
                let (points, words) = points(words)?;
                let (pen, words) = pen(words)?;
                Ok((FormRef::FramePolygon(points, pen), words))
            }
        }
    }
}

/// The two ends of a line and its pen, and the words after them.
fn line<'a>(words: Words<'a>) -> Result<(FormRef<'a>, Words<'a>), Refusal>
    ensures { result ≡ form_at FormWord.Line words.entry }
{
    let (from, words) = words.point()?;
    let (to, words) = words.point()?;
    let (pen, words) = pen(words)?;
    Ok((FormRef::Line(from, to, pen), words))
}

/// The start and the angle of an arc, and the words after them.
fn angles<'a>(words: Words<'a>) -> Result<(AnglesRef, Words<'a>), Refusal>
    ensures { result ≡ angles_at words.entry }
{
    let (start, words) = words.number()?;
    let (angle, words) = words.number()?;
    Ok((AnglesRef { start, angle }, words))
}

/// The bytes of points, and the words after them.
fn points<'a>(words: Words<'a>) -> Result<(BytesRef<'a>, Words<'a>), Refusal>
    ensures { result ≡ points_at words.entry }
{
    let (points, words) = words.hex()?;
    if !are_points(points.as_slice()) {
        return Err(Refusal::BadSyntax);
    }
    Ok((points, words))
}

/// The width and height of a corner, and the words after them.
fn corner<'a>(words: Words<'a>) -> Result<(CornerRef, Words<'a>), Refusal>
    ensures { result ≡ corner_at words.entry }
{
    let (width, words) = words.number()?;
    let (height, words) = words.number()?;
    Ok((CornerRef { width, height }, words))
}

/// The width and height of a pen, and the words after them.
pub fn pen<'a>(words: Words<'a>) -> Result<(PenRef, Words<'a>), Refusal>
    ensures { result ≡ pen_at words.entry }
{
    let (width, words) = words.number()?;
    let (height, words) = words.number()?;
    Ok((PenRef { width, height }, words))
}
