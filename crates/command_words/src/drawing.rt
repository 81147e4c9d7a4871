//! The words of `draw`.
//!
//! An operation is its name and the words that follow it. What they say is read to the end of the line, and only
//! then are names asked for: a line of another form is BadSyntax, whatever its names are.
ghost use Rattle.std.specs.Prelude.{◌≡◌, Option};
ghost use Rattle.line_words.specs.Shapes.{reading};
ghost use Rattle.line_words.specs.Tables.{named};
ghost use Rattle.command_words.specs.Drawings.{shade_shape, shaded_rect_shape, line_shape, run_shape};
ghost use Rattle.command_words.specs.Drawings.{bits_shape, framed_region_shape, region_shape, shaded_form_shape, operation_shape};
ghost use Rattle.command_words.specs.Drawings.{operations_of, clipped_shape, clip_shape, drawing_shape};

use crate::names::{shade_of, source_mode_of, text_mode_of};
use crate::operation::{Operation, operation_of};
use desk_call::Drawing;
use draw_port::Shade;
use form_words::{FormWord, pen};
use lent_ops::{BitsRef, LineRef, OpRef, ShapeRef, TextRef};
use line_words::Words;
use tb_geom::{BytesRef, Rect, Refusal};

/// The words after `draw` in a script of this version: a window, perhaps the word `clip` and a region, and an operation.
#[tactic(auto, unfolding(crate::specs::Drawings::drawing_shape))]
pub fn drawing<'a>(version: i32, words: Words<'a>) -> Result<Drawing<'a>, Refusal>
    ensures { result ≡ reading (drawing_shape version) words.entry }
{
    let (window, words) = words.serial()?;
    let (name, words) = words.name()?;
    if name.as_slice() == b"clip".as_slice() {
        clip(version, window, words)
    } else {
        clipped(version, window, None, &name, words)
    }
}

/// The words after `clip`: the bytes of a region, and an operation.
#[tactic(auto, unfolding(crate::specs::Drawings::clip_shape))]
fn clip<'a>(version: i32, window: u64, words: Words<'a>) -> Result<Drawing<'a>, Refusal>
    ensures { result ≡ reading (clip_shape version window) words.entry }
{
    let (clip, words) = words.hex()?;
    let (name, words) = words.name()?;
    clipped(version, window, Some(clip), &name, words)
}

/// An operation with its words, for a window and with a clip.
fn clipped<'a>(
    version: i32,
    window: u64,
    clip: Option<BytesRef<'a>>,
    name: &BytesRef<'a>,
    words: Words<'a>,
) -> Result<Drawing<'a>, Refusal>
    ensures { result ≡ reading (clipped_shape version window clip.entry name.now) words.entry }
{
    let shape = operation(version, name, words)?;
    let operation = OpRef { clip, shape };
    Ok(Drawing { window, operation })
}

/// The words after an operation's name.
fn operation<'a>(
    version: i32,
    name: &BytesRef<'a>,
    words: Words<'a>,
) -> Result<ShapeRef<'a>, Refusal>
    ensures { result ≡ reading (operation_shape (named name.now (operations_of version))) words.entry }
{
    match operation_of(version, name.as_slice()) {
        None => Err(Refusal::BadSyntax),
        Some(operation) => shape(operation, words),
    }
}

/// The words of an operation.
#[tactic(auto, using(line_words::proofs::Mapped::reading_mapped))]
fn shape<'a>(operation: Operation, words: Words<'a>) -> Result<ShapeRef<'a>, Refusal>
    ensures { result ≡ reading (operation_shape (Some operation)) words.entry }
{
    match operation {
        Operation::Erase => Ok(ShapeRef::Erase(words.last_rect()?)),
        Operation::Invert => Ok(ShapeRef::Invert(words.last_rect()?)),
        Operation::Fill => {
            let (rect, shade) = shaded_rect(words)?;
            Ok(ShapeRef::Fill(rect, shade))
        }
        Operation::Frame => {
            let (rect, shade) = shaded_rect(words)?;
            Ok(ShapeRef::Frame(rect, shade))
        }
        Operation::HLine => {
            let (line, shade) = line(words)?;
            Ok(ShapeRef::HLine(line, shade))
        }
        Operation::VLine => {
            let (line, shade) = line(words)?;
            Ok(ShapeRef::VLine(line, shade))
        }
        Operation::Text => Ok(ShapeRef::Text(run(words)?)),
        Operation::Bits => Ok(ShapeRef::Bits(bits(words)?)),
        Operation::Rgn => {
            let (region, shade) = region(words)?;
            Ok(ShapeRef::FillRgn(region, shade))
        }
        Operation::FrameRgn => framed_region(words),
        Operation::Form(word) => shaded_form(word, words),
    }
}

/// A mode and a pattern, and nothing after them.
#[tactic(auto, unfolding(crate::specs::Drawings::shade_shape))]
fn shade<'a>(words: Words<'a>) -> Result<Shade, Refusal>
    ensures { result ≡ reading shade_shape words.entry }
{
    let (mode, words) = words.name()?;
    let (pattern, words) = words.name()?;
    words.end()?;
    shade_of(&mode, &pattern).ok_or(Refusal::NoSuchName)
}

/// The sides of a rectangle, a mode and a pattern.
#[tactic(auto, using(line_words::proofs::Mapped::reading_mapped), unfolding(crate::specs::Drawings::shaded_rect_shape))]
fn shaded_rect<'a>(words: Words<'a>) -> Result<(Rect, Shade), Refusal>
    ensures { result ≡ reading shaded_rect_shape words.entry }
{
    let (rect, words) = words.rect()?;
    let shade = shade(words)?;
    Ok((rect, shade))
}

/// The start of a line, how many pixels it has, a mode and a pattern.
#[tactic(auto, using(line_words::proofs::Mapped::reading_mapped), unfolding(crate::specs::Drawings::line_shape))]
fn line<'a>(words: Words<'a>) -> Result<(LineRef, Shade), Refusal>
    ensures { result ≡ reading line_shape words.entry }
{
    let (start, words) = words.point()?;
    let (count, words) = words.number()?;
    let shade = shade(words)?;
    Ok((LineRef { start, count }, shade))
}

/// Where the pen of a text starts, a mode and the text.
#[tactic(auto, unfolding(crate::specs::Drawings::run_shape))]
fn run<'a>(words: Words<'a>) -> Result<TextRef<'a>, Refusal>
    ensures { result ≡ reading run_shape words.entry }
{
    let (pen, words) = words.point()?;
    let (mode, words) = words.name()?;
    let text = words.last_text()?;
    let mode = text_mode_of(&mode).ok_or(Refusal::NoSuchName)?;
    Ok(TextRef { pen, mode, text })
}

/// Where an image lies, its width and height, a mode and the bytes of its rows.
#[tactic(auto, unfolding(crate::specs::Drawings::bits_shape))]
fn bits<'a>(words: Words<'a>) -> Result<BitsRef<'a>, Refusal>
    ensures { result ≡ reading bits_shape words.entry }
{
    let (place, words) = words.point()?;
    let (width, words) = words.number()?;
    let (height, words) = words.number()?;
    let (mode, words) = words.name()?;
    let (rows, words) = words.hex()?;
    if !rows.are_rows(width, height) {
        return Err(Refusal::BadSyntax);
    }
    words.end()?;
    let mode = source_mode_of(&mode).ok_or(Refusal::NoSuchName)?;
    Ok(BitsRef {
        place,
        width,
        height,
        mode,
        rows,
    })
}

/// The bytes of a region, a mode and a pattern.
#[tactic(auto, using(line_words::proofs::Mapped::reading_mapped), unfolding(crate::specs::Drawings::region_shape))]
fn region<'a>(words: Words<'a>) -> Result<(BytesRef<'a>, Shade), Refusal>
    ensures { result ≡ reading region_shape words.entry }
{
    let (region, words) = words.hex()?;
    let shade = shade(words)?;
    Ok((region, shade))
}

/// The bytes of a region, a pen, a mode and a pattern.
#[tactic(auto, using(form_words::proofs::FormLemmas::pen_then, line_words::proofs::Mapped::reading_mapped))]
fn framed_region<'a>(words: Words<'a>) -> Result<ShapeRef<'a>, Refusal>
    ensures { result ≡ reading framed_region_shape words.entry }
{
    let (region, words) = words.hex()?;
    let (pen, words) = pen(words)?;
    let shade = shade(words)?;
    Ok(ShapeRef::FrameRgn(region, pen, shade))
}

/// The numbers of a form, a mode and a pattern.
#[tactic(auto, using(form_words::proofs::FormLemmas::form_then, line_words::proofs::Mapped::reading_mapped))]
fn shaded_form<'a>(word: FormWord, words: Words<'a>) -> Result<ShapeRef<'a>, Refusal>
    ensures { result ≡ reading (shaded_form_shape word) words.entry }
{
    let (form, words) = word.form(words)?;
    let shade = shade(words)?;
    Ok(ShapeRef::Form(form, shade))
}
