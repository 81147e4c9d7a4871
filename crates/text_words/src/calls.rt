//! The words that follow a verb for text records.
ghost use Rattle.std.specs.Prelude.{◌≡◌};
ghost use Rattle.line_words.specs.Shapes.{reading, says};
ghost use Rattle.desk_call.specs.declared.text.TextCall.TheVariants as calls;
ghost use Rattle.text_words.specs.TextWords.{activate_shape, alone_shape, bytes_shape, click_shape, new_shape};
ghost use Rattle.text_words.specs.TextWords.{number_shape, offset_at_shape, place_at, place_shape, record_at, scroll_shape};
ghost use Rattle.text_words.specs.TextWords.{select_shape, text_shape};

use crate::TextVerb;
use def_iface::Size;
use desk_call::{
    ClickText, NewText, PlaceText, PointInText, ScrollText, SelectText, TextBytes, TextCall,
    TextFlag, TextNumber, TextOf, TextPlace,
};
use line_words::Words;
use tb_geom::Refusal;

impl TextVerb {
    /// What is asked by the words that follow.
    #[tactic(auto, using(line_words::proofs::Mapped::reading_mapped), unfolding(crate::specs::TextWords::text_shape))]
    pub fn call<'a>(self, words: Words<'a>) -> Result<TextCall<'a>, Refusal>
        ensures { result ≡ reading (text_shape self) words.entry }
    {
        match self {
            TextVerb::New => new_text(words),
            TextVerb::Place => place(words),
            TextVerb::Dispose => Ok(TextCall::Dispose(last_record(words)?)),
            TextVerb::Show => Ok(TextCall::Show(last_record(words)?)),
            TextVerb::Hide => Ok(TextCall::Hide(last_record(words)?)),
            TextVerb::Set => Ok(TextCall::Set(with_bytes(words)?)),
            TextVerb::Insert => Ok(TextCall::Insert(with_bytes(words)?)),
            TextVerb::Paste => Ok(TextCall::Paste(last_record(words)?)),
            TextVerb::Select => select(words),
            TextVerb::Idle => Ok(TextCall::Idle(with_number(words)?)),
            TextVerb::Justify => Ok(TextCall::Justify(with_number(words)?)),
            TextVerb::Scroll => scroll(words),
            TextVerb::Key => Ok(TextCall::Key(with_number(words)?)),
            TextVerb::Cut => Ok(TextCall::Cut(last_record(words)?)),
            TextVerb::Copy => Ok(TextCall::Copy(last_record(words)?)),
            TextVerb::Delete => Ok(TextCall::Delete(last_record(words)?)),
            TextVerb::Activate => activate(words),
            TextVerb::ShowSelection => Ok(TextCall::ShowSelection(last_record(words)?)),
            TextVerb::Click => click(words),
            TextVerb::Step => Ok(TextCall::Step(words.last_point()?)),
            TextVerb::End => Ok(TextCall::End(words.last_point()?)),
            TextVerb::Get => Ok(TextCall::Get(last_record(words)?)),
            TextVerb::Info => Ok(TextCall::Info(last_record(words)?)),
            TextVerb::Line => Ok(TextCall::Line(with_number(words)?)),
            TextVerb::PlaceOf => Ok(TextCall::PlaceOf(with_number(words)?)),
            TextVerb::OffsetAt => offset_at(words),
            TextVerb::Scrap => scrap(words),
            TextVerb::SetScrap => Ok(TextCall::SetScrap(words.last_bytes()?)),
            TextVerb::Width => Ok(TextCall::Width(words.last_bytes()?)),
            TextVerb::FontInfo => font_info(words),
        }
    }
}

/// A text record of a window, and the words after it.
fn record<'a>(words: Words<'a>) -> Result<(TextOf, Words<'a>), Refusal>
    ensures { result ≡ record_at words.entry }
{
    let (window, words) = words.serial()?;
    let (text, words) = words.serial()?;
    Ok((TextOf { window, text }, words))
}

/// Where a text stands: the left, the top and the width of its destination, the place and the size of its view; and the words
/// after that.
fn text_place<'a>(words: Words<'a>) -> Result<(TextPlace, Words<'a>), Refusal>
    ensures { result ≡ place_at words.entry }
{
    let (left, words) = words.number()?;
    let (top, words) = words.number()?;
    let (width, words) = words.number()?;
    let (view, words) = words.point()?;
    let (view_width, words) = words.number()?;
    let (view_height, words) = words.number()?;
    let place = TextPlace {
        left,
        top,
        width,
        view,
        view_size: Size {
            width: view_width,
            height: view_height,
        },
    };
    Ok((place, words))
}

/// The words after `text`: a window, where the text stands, the justification, and whether lines end where they reach the width.
fn new_text<'a>(words: Words<'a>) -> Result<TextCall<'a>, Refusal>
    ensures { result ≡ reading new_shape words.entry }
{
    let (window, words) = words.serial()?;
    let (place, words) = text_place(words)?;
    let (justification, words) = words.number()?;
    let wraps = words.last_flag()?;
    Ok(TextCall::New(NewText {
        window,
        place,
        justification,
        wraps,
    }))
}

/// The words after `tplace`: a text record, and where it is to stand.
fn place<'a>(words: Words<'a>) -> Result<TextCall<'a>, Refusal>
    ensures { result ≡ reading place_shape words.entry }
{
    let (text, words) = record(words)?;
    let (place, words) = text_place(words)?;
    words.end()?;
    Ok(TextCall::Place(PlaceText { text, place }))
}

/// A text record, and nothing after it.
fn last_record(words: Words<'_>) -> Result<TextOf, Refusal>
    ensures { result ≡ reading alone_shape words.entry }
{
    let (text, rest) = record(words)?;
    rest.end()?;
    Ok(text)
}

/// A text record, and bytes for it.
fn with_bytes<'a>(words: Words<'a>) -> Result<TextBytes<'a>, Refusal>
    ensures { result ≡ reading bytes_shape words.entry }
{
    let (text, words) = record(words)?;
    let bytes = words.last_bytes()?;
    Ok(TextBytes { text, bytes })
}

/// A text record, and a number for it.
fn with_number(words: Words<'_>) -> Result<TextNumber, Refusal>
    ensures { result ≡ reading number_shape words.entry }
{
    let (text, words) = record(words)?;
    let number = words.last_number()?;
    Ok(TextNumber { text, number })
}

/// The words after `tselect`: a text record, and two offsets.
fn select<'a>(words: Words<'a>) -> Result<TextCall<'a>, Refusal>
    ensures { result ≡ reading select_shape words.entry }
{
    let (text, words) = record(words)?;
    let (start, words) = words.number()?;
    let end = words.last_number()?;
    Ok(TextCall::Select(SelectText { text, start, end }))
}

/// The words after `tscroll`: a text record, how many columns to the right, and how many rows down.
fn scroll<'a>(words: Words<'a>) -> Result<TextCall<'a>, Refusal>
    ensures { result ≡ reading scroll_shape words.entry }
{
    let (text, words) = record(words)?;
    let (columns, words) = words.number()?;
    let rows = words.last_number()?;
    Ok(TextCall::Scroll(ScrollText {
        text,
        columns,
        rows,
    }))
}

/// The words after `tactive`: a text record, and whether it is to be active.
fn activate<'a>(words: Words<'a>) -> Result<TextCall<'a>, Refusal>
    ensures { result ≡ reading activate_shape words.entry }
{
    let (text, words) = record(words)?;
    let flag = words.last_flag()?;
    Ok(TextCall::Activate(TextFlag { text, flag }))
}

/// The words after `tclick`: a text record, a point of its window, and how is selected.
fn click<'a>(words: Words<'a>) -> Result<TextCall<'a>, Refusal>
    ensures { result ≡ reading click_shape words.entry }
{
    let (text, words) = record(words)?;
    let (point, words) = words.point()?;
    let mode = words.last_number()?;
    Ok(TextCall::Click(ClickText { text, point, mode }))
}

/// The words after `toffset`: a text record, and a point of its window.
fn offset_at<'a>(words: Words<'a>) -> Result<TextCall<'a>, Refusal>
    ensures { result ≡ reading offset_at_shape words.entry }
{
    let (text, words) = record(words)?;
    let point = words.last_point()?;
    Ok(TextCall::OffsetAt(PointInText { text, point }))
}

/// Nothing follows `scrap`.
fn scrap<'a>(words: Words<'a>) -> Result<TextCall<'a>, Refusal>
    ensures { result ≡ reading (says calls.Scrap) words.entry }
{
    words.end()?;
    Ok(TextCall::Scrap)
}

/// Nothing follows `fontinfo`.
fn font_info<'a>(words: Words<'a>) -> Result<TextCall<'a>, Refusal>
    ensures { result ≡ reading (says calls.FontInfo) words.entry }
{
    words.end()?;
    Ok(TextCall::FontInfo)
}
