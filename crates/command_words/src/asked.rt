//! The words of regions that are asked for.
ghost use Rattle.std.specs.Prelude.{◌≡◌};
ghost use Rattle.line_words.specs.Shapes.{reading, says};
ghost use Rattle.line_words.specs.Tables.{named};
ghost use Rattle.command_words.specs.Asked.{asked_shape, asked_words, both_shape, form_words, frame_shape, inset_shape, named_shape, offset_shape, rgn_shape, word_shape};
ghost use Rattle.form_words.specs.Forms.{form_shape};

use form_words::{FormWord, drawn_form_of, pen};
use lent_ops::{Combination, Distance, RegionRef};
use line_words::{Words, named};
use tb_geom::{BytesRef, Refusal};

/// The first word after `region`. It says which words follow.
#[derive(Clone, Copy)]
pub enum AskedWord {
    Form(FormWord),
    Rgn,
    Offset,
    Inset,
    FrameRgn,
    Combined(Combination),
}

/// Each name that `draw` has not for a form, and what it stands for.
static ASKED_WORDS: [(&[u8], AskedWord); 9] = [
    (b"rect", AskedWord::Form(FormWord::Rect)),
    (b"rgn", AskedWord::Rgn),
    (b"offset", AskedWord::Offset),
    (b"inset", AskedWord::Inset),
    (b"frgn", AskedWord::FrameRgn),
    (b"union", AskedWord::Combined(Combination::Union)),
    (b"sect", AskedWord::Combined(Combination::Sect)),
    (b"diff", AskedWord::Combined(Combination::Diff)),
    (b"xor", AskedWord::Combined(Combination::Xor)),
];

/// What a word asks for after `region`, byte by byte; None of a word that asks for nothing.
pub fn asked_word_of(word: &[u8]) -> Option<AskedWord>
    ensures { result ≡ named word.now asked_words }
{
    match named(&ASKED_WORDS, word) {
        Some(asked) => Some(asked),
        None => form_word_of(word),
    }
}

/// The same of a form that is drawn too.
fn form_word_of(word: &[u8]) -> Option<AskedWord>
    ensures { result ≡ named word.now form_words }
{
    let form = drawn_form_of(word)?;
    Some(AskedWord::Form(form))
}

/// The words after `region`: a name, what is asked for by it, and nothing after that.
#[tactic(auto, unfolding(crate::specs::Asked::asked_shape))]
pub fn asked_region<'a>(words: Words<'a>) -> Result<RegionRef<'a>, Refusal>
    ensures { result ≡ reading asked_shape words.entry }
{
    let (name, words) = words.name()?;
    named_region(&name, words)
}

/// The words after the name of a region.
fn named_region<'a>(name: &BytesRef<'_>, words: Words<'a>) -> Result<RegionRef<'a>, Refusal>
    ensures { result ≡ reading (named_shape (named name.now asked_words)) words.entry }
{
    match asked_word_of(name.as_slice()) {
        None => Err(Refusal::BadSyntax),
        Some(word) => word.region(words),
    }
}

impl AskedWord {
    /// What is asked for, and nothing after it.
    fn region<'a>(self, words: Words<'a>) -> Result<RegionRef<'a>, Refusal>
        ensures { result ≡ reading (word_shape self) words.entry }
    {
        match self {
            AskedWord::Form(word) => form_alone(word, words),
            AskedWord::Rgn => rgn(words),
            AskedWord::Offset => offset(words),
            AskedWord::Inset => inset(words),
            AskedWord::FrameRgn => frame(words),
            AskedWord::Combined(how) => both(how, words),
        }
    }
}

/// The numbers of a form, and nothing after them.
#[tactic(auto, using(form_words::proofs::FormLemmas::form_then))]
fn form_alone<'a>(word: FormWord, words: Words<'a>) -> Result<RegionRef<'a>, Refusal>
    ensures { result ≡ reading (word_shape (AskedWord.Form word)) words.entry }
{
    let (form, words) = word.form(words)?;
    words.end()?;
    Ok(RegionRef::Form(form))
}

/// The bytes of a region.
fn rgn<'a>(words: Words<'a>) -> Result<RegionRef<'a>, Refusal>
    ensures { result ≡ reading rgn_shape words.entry }
{
    let (bytes, words) = words.hex()?;
    words.end()?;
    Ok(RegionRef::Rgn(bytes))
}

/// The bytes of a region, and how far it is moved.
fn offset<'a>(words: Words<'a>) -> Result<RegionRef<'a>, Refusal>
    ensures { result ≡ reading offset_shape words.entry }
{
    let (bytes, words) = words.hex()?;
    let (dh, words) = words.number()?;
    let dv = words.last_number()?;
    Ok(RegionRef::Offset(bytes, Distance { dh, dv }))
}

/// The bytes of a region, and how far it is inset.
fn inset<'a>(words: Words<'a>) -> Result<RegionRef<'a>, Refusal>
    ensures { result ≡ reading inset_shape words.entry }
{
    let (bytes, words) = words.hex()?;
    let (dh, words) = words.number()?;
    let dv = words.last_number()?;
    Ok(RegionRef::Inset(bytes, Distance { dh, dv }))
}

/// The bytes of a region, and the pen that frames it.
#[tactic(auto, using(form_words::proofs::FormLemmas::pen_then))]
fn frame<'a>(words: Words<'a>) -> Result<RegionRef<'a>, Refusal>
    ensures { result ≡ reading frame_shape words.entry }
{
    let (bytes, words) = words.hex()?;
    let (pen, words) = pen(words)?;
    words.end()?;
    Ok(RegionRef::FrameRgn(bytes, pen))
}

/// The bytes of two regions.
fn both<'a>(how: Combination, words: Words<'a>) -> Result<RegionRef<'a>, Refusal>
    ensures { result ≡ reading (both_shape how) words.entry }
{
    let (first, words) = words.hex()?;
    let (second, words) = words.hex()?;
    words.end()?;
    Ok(RegionRef::Combined(how, first, second))
}
