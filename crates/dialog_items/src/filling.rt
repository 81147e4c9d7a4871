//! Texts of ParamText in a text.
ghost use Rattle.std.specs.Prelude.{◌≡◌, ◌≤◌, ◌<◌, ◌+◌, ◌++◌, length, drop, nat_lt, IfErr, IfOk, OnOk};
ghost use Rattle.std.specs.Prelude.{if◌then◌else◌};
ghost use Rattle.dialog_items.specs.Filling.{filled, is_param, lent_params, param_text, text_length};

use std::alloc::{AllocError, Global};
use tb_geom::Refusal;

/// The greatest number of bytes of a text.
const MOST_TEXT: usize = 32000;

/// The four texts of ParamText (*Inside Macintosh* I, "The Dialog Manager", "ParamText").
#[derive(Clone, Copy)]
pub struct ParamTexts<'a> {
    pub first: &'a [u8],
    pub second: &'a [u8],
    pub third: &'a [u8],
    pub fourth: &'a [u8],
}

impl<'a> ParamTexts<'a> {
    /// The text that a digit from `0` to `3` stands for.
    fn of_digit(self, digit: u8) -> &'a [u8]
        ensures { result.now ≡ param_text (lent_params self.entry) digit }
    {
        match digit {
            b'0' => self.first,
            b'1' => self.second,
            b'2' => self.third,
            _ => self.fourth,
        }
    }
}

/// What stands for the bytes from a place of a text on, up to another place.
#[derive(Clone, Copy)]
struct Piece<'a> {
    bytes: &'a [u8],
    end: usize,
}

/// Whether `^` and a digit from 0 to 3 begin at a place.
fn is_param(bytes: &[u8], at: usize) -> bool
    requires { at < length bytes.now }
    ensures { result ≡ is_param (drop at bytes.now) }
{
    match &bytes[at..] {
        [b'^', b'0'..=b'3', ..] => true,
        _ => false,
    }
}

/// What the first byte from a place on becomes, or the first two.
fn piece_at<'a>(bytes: &'a [u8], at: usize, params: ParamTexts<'a>) -> Piece<'a>
    requires { at < length bytes.now }
    ensures made { filled (lent_params params.entry) (drop at bytes.now) ≡ result.bytes.now ++ filled (lent_params params.entry) (drop result.end bytes.now) }
    ensures onward { at < result.end }
    ensures within { result.end ≤ length bytes.now }
{
    if is_param(bytes, at) {
        Piece {
            bytes: params.of_digit(bytes[at + 1]),
            end: at + 2,
        }
    } else {
        Piece {
            bytes: &bytes[at..at + 1],
            end: at + 1,
        }
    }
}

/// How long the filled bytes are, where they are a text.
fn filled_len(bytes: &[u8], params: ParamTexts<'_>) -> Option<usize>
    ensures { result ≡ text_length (length (filled (lent_params params.entry) bytes.now)) }
{
    let mut len = 0;
    let mut at = 0;
    while at < bytes.len() && len <= MOST_TEXT {
        let piece = piece_at(bytes, at, params);
        len += piece.bytes.len();
        at = piece.end;
    }
    if len <= MOST_TEXT { Some(len) } else { None }
}

/// Puts the filled bytes behind others.
fn append_filled(text: &mut Vec<u8>, bytes: &[u8], params: ParamTexts<'_>) -> Result<(), AllocError>
    ensures { OnOk result (text.new.items ≡ text.old.items ++ filled (lent_params params.entry) bytes.now) }
{
    let mut at = 0;
    while at < bytes.len() {
        let piece = piece_at(bytes, at, params);
        text.extend_from_slice(piece.bytes)?;
        at = piece.end;
    }
    Ok(())
}

/// The bytes with the texts of ParamText: each `^` that is followed by a digit from 0 to 3 becomes the text of that number, once,
/// from left to right. TooLong where they are more than 32000, NoMemory where there is no memory for them. All memory is taken
/// first.
pub fn filled(alloc: Global, bytes: &[u8], params: ParamTexts<'_>) -> Result<Vec<u8>, Refusal>
    ensures made { IfOk result (λ text. text.items ≡ filled (lent_params params.entry) bytes.now) }
    ensures allowed { OnOk result (length (filled (lent_params params.entry) bytes.now) ≤ 32000) }
    ensures refused { IfErr result (λ e.
        e ≡ (if nat_lt 32000 (length (filled (lent_params params.entry) bytes.now)) then Refusal.TooLong else Refusal.NoMemory)) }
{
    let Some(len) = filled_len(bytes, params) else {
        return Err(Refusal::TooLong);
    };
    let mut text = Vec::with_capacity(alloc, len)?;
    append_filled(&mut text, bytes, params)?;
    Ok(text)
}
