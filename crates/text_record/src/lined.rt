//! A text in lines.
ghost use Rattle.std.specs.Prelude.{◌≡◌, ◌≤◌, ◌+◌, ◌-◌, ◌++◌, [], length, take, drop, is_ok, IsOk, IfOk, OnOk, vec_len, vec_capacity, if◌then◌else◌};
ghost use Rattle.text_record.specs.Texts.{room_of, lines_of, put_bytes, put_lined};

use std::alloc::{AllocError, Global};
use std::marker::Model;
use text_lines::{ByteWidths, TextLine, break_text};

/// A text of at most 32000 bytes in lines, with the widths of all bytes. Contracts see a `Lined`.
#[derive(Drop)]
pub(crate) struct LinedText {
    widths: ByteWidths,
    width: u16,
    wrap: bool,
    bytes: Vec<u8>,
    lines: Vec<TextLine>,
}

impl Model for LinedText {
    ghost use Rattle.std.specs.Prelude.{◌≡◌, ◌≤◌, ◌+◌, length, vec_capacity};
    ghost use Rattle.text_lines.specs.Lines.{text_lines};
    ghost use Rattle.text_record.specs.Texts.{Lined, room_of};

    ghost Value = { Lined };

    ghost view = { λ t. record { widths = t.widths; width = t.width; wrap = t.wrap; bytes = t.bytes.items } };

    ghost invariant = { λ t. (length t.bytes.items ≤ 32000) × (length t.bytes.items + 1 ≤ vec_capacity t.lines)
        × (t.lines.items ≡ text_lines t.widths (room_of t.wrap t.width) t.bytes.items) × (1 ≤ t.width) };
}

/// Puts other bytes in the place of those from one offset up to another. There has to be room.
fn put_bytes(bytes: &mut Vec<u8>, start: usize, end: usize, other: &[u8])
    requires order { start ≤ end }
    requires within { end ≤ length bytes.old.items }
    requires room { vec_len bytes.old - (end - start) + length other.now ≤ vec_capacity bytes.old }
    ensures items { bytes.new.items ≡ put_bytes start end other.now bytes.old.items }
    ensures len { vec_len bytes.new + (end - start) ≡ vec_len bytes.old + length other.now }
{
    let behind = bytes.len() - end;
    let rest = bytes.len() - (end - start);
    bytes.rotate_left(end);
    bytes.truncate(rest);
    let _ = bytes.extend_from_slice(other);
    bytes.rotate_left(behind);
}

/// Takes the room for so many bytes more, and for the lines of the text that has them. The text itself stays.
fn take_room(bytes: &mut Vec<u8>, lines: &mut Vec<TextLine>, more: usize) -> Result<(), AllocError>
    requires short { length bytes.old.items + more ≤ 32000 }
    ensures bytes { bytes.new.items ≡ bytes.old.items }
    ensures lines { lines.new.items ≡ lines.old.items }
    ensures capacity { vec_capacity lines.old ≤ vec_capacity lines.new }
    ensures bytes_room { OnOk result (length bytes.old.items + more ≤ vec_capacity bytes.new) }
    ensures lines_room { OnOk result (length bytes.old.items + more + 1 ≤ vec_capacity lines.new) }
{
    bytes.reserve(more)?;
    let most_lines = bytes.len() + more + 1;
    lines.reserve(most_lines.saturating_sub(lines.len()))?;
    Ok(())
}

/// How wide the bytes of a line may be together; without wrap as wide as they are.
fn room_of(wrap: bool, width: u16) -> Option<u16>
    requires { 1 ≤ width }
    ensures { result ≡ room_of wrap width }
{
    if wrap { Some(width - 1) } else { None }
}

impl LinedText {
    /// A text without bytes.
    pub(crate) fn new(
        alloc: Global,
        widths: &ByteWidths,
        width: u16,
        wrap: bool,
    ) -> Result<LinedText, AllocError>
        requires { 1 ≤ width }
        ensures { IfOk result (λ made. made ≡ record { widths = widths.now; width = width; wrap = wrap; bytes = [] }) }
    {
        let mut lines = Vec::with_capacity(alloc, 1)?;
        break_text(&mut lines, widths, room_of(wrap, width), b"");
        Ok(LinedText {
            widths: *widths,
            width,
            wrap,
            bytes: Vec::new(alloc),
            lines,
        })
    }

    /// Puts other bytes in the place of those from one offset up to another. It takes memory where the text gets longer,
    /// and before it changes anything.
    pub(crate) fn put(&mut self, start: usize, end: usize, other: &[u8]) -> Result<(), AllocError>
        requires order { start ≤ end }
        requires within { end ≤ length self.old.bytes }
        requires short { length self.old.bytes - (end - start) + length other.now ≤ 32000 }
        ensures text { self.new ≡ (if is_ok result then put_lined start end other.now self.old else self.old) }
        ensures shorter { length other.now ≤ end - start → IsOk result }
    {
        let gone = end - start;
        if gone < other.len() {
            take_room(&mut self.bytes, &mut self.lines, other.len() - gone)?;
        }
        put_bytes(&mut self.bytes, start, end, other);
        let room = room_of(self.wrap, self.width);
        break_text(&mut self.lines, &self.widths, room, &self.bytes);
        Ok(())
    }

    /// Breaks the text into lines of another width.
    pub(crate) fn set_width(&mut self, width: u16)
        requires { 1 ≤ width }
        ensures { self.new ≡ record self.old { width = width } }
    {
        self.width = width;
        break_text(
            &mut self.lines,
            &self.widths,
            room_of(self.wrap, width),
            &self.bytes,
        );
    }

    /// The widths of all bytes.
    pub(crate) fn widths(&self) -> &ByteWidths
        ensures { result.now ≡ self.now.widths }
    {
        &self.widths
    }

    /// How many columns lines have.
    pub(crate) fn width(&self) -> u16
        ensures { result ≡ self.now.width }
    {
        self.width
    }

    /// Whether lines wrap.
    pub(crate) fn wraps(&self) -> bool
        ensures { result ≡ self.now.wrap }
    {
        self.wrap
    }

    /// The bytes.
    pub(crate) fn bytes(&self) -> &[u8]
        ensures bytes { result.now ≡ self.now.bytes }
        ensures short { length result.now ≤ 32000 }
    {
        self.bytes.as_slice()
    }

    /// The lines.
    pub(crate) fn lines(&self) -> &[TextLine]
        ensures { result.now ≡ lines_of self.now }
    {
        self.lines.as_slice()
    }
}
