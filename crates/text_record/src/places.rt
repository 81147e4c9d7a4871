//! Where lines and bytes lie.
ghost use Rattle.std.specs.Prelude.{◌≡◌, ◌≤◌, ◌<◌, ◌*◌, ◌≤ℤ◌, ◌+ℤ◌, pos, negsuc, length};
ghost use Rattle.text_lines.specs.Widths.{bytes_width};
ghost use Rattle.text_record.specs.Texts.{lines_of};
ghost use Rattle.text_record.specs.Places.{indent, drawn_bytes, inked_width, spare_of, pen_of, line_top, row_of, line_in, column_on, column_of, place_of, line_at_row, last_offset, offset_on, offset_at, word_start, word_end};

use crate::bytes::{
    bytes_between, inked_width, passed_bytes, without_return, word_ahead, word_behind,
};
use crate::placing::Justification;
use crate::record::TextRecord;
use tb_geom::Point;
use text_lines::{TextLine, bytes_width, line_of};

/// How far a line begins right of its destination, where so much of that is left.
fn indent(justification: Justification, spare: i32) -> i32
    requires from { negsuc 8159999 ≤ℤ spare }
    requires to { spare ≤ℤ pos 16382 }
    ensures value { result ≡ indent justification spare }
    ensures from { negsuc 8159999 ≤ℤ result }
    ensures to { result ≤ℤ pos 16382 }
{
    match justification {
        Justification::Left => 0,
        Justification::Middle => spare.div_euclid(2),
        Justification::Right => spare,
    }
}

/// How many rows so many lines have.
#[tactic(auto, using(crate::proofs::PlaceLemmas::rows_small))]
fn rows_down(lines: usize, height: u16) -> i32
    requires lines { lines ≤ 32000 }
    requires height { height ≤ 381 }
    ensures value { result ≡ pos (lines * height) }
    ensures to { result ≤ℤ pos 12192000 }
{
    let rows = lines * usize::from(height);
    rows as i32
}

impl TextRecord {
    /// How many lines there are: at least one.
    pub fn line_count(&self) -> usize
        ensures value { result ≡ length (lines_of self.now.text) }
        ensures some { 1 ≤ result }
        ensures few { result ≤ 32001 }
    {
        self.text.lines().len()
    }

    /// A line by its number, from 0 on.
    pub fn line(&self, number: usize) -> TextLine
        requires { number < length (lines_of self.now.text) }
        ensures value { result ≡ line_in self.now number }
        ensures order { result.start ≤ result.end }
        ensures within { result.end ≤ length self.now.text.bytes }
    {
        self.lines()[number]
    }

    /// The drawn bytes of a line: its bytes, without the return that ends it.
    pub fn drawn_bytes(&self, number: usize) -> &[u8]
        requires { number < length (lines_of self.now.text) }
        ensures bytes { result.now ≡ drawn_bytes self.now.text.bytes (line_in self.now number) }
        ensures short { length result.now ≤ 32000 }
    {
        let line = self.line(number);
        without_return(&self.bytes()[usize::from(line.start)..usize::from(line.end)])
    }

    /// How wide the drawn bytes of a line are without the blanks at their end.
    fn inked_width(&self, number: usize) -> u32
        requires { number < length (lines_of self.now.text) }
        ensures value { result ≡ inked_width self.now.text (line_in self.now number) }
        ensures small { result ≤ 8160000 }
    {
        inked_width(self.text.widths(), self.drawn_bytes(number))
    }

    /// How much of the destination a line leaves, less 1; below 0 where it has not room.
    fn spare(&self, number: usize) -> i32
        requires { number < length (lines_of self.now.text) }
        ensures value { result ≡ spare_of self.now.text (line_in self.now number) }
        ensures from { negsuc 8159999 ≤ℤ result }
        ensures to { result ≤ℤ pos 16382 }
    {
        i32::from(self.text.width()) - 1 - self.inked_width(number) as i32
    }

    /// How far right of the left of the destination the first byte of a line begins.
    fn pen_beside(&self, number: usize) -> i32
        requires { number < length (lines_of self.now.text) }
        ensures value { (self.now.left +ℤ result) ≡ pen_of self.now (line_in self.now number) }
        ensures from { negsuc 8159998 ≤ℤ result }
        ensures to { result ≤ℤ pos 16383 }
    {
        1 + indent(self.justification, self.spare(number))
    }

    /// The column at which the first byte of a line begins.
    pub fn pen(&self, number: usize) -> i32
        requires { number < length (lines_of self.now.text) }
        ensures value { result ≡ pen_of self.now (line_in self.now number) }
        ensures from { negsuc 24937214 ≤ℤ result }
        ensures to { result ≤ℤ pos 16793598 }
    {
        self.left + self.pen_beside(number)
    }

    /// The columns at which lines begin and end at most: 1 right of the left of the destination, and behind its last one.
    pub fn edges(&self) -> (i32, i32)
        ensures left { result.0 ≡ self.now.left +ℤ pos 1 }
        ensures right { result.1 ≡ self.now.left +ℤ pos self.now.text.width }
    {
        (self.left + 1, self.left + i32::from(self.text.width()))
    }

    /// How far below the top of the destination a line lies.
    pub(crate) fn line_below(&self, number: usize) -> i32
        requires { number < length (lines_of self.now.text) }
        ensures value { (self.now.top +ℤ result) ≡ line_top self.now number }
        ensures from { pos 0 ≤ℤ result }
        ensures to { result ≤ℤ pos 12192000 }
    {
        rows_down(number, self.height)
    }

    /// The top row of a line.
    pub fn line_top(&self, number: usize) -> i32
        requires { number < length (lines_of self.now.text) }
        ensures value { result ≡ line_top self.now number }
        ensures from { negsuc 16777215 ≤ℤ result }
        ensures to { result ≤ℤ pos 28969215 }
    {
        self.top + self.line_below(number)
    }

    /// The number of the line that an offset lies on. An offset behind the text lies where its end does.
    pub fn row_of(&self, offset: usize) -> usize
        ensures value { result ≡ row_of self.now offset }
        ensures within { result < length (lines_of self.now.text) }
    {
        line_of(self.lines(), offset)
    }

    /// How far right of the left of the destination an offset lies.
    pub(crate) fn column_beside(&self, offset: usize) -> i32
        ensures value { (self.now.left +ℤ result) ≡ column_of self.now offset }
        ensures from { negsuc 8159998 ≤ℤ result }
        ensures to { result ≤ℤ pos 8176383 }
    {
        let number = self.row_of(offset);
        let start = usize::from(self.line(number).start);
        let before = bytes_between(self.bytes(), start, offset);
        self.pen_beside(number) + bytes_width(self.text.widths(), before) as i32
    }

    /// The column of an offset: where the byte there begins. Behind the text it is where that ends.
    pub fn column_of(&self, offset: usize) -> i32
        ensures value { result ≡ column_of self.now offset }
        ensures from { negsuc 24937214 ≤ℤ result }
        ensures to { result ≤ℤ pos 24953598 }
    {
        self.left + self.column_beside(offset)
    }

    /// The place of an offset: its column, and the top row of its line (TEGetPoint answers the row below its line).
    pub fn place_of(&self, offset: usize) -> Point
        ensures { result ≡ place_of self.now offset }
    {
        Point {
            h: self.column_of(offset),
            v: self.line_top(self.row_of(offset)),
        }
    }

    /// The number of the line at a row: the first above all, and the last below all.
    pub fn line_at_row(&self, v: i32) -> usize
        ensures value { result ≡ line_at_row self.now v }
        ensures within { result < length (lines_of self.now.text) }
    {
        let last = self.line_count() - 1;
        if v < self.top {
            return 0;
        }
        let down = v.abs_diff(self.top) / u32::from(self.height);
        (down as usize).min(last)
    }

    /// How far the offset at a point of a line goes at most: before the line's last byte, and in the last line behind it.
    fn last_offset(&self, number: usize) -> usize
        requires { number < length (lines_of self.now.text) }
        ensures value { result ≡ last_offset self.now number }
        ensures from { (line_in self.now number).start ≤ result }
        ensures within { result ≤ length self.now.text.bytes }
    {
        let count = self.line_count();
        let end = usize::from(self.line(number).end);
        if number + 1 < count { end - 1 } else { end }
    }

    /// The offset on a line at a column: that of the first byte of which more than half lies right of it.
    pub fn offset_on(&self, number: usize, h: i32) -> usize
        requires { number < length (lines_of self.now.text) }
        ensures value { result ≡ offset_on self.now number h }
        ensures within { result ≤ length self.now.text.bytes }
        ensures short { result ≤ 32000 }
    {
        let start = usize::from(self.line(number).start);
        let ahead = i64::from(h) - i64::from(self.pen(number));
        let bytes = &self.bytes()[start..self.last_offset(number)];
        start + passed_bytes(self.text.widths(), ahead, bytes)
    }

    /// The offset at a point of the window (TEGetOffset).
    pub fn offset_at(&self, point: Point) -> usize
        ensures value { result ≡ offset_at self.now point }
        ensures within { result ≤ length self.now.text.bytes }
        ensures short { result ≤ 32000 }
    {
        self.offset_on(self.line_at_row(point.v), point.h)
    }

    /// The word at an offset: the offset of its first byte, and the one behind its last byte. The bytes of a word are greater
    /// than 32; where there is none, both are the offset. An offset behind the text counts as its end.
    pub fn word_at(&self, offset: usize) -> (usize, usize)
        ensures start { result.0 ≡ word_start self.now.text.bytes offset }
        ensures end { result.1 ≡ word_end self.now.text.bytes offset }
        ensures order { result.0 ≤ result.1 }
        ensures within { result.1 ≤ length self.now.text.bytes }
    {
        let bytes = self.bytes();
        let at = offset.min(bytes.len());
        (
            at - word_behind(&bytes[..at]),
            at + word_ahead(&bytes[at..]),
        )
    }
}
