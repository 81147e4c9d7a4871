//! What a Toolbox can be asked about text records and the scrap, and what it answers.

use def_iface::Size;
use tb_geom::{BytesRef, Point};

/// A call about text records (*Inside Macintosh* I, "TextEdit"; volumes IV and V, the same chapter). A window and a text record
/// are named by their serials, from 1 on; no one has the serial 0. Numbers are as they were asked for, judged by nobody. One
/// that names no window is NoSuchWindow, and one that names no text record of it NoSuchText. Points are in the window's own
/// coordinates. Every change of the text, of the selection or of whether the record is active turns its caret on.
#[derive(Drop)]
pub enum TextCall<'a> {
    /// Makes a text record of a window, without text (TENew). It lies behind the controls, the lists and the text records that
    /// the window has already, and all that it then owns is drawn. OutOfRange where a number of it is out of its range, TooMany
    /// where the window has 64 text records.
    New(NewText),
    /// Gives a record another destination and another view.
    Place(PlaceText),
    /// Ends a text record (TEDispose).
    Dispose(TextOf),
    /// Shows a text record, and draws all that it then owns, also where it was shown already.
    Show(TextOf),
    /// Hides a text record: what it owned belongs to what lies under it, and is to be redrawn.
    Hide(TextOf),
    /// Puts bytes in the place of the text (TESetText); the selection is the point behind them. TooLong past 255 bytes.
    Set(TextBytes<'a>),
    /// Puts bytes in front of the selection (TEInsert). TooLong past 255 bytes, or where the text would have more than 32000.
    Insert(TextBytes<'a>),
    /// Deletes the selection (TEDelete).
    Delete(TextOf),
    /// A key was typed (TEKey): 8 deletes, 28 to 31 move the selection, and any other byte takes its place. OutOfRange where
    /// the code does not lie in 0..=255, TooLong where the text would have more than 32000 bytes.
    Key(TextNumber),
    /// Puts the selection into the scrap, and deletes it (TECut).
    Cut(TextOf),
    /// Puts the selection into the scrap (TECopy).
    Copy(TextOf),
    /// Puts the scrap in the place of the selection (TEPaste). TooLong where the text would have more than 32000 bytes.
    Paste(TextOf),
    /// Selects the bytes between two offsets, or up to the end of the text (TESetSelect). OutOfRange unless
    /// 0 <= start <= end <= 32767.
    Select(SelectText),
    /// Makes a record active or inactive (TEActivate, TEDeactivate).
    Activate(TextFlag),
    /// So many ticks have gone by (TEIdle): the caret is on where every 32nd part of them is even. OutOfRange outside
    /// 0..=999999999.
    Idle(TextNumber),
    /// Sets the justification (TESetJust): 0 left, 1 middle, -1 right, and else OutOfRange.
    Justify(TextNumber),
    /// Moves the text so many columns to the right and rows down (TEScroll). OutOfRange where the destination would leave its
    /// range.
    Scroll(ScrollText),
    /// Scrolls so that the end of the selection shows (TESelView).
    ShowSelection(TextOf),
    /// The mouse was pressed at a point (TEClick, its begin): where the record is shown and its view has the point, a selection
    /// opens. The mode is 0, or 1 to extend the selection, or 2 to select words, and else OutOfRange.
    Click(ClickText),
    /// The mouse is at this point, while a selection is open (TEClick, a step).
    Step(Point),
    /// The mouse was released at this point, while a selection is open (TEClick, its end).
    End(Point),
    /// The text (TEGetText).
    Get(TextOf),
    /// The selection, whether the record is active and shown, the length of the text, how many lines it has, and where the
    /// destination begins.
    Info(TextOf),
    /// Where a line begins and ends, by its number from 0 on. OutOfRange where there is no such line.
    Line(TextNumber),
    /// The place of an offset: its column, and the row below its line (TEGetPoint). OutOfRange outside 0..=32767.
    PlaceOf(TextNumber),
    /// The offset at a point (TEGetOffset).
    OffsetAt(PointInText),
    /// The bytes of the scrap.
    Scrap,
    /// Puts bytes into the scrap. TooLong past 255.
    SetScrap(BytesRef<'a>),
    /// How wide bytes are in the font (TextWidth). TooLong past 255.
    Width(BytesRef<'a>),
    /// How many rows the font reaches up and down, and how many lie between lines (GetFontInfo).
    FontInfo,
}

/// A text record of a window.
#[derive(Clone, Copy, Debug, PartialEq, Eq)]
pub struct TextOf {
    pub window: u64,
    pub text: u64,
}

/// Where a text stands in its window.
#[derive(Clone, Copy, Debug, PartialEq, Eq)]
pub struct TextPlace {
    /// The column of its destination, in -16777216..=16777215.
    pub left: i32,
    /// The row of its destination, in the same range.
    pub top: i32,
    /// The columns of its lines, in 1..=16383.
    pub width: i32,
    /// Where the top left corner of its view lies.
    pub view: Point,
    /// The width and the height of its view, each in 1..=1024.
    pub view_size: Size,
}

/// A text record to be made (TENew: *Inside Macintosh* I, "TextEdit").
#[derive(Clone, Copy, Debug, PartialEq, Eq)]
pub struct NewText {
    /// The serial of its window.
    pub window: u64,
    pub place: TextPlace,
    /// 0 left, 1 middle, -1 right.
    pub justification: i32,
    /// Whether lines end where they reach the width of the destination.
    pub wraps: bool,
}

/// A text record that is to stand elsewhere.
#[derive(Clone, Copy, Debug, PartialEq, Eq)]
pub struct PlaceText {
    pub text: TextOf,
    pub place: TextPlace,
}

/// A text record, and bytes for it.
#[derive(Drop)]
pub struct TextBytes<'a> {
    pub text: TextOf,
    pub bytes: BytesRef<'a>,
}

/// A text record, and a number for it.
#[derive(Clone, Copy, Debug, PartialEq, Eq)]
pub struct TextNumber {
    pub text: TextOf,
    pub number: i32,
}

/// A text record, and whether it is to be so.
#[derive(Clone, Copy, Debug, PartialEq, Eq)]
pub struct TextFlag {
    pub text: TextOf,
    pub flag: bool,
}

/// A text record that is to have another selection.
#[derive(Clone, Copy, Debug, PartialEq, Eq)]
pub struct SelectText {
    pub text: TextOf,
    pub start: i32,
    pub end: i32,
}

/// A text record that is to be scrolled.
#[derive(Clone, Copy, Debug, PartialEq, Eq)]
pub struct ScrollText {
    pub text: TextOf,
    /// To the right.
    pub columns: i32,
    /// Down.
    pub rows: i32,
}

/// A text record, and a point of its window.
#[derive(Clone, Copy, Debug, PartialEq, Eq)]
pub struct PointInText {
    pub text: TextOf,
    pub point: Point,
}

/// A click of the mouse in a text record.
#[derive(Clone, Copy, Debug, PartialEq, Eq)]
pub struct ClickText {
    pub text: TextOf,
    pub point: Point,
    pub mode: i32,
}

/// What a text record tells of itself.
#[derive(Clone, Copy, Debug, PartialEq, Eq)]
pub struct TextInfo {
    pub start: u16,
    pub end: u16,
    pub active: bool,
    pub shown: bool,
    /// How many bytes the text has.
    pub length: u16,
    /// How many lines it has.
    pub lines: u16,
    pub left: i32,
    pub top: i32,
}

/// What a `TextCall` answers.
#[derive(Debug, PartialEq, Eq, Drop)]
pub enum TextReply {
    /// It was done, and nothing is asked.
    Done,
    /// The serial of the new record.
    Text(u64),
    /// Whether a selection opened.
    Opened(bool),
    /// Where the selection, or a line, begins and ends.
    Offsets(u16, u16),
    /// Bytes of a text or of the scrap.
    Bytes(Vec<u8>),
    Info(TextInfo),
    /// The place of an offset.
    Place(Point),
    /// An offset.
    Offset(u16),
    /// How wide bytes are.
    Width(u32),
    /// The ascent, the descent and the leading of the font.
    Font(u16, u16, u16),
}
