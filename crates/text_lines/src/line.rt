//! Lines.

/// A line of a text: the offset of its first byte, and the one behind its last byte. Offsets are counted from 0.
#[derive(Clone, Copy, Debug, PartialEq, Eq, Drop)]
pub struct TextLine {
    pub start: u16,
    pub end: u16,
}
