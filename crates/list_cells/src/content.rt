//! What a cell holds, and rows of it.
ghost use Rattle.std.specs.Prelude.{◌≡◌, ◌≤◌, ◌<◌, ◌^◌, ◌+◌, ◌*◌, ◌++◌, [], is_ok, if◌then◌else◌, min, IfSome};
ghost use Rattle.std.specs.Prelude.{replicate, length, vec_len, vec_capacity};
ghost use Rattle.std.specs.List.{position_from};
ghost use Rattle.std.specs.Str.{bytes_eq};
ghost use Rattle.list_cells.specs.Contents.{empty_content, passed, opened, closed, in_rows, bytes_held};

use std::alloc::{AllocError, Global};
use std::marker::Model;

/// What a cell holds: its data, and whether it is selected.
#[derive(Drop)]
pub(crate) struct CellContent {
    bytes: Vec<u8>,
    selected: bool,
}

impl Model for CellContent {
    ghost use Rattle.list_cells.specs.Contents.{Content};

    ghost Value = { Content };

    ghost view = { λ c. record { bytes = c.bytes.items; selected = c.selected } };
}

impl CellContent {
    /// An empty cell, which is not selected.
    pub(crate) fn empty(alloc: Global) -> CellContent
        ensures { result ≡ empty_content }
    {
        CellContent {
            bytes: Vec::new(alloc),
            selected: false,
        }
    }

    /// How many bytes the data has.
    pub(crate) fn len(&self) -> usize
        ensures len { result ≡ length self.now.bytes }
        ensures below { result < 2 ^ 63 }
    {
        self.bytes.len()
    }

    /// Gives the cell other data, a copy of these bytes.
    pub(crate) fn set(&mut self, alloc: Global, text: &[u8]) -> Result<(), AllocError>
        ensures { self.new ≡ (if is_ok result then record self.old { bytes = text.now } else self.old) }
    {
        let mut bytes = Vec::new(alloc);
        bytes.extend_from_slice(text)?;
        self.bytes = bytes;
        Ok(())
    }

    /// Adds these bytes behind the data.
    pub(crate) fn append(&mut self, text: &[u8]) -> Result<(), AllocError>
        ensures { self.new ≡ (if is_ok result
            then record self.old { bytes = self.old.bytes ++ text.now } else self.old) }
    {
        self.bytes.extend_from_slice(text)?;
        Ok(())
    }

    /// Takes the data away.
    pub(crate) fn clear(&mut self)
        ensures { self.new ≡ record self.old { bytes = [] } }
    {
        self.bytes.clear();
    }

    /// Whether the cell is selected.
    pub(crate) fn is_selected(&self) -> bool
        ensures { result ≡ self.now.selected }
    {
        self.selected
    }

    /// Selects the cell, or deselects it.
    pub(crate) fn select(&mut self, selected: bool)
        ensures { self.new ≡ record self.old { selected = selected } }
    {
        self.selected = selected;
    }

    /// The data.
    pub(crate) fn bytes(&self) -> &[u8]
        ensures { result.now ≡ self.now.bytes }
    {
        self.bytes.as_slice()
    }
}

/// Adds empty cells behind all, for which there has to be room.
pub(crate) fn append_empty(contents: &mut Vec<CellContent>, alloc: Global, count: usize)
    requires room { vec_len contents.old + count ≤ vec_capacity contents.old }
    ensures items { contents.new.items ≡ contents.old.items ++ replicate count empty_content }
    ensures len { vec_len contents.new ≡ vec_len contents.old + count }
    ensures capacity { vec_capacity contents.old ≤ vec_capacity contents.new }
{
    for _ in 0..count {
        let _ = contents.push(CellContent::empty(alloc));
    }
}

/// Moves the first `width` cells behind all, and on the way puts `count` empty cells before the one at `at` of them. There has
/// to be room.
pub(crate) fn pass_opened(
    contents: &mut Vec<CellContent>,
    alloc: Global,
    width: usize,
    at: usize,
    count: usize,
)
    requires within { width ≤ length contents.old.items }
    requires place { at ≤ width }
    requires room { vec_len contents.old + count ≤ vec_capacity contents.old }
    ensures items { contents.new.items ≡ passed width (opened at count) contents.old.items }
    ensures len { vec_len contents.new ≡ vec_len contents.old + count }
    ensures capacity { vec_capacity contents.old ≤ vec_capacity contents.new }
{
    contents.rotate_left(at);
    append_empty(contents, alloc, count);
    contents.rotate_left(width - at);
}

/// Moves the first `width` cells behind all, but for the `count` of them from `at` on, which are dropped.
pub(crate) fn pass_closed(contents: &mut Vec<CellContent>, width: usize, at: usize, count: usize)
    requires within { width ≤ length contents.old.items }
    requires place { at + count ≤ width }
    ensures items { contents.new.items ≡ passed width (closed at count) contents.old.items }
    ensures len { vec_len contents.new + count ≡ vec_len contents.old }
{
    contents.rotate_left(at);
    contents.rotate_left(count);
    let rest = contents.len() - count;
    contents.truncate(rest);
    contents.rotate_left(width - at - count);
}

/// Puts `count` empty cells into each of the rows, before the cell at `at`. There has to be room.
pub(crate) fn open_rows(
    contents: &mut Vec<CellContent>,
    alloc: Global,
    rows: usize,
    width: usize,
    at: usize,
    count: usize,
)
    requires shape { length contents.old.items ≡ rows * width }
    requires place { at ≤ width }
    requires room { vec_len contents.old + rows * count ≤ vec_capacity contents.old }
    ensures items { contents.new.items ≡ in_rows width (opened at count) rows contents.old.items }
    ensures len { vec_len contents.new ≡ vec_len contents.old + rows * count }
{
    for _ in 0..rows {
        pass_opened(contents, alloc, width, at, count);
    }
}

/// Drops the `count` cells from `at` on of each of the rows.
pub(crate) fn close_rows(
    contents: &mut Vec<CellContent>,
    rows: usize,
    width: usize,
    at: usize,
    count: usize,
)
    requires shape { length contents.old.items ≡ rows * width }
    requires place { at + count ≤ width }
    ensures items { contents.new.items ≡ in_rows width (closed at count) rows contents.old.items }
    ensures len { vec_len contents.new + rows * count ≡ vec_len contents.old }
{
    for _ in 0..rows {
        pass_closed(contents, width, at, count);
    }
}

/// How many bytes the cells hold together, as far as the numbers reach.
pub(crate) fn bytes_held(contents: &[CellContent]) -> usize
    ensures { result ≡ min (bytes_held contents.now) usize.MAX }
{
    let mut held: usize = 0;
    for content in contents {
        held = held.saturating_add(content.len());
    }
    held
}

/// How far the first selected cell lies from the first one.
pub(crate) fn first_selected(contents: &[CellContent]) -> Option<usize>
    ensures place { result ≡ position_from (λ c. c.selected) 0 contents.now }
    ensures within { IfSome result (λ far. far < length contents.now) }
{
    contents.iter().position(|content| content.is_selected())
}

/// How far the first cell that holds just these bytes lies from the first one.
pub(crate) fn first_holding(contents: &[CellContent], text: &[u8]) -> Option<usize>
    ensures place { result ≡ position_from (λ c. bytes_eq c.bytes text.now) 0 contents.now }
    ensures within { IfSome result (λ far. far < length contents.now) }
{
    contents.iter().position(|content| content.bytes() == text)
}
