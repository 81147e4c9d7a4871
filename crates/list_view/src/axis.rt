//! A view along one axis, with the lines of a list in it, which are its columns or its rows.
ghost use Rattle.std.specs.Prelude.{◌≡◌, ◌≤◌, ◌≤ℤ◌, ◌<ℤ◌, ◌*ℤ◌, ◌+ℤ◌, ◌&&◌, pos, negsuc, int_div, true};
ghost use Rattle.tb_geom.specs.Rects.{is_coordinate};
ghost use Rattle.list_view.specs.Axes.{is_side, is_axis, end_of, shown, bound, scrolled_line, line_start, line_at, lines_end, IsAxis, IsLine, IsNear};

use tb_geom::{FIRST_SIDE, LAST_SIDE};

/// How many pixels a view or a cell has at most along an axis.
const LONGEST: i32 = 1024;

/// Where a view lies along one axis, across or down, in its window's own coordinates, and how large its cells are.
#[derive(Clone, Copy, Debug, PartialEq, Eq)]
pub struct Axis {
    /// The left or the top side of the view.
    pub start: i32,
    /// The width or the height of the view.
    pub length: i32,
    /// The width or the height of a cell.
    pub cell: i32,
}

/// Whether a view or a cell may be so long.
fn is_side(n: i32) -> bool
    ensures { result ≡ is_side n }
{
    1 <= n && n <= LONGEST
}

/// Whether a view that begins there and is so long lies in -16384..=16383.
fn lies_in_range(start: i32, length: i32) -> bool
    requires { is_side length ≡ true }
    ensures { result ≡ (is_coordinate start && is_coordinate (start +ℤ length)) }
{
    FIRST_SIDE <= start && start <= LAST_SIDE - length
}

/// How many whole cells so many pixels have room for.
fn cells_in(pixels: i32, cell: i32) -> i32
    requires some { pos 0 ≤ℤ pixels }
    requires few { pixels ≤ℤ pos 1024 }
    requires cell { pos 1 ≤ℤ cell }
    ensures value { result ≡ int_div pixels cell }
    ensures least { pos 0 ≤ℤ result }
    ensures most { result ≤ℤ pixels }
{
    pixels / cell
}

/// How many pixels so many lines take; below 0 for lines back.
#[tactic(auto, using(crate::proofs::AxisLemmas::product_near, crate::proofs::AxisLemmas::product_fits))]
fn pixels_of(lines: i32, cell: i32) -> i32
    requires back { negsuc 4094 ≤ℤ lines }
    requires on { lines ≤ℤ pos 4095 }
    requires cell { pos 1 ≤ℤ cell }
    requires short { cell ≤ℤ pos 1024 }
    ensures value { result ≡ lines *ℤ cell }
    ensures least { negsuc 4193279 ≤ℤ result }
    ensures most { result ≤ℤ pos 4193280 }
{
    lines * cell
}

impl Axis {
    /// Whether the view and its cells are 1 to 1024 pixels long, and the view lies in -16384..=16383.
    pub(crate) fn is_in_range(self) -> bool
        ensures { result ≡ is_axis self }
    {
        is_side(self.length) && (is_side(self.cell) && lies_in_range(self.start, self.length))
    }

    /// The right or the bottom side of the view.
    pub(crate) fn end(self) -> i32
        requires { IsAxis self }
        ensures { result ≡ end_of self }
    {
        self.start + self.length
    }

    /// How many lines the view shows whole, and one where it shows none whole.
    fn shown(self) -> i32
        requires { IsAxis self }
        ensures value { result ≡ shown self }
        ensures some { pos 1 ≤ℤ result }
    {
        cells_in(self.length, self.cell).max(1)
    }

    /// How far the view of so many lines is scrolled at most.
    pub fn bound(self, count: usize) -> i32
        requires axis { IsAxis self }
        requires count { count ≤ 4096 }
        ensures value { result ≡ bound self count }
        ensures line { IsLine result }
    {
        (count as i32 - self.shown()).max(0)
    }

    /// The line at the start, where it was `first` and the view of so many lines is scrolled by some.
    pub(crate) fn scrolled(self, first: i32, lines: i32, count: usize) -> i32
        requires axis { IsAxis self }
        requires count { count ≤ 4096 }
        ensures value { result ≡ scrolled_line self count first lines }
        ensures line { IsLine result }
    {
        let bound = self.bound(count);
        first.saturating_add(lines).min(bound).max(0)
    }

    /// Where a line begins, with `first` at the start.
    pub(crate) fn line_start(self, first: i32, line: i32) -> i32
        requires axis { IsAxis self }
        requires first { IsLine first }
        requires line { IsLine line }
        ensures value { result ≡ line_start self first line }
        ensures near { IsNear result }
    {
        self.start + pixels_of(line - first, self.cell)
    }

    /// The line at a place of the view, with `first` at the start.
    pub(crate) fn line_at(self, first: i32, place: i32) -> i32
        requires axis { IsAxis self }
        requires first { IsLine first }
        requires start { self.start ≤ℤ place }
        requires end { place <ℤ end_of self }
        ensures value { result ≡ line_at self first place }
        ensures counted { pos 0 ≤ℤ result }
    {
        first + cells_in(place - self.start, self.cell)
    }
    /// The first of so many lines past those that show at least in part, with `first` at the start; how many there are, where
    /// all from there on show.
    pub(crate) fn lines_end(self, first: i32, count: usize) -> usize
        requires axis { IsAxis self }
        requires first { IsLine first }
        ensures value { result ≡ lines_end self count first }
        ensures within { result ≤ count }
    {
        let last = self.line_at(first, self.end() - 1);
        count.min(last as usize + 1)
    }
}
