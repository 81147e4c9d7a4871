//! Scrolling.
ghost use Rattle.std.specs.Prelude.{◌≡◌, ◌≤ℤ◌, ◌+ℤ◌, pos, negsuc, is_ok, IfOk, IfErr, if◌then◌else◌};
ghost use Rattle.text_record.specs.Placings.{is_near};
ghost use Rattle.text_record.specs.Changes.{may_scroll, scrolled};
ghost use Rattle.text_record.specs.Showing.{across_into, down_into, right_by, down_by, selection_shown};

use crate::placing::is_near;
use crate::record::TextRecord;
use tb_geom::Refusal;

/// A number, moved by another. OutOfRange exactly where it would leave -16777216..=16777215.
fn moved(x: i32, by: i32) -> Result<i32, Refusal>
    ensures moved { IfOk result (λ y. y ≡ x +ℤ by) }
    ensures from { IfOk result (λ y. negsuc 16777215 ≤ℤ y) }
    ensures to { IfOk result (λ y. y ≤ℤ pos 16777215) }
    ensures allowed { is_ok result ≡ is_near (x +ℤ by) }
    ensures refused { IfErr result (λ e. e ≡ Refusal.OutOfRange) }
{
    let moved = x.saturating_add(by);
    if is_near(moved) {
        Ok(moved)
    } else {
        Err(Refusal::OutOfRange)
    }
}

/// Where a column that lies `beside` of another number comes to lie, once it is moved to lie from `first` up to `end`:
/// the other number, moved so.
fn moved_across(left: i32, beside: i32, first: i32, end: i32) -> i32
    requires left_from { negsuc 16777215 ≤ℤ left }
    requires left_to { left ≤ℤ pos 16777215 }
    requires beside_from { negsuc 8159999 ≤ℤ beside }
    requires beside_to { beside ≤ℤ pos 8176382 }
    requires first_from { negsuc 16383 ≤ℤ first }
    requires order { (first +ℤ pos 1) ≤ℤ end }
    requires end_to { end ≤ℤ pos 16383 }
    ensures value { result ≡ left +ℤ across_into (left +ℤ beside) first end }
    ensures from { negsuc 16777215 ≤ℤ result }
    ensures to { result ≤ℤ pos 16777215 }
{
    let column = left + beside;
    if column < first {
        first - beside
    } else if end <= column {
        end - 1 - beside
    } else {
        left
    }
}

/// The same down, for a line of so many rows that lies `below` of another number.
fn moved_down(top: i32, below: i32, rows: i32, first: i32, end: i32) -> i32
    requires top_from { negsuc 16777215 ≤ℤ top }
    requires top_to { top ≤ℤ pos 16777215 }
    requires below_from { pos 0 ≤ℤ below }
    requires below_to { below ≤ℤ pos 12192000 }
    requires rows_from { pos 0 ≤ℤ rows }
    requires rows_to { rows ≤ℤ pos 381 }
    requires first_from { negsuc 16383 ≤ℤ first }
    requires order { (first +ℤ pos 1) ≤ℤ end }
    requires end_to { end ≤ℤ pos 16383 }
    ensures value { result ≡ top +ℤ down_into (top +ℤ below) ((top +ℤ below) +ℤ rows) first end }
    ensures from { negsuc 16777215 ≤ℤ result }
    ensures to { result ≤ℤ pos 16777215 }
{
    let row = top + below;
    let after = row + rows;
    if row < first {
        first - below
    } else if after <= end {
        top
    } else if row - first < after - end {
        first - below
    } else {
        end - (rows + below)
    }
}

impl TextRecord {
    /// Moves the text so many columns to the right and so many rows down (TEScroll). OutOfRange exactly where left or top of
    /// the destination would leave -16777216..=16777215.
    pub fn scroll(&mut self, across: i32, down: i32) -> Result<(), Refusal>
        ensures record { self.new ≡ (if is_ok result then scrolled across down self.old else self.old) }
        ensures allowed { is_ok result ≡ may_scroll across down self.old }
        ensures refused { IfErr result (λ e. e ≡ Refusal.OutOfRange) }
    {
        let left = moved(self.left, across)?;
        let top = moved(self.top, down)?;
        self.left = left;
        self.top = top;
        Ok(())
    }

    /// The left of the destination from which the column before the selection's end shows.
    fn showing_left(&self) -> i32
        ensures value { result ≡ self.now.left +ℤ right_by self.now }
        ensures from { negsuc 16777215 ≤ℤ result }
        ensures to { result ≤ℤ pos 16777215 }
    {
        let beside = self.column_beside(self.end) - 1;
        moved_across(self.left, beside, self.view.left, self.view.right)
    }

    /// The top of the destination from which the line of the selection's end shows.
    fn showing_top(&self) -> i32
        ensures value { result ≡ self.now.top +ℤ down_by self.now }
        ensures from { negsuc 16777215 ≤ℤ result }
        ensures to { result ≤ℤ pos 16777215 }
    {
        let below = self.line_below(self.row_of(self.end));
        let rows = i32::from(self.height);
        moved_down(self.top, below, rows, self.view.top, self.view.bottom)
    }

    /// Moves the text so that the end of the selection shows (TESelView): the column before it, and its line. A line that is
    /// higher than the view comes to the view's top.
    pub fn show_selection(&mut self)
        ensures { self.new ≡ selection_shown self.old }
    {
        let left = self.showing_left();
        let top = self.showing_top();
        self.left = left;
        self.top = top;
    }
}
