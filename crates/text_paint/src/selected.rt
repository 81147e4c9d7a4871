//! What shows of the selection of a record, apart from its text.
ghost use Rattle.std.specs.Prelude.{◌≡◌};
ghost use Rattle.text_paint.specs.Selected.{selected_of};

use text_record::TextRecord;

/// A selection of a text, from one offset up to another, as it shows: whether its record is active, and whether the caret is on.
#[derive(Clone, Copy, Debug, PartialEq, Eq, Drop)]
pub struct Selection {
    pub start: usize,
    pub end: usize,
    pub active: bool,
    pub caret: bool,
}

impl Selection {
    /// That of a record.
    pub fn of(text: &TextRecord) -> Selection
        ensures { result ≡ selected_of text.now }
    {
        let (start, end) = text.selection();
        Selection {
            start,
            end,
            active: text.is_active(),
            caret: text.has_caret(),
        }
    }
}
