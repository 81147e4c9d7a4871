//! What the definitions of edits imply.
ghost use Rattle.std.specs.Prelude.{◌≡◌, ◌≤◌, ℕ, true, length};
ghost use Rattle.text_record.specs.Texts.{Record};
ghost use Rattle.text_edits.specs.Edits.{selected_bytes, deleted, pasted, is_typed, keyed, pointed};

/// A cut, and then a paste of what was cut, leaves the text; the selection is then the point where it ended.
pub fn a_cut_is_pasted()
    ensures { (r : Record) → r.start ≤ r.end → r.end ≤ length r.text.bytes
        → pasted (selected_bytes r) (deleted r) ≡ pointed r.end r }
{}

/// A byte that is typed where nothing is selected, and then backspace, leaves the text and the selection.
pub fn a_typed_byte_is_taken_back()
    ensures { (r : Record) (key : ℕ) → r.start ≡ r.end → r.end ≤ length r.text.bytes → is_typed key ≡ true
        → keyed 8 (keyed key r) ≡ pointed r.start r }
{}
