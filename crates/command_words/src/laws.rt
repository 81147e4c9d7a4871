//! What the definitions of verbs and names say, in the words of their subject.
ghost use Rattle.std.specs.Prelude.{◌≡◌, ◌↔◌, ℕ, ℤ, List, Some, None, Contains};
ghost use Rattle.bit_map.specs.declared.mode.Mode.{Mode};
ghost use Rattle.bit_map.specs.Modes.{pattern_name, source_name};
ghost use Rattle.line_words.specs.Tables.{named};
ghost use Rattle.command_words.specs.Names.{pattern_modes, source_modes};
ghost use Rattle.command_words.specs.Verbs.{verbs_of};
ghost use Rattle.command_words.specs.declared.verb.Verb.{Verb};

/// In a script of any version a first word stands for a verb exactly where the table of that version has the two.
pub fn a_verb_is_one_of_the_table()
    ensures { (version : ℤ) (word : List ℕ) (verb : Verb) → named word (verbs_of version) ≡ Some verb
        ↔ Contains (verbs_of version) (word, verb) }
{}

/// Each mode is read by its name for a pattern where a pattern is put down, by its name for an image where
/// an image is, and by no name of the other kind.
pub fn modes_are_read_by_their_names()
    ensures pattern { (mode : Mode) → named (pattern_name mode) pattern_modes ≡ Some mode }
    ensures source { (mode : Mode) → named (source_name mode) source_modes ≡ Some mode }
    ensures no_pattern { (mode : Mode) → named (source_name mode) pattern_modes ≡ None }
    ensures no_source { (mode : Mode) → named (pattern_name mode) source_modes ≡ None }
{}
