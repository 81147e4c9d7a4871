//! What the definitions of commands and lines say, in the words of their subject.
ghost use Rattle.std.specs.Prelude.{◌≡◌, ◌⊎◌, ◌≤ℤ◌, ℕ, ℤ, true, List, Some, Result, Ok, Err, IfErr};
ghost use Rattle.std.specs.Str.Lines.{lines};
ghost use Rattle.tb_geom.specs.declared.refusal.Refusal.{Refusal};
ghost use Rattle.tb_geom.specs.declared.refusal.Refusal.TheVariants.{BadSyntax, NoSuchName};
ghost use Rattle.script_text.specs.declared.command.Command.{Command};
ghost use Rattle.script_text.specs.Spelling.{IsLine};
ghost use Rattle.script_text.specs.Lines.{lines_of, said};
ghost use Rattle.script_text.specs.Versions.{has_command};

pub use command_words::laws::{a_verb_is_one_of_the_table, modes_are_read_by_their_names};

/// What a line says is a command, or that something has not the name that it names: no other refusal, and
/// not BadSyntax.
pub fn a_line_says_a_command_or_an_unknown_name()
    ensures { (version : ℤ) (line : List ℕ) (said : Result Command Refusal)
        → IsLine version line said → IfErr said (λ e. e ≡ NoSuchName) }
{}

/// What a line says is a command that the version of the script has.
pub fn a_line_says_what_its_version_has()
    ensures { (version : ℤ) (line : List ℕ) (command : Command) → said version line ≡ Some (Ok command)
        → has_command version command ≡ true }
{}

/// In an older version a line says what it says in a newer one, or it is BadSyntax: a newer version adds lines, and changes
/// none that were good.
pub fn an_older_version_says_the_same_or_bad_syntax()
    ensures { (older newer : ℤ) (line : List ℕ) → older ≤ℤ newer
        → (said older line ≡ said newer line) ⊎ (said older line ≡ Some (Err BadSyntax)) }
{}

/// The lines of a script are those of `str::lines`.
#[tactic(auto, using(crate::proofs::TextLaws::lines_are_lines))]
pub fn lines_are_those_of_a_text()
    ensures { (script : List ℕ) → lines_of script ≡ lines script }
{}
