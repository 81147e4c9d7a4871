//! What the definitions of runs and of checks say of each other.
ghost use Rattle.std.specs.Prelude.{◌≡◌, ◌⊎◌, ℕ, ℤ, pos, Bool, true, false, List, None, Some, Result, count_by};
ghost use Rattle.tb_geom.specs.declared.refusal.Refusal.{Refusal};
ghost use Rattle.def_iface.specs.Stocks.{AllSlots};
ghost use Rattle.script_text.specs.Lines.{said};
ghost use Rattle.watched_io.specs.Reads.{Input};
ghost use Rattle.watched_io.specs.Writes.{Output};
ghost use Rattle.script_runner.specs.Checks.{IsCheckLine, check_text};
ghost use Rattle.script_runner.specs.RawText.{asks_image, AreImages};
ghost use Rattle.script_runner.specs.OlderVersions.{begins_with_version, BeginsWith, WrittenBefore, WrittenInVersion2};
ghost use Rattle.script_runner.specs.Runs.{CheckedEnds, IsStoppedByRead};
ghost use Rattle.script_runner.specs.Script.{ScriptState, first_state, Written};
ghost use Rattle.script_runner.specs.Session.{unmade};

/// Whatever lines a script has, the check finds no pixel that differs, or there is no memory for it.
#[tactic(auto, using(crate::proofs::RightSessions::no_pixel_found))]
pub fn checks_find_no_pixel()
    ensures { (raw : Bool) (font : List ℕ) (stocks : AllSlots) (lines : List (List ℕ)) (text line : List ℕ)
        (state : ScriptState) → Written raw (first_state font stocks) lines text state → IsCheckLine state.session line
        → (line ≡ check_text (Some 0)) ⊎ (line ≡ check_text None) }
{}

/// Whatever lines a script has, a raw run of them writes an image for each line that asks for one, in the format P4, and
/// nothing else. Which version the lines are read in says nothing of that.
pub fn raw_runs_write_images_alone()
    ensures { (font : List ℕ) (stocks : AllSlots) (lines : List (List ℕ)) (text : List ℕ)
        (state : ScriptState) (version : ℤ) → Written true (first_state font stocks) lines text state
        → AreImages (count_by (λ line. asks_image (said version line)) lines) text }
{}

/// Where the first line that is answered says no version, a script's lines write what they wrote before there were versions,
/// and do to the desk what they did: each line that says a version or asks for a floating window is BadSyntax, and a kind that
/// version 3 brought is NoSuchName.
#[tactic(auto, using(crate::proofs::OlderRuns::written_as_before))]
pub fn scripts_of_version_1_write_what_they_wrote()
    ensures { (raw : Bool) (font : List ℕ) (stocks : AllSlots) (lines : List (List ℕ)) (text : List ℕ)
        (state : ScriptState) → begins_with_version lines ≡ false
        → Written raw (first_state font stocks) lines text state
        → WrittenBefore raw (unmade font stocks) lines text state.session }
{}

/// Where the first line that is answered says version 2, the lines behind it write what they wrote before there was version 3,
/// and do to the desk what they did: they are read in version 2, each that says a version is BadSyntax, and a kind that
/// version 3 brought is NoSuchName.
#[tactic(auto, using(crate::proofs::OlderRuns::written_in_version_2))]
pub fn scripts_of_version_2_write_what_they_wrote()
    ensures { (raw : Bool) (font : List ℕ) (stocks : AllSlots) (lines behind : List (List ℕ)) (text : List ℕ)
        (state : ScriptState) → BeginsWith (pos 2) lines behind
        → Written raw (first_state font stocks) lines text state
        → WrittenInVersion2 raw (unmade font stocks) behind text state.session }
{}

/// Each reply goes out before the next read: when a read fails, each line that a newline had ended by then is answered, and
/// all of the answers have gone out. Any read may fail, so they have before each.
#[tactic(auto, using(crate::proofs::RepliesOut::replies_are_out))]
pub fn replies_go_out_before_the_next_read()
    ensures { (raw check : Bool) (first : ScriptState) (input rest : Input) (old new : Output) (state : ScriptState)
        (r : Result (Unit {0}) Refusal) → CheckedEnds raw check first input rest old new state r
        → rest.has_failed ≡ true → IsStoppedByRead raw first input rest old new state }
{}
