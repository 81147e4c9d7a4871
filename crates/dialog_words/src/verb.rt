//! The first words of the commands for the items of dialogs.
ghost use Rattle.std.specs.Prelude.{◌≡◌};
ghost use Rattle.line_words.specs.Tables.{named};
ghost use Rattle.dialog_words.specs.DialogVerbs.{dialog_verbs};

use line_words::named;

/// The first word of a command for the items of dialogs. It says which words follow.
#[derive(Clone, Copy)]
pub enum DialogVerb {
    New,
    SetParams,
    SetText,
    Enable,
    Show,
    Hide,
    Select,
    Activate,
    Click,
    Key,
    Get,
    Info,
    Find,
}

/// Each first word, and what it stands for.
static VERBS: [(&[u8], DialogVerb); 13] = [
    (b"ditem", DialogVerb::New),
    (b"param", DialogVerb::SetParams),
    (b"dtext", DialogVerb::SetText),
    (b"denable", DialogVerb::Enable),
    (b"dshow", DialogVerb::Show),
    (b"dhide", DialogVerb::Hide),
    (b"dselect", DialogVerb::Select),
    (b"dactive", DialogVerb::Activate),
    (b"dclick", DialogVerb::Click),
    (b"dkey", DialogVerb::Key),
    (b"dget", DialogVerb::Get),
    (b"dinfo", DialogVerb::Info),
    (b"dfind", DialogVerb::Find),
];

/// The verb for dialogs that this word is, byte by byte; None of a word that is none.
#[tactic(auto, unfolding(crate::specs::DialogVerbs::dialog_verbs))]
pub fn dialog_verb_of(word: &[u8]) -> Option<DialogVerb>
    ensures { result ≡ named word.now dialog_verbs }
{
    named(&VERBS, word)
}
