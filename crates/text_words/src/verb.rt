//! The first words of the commands for text records.
ghost use Rattle.std.specs.Prelude.{◌≡◌};
ghost use Rattle.line_words.specs.Tables.{named};
ghost use Rattle.text_words.specs.TextVerbs.{text_verbs};

use line_words::named;

/// The first word of a command for text records, for the scrap or for the font. It says which words follow.
#[derive(Clone, Copy)]
pub enum TextVerb {
    New,
    Place,
    Dispose,
    Show,
    Hide,
    Set,
    Insert,
    Paste,
    Select,
    Idle,
    Justify,
    Scroll,
    Key,
    Cut,
    Copy,
    Delete,
    Activate,
    ShowSelection,
    Click,
    Step,
    End,
    Get,
    Info,
    Line,
    PlaceOf,
    OffsetAt,
    Scrap,
    SetScrap,
    Width,
    FontInfo,
}

/// Each first word, and what it stands for.
static VERBS: [(&[u8], TextVerb); 30] = [
    (b"text", TextVerb::New),
    (b"tplace", TextVerb::Place),
    (b"tdispose", TextVerb::Dispose),
    (b"tshow", TextVerb::Show),
    (b"thide", TextVerb::Hide),
    (b"tset", TextVerb::Set),
    (b"tinsert", TextVerb::Insert),
    (b"tpaste", TextVerb::Paste),
    (b"tselect", TextVerb::Select),
    (b"tidle", TextVerb::Idle),
    (b"tjust", TextVerb::Justify),
    (b"tscroll", TextVerb::Scroll),
    (b"tkey", TextVerb::Key),
    (b"tcut", TextVerb::Cut),
    (b"tcopy", TextVerb::Copy),
    (b"tdelete", TextVerb::Delete),
    (b"tactive", TextVerb::Activate),
    (b"tview", TextVerb::ShowSelection),
    (b"tclick", TextVerb::Click),
    (b"tstep", TextVerb::Step),
    (b"tend", TextVerb::End),
    (b"tget", TextVerb::Get),
    (b"tinfo", TextVerb::Info),
    (b"tline", TextVerb::Line),
    (b"tpoint", TextVerb::PlaceOf),
    (b"toffset", TextVerb::OffsetAt),
    (b"scrap", TextVerb::Scrap),
    (b"setscrap", TextVerb::SetScrap),
    (b"textwidth", TextVerb::Width),
    (b"fontinfo", TextVerb::FontInfo),
];

/// The verb for text records that this word is, byte by byte; None of a word that is none.
#[tactic(auto, unfolding(crate::specs::TextVerbs::text_verbs))]
pub fn text_verb_of(word: &[u8]) -> Option<TextVerb>
    ensures { result ≡ named word.now text_verbs }
{
    named(&VERBS, word)
}
