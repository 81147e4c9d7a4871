//! The names of operations.
ghost use Rattle.std.specs.Prelude.{◌≡◌, ◌++◌};
ghost use Rattle.line_words.specs.Tables.{named};
ghost use Rattle.command_words.specs.Drawings.{operations_of, form_operations, frame_operations, later_operations};

use form_words::{FormWord, drawn_form_of};
use line_words::named;

/// What `draw` does. It says which words follow.
#[derive(Clone, Copy)]
pub enum Operation {
    Erase,
    Invert,
    Fill,
    Frame,
    HLine,
    VLine,
    Text,
    Bits,
    Rgn,
    FrameRgn,
    Form(FormWord),
}

/// Each name that every version has, and what it stands for.
static OPERATIONS: [(&[u8], Operation); 9] = [
    (b"erase", Operation::Erase),
    (b"invert", Operation::Invert),
    (b"fill", Operation::Fill),
    (b"frame", Operation::Frame),
    (b"hline", Operation::HLine),
    (b"vline", Operation::VLine),
    (b"text", Operation::Text),
    (b"bits", Operation::Bits),
    (b"rgn", Operation::Rgn),
];

/// The name that version 3 brought beside those of forms.
static FRAME_OPERATIONS: [(&[u8], Operation); 1] = [(b"frgn", Operation::FrameRgn)];

/// The version that brought the forms.
const VERSION_OF_FORMS: i32 = 3;

/// The operation with this name in a script of this version, byte by byte; None of a word that names none.
pub fn operation_of(version: i32, word: &[u8]) -> Option<Operation>
    ensures { result ≡ named word.now (operations_of version) }
{
    match named(&OPERATIONS, word) {
        Some(operation) => Some(operation),
        None => later_operation_of(version, word),
    }
}

/// The same of the operations that not every version has.
fn later_operation_of(version: i32, word: &[u8]) -> Option<Operation>
    ensures { result ≡ named word.now (later_operations version) }
{
    if version < VERSION_OF_FORMS {
        return None;
    }
    shape_operation_of(word)
}

/// The same of those of version 3.
fn shape_operation_of(word: &[u8]) -> Option<Operation>
    ensures { result ≡ named word.now (frame_operations ++ form_operations) }
{
    match named(&FRAME_OPERATIONS, word) {
        Some(operation) => Some(operation),
        None => form_operation_of(word),
    }
}

/// The same of those that are forms.
fn form_operation_of(word: &[u8]) -> Option<Operation>
    ensures { result ≡ named word.now form_operations }
{
    let form = drawn_form_of(word)?;
    Some(Operation::Form(form))
}
