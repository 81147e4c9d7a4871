//! Where the files that a command line names are opened.
ghost use Rattle.std.specs.Prelude.{◌≡◌, ℕ, ⊤, List, Result, IfOk, IfErr};
ghost use Rattle.tb_geom.specs.declared.refusal.Refusal.{Refusal};
ghost use Rattle.watched_io.specs.Reads.{Input, IsOpen};

use std::fs;
use std::rt::Files;
use tb_geom::Refusal;
use watched_io::{Source, WatchedReader};

/// Opens files by their paths, each as a source.
pub trait Opener {
    /// A file that was opened.
    type Opened: Source + Drop;

    // What opening the file at a path may answer. Code that is proved for every opener knows no more of a file than
    // this, so that what it says of the file at a path it has of opening that very path.
    ghost opens: { Self → List ℕ → Result Self.Opened Refusal → Type 0 };

    /// Opens the file at the path, of which nothing is read yet. ReadFault where it cannot be opened.
    fn open(&self, path: &str) -> Result<Self::Opened, Refusal>
        ensures answer { opens self.now path.now result }
        ensures unread { IfOk result (λ file. (Self.Opened.input file).reads ≡ 0) }
        ensures going { IfOk result (λ file. IsOpen (Self.Opened.input file)) }
        ensures refused { IfErr result (λ e. e ≡ Refusal.ReadFault) };
}

/// The files of the system. What the system answers no clause can say.
#[derive(Drop)]
pub struct SystemFiles<'a, F> {
    files: &'a F,
}

impl<'a, F: Files> SystemFiles<'a, F> {
    /// The files that are opened by this handle.
    pub fn new(files: &'a F) -> SystemFiles<'a, F>
        ensures { result.files ≡ files.entry }
    {
        SystemFiles { files }
    }
}

impl<'a, F: Files> Opener for SystemFiles<'a, F> {
    type Opened = WatchedReader<F::File>;

    ghost opens = { λ _ _ _. ⊤ };

    fn open(&self, path: &str) -> Result<WatchedReader<F::File>, Refusal> {
        match fs::open(self.files, path) {
            Ok(file) => Ok(WatchedReader::new(file)),
            Err(_) => Err(Refusal::ReadFault),
        }
    }
}
