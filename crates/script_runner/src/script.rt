//! A script at work: its desk, the version of its commands, and whether a line was answered.
ghost use Rattle.std.specs.Prelude.{◌≡◌, Bool, ℤ, pos, Some, None, OnOk, false};
ghost use Rattle.def_iface.specs.Stocks.{AllSlots, AreAllFull};
ghost use Rattle.script_runner.specs.Checks.{IsCheckLine};
ghost use Rattle.script_runner.specs.Endings.{LineEnds, TakeEnds};
ghost use Rattle.script_runner.specs.Script.{is_version, names_later_kind, why_unread};
ghost use Rattle.script_runner.specs.Session.{LeavesStock};
ghost use Rattle.script_runner.specs.Writers.{IsSameWriter, SendsSome};

use crate::answer_writer::AnswerWriter;
use crate::on_stock::{OnStock, ScriptOnStock};
use crate::session::Session;
use def_iface::{Stock, StockedAll};
use desk_call::{Call, ControlCall, WindowCall};
use desk_toolbox::{Desk, Toolbox};
use script_text::Command;
use std::alloc::Global;
use strike_font::Font;
use tb_geom::Refusal;
use watched_io::Sink;

/// The newest version of the commands.
const NEWEST_VERSION: i32 = 3;

/// A script at work.
#[derive(Drop)]
pub struct Script {
    /// The script's desk, or the font that waits for it.
    session: Session,
    /// The version of the commands: 1, or another where the script says so.
    version: i32,
    /// Whether a line was answered: the first that is may say the version, and no other.
    is_begun: bool,
}

impl Script {
    /// Before its first line: without a desk, and of version 1. The desk will have this font.
    pub fn new(alloc: Global, font: Font) -> Script
        ensures font { result.session.font ≡ Some font }
        ensures unmade { result.session.desk ≡ None }
        ensures version { result.version ≡ pos 1 }
        ensures unbegun { result.is_begun ≡ false }
    {
        Script {
            session: Session::new(alloc, font),
            version: 1,
            is_begun: false,
        }
    }

    /// The version of the script's commands, in which its next line is to be read.
    pub fn version(&self) -> i32
        ensures { result ≡ self.now.version }
    {
        self.version
    }

    /// Answers what a line says, by a reply line or an image, and a line that says nothing by nothing. The first line that is
    /// answered may say the version; the first command of another kind makes the desk: where there is no memory for that,
    /// NoMemory is returned and nothing is written. Else WriteFault is the only error.
    pub fn answer<S: Sink>(
        &mut self,
        said: Option<Result<Command<'_>, Refusal>>,
        stock: &mut Stock,
        writer: &mut AnswerWriter<'_, S>,
    ) -> Result<(), Refusal>
        requires ready { ⟦<Self as ScriptOnStock>⟧.IsScriptReady self.old stock.old }
        requires unfailed { (S.output writer.old.sink.now).has_failed ≡ false }
        ensures ready { ⟦<Self as ScriptOnStock>⟧.IsScriptReady self.new stock.new }
        ensures same { IsSameWriter writer.old writer.new }
        ensures quiet { OnOk result ((S.output writer.new.sink.now).has_failed ≡ false) }
        ensures ends { LineEnds writer.old.raw
            (⟦<Self as ScriptOnStock>⟧.script self.old stock.old) said.entry
            (⟦<Self as ScriptOnStock>⟧.script self.new stock.new)
            (S.output writer.old.sink.now) (S.output writer.new.sink.now) result }
    {
        match said {
            None => Ok(()),
            Some(Err(refusal)) => {
                self.is_begun = true;
                writer.reply(&Err(refusal))
            }
            Some(Ok(command)) => self.take(&command, stock, writer),
        }
    }

    /// Answers a command.
    fn take<S: Sink>(
        &mut self,
        command: &Command<'_>,
        stock: &mut Stock,
        writer: &mut AnswerWriter<'_, S>,
    ) -> Result<(), Refusal>
        requires ready { ⟦<Self as ScriptOnStock>⟧.IsScriptReady self.old stock.old }
        requires unfailed { (S.output writer.old.sink.now).has_failed ≡ false }
        ensures ready { ⟦<Self as ScriptOnStock>⟧.IsScriptReady self.new stock.new }
        ensures same { IsSameWriter writer.old writer.new }
        ensures quiet { OnOk result ((S.output writer.new.sink.now).has_failed ≡ false) }
        ensures ends { TakeEnds writer.old.raw
            (⟦<Self as ScriptOnStock>⟧.script self.old stock.old) command.now
            (⟦<Self as ScriptOnStock>⟧.script self.new stock.new)
            (S.output writer.old.sink.now) (S.output writer.new.sink.now) result }
    {
        let refusal = why_unread(self.is_begun, self.version, command);
        self.is_begun = true;
        if let Some(refusal) = refusal {
            return writer.reply(&Err(refusal));
        }
        if let Command::Version(version) = command {
            self.version = *version;
            return writer.done();
        }
        self.session.obey(command, stock, writer)
    }

    /// Writes the line of the check of the script's desk, as `Session::check` says.
    pub fn check<S: Sink>(&self, writer: &mut AnswerWriter<'_, S>) -> Result<(), Refusal>
        requires kept { (desk : _) → self.now.session.desk ≡ Some desk → ⟦<Toolbox as Desk>⟧.IsDrawable desk }
        requires unfailed { (S.output writer.old.sink.now).has_failed ≡ false }
        ensures same { IsSameWriter writer.old writer.new }
        ensures line { (stocks : AllSlots)
            → SendsSome (IsCheckLine (⟦<Session as OnStock>⟧.session_over self.now.session stocks))
            (S.output writer.old.sink.now) (S.output writer.new.sink.now) result }
    {
        self.session.check(writer)
    }

    /// Ends the script: the definition of every window, control, list and menu of its desk is disposed of, and put back
    /// Closed into its slot, while every other slot stays as it was.
    pub fn close(self, stock: &mut Stock)
        requires { ⟦<Self as ScriptOnStock>⟧.IsScriptReady self stock.old }
        ensures full { AreAllFull (⟦<Stock as StockedAll>⟧.all_slots stock.new) }
        ensures left { LeavesStock (⟦<Session as OnStock>⟧.session self.session stock.old)
            (⟦<Stock as StockedAll>⟧.all_slots stock.new) }
    {
        let Script { session, .. } = self;
        session.close(stock);
    }
}

/// Why a command is refused whatever desk there is, in a script of this version in which a line was answered or not.
fn why_unread(is_begun: bool, version: i32, command: &Command<'_>) -> Option<Refusal>
    ensures { result ≡ why_unread is_begun version command.now }
{
    match command {
        Command::Version(number) => why_no_version(is_begun, *number),
        Command::Call(call) => why_not_called(version, call),
        Command::Desk(_) => None,
        Command::Image => None,
    }
}

/// Why a call is refused in a script of this version: a kind that version 3 brought is none in an older one.
fn why_not_called(version: i32, call: &Call<'_>) -> Option<Refusal>
    ensures { (is_begun : Bool) → result ≡ why_unread is_begun version (Command.Call call.now) }
{
    if names_later_kind(call) && version < 3 {
        Some(Refusal::NoSuchName)
    } else {
        None
    }
}

/// Whether a call names a kind that version 3 brought.
fn names_later_kind(call: &Call<'_>) -> bool
    ensures { result ≡ names_later_kind call.now }
{
    match call {
        Call::Window(WindowCall::New(new)) => new.kind.as_slice() == b"round".as_slice(),
        Call::Window(WindowCall::NewFloating(new)) => new.kind.as_slice() == b"round".as_slice(),
        Call::Control(ControlCall::New(new)) => new.kind.as_slice() == b"rbutton".as_slice(),
        _ => false,
    }
}

/// Why a version is refused: it stands first, and is 1 to 3.
fn why_no_version(is_begun: bool, number: i32) -> Option<Refusal>
    ensures { (version : ℤ) → result ≡ why_unread is_begun version (Command.Version number) }
{
    if is_begun {
        return Some(Refusal::BadSyntax);
    }
    if is_version(number) {
        None
    } else {
        Some(Refusal::OutOfRange)
    }
}

/// Whether the commands have a version of this number.
fn is_version(number: i32) -> bool
    ensures { result ≡ is_version number }
{
    1 <= number && number <= NEWEST_VERSION
}
