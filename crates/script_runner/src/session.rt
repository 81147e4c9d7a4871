//! The desk of a script: none, until the first command makes it, with the font that waits for it.
ghost use Rattle.std.specs.Prelude.{◌≡◌, true, None, Some, OnOk, false};
ghost use Rattle.def_iface.specs.Stocks.{AllSlots, AreAllFull};
ghost use Rattle.script_runner.specs.Checks.{IsCheckLine};
ghost use Rattle.script_runner.specs.Session.{LeavesStock, first_size, is_known};
ghost use Rattle.script_runner.specs.Endings.{IsAnswered, IsFirstAnswered, CommandEnds};
ghost use Rattle.script_runner.specs.Writers.{IsSameWriter, SendsSome};

use crate::answer_writer::AnswerWriter;
use crate::on_stock::OnStock;
use def_iface::{Stock, StockedAll};
use desk_toolbox::{Desk, NotBegun, Toolbox, form_refusal_of};
use scratch_paint::differences;
use script_text::{Command, DeskSize};
use std::alloc::Global;
use strike_font::Font;
use tb_geom::Refusal;
use watched_io::Sink;

/// The desk that is made where the first command asks for no other.
const USUAL_DESK: DeskSize = DeskSize {
    width: 512,
    height: 342,
    bar: 20,
};

/// A script's desk, once a command has made it.
#[derive(Drop)]
pub struct Session {
    alloc: Global,
    /// The font of the desk that is yet to be made.
    font: Option<Font>,
    desk: Option<Toolbox>,
}

impl Session {
    /// Without a desk, and with the font that it will have.
    pub fn new(alloc: Global, font: Font) -> Session
        ensures font { result.font ≡ Some font }
        ensures unmade { result.desk ≡ None }
    {
        Session {
            alloc,
            font: Some(font),
            desk: None,
        }
    }

    /// Answers a command that is asked of the desk, by a reply line or an image. The first command makes the desk: where
    /// there is no memory for that, NoMemory is returned and nothing is written. Else WriteFault is the only error.
    pub fn obey<S: Sink>(
        &mut self,
        command: &Command<'_>,
        stock: &mut Stock,
        writer: &mut AnswerWriter<'_, S>,
    ) -> Result<(), Refusal>
        requires ready { ⟦<Self as OnStock>⟧.IsReady self.old stock.old }
        requires unfailed { (S.output writer.old.sink.now).has_failed ≡ false }
        ensures ready { ⟦<Self as OnStock>⟧.IsReady self.new stock.new }
        ensures same { IsSameWriter writer.old writer.new }
        ensures quiet { OnOk result ((S.output writer.new.sink.now).has_failed ≡ false) }
        ensures ends { CommandEnds writer.old.raw
            (⟦<Self as OnStock>⟧.session self.old stock.old) command.now
            (⟦<Self as OnStock>⟧.session self.new stock.new)
            (S.output writer.old.sink.now) (S.output writer.new.sink.now) result }
    {
        match &mut self.desk {
            Some(desk) => answer_on(desk, command, stock, writer),
            None if is_known(command, stock) => self.open(command, stock, writer),
            None => writer.reply(&Err(Refusal::NoSuchName)),
        }
    }

    /// Makes the desk for the first command, and answers that. A desk that is refused leaves the font
    /// to the next.
    fn open<S: Sink>(
        &mut self,
        command: &Command<'_>,
        stock: &mut Stock,
        writer: &mut AnswerWriter<'_, S>,
    ) -> Result<(), Refusal>
        requires unmade { self.old.desk ≡ None }
        requires ready { ⟦<Self as OnStock>⟧.IsReady self.old stock.old }
        requires known { is_known command.now (⟦<Stock as StockedAll>⟧.all_slots stock.old) ≡ true }
        requires unfailed { (S.output writer.old.sink.now).has_failed ≡ false }
        ensures ready { ⟦<Self as OnStock>⟧.IsReady self.new stock.new }
        ensures same { IsSameWriter writer.old writer.new }
        ensures quiet { OnOk result ((S.output writer.new.sink.now).has_failed ≡ false) }
        ensures ends { CommandEnds writer.old.raw
            (⟦<Self as OnStock>⟧.session self.old stock.old) command.now
            (⟦<Self as OnStock>⟧.session self.new stock.new)
            (S.output writer.old.sink.now) (S.output writer.new.sink.now) result }
    {
        let size = first_size(command);
        let Some(font) = self.font.take() else {
            unreachable!();
        };
        match Toolbox::new(self.alloc, size.width, size.height, size.bar, font) {
            Ok(desk) => {
                let mut desk = desk;
                let outcome = first_answer(&mut desk, command, stock, writer);
                self.desk = Some(desk);
                outcome
            }
            Err(NotBegun { refusal, font }) => {
                self.font = Some(font);
                match refusal {
                    Refusal::NoMemory => Err(Refusal::NoMemory),
                    refusal => writer.reply(&Err(refusal)),
                }
            }
        }
    }

    /// Writes the line of the check: how many pixels of the screen in no update region differ from the desk
    /// painted from nothing, or NoMemory where there is none for painting. Without a desk none differs.
    pub fn check<S: Sink>(&self, writer: &mut AnswerWriter<'_, S>) -> Result<(), Refusal>
        requires kept { (desk : _) → self.now.desk ≡ Some desk → ⟦<Toolbox as Desk>⟧.IsDrawable desk }
        requires unfailed { (S.output writer.old.sink.now).has_failed ≡ false }
        ensures same { IsSameWriter writer.old writer.new }
        ensures line { (stocks : AllSlots)
            → SendsSome (IsCheckLine (⟦<Self as OnStock>⟧.session_over self.now stocks))
            (S.output writer.old.sink.now) (S.output writer.new.sink.now) result }
    {
        let count = match &self.desk {
            Some(desk) => differences(self.alloc, desk),
            None => Ok(0),
        };
        writer.check(count.ok())
    }

    /// Ends the session: the definition of every window, control, list and menu is disposed of, and put back
    /// Closed into its slot, while every other slot stays as it was.
    pub fn close(self, stock: &mut Stock)
        requires { ⟦<Self as OnStock>⟧.IsReady self stock.old }
        ensures full { AreAllFull (⟦<Stock as StockedAll>⟧.all_slots stock.new) }
        ensures left { LeavesStock
            (⟦<Self as OnStock>⟧.session self stock.old)
            (⟦<Stock as StockedAll>⟧.all_slots stock.new) }
    {
        let Session { desk, .. } = self;
        if let Some(desk) = desk {
            desk.close(stock);
        }
    }
}

/// Whether the stock has a slot of the kind that a command names, if it names one. Of the faults of a call's form, a kind that
/// the stock has not is NoSuchName, and no other is.
fn is_known(command: &Command<'_>, stock: &Stock) -> bool
    ensures { result ≡ is_known command.now (⟦<Stock as StockedAll>⟧.all_slots stock.now) }
{
    match command {
        Command::Call(call) => form_refusal_of(call, stock) != Some(Refusal::NoSuchName),
        _ => true,
    }
}

/// The size of the desk that a command makes, where it is the first.
fn first_size(command: &Command<'_>) -> DeskSize
    ensures { result ≡ first_size command.now }
{
    match command {
        Command::Desk(size) => *size,
        _ => USUAL_DESK,
    }
}

/// Answers the command that made the desk.
fn first_answer<S: Sink>(
    desk: &mut Toolbox,
    command: &Command<'_>,
    stock: &mut Stock,
    writer: &mut AnswerWriter<'_, S>,
) -> Result<(), Refusal>
    requires whole { ⟦<Toolbox as Desk>⟧.IsWhole desk.old stock.old }
    requires unfailed { (S.output writer.old.sink.now).has_failed ≡ false }
    ensures whole { ⟦<Toolbox as Desk>⟧.IsWhole desk.new stock.new }
    ensures same { IsSameWriter writer.old writer.new }
    ensures quiet { OnOk result ((S.output writer.new.sink.now).has_failed ≡ false) }
    ensures answered { IsFirstAnswered writer.old.raw
        (⟦<Toolbox as Desk>⟧.state desk.old stock.old) command.now
        (⟦<Toolbox as Desk>⟧.state desk.new stock.new)
        (S.output writer.old.sink.now) (S.output writer.new.sink.now) result }
{
    match command {
        Command::Desk(_) => writer.done(),
        Command::Version(_) => answer_on(desk, command, stock, writer),
        Command::Image => answer_on(desk, command, stock, writer),
        Command::Call(_) => answer_on(desk, command, stock, writer),
    }
}

/// Answers a command on a desk.
fn answer_on<S: Sink>(
    desk: &mut Toolbox,
    command: &Command<'_>,
    stock: &mut Stock,
    writer: &mut AnswerWriter<'_, S>,
) -> Result<(), Refusal>
    requires whole { ⟦<Toolbox as Desk>⟧.IsWhole desk.old stock.old }
    requires unfailed { (S.output writer.old.sink.now).has_failed ≡ false }
    ensures whole { ⟦<Toolbox as Desk>⟧.IsWhole desk.new stock.new }
    ensures same { IsSameWriter writer.old writer.new }
    ensures quiet { OnOk result ((S.output writer.new.sink.now).has_failed ≡ false) }
    ensures answered { IsAnswered writer.old.raw
        (⟦<Toolbox as Desk>⟧.state desk.old stock.old) command.now
        (⟦<Toolbox as Desk>⟧.state desk.new stock.new)
        (S.output writer.old.sink.now) (S.output writer.new.sink.now) result }
{
    match command {
        Command::Version(_) => writer.done(),
        Command::Desk(_) => writer.reply(&Err(Refusal::Busy)),
        Command::Image => writer.image(desk.screen()),
        Command::Call(call) => {
            let answer = desk.call(call, stock);
            writer.reply(&answer)
        }
    }
}
