//! A run: the lines of a script, from a reader, and what each answers, to a writer.
ghost use Rattle.std.specs.Prelude.{◌≡◌, ◌≢◌, Option, Some, IsOk, IfOk, IfErr, OnOk, [], option_map, false};
ghost use Rattle.def_iface.specs.Stocks.{AreAllFull};
ghost use Rattle.script_text.specs.Held.{pushed, said_held};
ghost use Rattle.script_runner.specs.Fonts.{IsFontOf, why_fontless};
ghost use Rattle.script_runner.specs.Kinds.{kinds_of};
ghost use Rattle.script_runner.specs.Script.{ScriptState};
ghost use Rattle.script_runner.specs.Endings.{LineEnds};
ghost use Rattle.script_runner.specs.Progress.{SoFar, GoesOn};
ghost use Rattle.watched_io.specs.Reads.{Input, IsOpen};
ghost use Rattle.script_runner.specs.Runs.{CheckedEnds, RunEnds, ScriptEnds};
ghost use Rattle.script_runner.specs.Writers.{IsSameWriter};
ghost use Rattle.watched_io.specs.Writes.{Output};

use crate::answer_writer::AnswerWriter;
use crate::on_stock::ScriptOnStock;
use crate::script::Script;
use def_iface::{Stock, StockedAll};
use script_text::LineBuffer;
use std::alloc::Global;
use strike_font::Font;
use tb_geom::Refusal;
use watched_io::{MOST_READS, Sink, Source};

/// Answers each line of the script that the source gives, in bytes to the sink, and writes nothing
/// else, but for the check: where that is asked for, and each line was answered, a last line says how
/// many pixels of the screen in no update region differ from the desk painted from nothing. A raw run
/// shows the images alone, as P4: no line of a reply is written. What a line answers is written before
/// the next read. ReadFault where a read failed or 1,000,000 came without the end of the input,
/// WriteFault where a write failed, and NoMemory where there was none for the desk, which the first
/// command makes. However the run ends, each definition of the stock is back in its slot: that of a
/// window, a control, a list or a menu Closed, and every other as it was.
///
/// The desk has the font that has the bytes `font`, or the built-in one where there are none. It is
/// made before the first read. BadFont exactly where the bytes are no FONT record; then, and where
/// there is no memory for the font, nothing is read or written.
pub fn run<R: Source, W: Sink>(
    alloc: Global,
    source: &mut R,
    sink: &mut W,
    stock: &mut Stock,
    font: Option<&[u8]>,
    raw: bool,
    check: bool,
) -> Result<(), Refusal>
    requires full { AreAllFull (⟦<Stock as StockedAll>⟧.all_slots stock.old) }
    requires unread { (R.input source.old).reads ≡ 0 }
    requires going { IsOpen (R.input source.old) }
    requires unfailed { (W.output sink.old).has_failed ≡ false }
    ensures full { AreAllFull (⟦<Stock as StockedAll>⟧.all_slots stock.new) }
    ensures kinds { kinds_of (⟦<Stock as StockedAll>⟧.all_slots stock.new)
        ≡ kinds_of (⟦<Stock as StockedAll>⟧.all_slots stock.old) }
    ensures ends { RunEnds (option_map (λ bytes. bytes.now) font.entry) raw check
        (⟦<Stock as StockedAll>⟧.all_slots stock.old) (⟦<Stock as StockedAll>⟧.all_slots stock.new)
        (R.input source.old) (R.input source.new) (W.output sink.old) (W.output sink.new) result }
{
    let font = make_font(alloc, font)?;
    let mut script = Script::new(alloc, font);
    let mut writer = AnswerWriter { sink, raw };
    let outcome = answer_and_check(&mut script, source, stock, &mut writer, check);
    script.close(stock);
    outcome
}

/// Answers each line of the script, and then, where a check is asked for, writes the line of it.
fn answer_and_check<R: Source, W: Sink>(
    script: &mut Script,
    source: &mut R,
    stock: &mut Stock,
    writer: &mut AnswerWriter<'_, W>,
    check: bool,
) -> Result<(), Refusal>
    requires ready { ⟦<Script as ScriptOnStock>⟧.IsScriptReady script.old stock.old }
    requires unread { (R.input source.old).reads ≡ 0 }
    requires going { IsOpen (R.input source.old) }
    requires unfailed { (W.output writer.old.sink.now).has_failed ≡ false }
    ensures ready { ⟦<Script as ScriptOnStock>⟧.IsScriptReady script.new stock.new }
    ensures same { IsSameWriter writer.old writer.new }
    ensures ends { CheckedEnds writer.old.raw check
        (⟦<Script as ScriptOnStock>⟧.script script.old stock.old)
        (R.input source.old) (R.input source.new) (W.output writer.old.sink.now) (W.output writer.new.sink.now)
        (⟦<Script as ScriptOnStock>⟧.script script.new stock.new) result }
{
    match answer_all(script, source, stock, writer) {
        Ok(()) if check => script.check(writer),
        outcome => outcome,
    }
}

/// The font that has these bytes, or the built-in one where there are none. BadFont exactly where they
/// are no FONT record, and otherwise only NoMemory.
fn make_font(alloc: Global, asked: Option<&[u8]>) -> Result<Font, Refusal>
    ensures made { IfOk result (IsFontOf (option_map (λ bytes. bytes.now) asked.entry)) }
    ensures refused { IfErr result (λ e. e ≡ why_fontless (option_map (λ bytes. bytes.now) asked.entry)) }
{
    match asked {
        Some(bytes) => Font::from_bytes(alloc, bytes),
        None => Ok(Font::built_in(alloc)?),
    }
}

/// Answers each line of the script.
fn answer_all<R: Source, W: Sink>(
    script: &mut Script,
    source: &mut R,
    stock: &mut Stock,
    writer: &mut AnswerWriter<'_, W>,
) -> Result<(), Refusal>
    requires ready { ⟦<Script as ScriptOnStock>⟧.IsScriptReady script.old stock.old }
    requires unread { (R.input source.old).reads ≡ 0 }
    requires going { IsOpen (R.input source.old) }
    requires unfailed { (W.output writer.old.sink.now).has_failed ≡ false }
    ensures ready { ⟦<Script as ScriptOnStock>⟧.IsScriptReady script.new stock.new }
    ensures same { IsSameWriter writer.old writer.new }
    ensures ends { ScriptEnds writer.old.raw
        (⟦<Script as ScriptOnStock>⟧.script script.old stock.old)
        (R.input source.old) (R.input source.new) (W.output writer.old.sink.now) (W.output writer.new.sink.now)
        (⟦<Script as ScriptOnStock>⟧.script script.new stock.new) result }
{
    let mut line = LineBuffer::new();
    let mut buffer = [0u8; 4096];
    for read in 0..MOST_READS {
        let count = source.read_some(&mut buffer)?;
        if count == 0 {
            let version = script.version();
            return script.answer(line.said_last(version), stock, writer);
        }
        take_all(script, &mut line, &buffer[..count], stock, writer)?;
    }
    Err(Refusal::ReadFault)
}

/// Takes the next bytes of the script, whatever was read, answered and written before.
fn take_all<W: Sink>(
    script: &mut Script,
    line: &mut LineBuffer,
    bytes: &[u8],
    stock: &mut Stock,
    writer: &mut AnswerWriter<'_, W>,
) -> Result<(), Refusal>
    requires ready { ⟦<Script as ScriptOnStock>⟧.IsScriptReady script.old stock.old }
    requires unfailed { (W.output writer.old.sink.now).has_failed ≡ false }
    ensures ready { ⟦<Script as ScriptOnStock>⟧.IsScriptReady script.new stock.new }
    ensures same { IsSameWriter writer.old writer.new }
    ensures quiet { OnOk result ((W.output writer.new.sink.now).has_failed ≡ false) }
    ensures goes_on { (first : ScriptState) (input rest : Input) (old : Output)
        → SoFar writer.old.raw first input old rest (W.output writer.old.sink.now)
        (⟦<Script as ScriptOnStock>⟧.script script.old stock.old) line.old bytes.now
        → GoesOn writer.old.raw first input old rest (W.output writer.new.sink.now)
        (⟦<Script as ScriptOnStock>⟧.script script.new stock.new) line.new result }
{
    for byte in bytes {
        take(script, line, *byte, stock, writer)?;
    }
    Ok(())
}

/// Takes the next byte of the script.
fn take<W: Sink>(
    script: &mut Script,
    line: &mut LineBuffer,
    byte: u8,
    stock: &mut Stock,
    writer: &mut AnswerWriter<'_, W>,
) -> Result<(), Refusal>
    requires ready { ⟦<Script as ScriptOnStock>⟧.IsScriptReady script.old stock.old }
    requires unfailed { (W.output writer.old.sink.now).has_failed ≡ false }
    ensures ready { ⟦<Script as ScriptOnStock>⟧.IsScriptReady script.new stock.new }
    ensures same { IsSameWriter writer.old writer.new }
    ensures quiet { OnOk result ((W.output writer.new.sink.now).has_failed ≡ false) }
    ensures newline { byte ≡ 10 → LineEnds writer.old.raw
        (⟦<Script as ScriptOnStock>⟧.script script.old stock.old) (said_held script.old.version line.old)
        (⟦<Script as ScriptOnStock>⟧.script script.new stock.new)
        (W.output writer.old.sink.now) (W.output writer.new.sink.now) result }
    ensures cleared { byte ≡ 10 → OnOk result (line.new ≡ Some []) }
    ensures other { byte ≢ 10 → IsOk result × (line.new ≡ pushed line.old byte)
        × (⟦<Script as ScriptOnStock>⟧.script script.new stock.new
        ≡ ⟦<Script as ScriptOnStock>⟧.script script.old stock.old)
        × (W.output writer.new.sink.now ≡ W.output writer.old.sink.now) }
{
    if byte != b'\n' {
        line.push(byte);
        return Ok(());
    }
    let version = script.version();
    script.answer(line.said(version), stock, writer)?;
    line.clear();
    Ok(())
}
