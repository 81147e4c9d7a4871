//! A run of what the command line chose: its files are opened, and its flags are those of the run.
ghost use Rattle.std.specs.Prelude.{◌≡◌, option_map, false, IfOk, IfErr};
ghost use Rattle.def_iface.specs.Stocks.{AreAllFull};
ghost use Rattle.watched_io.specs.Reads.{IsOpen};
ghost use Rattle.script_runner.specs.ChosenRuns.{AreFontBytes, IsFontLost, ChosenEnds};
ghost use Rattle.script_runner.specs.Kinds.{kinds_of};

use crate::command_line::Choices;
use crate::files::Opener;
use crate::runner::run;
use def_iface::{Stock, StockedAll};
use std::alloc::Global;
use strike_font::LONGEST_RECORD;
use tb_geom::Refusal;
use watched_io::{Sink, Source, read_to_end};

/// Runs what was chosen: `run` over the script at the path that is named, or over standard input where none is, with the
/// bytes of the font's file, where one is named, and with both flags as they are. The font's file is read to its end
/// first, of which `LONGEST_RECORD` bytes are kept, then the script's is opened, and then the font is judged.
///
/// Beside what stops `run`, ReadFault where a file cannot be opened, or the font's not be read to its end in 1,000,000
/// reads, and NoMemory where there is none to hold the font's bytes. Then nothing is read of standard input or written,
/// and the stock is as it was. Where a script is named, nothing is read of standard input.
pub fn run_chosen<F: Opener, R: Source, W: Sink>(
    alloc: Global,
    files: &F,
    standard: &mut R,
    sink: &mut W,
    stock: &mut Stock,
    chosen: &Choices<'_>,
) -> Result<(), Refusal>
    requires full { AreAllFull (⟦<Stock as StockedAll>⟧.all_slots stock.old) }
    requires unread { (R.input standard.old).reads ≡ 0 }
    requires going { IsOpen (R.input standard.old) }
    requires unfailed { (W.output sink.old).has_failed ≡ false }
    ensures full { AreAllFull (⟦<Stock as StockedAll>⟧.all_slots stock.new) }
    ensures kinds { kinds_of (⟦<Stock as StockedAll>⟧.all_slots stock.new)
        ≡ kinds_of (⟦<Stock as StockedAll>⟧.all_slots stock.old) }
    ensures ends { ChosenEnds (F.opens files.now) F.Opened.input chosen.now
        (⟦<Stock as StockedAll>⟧.all_slots stock.old) (⟦<Stock as StockedAll>⟧.all_slots stock.new)
        (R.input standard.old) (R.input standard.new) (W.output sink.old) (W.output sink.new) result }
{
    let bytes = font_bytes(alloc, files, chosen.font)?;
    let font = bytes.as_ref().map(|bytes| bytes.as_slice());
    let (raw, check) = (chosen.raw, chosen.check);
    match chosen.script {
        None => run(alloc, standard, sink, stock, font, raw, check),
        Some(path) => {
            let mut file = files.open(path)?;
            run(alloc, &mut file, sink, stock, font, raw, check)
        }
    }
}

/// The bytes of the font's file that may be a record's, where one is named. ReadFault where it cannot be opened or read to its
/// end, and NoMemory where there is none to hold them.
fn font_bytes<F: Opener>(
    alloc: Global,
    files: &F,
    path: Option<&str>,
) -> Result<Option<Vec<u8>>, Refusal>
    ensures had { IfOk result (λ bytes. AreFontBytes (F.opens files.now) F.Opened.input
        (option_map (λ s. s.now) path.entry) (option_map (λ v. v.items) bytes)) }
    ensures lost { IfErr result (IsFontLost (F.opens files.now) F.Opened.input (option_map (λ s. s.now) path.entry)) }
{
    let Some(path) = path else {
        return Ok(None);
    };
    let mut file = files.open(path)?;
    let bytes = read_to_end(alloc, &mut file, LONGEST_RECORD)?;
    Ok(Some(bytes))
}
