//! The lines of what is answered about lists.
ghost use Rattle.std.specs.Prelude.{◌≡◌, false};
ghost use Rattle.watched_io.specs.Writes.{Sends};
ghost use Rattle.reply_lines.specs.ListLines.{data_text, cell_text, found_text, list_reply_text};

use desk_call::ListReply;
use itoa::Buffer;
use line_words::{flag_number, write_done, write_number};
use list_cells::Cell;
use tb_geom::Refusal;
use watched_io::{Sink, send, send_all};

/// Writes the line of what was answered about lists. A cell stands behind 1, and where there is none the line has 0 alone.
pub fn write_list_reply<S: Sink>(sink: &mut S, reply: &ListReply) -> Result<(), Refusal>
    requires { (S.output sink.old).has_failed ≡ false }
    ensures { Sends (S.output sink.old) (S.output sink.new) result (list_reply_text reply.now) }
{
    match reply {
        ListReply::Done => write_done(sink),
        ListReply::Made(list) => write_number(sink, *list),
        ListReply::Added(first) => write_number(sink, *first as u64),
        ListReply::Data(bytes) => write_data(sink, bytes),
        ListReply::Selected(selected) => write_number(sink, flag_number(*selected)),
        ListReply::Cell(cell) => write_found(sink, *cell),
        ListReply::Clicked(on_cell) => write_number(sink, flag_number(*on_cell)),
    }
}

/// Writes the line of a cell's data. Its bytes go out as they are, and take no memory.
fn write_data<S: Sink>(sink: &mut S, bytes: &[u8]) -> Result<(), Refusal>
    requires { (S.output sink.old).has_failed ≡ false }
    ensures { Sends (S.output sink.old) (S.output sink.new) result (data_text bytes.now) }
{
    let pieces: [&[u8]; 3] = [b"ok \"", bytes, b"\"\n"];
    send_all(sink, &pieces)
}

/// Writes the line of the cell that was asked for, if there is one.
fn write_found<S: Sink>(sink: &mut S, cell: Option<Cell>) -> Result<(), Refusal>
    requires { (S.output sink.old).has_failed ≡ false }
    ensures { Sends (S.output sink.old) (S.output sink.new) result (found_text cell) }
{
    match cell {
        None => send(sink, b"ok 0\n"),
        Some(cell) => write_cell(sink, cell),
    }
}

/// Writes the line of a cell.
fn write_cell<S: Sink>(sink: &mut S, cell: Cell) -> Result<(), Refusal>
    requires { (S.output sink.old).has_failed ≡ false }
    ensures { Sends (S.output sink.old) (S.output sink.new) result (cell_text cell) }
{
    let mut column = Buffer::new();
    let mut row = Buffer::new();
    let pieces: [&[u8]; 5] = [
        b"ok 1 ",
        column.format(cell.column).as_bytes(),
        b" ",
        row.format(cell.row).as_bytes(),
        b"\n",
    ];
    send_all(sink, &pieces)
}
