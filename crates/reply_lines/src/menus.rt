//! The lines of what is answered about menus.
ghost use Rattle.std.specs.Prelude.{◌≡◌, false};
ghost use Rattle.watched_io.specs.Writes.{Sends};
ghost use Rattle.reply_lines.specs.MenuLines.{item_text, choice_text, menu_reply_text};

use desk_call::{Choice, MenuReply};
use itoa::Buffer;
use line_words::{write_done, write_number};
use tb_geom::Refusal;
use watched_io::{Sink, send, send_all};

/// Writes the line of what was answered about menus. Where no menu was pulled down, no item is highlighted or nothing was
/// chosen, it has 0 in the place of each number.
pub fn write_menu_reply<S: Sink>(sink: &mut S, reply: MenuReply) -> Result<(), Refusal>
    requires { (S.output sink.old).has_failed ≡ false }
    ensures { Sends (S.output sink.old) (S.output sink.new) result (menu_reply_text reply) }
{
    match reply {
        MenuReply::Done => write_done(sink),
        MenuReply::Pulled(menu) => write_number(sink, u64::from(menu.unwrap_or(0))),
        MenuReply::Item(item) => write_number(sink, u64::from(item.unwrap_or(0))),
        MenuReply::Chosen(choice) => write_choice(sink, choice),
    }
}

/// Writes the line of what was chosen.
fn write_choice<S: Sink>(sink: &mut S, choice: Option<Choice>) -> Result<(), Refusal>
    requires { (S.output sink.old).has_failed ≡ false }
    ensures { Sends (S.output sink.old) (S.output sink.new) result (choice_text choice) }
{
    match choice {
        None => send(sink, b"ok 0 0\n"),
        Some(choice) => write_item(sink, choice),
    }
}

/// Writes the line of an item of a menu.
fn write_item<S: Sink>(sink: &mut S, choice: Choice) -> Result<(), Refusal>
    requires { (S.output sink.old).has_failed ≡ false }
    ensures { Sends (S.output sink.old) (S.output sink.new) result (item_text choice) }
{
    let mut menu = Buffer::new();
    let mut item = Buffer::new();
    let pieces: [&[u8]; 5] = [
        b"ok ",
        menu.format(choice.menu).as_bytes(),
        b" ",
        item.format(choice.item).as_bytes(),
        b"\n",
    ];
    send_all(sink, &pieces)
}
