//! The head that each image begins with, and the sides of a map that it names.
ghost use Rattle.std.specs.Prelude.{◌≡◌, false};
ghost use Rattle.watched_io.specs.Writes.{Sends};
ghost use Rattle.screen_pbm.specs.Pbm.{head_text};

use bit_map::BitMap;
use itoa::Buffer;
use tb_geom::Refusal;
use watched_io::{Sink, send_all};

/// How many columns a map has.
pub fn width_of(map: &BitMap) -> u16
    ensures { result ≡ map.now.width }
{
    map.bounds().right as u16
}

/// How many rows a map has.
pub fn height_of(map: &BitMap) -> u16
    ensures { result ≡ map.now.height }
{
    map.bounds().bottom as u16
}

/// Writes the head of an image in the format of this name, of this many columns and rows.
pub fn write_head<S: Sink>(
    sink: &mut S,
    name: &[u8],
    width: u16,
    height: u16,
) -> Result<(), Refusal>
    requires { (S.output sink.old).has_failed ≡ false }
    ensures { Sends (S.output sink.old) (S.output sink.new) result (head_text name.now width height) }
{
    let mut columns = Buffer::new();
    let mut rows = Buffer::new();
    let pieces: [&[u8]; 6] = [
        name,
        b"\n",
        columns.format(width).as_bytes(),
        b" ",
        rows.format(height).as_bytes(),
        b"\n",
    ];
    send_all(sink, &pieces)
}
