//! Controls, lists and text records that nobody but these tests keeps.
ghost use Rattle.std.specs.Prelude.{◌≡◌};
ghost use Rattle.bit_map.specs.Patterns.{pattern_bit};
ghost use Rattle.striped_layers.specs.Striped.{stripes_of};

use bit_map::{Mode, Pattern};
use desk_layers::Part;
use draw_port::Canvas;
use window_paint::Showing;

/// Controls that show black columns, and lists that show black rows, every other one, and text records that show every other pixel
/// black, from the window's 0 0.
#[derive(Clone, Copy)]
pub struct Stripes;

/// The stripes of a control or a list, or the squares of a text record.
fn stripes_of(part: Part) -> Pattern
    ensures { result ≡ stripes_of part }
{
    match part {
        Part::Control(_) => Pattern { rows: [0xAA; 8] },
        Part::Text(_) => Pattern {
            rows: [0xAA, 0x55, 0xAA, 0x55, 0xAA, 0x55, 0xAA, 0x55],
        },
        Part::Picture | Part::List(_) => Pattern {
            rows: [0xFF, 0, 0xFF, 0, 0xFF, 0, 0xFF, 0],
        },
    }
}

impl Showing for Stripes {
    ghost is_whole = { λ _. Unit {0} };

    ghost shows = { λ _ _ part. pattern_bit (stripes_of part) };

    fn draw(&self, part: Part, canvas: &mut Canvas<'_>) {
        canvas.fill_all(stripes_of(part), Mode::Copy);
    }
}
