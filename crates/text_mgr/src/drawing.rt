//! Text records, drawn where a canvas lets them.
ghost use Rattle.text_mgr.specs.TextDesks.{texts_show};
ghost use Rattle.window_paint.specs.White.{all_white};

use crate::Texts;
use bit_map::{Mode, Pattern};
use desk_layers::Part;
use draw_port::Canvas;
use text_paint::draw_text_record;
use window_paint::Showing;

impl Showing for Texts {
    ghost is_whole = { λ _. Unit {0} };

    ghost shows = { λ m. texts_show (λ font. all_white) m.list.items.items };

    fn draw(&self, part: Part, canvas: &mut Canvas<'_>) {
        match part {
            Part::Text(serial) => match self.list.with_serial(serial) {
                Some(at) => draw_text_record(&self.list.items[at].kept, canvas),
                None => canvas.fill_all(Pattern::WHITE, Mode::Copy),
            },
            _ => canvas.fill_all(Pattern::WHITE, Mode::Copy),
        }
    }
}
