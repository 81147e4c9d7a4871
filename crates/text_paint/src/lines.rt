//! Lines.
ghost use Rattle.std.specs.Prelude.{◌≡◌, ◌<◌};
ghost use Rattle.bit_blit.specs.Draws.{Draws};
ghost use Rattle.draw_port.specs.Canvases.{canvas_holds, canvas_point, SameFrame};
ghost use Rattle.text_paint.specs.Shown.{line_count, line_pen, with_lines};

use bit_map::Mode;
use draw_port::Canvas;
use tb_geom::Point;
use text_record::TextRecord;

/// Where the pen of a line starts, on its baseline.
fn line_pen(text: &TextRecord, number: usize) -> Point
    requires { number < line_count text.now }
    ensures { result ≡ line_pen text.now number }
{
    Point {
        h: text.pen(number),
        v: text.line_top(number) + i32::from(text.ascent()),
    }
}

/// Draws the lines in black. None is left out by its number: a glyph may be higher than a line.
pub(crate) fn draw_lines(text: &TextRecord, canvas: &mut Canvas<'_>)
    ensures same_map { canvas.new.map.ghost_name ≡ canvas.old.map.ghost_name }
    ensures same_frame { SameFrame canvas.old canvas.new }
    ensures drawn { Draws (canvas_holds canvas.old)
        (λ p d. with_lines canvas.old.font.now text.now (canvas_point canvas.old p) d)
        canvas.old.map.now canvas.new.map.now }
{
    for number in 0..text.line_count() {
        let pen = line_pen(text, number);
        canvas.text(text.drawn_bytes(number), pen, Mode::Or);
    }
}
