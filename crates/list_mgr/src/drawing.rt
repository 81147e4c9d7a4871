//! What windows show of lists.
ghost use Rattle.std.specs.Prelude.{◌≡◌, ◌<◌, true, length, slice_get};
ghost use Rattle.tb_geom.specs.Rects.{in_plane};
ghost use Rattle.bit_blit.specs.Draws.{Draws};
ghost use Rattle.draw_port.specs.Canvases.{canvas_holds, canvas_point, SameFrame};
ghost use Rattle.list_mgr.specs.Seen.{all_seen};
ghost use Rattle.list_mgr.specs.ListDesks.{list_bit, lists_show};
ghost use Rattle.list_mgr.specs.WholeLists.{AreSettled};
ghost use Rattle.window_paint.specs.White.{all_white};

use crate::Lists;
use bit_map::{Mode, Pattern};
use desk_layers::Part;
use draw_port::Canvas;
use list_view::{DrawnList, paint_list};
use window_paint::Showing;

impl<D: DrawnList> Showing for Lists<D> {
    ghost is_whole = { λ m. AreSettled (all_seen D.list_loan m.list.items.items) };

    ghost shows = { λ m. lists_show (λ font. all_white) (all_seen D.list_loan m.list.items.items) };

    fn draw(&self, part: Part, canvas: &mut Canvas<'_>) {
        match part {
            Part::List(serial) => match self.list.with_serial(serial) {
                Some(at) => self.draw_at(at, canvas),
                None => canvas.fill_all(Pattern::WHITE, Mode::Copy),
            },
            _ => canvas.fill_all(Pattern::WHITE, Mode::Copy),
        }
    }
}

impl<D: DrawnList> Lists<D> {
    /// Draws the list at this index on a canvas whose origin is the 0 0 of the list's window.
    fn draw_at(&self, at: usize, canvas: &mut Canvas<'_>)
        requires at { at < length self.now.list.items.items }
        requires settled { AreSettled (all_seen D.list_loan self.now.list.items.items) }
        requires origin { in_plane canvas.old.origin ≡ true }
        ensures same_map { canvas.new.map.ghost_name ≡ canvas.old.map.ghost_name }
        ensures same_frame { SameFrame canvas.old canvas.new }
        ensures drawn { Draws (canvas_holds canvas.old)
            (λ p _. list_bit canvas.old.font.now
            (slice_get (all_seen D.list_loan self.now.list.items.items) at) (canvas_point canvas.old p))
            canvas.old.map.now canvas.new.map.now }
    {
        let list = &self.list.items[at];
        paint_list(
            &list.kept.definition,
            list.kept.view,
            &list.kept.cells,
            canvas,
        );
    }
}
