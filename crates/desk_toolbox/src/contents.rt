//! What windows show of controls, lists and text records together.
ghost use Rattle.control_mgr.specs.Seen.{all_seen as all_controls_seen};
ghost use Rattle.list_mgr.specs.Seen.{all_seen};
ghost use Rattle.control_mgr.specs.ControlDesks.{controls_show};
ghost use Rattle.control_mgr.specs.Settled.{AreSettled as AreControlsSettled};
ghost use Rattle.list_mgr.specs.ListDesks.{lists_show};
ghost use Rattle.list_mgr.specs.WholeLists.{AreSettled};
ghost use Rattle.text_mgr.specs.TextDesks.{texts_show};
ghost use Rattle.window_paint.specs.White.{all_white};

use control_mgr::{Controls, DrawnControl};
use desk_layers::Part;
use draw_port::Canvas;
use list_mgr::Lists;
use list_view::DrawnList;
use text_mgr::Texts;
use window_paint::Showing;

/// The controls, the lists and the text records of a desk's windows, as those show them.
#[derive(Drop)]
pub struct Contents<'a, D, E> {
    pub controls: &'a Controls<D>,
    pub lists: &'a Lists<E>,
    pub texts: &'a Texts,
}

impl<'a, D: DrawnControl, E: DrawnList> Showing for Contents<'a, D, E> {
    ghost is_whole = { λ m. AreControlsSettled (all_controls_seen D.control_loan m.controls.now.list.items.items)
        × AreSettled (all_seen E.list_loan m.lists.now.list.items.items) };

    ghost shows = { λ m. controls_show (lists_show
        (texts_show (λ font. all_white) m.texts.now.list.items.items)
        (all_seen E.list_loan m.lists.now.list.items.items))
        (all_controls_seen D.control_loan m.controls.now.list.items.items) };

    fn draw(&self, part: Part, canvas: &mut Canvas<'_>) {
        match part {
            Part::Control(_) => self.controls.draw(part, canvas),
            Part::List(_) => self.lists.draw(part, canvas),
            _ => self.texts.draw(part, canvas),
        }
    }
}
