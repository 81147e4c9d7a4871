//! Controls, drawn where a canvas lets them.
ghost use Rattle.std.specs.Prelude.{◌≡◌, ◌<◌, true, length, slice_get};
ghost use Rattle.tb_geom.specs.Rects.{in_plane};
ghost use Rattle.bit_blit.specs.Draws.{Draws};
ghost use Rattle.draw_port.specs.Canvases.{canvas_holds, canvas_point, SameFrame};
ghost use Rattle.control_mgr.specs.Seen.{all_seen};
ghost use Rattle.def_iface.specs.ControlMeaning.{ControlLoan, is_fitting_control};
ghost use Rattle.def_iface.specs.ControlNews.{no_control_news};
ghost use Rattle.def_iface.specs.Slots.{loan_by};
ghost use Rattle.window_paint.specs.White.{all_white};
ghost use Rattle.control_mgr.specs.ControlDesks.{control_bit, controls_show};
ghost use Rattle.control_mgr.specs.Settled.{AreSettled};

use crate::Controls;
use bit_map::{Mode, Pattern};
use def_iface::{Stage, TakenControl};
use desk_layers::Part;
use draw_port::Canvas;
use window_list::picture_place;
use window_paint::Showing;

/// What a control is drawn by.
pub trait DrawnControl {
    ghost control_loan: { Self → ControlLoan };

    /// Gives each pixel of the canvas, whose origin is the control's 0 0, the value that the control's picture has there in the
    /// canvas's font.
    fn draw_control(&self, canvas: &mut Canvas<'_>)
        requires live { (Self.control_loan self.now).definition.stage ≡ Stage.Live }
        requires told { is_fitting_control (Self.control_loan self.now).definition
            (Self.control_loan self.now).definition.size ≡ true }
        ensures same_map { canvas.new.map.ghost_name ≡ canvas.old.map.ghost_name }
        ensures same_frame { SameFrame canvas.old canvas.new }
        ensures drawn { Draws (canvas_holds canvas.old)
            (λ p _. (Self.control_loan self.now).definition.picture no_control_news canvas.old.font.now
            (canvas_point canvas.old p))
            canvas.old.map.now canvas.new.map.now };
}

impl DrawnControl for TakenControl {
    ghost control_loan = { loan_by (λ b. (ControlDef-box b).control_meaning b.value) };

    fn draw_control(&self, canvas: &mut Canvas<'_>) {
        self.draw(canvas);
    }
}

impl<D: DrawnControl> Showing for Controls<D> {
    ghost is_whole = { λ m. AreSettled (all_seen D.control_loan m.list.items.items) };

    ghost shows = { λ m. controls_show (λ font. all_white) (all_seen D.control_loan m.list.items.items) };

    fn draw(&self, part: Part, canvas: &mut Canvas<'_>) {
        match part {
            Part::Control(serial) => match self.list.with_serial(serial) {
                Some(at) => self.draw_at(at, canvas),
                None => canvas.fill_all(Pattern::WHITE, Mode::Copy),
            },
            _ => canvas.fill_all(Pattern::WHITE, Mode::Copy),
        }
    }
}

impl<D: DrawnControl> Controls<D> {
    /// Draws the control at this index of the list on a canvas whose origin is the 0 0 of the control's window.
    fn draw_at(&self, at: usize, canvas: &mut Canvas<'_>)
        requires at { at < length self.now.list.items.items }
        requires settled { AreSettled (all_seen D.control_loan self.now.list.items.items) }
        requires origin { in_plane canvas.old.origin ≡ true }
        ensures same_map { canvas.new.map.ghost_name ≡ canvas.old.map.ghost_name }
        ensures same_frame { SameFrame canvas.old canvas.new }
        ensures drawn { Draws (canvas_holds canvas.old)
            (λ p _. control_bit canvas.old.font.now
            (slice_get (all_seen D.control_loan self.now.list.items.items) at) (canvas_point canvas.old p))
            canvas.old.map.now canvas.new.map.now }
    {
        let control = &self.list.items[at];
        let mut there = Canvas {
            map: &mut *canvas.map,
            clip: canvas.clip,
            origin: picture_place(canvas.origin, control.kept.place),
            cut: canvas.cut,
            font: canvas.font,
        };
        control.kept.definition.draw_control(&mut there);
    }
}
