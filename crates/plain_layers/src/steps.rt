//! What calls change of the model's desk.
ghost use Rattle.std.specs.Prelude.{◌<◌};

use crate::desk::{
    NOTHING, Owner, Painting, PlainDesk, PlainLayer, PlainWindow, moved, moved_box, seen_from,
};
use def_iface::Size;
use desk_call::LayerKind as Kind;
use desk_layers::Part;
use tb_geom::{Point, Rect};

/// One call, or a few that belong together. Windows are named by their serials.
#[derive(Clone, Copy)]
pub enum Step {
    /// The content's 0 0 comes to lie there.
    Move(u64, Point),
    Resize(u64, Size),
    Hide(u64),
    Show(u64),
    Front(u64),
    Back(u64),
    /// It is this picture, whose 0 0 lies there in the window.
    Replace(u64, Painting, Point),
    Scroll(u64, Point),
    /// This is inverted in the picture, in its own coordinates. A picture may have one such rectangle.
    Invert(u64, Rect),
    /// The layer is there, shown or not, and lies so.
    Put(u64, Part, bool, Rect),
    TakeOut(u64, Part),
    /// What is to be redrawn is drawn, layer by layer, in one update.
    Update(u64, &'static [Kind]),
    /// All that is to be redrawn is drawn.
    Serve(u64),
}

/// What a call does beside the change of the desk.
#[derive(Clone, Copy)]
pub enum Effect {
    Nothing,
    /// The content of this window moves so far.
    Moves(u64, Point),
    /// The picture of this window moves so far.
    Scrolls(u64, Point),
    /// This is drawn afresh.
    Draws(Owner),
    /// What is to be redrawn of these layers of this window is drawn.
    Redraws(u64, Kind),
    /// All of this is to be redrawn.
    Spoils(Owner),
    /// What the picture of this window owns of this, on the screen, is inverted.
    Inverts(u64, Rect),
}

impl PlainWindow {
    /// Changes the window as the step says.
    fn change(&mut self, step: Step) {
        match step {
            Step::Move(_, place) => self.place = place,
            Step::Resize(_, size) => self.size = size,
            Step::Hide(_) => self.shown = false,
            Step::Show(_) => self.shown = true,
            Step::Replace(_, painting, origin) => {
                self.painting = painting;
                self.origin = origin;
                self.inverted = NOTHING;
            }
            Step::Scroll(_, by) => self.origin = moved(self.origin, by),
            Step::Invert(_, rect) => self.inverted = rect,
            Step::Put(_, part, shown, rect) => self.put(PlainLayer {
                part,
                there: true,
                shown,
                rect,
            }),
            Step::TakeOut(_, part) => self.put(PlainLayer {
                part,
                there: false,
                shown: false,
                rect: NOTHING,
            }),
            _ => {}
        }
    }

    /// Makes the layer of this part so.
    fn put(&mut self, layer: PlainLayer) {
        for at in 0..4 {
            if self.layers[at].part == layer.part {
                self.layers[at] = layer;
            }
        }
    }
}

/// The window that a step is about.
fn window_of(step: Step) -> u64 {
    match step {
        Step::Move(window, _)
        | Step::Resize(window, _)
        | Step::Hide(window)
        | Step::Show(window)
        | Step::Front(window)
        | Step::Back(window)
        | Step::Replace(window, _, _)
        | Step::Scroll(window, _)
        | Step::Invert(window, _)
        | Step::Put(window, _, _, _)
        | Step::TakeOut(window, _)
        | Step::Update(window, _)
        | Step::Serve(window) => window,
    }
}

impl PlainDesk {
    /// The index of the window of this serial.
    pub fn index_of(&self, serial: u64) -> usize
        ensures { result < 2 }
    {
        if self.windows[0].serial == serial {
            0
        } else {
            1
        }
    }

    /// The desk after a step, and what the step does beside.
    pub fn after(&self, step: Step) -> (PlainDesk, Effect) {
        let mut desk = *self;
        let serial = window_of(step);
        let at = self.index_of(serial);
        let old = self.windows[at];
        desk.windows[at].change(step);
        let effect = match step {
            Step::Move(_, place) => Effect::Moves(serial, seen_from(place, old.place)),
            Step::Scroll(_, by) => Effect::Scrolls(serial, by),
            Step::Replace(..) => Effect::Spoils(Owner::Content(serial, Part::Picture)),
            Step::Invert(_, rect) => Effect::Inverts(serial, moved_box(rect, &old)),
            Step::Put(_, part, _, _) => Effect::Draws(Owner::Content(serial, part)),
            _ => Effect::Nothing,
        };
        let is_turned = match step {
            Step::Front(_) => at == 1,
            Step::Back(_) => at == 0,
            _ => false,
        };
        if is_turned {
            desk.windows = [desk.windows[1], desk.windows[0]];
        }
        (desk, effect)
    }
}
