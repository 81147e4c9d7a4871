//! The call that makes a window.
ghost use Rattle.std.specs.Prelude.{◌≡◌, ◌+◌, ◌++◌, ◌∷◌, [], true, map, if◌then◌else◌, Some, None, All, IfOk, IfErr, OnErr};
ghost use Rattle.std.specs.Prelude.{MatchResult, length, vec_len};
ghost use Rattle.tb_geom.specs.Rects.{in_plane};
ghost use Rattle.def_iface.specs.WindowMeaning.{is_fitting};
ghost use Rattle.desk_call.specs.declared.window.WindowCall.TheVariants.{New, NewFloating};
ghost use Rattle.vis_update.specs.Records.{record_of};
ghost use Rattle.vis_update.specs.Places.{is_placed};
ghost use Rattle.tb_geom.specs.Refusals.{first_refusal};
ghost use Rattle.window_mgr.specs.Refused.{judged_refusals};
ghost use Rattle.window_mgr.specs.Planned.{IsPlanWith, IsUnplanned, SameDesk, new_place, IsTicket, IsPlanned, IsAdded};
ghost use Rattle.window_mgr.specs.Seats.{AreSeatsWith};
ghost use Rattle.window_mgr.specs.Effects.{begins_highlighted, new_record};
ghost use Rattle.window_mgr.specs.Step.{IsWindowStep};
ghost use Rattle.window_mgr.specs.Whole.{IsSettled, LieThere};

use crate::{DeskWindows, NewWindow, WindowManager, WindowReply};
use def_iface::{Defined, Stage, TakenWindow, WindowStock};
use draw_port::Picture;
use std::alloc::{AllocError, Global};
use tb_geom::{Point, Refusal};
use vis_update::{
    Area, Plan, Seat, Touch, changed_with, is_placed_alone, is_placed_with, lost_of, plan_of,
};
use window_list::{Heard, Layers, Title, Window};

/// As many windows as there may be.
const MOST_WINDOWS: usize = 64;

/// What a new window gets where its place, its title and the count of windows allow it.
#[derive(Drop)]
struct Ticket {
    serial: u64,
    title: Title,
}

/// What a new window gets, with all the memory that it needs.
#[derive(Drop)]
struct Addition {
    ticket: Ticket,
    touch: Touch,
    plan: Plan,
}

impl WindowManager {
    /// Makes a window that floats or an ordinary one, at the front of its class, and answers its serial.
    pub(crate) fn new_window(
        &mut self,
        window: &NewWindow<'_>,
        floating: bool,
        stock: &mut WindowStock,
    ) -> Result<WindowReply, Refusal>
        requires { ⟦<Self as DeskWindows>⟧.IsWhole self.old stock.old }
        ensures whole { ⟦<Self as DeskWindows>⟧.IsWhole self.new stock.new }
        ensures step { IsWindowStep (if floating then NewFloating window.now else New window.now) result
            (⟦<Self as DeskWindows>⟧.state self.old stock.old)
            (⟦<Self as DeskWindows>⟧.state self.new stock.new) }
        ensures quiet { OnErr result (self.new.screen ≡ self.old.screen) }
    {
        match stock.take(window.kind.as_slice()) {
            Ok(taken) => match self.plan_window(window, floating, &taken) {
                Ok(addition) => {
                    let serial = addition.ticket.serial;
                    self.add_window(window, floating, addition, taken);
                    Ok(WindowReply::Made(serial))
                }
                Err(refusal) => {
                    stock.put_back(taken);
                    Err(refusal)
                }
            },
            Err(Refusal::NoDefinition) => Err(self.refusal_without(window)),
            Err(refusal) => Err(refusal),
        }
    }

    /// All that can be refused of a window with this definition, and all growth.
    fn plan_window(
        &mut self,
        window: &NewWindow<'_>,
        floating: bool,
        taken: &TakenWindow,
    ) -> Result<Addition, Refusal>
        requires { ⟦<Self as DeskWindows>⟧.IsKept self.old }
        ensures same { SameDesk self.old self.new }
        ensures ok { let d = (⟦<TakenWindow as Defined>⟧.loan taken.now).definition in IfOk result (λ addition.
            (first_refusal (judged_refusals window.now (is_placed (Some d) window.now.place window.now.size)
            (length self.old.windows.records.items) self.old.windows.next) ≡ None)
            × IsPlanned ⟦<TakenWindow as Defined>⟧.loan floating window.now d self.new addition) }
        ensures err { let d = (⟦<TakenWindow as Defined>⟧.loan taken.now).definition in IfErr result (
            IsUnplanned window.now (is_placed (Some d) window.now.place window.now.size)
            (length self.old.windows.records.items) self.old.windows.next) }
    {
        let ticket = self.judge(window, is_placed_with(window.place, window.size, taken))?;
        let touch = new_touch(ticket.serial);
        let plan = self.plan_with(window, floating, taken, touch)?;
        self.windows.reserve()?;
        self.areas.reserve(1)?;
        Ok(Addition {
            ticket,
            touch,
            plan,
        })
    }

    /// Why a window is refused that no definition is left for.
    fn refusal_without(&self, window: &NewWindow<'_>) -> Refusal
        ensures { first_refusal (judged_refusals window.now (is_placed None window.now.place window.now.size)
            (length (⟦<Self as DeskWindows>⟧.desk self.now []).windows) self.now.windows.next
            ++ (true, Refusal.NoDefinition) ∷ []) ≡ Some result }
    {
        match self.judge(window, is_placed_alone(window.place, window.size)) {
            Ok(_ticket) => Refusal::NoDefinition,
            Err(refusal) => refusal,
        }
    }

    /// The ticket of a new window, where nothing but its definition and memory can refuse it.
    fn judge(&self, window: &NewWindow<'_>, is_placed: bool) -> Result<Ticket, Refusal>
        ensures { let refusals = judged_refusals window.now is_placed (length self.now.windows.records.items)
            self.now.windows.next in
            MatchResult result (λ ticket. (first_refusal refusals ≡ None) × IsTicket window.now self.now ticket)
            (λ e. first_refusal refusals ≡ Some e) }
    {
        if !is_placed {
            return Err(Refusal::OutOfRange);
        }
        let mut title = Title::new();
        if title
            .try_extend_from_slice(window.title.as_slice())
            .is_err()
        {
            return Err(Refusal::TooLong);
        }
        match self.windows.next() {
            Some(serial) if self.windows.len() < MOST_WINDOWS => Ok(Ticket { serial, title }),
            _ => Err(Refusal::TooMany),
        }
    }

    /// The plan of all windows, with a new one at the front of its class.
    fn plan_with(
        &self,
        window: &NewWindow<'_>,
        floating: bool,
        taken: &TakenWindow,
        touch: Touch,
    ) -> Result<Plan, AllocError>
        requires kept { ⟦<Self as DeskWindows>⟧.IsKept self.now }
        requires placed { is_placed (Some (⟦<TakenWindow as Defined>⟧.loan taken.now).definition)
            window.now.place window.now.size ≡ true }
        requires number { self.now.windows.next ≡ Some touch.window }
        ensures plan { IfOk result (λ plan. IsPlanWith ⟦<TakenWindow as Defined>⟧.loan floating window.now touch.window
            (⟦<TakenWindow as Defined>⟧.loan taken.now).definition touch self.now plan) }
        ensures some { IfOk result (λ plan. vec_len plan.parts ≡ length self.now.windows.records.items + 1) }
    {
        let nothing = Area::empty(self.alloc);
        let seat = Seat {
            serial: touch.window,
            place: window.place,
            size: window.size,
            shown: window.shown,
            floating,
            taken,
            area: &nothing,
        };
        let changed = changed_with(self.alloc, &self.gray, &seat)?;
        let seats = self.seats_with(seat)?;
        let lost = lost_of(self.alloc, &changed, &nothing)?;
        let plan = plan_of(self.alloc, &changed, &lost, &self.desktop, &seats, touch)?;
        Ok(plan)
    }

    /// The windows as they are, with a new one at the front of its class.
    fn seats_with<'a>(&'a self, added: Seat<'a>) -> Result<Vec<Seat<'a>>, AllocError>
        requires { length self.now.areas.items ≡ length self.now.windows.records.items }
        ensures { IfOk result (λ seats. AreSeatsWith (new_place added.entry.floating self.now) added.entry
            self.now.windows.records.items self.now.areas.items seats.items) }
    {
        let mut seats = self.seats()?;
        let at = self.windows.class_front(added.floating, self.windows.len());
        seats.insert(at, added).unwrap();
        Ok(seats)
    }

    /// Puts a planned window at the front of its class, and draws what changes.
    fn add_window(
        &mut self,
        window: &NewWindow<'_>,
        floating: bool,
        addition: Addition,
        taken: TakenWindow,
    )
        requires fresh { (⟦<TakenWindow as Defined>⟧.loan taken).definition.stage ≡ Stage.Fresh }
        requires fits { is_fitting (⟦<TakenWindow as Defined>⟧.loan taken).definition window.now.size ≡ true }
        requires may_stand { is_placed (Some (⟦<TakenWindow as Defined>⟧.loan taken).definition)
            window.now.place window.now.size ≡ true }
        requires settled { All IsSettled (map (record_of ⟦<TakenWindow as Defined>⟧.loan)
            self.old.windows.records.items) }
        requires areas { length self.old.areas.items ≡ length self.old.windows.records.items }
        requires planned { IsPlanned ⟦<TakenWindow as Defined>⟧.loan floating window.now
            (⟦<TakenWindow as Defined>⟧.loan taken).definition self.old addition }
        ensures { IsAdded ⟦<TakenWindow as Defined>⟧.loan floating window.now addition.ticket.serial
            (⟦<TakenWindow as Defined>⟧.loan taken)
            addition.touch addition.plan self.old self.new }
    {
        let Addition {
            ticket,
            touch,
            plan,
        } = addition;
        let Ticket { serial, title } = ticket;
        let mut taken = taken;
        let highlighted = begins_highlighted(window, floating);
        taken.begin(
            window.size,
            window.title.as_slice(),
            window.go_away,
            highlighted,
        );
        let added = record_for(self.alloc, window, floating, serial, title, taken);
        let at = self.windows.class_front(floating, self.windows.len());
        self.windows.add(added);
        self.areas.insert(at, Area::empty(self.alloc)).unwrap();
        self.commit(plan, touch.by);
    }
}

/// Whether a new window is highlighted when it is made.
fn begins_highlighted(window: &NewWindow<'_>, floating: bool) -> bool
    ensures { result ≡ begins_highlighted floating window.now }
{
    window.shown || floating
}

/// What a new window does with the windows.
fn new_touch(serial: u64) -> Touch
    ensures { result ≡ record {
      window = serial;
      by = None;
      whole = true;
    } }
{
    Touch {
        window: serial,
        by: None,
        whole: true,
    }
}

/// The record of a new window, with its definition. A visible one is highlighted, and one that floats
/// always; its picture is white.
fn record_for(
    alloc: Global,
    window: &NewWindow<'_>,
    floating: bool,
    serial: u64,
    title: Title,
    taken: TakenWindow,
) -> Window
    requires title { title.items ≡ window.now.title }
    requires placed { in_plane window.now.place ≡ true }
    ensures seen { record_of ⟦<TakenWindow as Defined>⟧.loan result ≡ new_record floating window.now serial
        (⟦<TakenWindow as Defined>⟧.loan taken).slot (⟦<TakenWindow as Defined>⟧.loan taken).definition }
    ensures serial { result.serial ≡ serial }
    ensures shown { result.shown ≡ window.now.shown }
    ensures floating { result.floating ≡ floating }
    ensures there { LieThere result }
{
    let highlighted = begins_highlighted(window, floating);
    Window {
        serial,
        place: window.place,
        size: window.size,
        user_state: None,
        shown: window.shown,
        floating,
        highlighted,
        go_away: window.go_away,
        title,
        heard: Heard {
            highlighted,
            zoomed: false,
            tracked: false,
        },
        picture: Picture::new(alloc),
        origin: Point { h: 0, v: 0 },
        layers: Layers::new(alloc, window.place),
        taken,
    }
}
