//! What the definitions of events imply.
ghost use Rattle.std.specs.Prelude.{◌≡◌, ◌<◌, ◌≤◌, ℕ, true, Option, List, length};
ghost use Rattle.event_queue.specs.declared.event.Event.{Event};
ghost use Rattle.event_queue.specs.Queues.{added};
ghost use Rattle.event_queue.specs.History.{Step, IsHistory, NeverDisposed, telling, told_of, Alternates, is_told_active};

/// Over any row of steps, in each of which a window, or none, becomes active, a window is disposed of, or the first activate
/// event is told: the events that are told of one window are in turn an activation and a deactivation, and the first is an
/// activation. A window that is disposed of is not active then or later.
#[tactic(auto, using(crate::proofs::HistoryLemmas::told_events_alternate))]
pub fn told_events_alternate()
    ensures { (window : ℕ) (steps : List Step) → IsHistory Option.None steps
        → Alternates true (told_of window (telling Option.None Option.None steps)) }
{}

/// Over any row of such steps: of the windows that were not disposed of, at most one was told active, and not told since that
/// it is so no more.
#[tactic(auto, using(crate::proofs::HistoryLemmas::at_most_one_told))]
pub fn at_most_one_is_told_active()
    ensures { (v w : ℕ) (steps : List Step) → NeverDisposed v steps → NeverDisposed w steps
        → is_told_active v (telling Option.None Option.None steps) ≡ true
        → is_told_active w (telling Option.None Option.None steps) ≡ true → v ≡ w }
{}

/// A queue of at most 20 events has at most 20 once an event was added.
#[tactic(auto, using(crate::proofs::QueueLemmas::added_is_bounded))]
pub fn at_most_20_are_queued()
    ensures { (events : List Event) (event : Event) → length events ≤ 20 → length (added events event) ≤ 20 }
{}
