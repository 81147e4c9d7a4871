//! What holds of windows that float, and of which window is active, in each state that a desk reaches.
ghost use Rattle.std.specs.Prelude.{◌≡◌, ◌≢◌, ◌∷◌, ◌++◌, [], ℕ, Bool, true, false, List, map, Some, All, Result};
ghost use Rattle.std.specs.List.{find};
ghost use Rattle.std.specs.Option.{option_map};
ghost use Rattle.tb_geom.specs.declared.refusal.Refusal.{Refusal};
ghost use Rattle.desk_call.specs.declared.call.Call.{Call};
ghost use Rattle.desk_call.specs.declared.call.Reply.{Reply};
ghost use Rattle.window_list.specs.Classes.{put_back, put_front};
ghost use Rattle.vis_update.specs.Records.{WindowRecord, is_floating};
ghost use Rattle.window_mgr.specs.Finding.{front_of, is_leading};
ghost use Rattle.desk_toolbox.specs.Activations.{IsNeverDisposed, activate_event_told};
ghost use Rattle.desk_toolbox.specs.Classes.{AreClassed, IsOfClass};
ghost use Rattle.desk_toolbox.specs.Reached.{IsConsistent};
ghost use Rattle.desk_toolbox.specs.Run.{IsRunOfCalls, IsStep};
ghost use Rattle.desk_toolbox.specs.ToolboxStates.{ToolboxState};
ghost use Rattle.desk_laws.specs.OneClass.{AreOrdinary, asks_to_float};

/// The window that FrontWindow answers is the first ordinary one of the list that is visible.
#[tactic(auto, using(crate::proofs::Sayings::front_is_first))]
pub fn front_is_the_first_visible_ordinary_window()
    ensures { (windows : List WindowRecord)
        → front_of windows ≡ option_map (λ w. w.serial) (find is_leading windows) }
{}

/// Windows that float stand in front of all that do not.
#[tactic(auto, using(crate::proofs::ClassLaws::floating_in_front))]
pub fn floating_windows_stand_in_front()
    ensures { (s : ToolboxState) → IsConsistent s → AreClassed s.desk.windows.desk.windows }
{}

/// A window that floats is not active, nor was it told last that it is.
#[tactic(auto, using(crate::proofs::ClassLaws::never_active, crate::proofs::ClassLaws::never_told))]
pub fn a_floating_window_is_never_active()
    ensures active { (window : ℕ) (s : ToolboxState) → IsConsistent s
        → IsOfClass true window s.desk.windows.desk.windows
        → s.desk.windows.desk.active ≢ Some window }
    ensures told { (window : ℕ) (s : ToolboxState) → IsConsistent s → IsOfClass true window s.desk.windows.desk.windows
        → s.events.told ≢ Some window }
{}

/// No activate event is told of it.
#[tactic(auto, using(crate::proofs::ClassLaws::none_told_of_floating))]
pub fn no_activate_event_is_told_of_a_floating_window()
    ensures { (window : ℕ) (call : Call) (answer : Result Reply Refusal) (before after : ToolboxState)
        → IsConsistent before → IsStep call answer before after → IsOfClass true window before.desk.windows.desk.windows
        → All (λ e. e.message ≢ window) (activate_event_told call answer) }
{}

/// Over any run a window that is not disposed of stays of its class.
#[tactic(auto, using(crate::proofs::ClassLaws::class_is_for_good))]
pub fn a_class_is_for_good()
    ensures { (floating : Bool) (window : ℕ) (first last : ToolboxState) (calls : List Call)
        (answers : List (Result Reply Refusal))
        → IsConsistent first → IsRunOfCalls first calls answers last → IsNeverDisposed window calls answers
        → IsOfClass floating window first.desk.windows.desk.windows
        → IsOfClass floating window last.desk.windows.desk.windows }
{}

/// Where no window floats there is one class: a window that is brought to the front of its class stands in front of all, one that
/// is sent to its back behind all, and the first visible one is that which FrontWindow answers and which becomes active.
#[tactic(auto, using(crate::proofs::OneClass::front_is_all, crate::proofs::OneClass::back_is_all, crate::proofs::OneClass::first_shown))]
pub fn without_floating_windows_there_is_one_class()
    ensures front { (window : WindowRecord) (windows : List WindowRecord) → AreOrdinary (window ∷ windows)
        → put_front is_floating window windows ≡ window ∷ windows }
    ensures back { (window : WindowRecord) (windows : List WindowRecord) → AreOrdinary (window ∷ windows)
        → put_back is_floating window windows ≡ windows ++ window ∷ [] }
    ensures first { (windows : List WindowRecord) → AreOrdinary windows
        → front_of windows ≡ option_map (λ w. w.serial) (find (λ w. w.shown) windows) }
{}

/// Where no call of a run asks for a window that floats, and none floats at first, none does at the end. So what holds of one
/// class holds of a script that has no such call.
pub fn windows_float_only_where_asked()
    ensures { (first last : ToolboxState) (calls : List Call) (answers : List (Result Reply Refusal))
        → IsRunOfCalls first calls answers last → All (λ call. asks_to_float call ≡ false) calls
        → AreOrdinary first.desk.windows.desk.windows → AreOrdinary last.desk.windows.desk.windows }
{}
