//! The headline, and what each call changes of pixels.
ghost use Rattle.std.specs.Prelude.{true, List, Result};
ghost use Rattle.tb_geom.specs.declared.refusal.Refusal.{Refusal};
ghost use Rattle.desk_layers.specs.Change.{IsChanged};
ghost use Rattle.desk_call.specs.declared.call.Call.{Call};
ghost use Rattle.desk_call.specs.declared.call.Reply.{Reply};
ghost use Rattle.window_mgr.specs.FullDesk.{layered_state};
ghost use Rattle.desk_toolbox.specs.Reached.{IsConsistent, IsJustBegun};
ghost use Rattle.desk_toolbox.specs.Run.{IsRunOfCalls, IsStep};
ghost use Rattle.desk_toolbox.specs.ToolboxStates.{ToolboxState};
ghost use Rattle.desk_laws.specs.Changes.{change_of_call};
ghost use Rattle.desk_laws.specs.Headline.{IsHeadline};

/// After any list of calls and events, each pixel of the screen in no update region shows what painting the whole
/// desktop from nothing gives, and once every update is served, each pixel does. The update regions are the stale
/// pixels: at first there is none, and each call makes just those stale, and just those no longer, that its change
/// says. FindWindow and FindControl answer for the topmost owner of the point.
pub fn the_headline()
    ensures { (first last : ToolboxState) (calls : List Call) (answers : List (Result Reply Refusal))
        → IsJustBegun first → IsRunOfCalls first calls answers last → IsHeadline first calls answers last }
{}

/// One call changes the pixels of each state that a desk reaches just as its change says: which of them are stale then,
/// and the value of each.
pub fn each_call_changes_pixels_so()
    ensures { (call : Call) (answer : Result Reply Refusal) (before after : ToolboxState)
        → IsConsistent before → IsStep call answer before after
        → IsChanged (change_of_call call answer before after)
        (layered_state before.desk.windows) (layered_state after.desk.windows) }
{}
