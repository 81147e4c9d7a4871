//! What serving an update does, and what the regions of windows are.
ghost use Rattle.std.specs.Prelude.{◌≡◌, ◌≢◌, ◌↔◌, ℕ, true, false, List, map, All, Result, Ok};
ghost use Rattle.tb_geom.specs.declared.point.Point.{Point};
ghost use Rattle.tb_geom.specs.declared.refusal.Refusal.{Refusal};
ghost use Rattle.desk_layers.specs.Desk.{on_screen};
ghost use Rattle.desk_call.specs.declared.call.Call.{Call};
ghost use Rattle.desk_call.specs.declared.call.Call.TheVariants.{Update, Window};
ghost use Rattle.desk_call.specs.declared.call.Reply.{Reply};
ghost use Rattle.desk_call.specs.declared.call.Reply.TheVariants as reply;
ghost use Rattle.desk_call.specs.declared.update.LayerKind.{LayerKind};
ghost use Rattle.desk_call.specs.declared.update.LayerKind.TheVariants.{Texts};
ghost use Rattle.desk_call.specs.declared.update.UpdateCall.TheVariants.{End, Serve};
ghost use Rattle.desk_call.specs.declared.window.WindowCall.TheVariants.{UpdateRegion, VisibleRegion};
ghost use Rattle.desk_call.specs.declared.window.WindowReply.{WindowReply};
ghost use Rattle.desk_call.specs.declared.window.WindowReply.TheVariants.{Done};
ghost use Rattle.window_items.specs.Items.{items_of};
ghost use Rattle.window_mgr.specs.DeskStates.{is_updating};
ghost use Rattle.window_mgr.specs.FullDesk.{FullState, IsRightState, layered_desk};
ghost use Rattle.window_mgr.specs.Telling.{IsRegionTold, update_of, visible_of};
ghost use Rattle.window_update.specs.Served.{AreAllKinds, ShowsNone, update_drawing};
ghost use Rattle.window_update.specs.UpdateSteps.{IsUpdateStep};
ghost use Rattle.window_update.specs.Waiting.{IsEmpty};
ghost use Rattle.desk_laws.specs.OpenUpdates.{IsAllDrawn, IsNotEnded, answered_until, begun_until, done};
ghost use Rattle.desk_toolbox.specs.Reached.{IsConsistent};
ghost use Rattle.desk_laws.specs.Regions.{IsInRegion, IsOfContent};
ghost use Rattle.desk_toolbox.specs.Run.{IsRunOfCalls, IsStep};
ghost use Rattle.desk_toolbox.specs.ToolboxStates.{ToolboxState};

/// A window's update is served where it was begun, its picture, its text records, its lists and its controls were drawn, in
/// whichever order and whatever else was called meanwhile, and it was ended: its update region is empty then, and those of the
/// other windows are as they were at the begin. Text records, lists or controls of which it showed none need no draw.
#[tactic(auto, using(crate::proofs::ServedRuns::drawn_update_is_served, crate::proofs::ServedRuns::drawn_update_leaves_nothing, crate::proofs::ServedRuns::drawn_update_leaves_others))]
pub fn an_update_whose_layers_were_drawn_is_served()
    ensures served { (window : ℕ) (first last : ToolboxState) (calls : List Call)
        (answers : List (Result Reply Refusal))
        → IsConsistent first → IsNotEnded window calls → IsAllDrawn window first.desk.windows calls answers
        → IsRunOfCalls first (begun_until window calls (Update (End window))) (answered_until answers done) last
        → IsUpdateStep (Serve window) (Ok Done) first.desk last.desk }
    ensures empty { (window : ℕ) (first last : ToolboxState) (calls : List Call) (answers : List (Result Reply Refusal))
        → IsConsistent first → IsNotEnded window calls → IsAllDrawn window first.desk.windows calls answers
        → IsRunOfCalls first (begun_until window calls (Update (End window))) (answered_until answers done) last
        → IsEmpty (update_of window last.desk.windows) }
    ensures others { (window other : ℕ) (first last : ToolboxState) (calls : List Call)
        (answers : List (Result Reply Refusal))
        → IsConsistent first → IsNotEnded window calls → IsAllDrawn window first.desk.windows calls answers
        → IsRunOfCalls first (begun_until window calls (Update (End window))) (answered_until answers done) last
        → other ≢ window → (p : Point) → update_of other last.desk.windows p ≡ update_of other first.desk.windows p }
{}

/// In a state that a run reaches a window of which no text record is shown shows none: there an update is served where its
/// picture, its lists and its controls were drawn.
#[tactic(auto, using(crate::proofs::ShownKinds::shows_no_texts))]
pub fn a_window_without_shown_text_records_shows_none()
    ensures { (window : ℕ) (state : ToolboxState)
        → IsConsistent state → All (λ t. t.kept.shown ≡ false) (items_of window state.texts.texts)
        → ShowsNone window Texts state.desk.windows }
{}

/// Where no other call came between, the Toolbox is left as serving the update at once leaves it.
#[tactic(auto, using(crate::proofs::ServedRuns::drawn_in_order_is_served))]
pub fn an_update_drawn_in_any_order_is_served()
    ensures { (window : ℕ) (kinds : List LayerKind) (first last : ToolboxState)
        → AreAllKinds window first.desk.windows kinds
        → IsRunOfCalls first (map Update (update_drawing window kinds))
        (map (λ call. done) (update_drawing window kinds)) last
        → IsStep (Update (Serve window)) done first last }
{}

/// That leaves its update region empty, and those of the other windows as they were.
#[tactic(auto, using(crate::proofs::ServedRuns::served_update_leaves_nothing, crate::proofs::ServedRuns::served_update_leaves_others))]
pub fn an_update_served_at_once_leaves_nothing()
    ensures empty { (window : ℕ) (before after : ToolboxState) → IsStep (Update (Serve window)) done before after
        → IsEmpty (update_of window after.desk.windows) }
    ensures others { (window other : ℕ) (before after : ToolboxState) → IsStep (Update (Serve window)) done before after
        → other ≢ window → (p : Point) → update_of other after.desk.windows p ≡ update_of other before.desk.windows p }
{}

/// A pixel lies in a window's visible region just where its owner is a content layer of the window, and in its update region
/// just where it is stale too. So it lies in no two update regions, and in a right state each stale pixel lies in one.
#[tactic(auto, using(crate::proofs::RegionLaws::visible_where_owned, crate::proofs::RegionLaws::update_where_stale, crate::proofs::RegionLaws::updates_are_apart, crate::proofs::RegionLaws::stale_is_in_one))]
pub fn regions_are_what_contents_own()
    ensures visible { (window : ℕ) (s : FullState) (p : Point) → IsInRegion visible_of window s p
        ↔ IsOfContent window s p }
    ensures update { (window : ℕ) (s : FullState) (p : Point)
        → IsInRegion update_of window s p ↔ (IsOfContent window s p × (s.stale p ≡ true)) }
    ensures apart { (v w : ℕ) (s : FullState) (p : Point) → IsInRegion update_of v s p → IsInRegion update_of w s p
        → v ≡ w }
    ensures stale { (s : FullState) (p : Point) → IsRightState s → on_screen (layered_desk s.desk) p ≡ true
        → s.stale p ≡ true
        → (window : ℕ) × IsInRegion update_of window s p }
{}

/// While a window's update is not open, just these are told of it.
#[tactic(auto, using(crate::proofs::ServedRuns::visible_is_told, crate::proofs::ServedRuns::update_is_told))]
pub fn regions_are_told()
    ensures visible { (window : ℕ) (answer : WindowReply) (before after : ToolboxState)
        → is_updating window before.desk.activity ≡ false
        → IsStep (Window (VisibleRegion window)) (Ok (reply.Window answer)) before after
        → IsRegionTold (visible_of window before.desk.windows) answer }
    ensures update { (window : ℕ) (answer : WindowReply) (before after : ToolboxState)
        → is_updating window before.desk.activity ≡ false
        → IsStep (Window (UpdateRegion window)) (Ok (reply.Window answer)) before after
        → IsRegionTold (update_of window before.desk.windows) answer }
{}

/// While it is open, whatever was called since it began, the update region that stood then is told as the visible region, and
/// the update region as empty.
#[tactic(auto, using(crate::proofs::ServedRuns::open_visible_is_told, crate::proofs::ServedRuns::open_update_is_told))]
pub fn regions_of_an_open_update_are_told()
    ensures visible { (window : ℕ) (first last : ToolboxState) (calls : List Call)
        (answers : List (Result Reply Refusal)) (answer : WindowReply)
        → IsNotEnded window calls
        → IsRunOfCalls first (begun_until window calls (Window (VisibleRegion window)))
        (answered_until answers (Ok (reply.Window answer))) last
        → IsRegionTold (update_of window first.desk.windows) answer }
    ensures update { (window : ℕ) (first last : ToolboxState) (calls : List Call)
        (answers : List (Result Reply Refusal)) (answer : WindowReply)
        → IsNotEnded window calls
        → IsRunOfCalls first (begun_until window calls (Window (UpdateRegion window)))
        (answered_until answers (Ok (reply.Window answer))) last
        → IsRegionTold (λ p. false) answer }
{}
