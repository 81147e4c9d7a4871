//! What the definitions of a desk, of its steps and of runs say of each other.
ghost use Rattle.std.specs.Prelude.{◌≡◌, ◌≢◌, ℕ, ℤ, Bool, true, false, not, List, [], ◌∷◌, ◌++◌, map, Option, None, Some, Result, Ok, All};
ghost use Rattle.std.specs.List.{find};
ghost use Rattle.std.specs.Option.{option_map};
ghost use Rattle.tb_geom.specs.declared.point.Point.{Point};
ghost use Rattle.tb_geom.specs.declared.refusal.Refusal.{Refusal};
ghost use Rattle.desk_layers.specs.Desk.{IsDesk};
ghost use Rattle.def_iface.specs.ControlMeaning.{ControlGoesBy};
ghost use Rattle.def_iface.specs.ListMeaning.{ListGoesBy};
ghost use Rattle.def_iface.specs.WindowMeaning.{WindowGoesBy};
ghost use Rattle.desk_layers.specs.Owner.{is_content, owner, own_bit};
ghost use Rattle.desk_layers.specs.Scratch.{scratch};
ghost use Rattle.vis_update.specs.Records.{WindowRecord};
ghost use Rattle.window_mgr.specs.FullDesk.{FullDesk, IsRightState, layered_desk};
ghost use Rattle.window_mgr.specs.Effects.{IsUnchanged};
ghost use Rattle.bit_map.specs.Modes.{xor_bit};
ghost use Rattle.bit_map.specs.Patterns.{pattern_bit, gray};
ghost use Rattle.tb_geom.specs.declared.refusal.Refusal.TheVariants.{Busy, NoSuchMenu, NoSuchWindow, StalePixels, TooLong};
ghost use Rattle.tb_geom.specs.Rects.{in_plane};
ghost use Rattle.tb_geom.specs.Refusals.{first_refusal, is_before};
ghost use Rattle.desk_call.specs.declared.control.ControlCall.{ControlCall};
ghost use Rattle.desk_call.specs.declared.control.ControlCall.TheVariants as controls;
ghost use Rattle.desk_call.specs.declared.control.ControlReply.TheVariants as control_reply;
ghost use Rattle.desk_call.specs.declared.control.NewControl.{NewControl};
ghost use Rattle.desk_call.specs.declared.control.PointInWindow.{PointInWindow};
ghost use Rattle.control_mgr.specs.ControlDesks.{ControlSlot, ControlsState, news_of_control};
ghost use Rattle.control_mgr.specs.ControlRefusals.{control_form_refusals, control_refusals};
ghost use Rattle.list_mgr.specs.ListDesks.{ListSlot, ListsState};
ghost use Rattle.list_mgr.specs.ListRefusals.{list_form_refusals, list_refusals};
ghost use Rattle.list_mgr.specs.WholeLists.{cell_size};
ghost use Rattle.desk_call.specs.declared.frame.FrameCall.{FrameCall};
ghost use Rattle.desk_call.specs.declared.list.ListCall.{ListCall};
ghost use Rattle.desk_call.specs.declared.list.ListCall.TheVariants as list_calls;
ghost use Rattle.desk_call.specs.declared.list.NewList.{NewList};
ghost use Rattle.desk_call.specs.declared.menu.MenuCall.{MenuCall};
ghost use Rattle.desk_call.specs.declared.menu.MenuCall.TheVariants as asks;
ghost use Rattle.desk_call.specs.declared.menu.NewMenu.{NewMenu};
ghost use Rattle.desk_call.specs.declared.outline.OutlineCall.{OutlineCall};
ghost use Rattle.desk_call.specs.declared.outline.OutlineCall.TheVariants.{EndDrag};
ghost use Rattle.desk_call.specs.declared.window.MoveWindow.{MoveWindow};
ghost use Rattle.desk_call.specs.declared.window.NewPicture.{NewPicture};
ghost use Rattle.desk_call.specs.declared.window.NewWindow.{NewWindow};
ghost use Rattle.desk_call.specs.declared.window.ScrollPicture.{ScrollPicture};
ghost use Rattle.desk_call.specs.declared.window.SendBehind.{SendBehind};
ghost use Rattle.desk_call.specs.declared.window.SizeWindow.{SizeWindow};
ghost use Rattle.desk_call.specs.declared.window.ZoomWindow.{ZoomWindow};
ghost use Rattle.window_mgr.specs.Refused.{is_missing, new_window_refusals, kind_refusals, form_refusals};
ghost use Rattle.window_mgr.specs.Refused.{draw_refusals, picture_refusals, scroll_refusals, behind_refusals};
ghost use Rattle.window_mgr.specs.Refused.{move_refusals, size_refusals, zoom_refusals};
ghost use Rattle.window_update.specs.UpdateRefusals.{area_refusals};
ghost use Rattle.window_frame.specs.FrameRefusals.{frame_refusals};
ghost use Rattle.window_outline.specs.OutlineRefusals.{outline_refusals};
ghost use Rattle.desk_call.specs.declared.activity.Activity.{Activity};
ghost use Rattle.menu_mgr.specs.MenuDesks.{MenuSlot, MenusState};
ghost use Rattle.menu_mgr.specs.MenuRefusals.{menu_form_refusals, menu_refusals};
ghost use Rattle.desk_laws.specs.Ordered.{AreInOrder};
ghost use Rattle.window_mgr.specs.Whole.{IsSoundDesk};
ghost use Rattle.event_queue.specs.History.{told_of, Alternates, is_told_active};
ghost use Rattle.desk_call.specs.declared.call.Call.{Call};
ghost use Rattle.desk_call.specs.declared.call.Call.TheVariants.{Control, Menu, Outline, Window};
ghost use Rattle.desk_call.specs.declared.call.Reply.TheVariants as reply;
ghost use Rattle.desk_call.specs.declared.window.WindowCall.TheVariants.{Find};
ghost use Rattle.desk_call.specs.declared.window.WindowReply.TheVariants as window_reply;
ghost use Rattle.desk_call.specs.declared.call.Reply.{Reply};
ghost use Rattle.window_update.specs.Served.{AreAllServed, IsAllRight};
ghost use Rattle.window_frame.specs.Followers.{AreInformed};
ghost use Rattle.desk_laws.specs.Headline.{IsDeskOf};
ghost use Rattle.desk_toolbox.specs.Activations.{activate_events_told, IsNeverDisposed};
ghost use Rattle.desk_toolbox.specs.Reached.{AreContentsRight, IsConsistent, IsJustBegun, news_by_record};
ghost use Rattle.desk_layers.specs.Desk.{on_screen};
ghost use Rattle.desk_toolbox.specs.Fronts.{IsScreenAllRight, IsScreenRight, found_on_screen, is_on_menu};
ghost use Rattle.desk_toolbox.specs.Fronts.{is_on_outline, pulled, screen_bit, screen_of, screen_owner, screen_scratch};
ghost use Rattle.desk_toolbox.specs.Fronts.{window_on_screen, with_outline};
ghost use Rattle.desk_toolbox.specs.Fronts.ScreenOwner.{PulledMenu, Base};
ghost use Rattle.desk_toolbox.specs.ToolboxStates.{ToolboxState, IsToolboxUnchanged};
ghost use Rattle.desk_toolbox.specs.Run.{IsRestKept, IsStep, IsRunOfCalls, controls_made, found_menu, lists_made, made, AreCounted, AreCountedAlong};

/// Painting the desk from nothing, back to front, gives each pixel the value of its owner.
#[tactic(auto, using(crate::proofs::Sayings::scratch_is_owners_on))]
pub fn scratch_is_owners()
    ensures { (desk : FullDesk) (p : Point) → IsDesk (layered_desk desk)
        → scratch (layered_desk desk) p ≡ own_bit (layered_desk desk) (owner (layered_desk desk) p) p }
{}

/// A refusal is the first of the written order whose condition holds.
#[tactic(auto, using(crate::proofs::Sayings::refusal_is_first))]
pub fn a_refusal_is_the_first_that_holds()
    ensures { (refusals : List (Bool × Refusal))
        → first_refusal refusals ≡ option_map (λ r. r.1) (find (λ r. r.0) refusals) }
{}

/// The reasons to refuse each call stand in the written order.
#[tactic(auto, using(crate::proofs::Ordering::frame_reasons_in_order, crate::proofs::Ordering::outline_reasons_in_order, crate::proofs::Ordering::control_reasons_in_order, crate::proofs::Ordering::list_reasons_in_order, crate::proofs::Ordering::menu_reasons_in_order))]
pub fn reasons_stand_in_the_written_order()
    ensures new_window { (w : NewWindow) (desk : FullDesk) → AreInOrder (new_window_refusals w desk) }
    ensures draw { (judged : Option Refusal) (window : Option WindowRecord) → AreInOrder (draw_refusals judged window) }
    ensures set_picture { (n : NewPicture) (desk : FullDesk) → AreInOrder (picture_refusals n desk) }
    ensures scroll { (m : ScrollPicture) (desk : FullDesk) → AreInOrder (scroll_refusals m desk) }
    ensures send_behind { (b : SendBehind) (desk : FullDesk) → AreInOrder (behind_refusals b desk) }
    ensures move_window { (m : MoveWindow) (desk : FullDesk) → AreInOrder (move_refusals m desk) }
    ensures size_window { (z : SizeWindow) (desk : FullDesk) → AreInOrder (size_refusals z desk) }
    ensures zoom_window { (z : ZoomWindow) (desk : FullDesk) → AreInOrder (zoom_refusals z desk) }
    ensures region { (missing long : Bool) → AreInOrder ((missing, NoSuchWindow) ∷ (long, TooLong) ∷ []) }
    ensures area { (judged : Option Refusal) (missing wrong : Bool)
        → AreInOrder (area_refusals judged missing ++ (wrong, StalePixels) ∷ []) }
    ensures frame { (call : FrameCall) (desk : FullDesk) → AreInOrder (frame_refusals call desk) }
    ensures outline { (call : OutlineCall) (activity : Activity) (desk : FullDesk)
        → AreInOrder (outline_refusals call activity desk) }
    ensures control { (call : ControlCall) (desk : FullDesk) (s : ControlsState)
        → AreInOrder (control_refusals call desk s) }
    ensures control_form { (n : NewControl) (slots : List ControlSlot) (busy missing : Bool)
        → AreInOrder (control_form_refusals (controls.New n) slots ++ (busy, Busy) ∷ (missing, NoSuchWindow) ∷ []) }
    ensures list { (call : ListCall) (desk : FullDesk) (c : ControlsState) (s : ListsState)
        → AreInOrder (list_refusals call desk c s) }
    ensures list_form { (n : NewList) (slots : List ListSlot) (bars : List ControlSlot) (busy missing : Bool)
        → AreInOrder (list_form_refusals (list_calls.New n) slots bars ++ (busy, Busy) ∷ (missing, NoSuchWindow) ∷ []) }
    ensures menu { (call : MenuCall) (menus : MenusState) → AreInOrder (menu_refusals call menus) }
    ensures menu_form { (n : NewMenu) (slots : List MenuSlot) (busy missing : Bool)
        → AreInOrder (menu_form_refusals (asks.New n) slots ++ (busy, Busy) ∷ (missing, NoSuchMenu) ∷ []) }
    ensures form { (judged : Option Refusal) (w : NewWindow) (desk : FullDesk) (busy missing : Bool)
        → AreInOrder (form_refusals judged ++ (busy, Busy) ∷ (missing, NoSuchWindow) ∷ [])
        × AreInOrder (kind_refusals w desk ++ (busy, Busy) ∷ (missing, NoSuchWindow) ∷ []) }
{}

/// So what is told comes, of all reasons that hold, first in that order.
#[tactic(auto, using(crate::proofs::Ordering::told_comes_first))]
pub fn what_is_told_comes_first_in_the_order()
    ensures { (reasons : List (Bool × Refusal)) (e : Refusal) → AreInOrder reasons → first_refusal reasons ≡ Some e
        → All (λ r. r.0 ≡ true → is_before e r.1 ≡ true) reasons }
{}

/// Whatever a call does, the stock has the same slots, for the same kinds: those of windows, of controls, of lists and of menus.
#[tactic(auto, using(desk_toolbox::proofs::Runs::step_keeps_kinds, desk_toolbox::proofs::ControlKinds::step_keeps_control_kinds, desk_toolbox::proofs::ListKinds::step_keeps_list_kinds, desk_toolbox::proofs::MenuKinds::step_keeps_menu_kinds))]
pub fn steps_keep_the_kinds()
    ensures windows { (call : Call) (answer : Result Reply Refusal) (before after : ToolboxState)
        → IsStep call answer before after
        → map (λ slot. slot.kind) after.desk.windows.desk.stock
        ≡ map (λ slot. slot.kind) before.desk.windows.desk.stock }
    ensures controls { (call : Call) (answer : Result Reply Refusal) (before after : ToolboxState)
        → IsStep call answer before after
        → map (λ slot. slot.kind) after.controls.stock ≡ map (λ slot. slot.kind) before.controls.stock }
    ensures lists { (call : Call) (answer : Result Reply Refusal) (before after : ToolboxState)
        → IsStep call answer before after
        → map (λ slot. slot.kind) after.lists.stock ≡ map (λ slot. slot.kind) before.lists.stock }
    ensures menus { (call : Call) (answer : Result Reply Refusal) (before after : ToolboxState)
        → IsStep call answer before after
        → map (λ slot. slot.kind) after.menus.stock ≡ map (λ slot. slot.kind) before.menus.stock }
{}

/// A step keeps a right state right, whose controls and lists are whole and shown, and these so.
#[tactic(auto, using(desk_toolbox::proofs::Runs::step_is_right, desk_toolbox::proofs::Runs::step_contents_are_right))]
pub fn steps_stay_right()
    ensures right { (call : Call) (answer : Result Reply Refusal) (before after : ToolboxState)
        → IsRightState before.desk.windows → AreContentsRight before → IsStep call answer before after
        → IsRightState after.desk.windows }
    ensures contents { (call : Call) (answer : Result Reply Refusal) (before after : ToolboxState)
        → IsRightState before.desk.windows → AreContentsRight before → IsStep call answer before after
        → AreContentsRight after }
{}

/// The windows that a run makes have serials that follow each other: none is used again.
#[tactic(auto, using(desk_toolbox::proofs::Runs::made_are_counted))]
pub fn windows_are_counted()
    ensures { (first last : ToolboxState) (calls : List Call) (answers : List (Result Reply Refusal))
        → IsRunOfCalls first calls answers last → AreCounted first.desk.windows.desk.next (made answers) }
{}

/// So have the controls that a run makes, in whichever windows, those among them that it makes as scroll bars of lists, whose
/// serials no call answers.
#[tactic(auto, using(crate::proofs::ControlNumbers::controls_are_counted))]
pub fn controls_are_counted()
    ensures { (first last : ToolboxState) (calls : List Call) (answers : List (Result Reply Refusal))
        → IsRunOfCalls first calls answers last → AreCountedAlong first.controls.next (controls_made calls answers) }
{}

/// So have the lists that a run makes.
#[tactic(auto, using(crate::proofs::ListNumbers::lists_are_counted))]
pub fn lists_are_counted()
    ensures { (first last : ToolboxState) (calls : List Call) (answers : List (Result Reply Refusal))
        → IsRunOfCalls first calls answers last → AreCounted first.lists.next (lists_made answers) }
{}

/// No run changes the sides of the screen, the rows of its menu bar, or the font.
#[tactic(auto, using(crate::proofs::KeptScreens::desk_stays))]
pub fn runs_keep_the_screen()
    ensures { (first last : ToolboxState) (calls : List Call) (answers : List (Result Reply Refusal))
        → IsRunOfCalls first calls answers last → (width height bar : ℤ) (font : List ℕ)
        → IsDeskOf width height bar font first → IsDeskOf width height bar font last }
{}

/// After any run from a right state each pixel of the screen in no update set has the value that
/// painting the desk from nothing gives, and the controls and lists are whole and shown.
#[tactic(auto, using(desk_toolbox::proofs::Runs::run_is_right, desk_toolbox::proofs::Runs::run_contents_are_right))]
pub fn runs_stay_right()
    ensures right { (first last : ToolboxState) (calls : List Call) (answers : List (Result Reply Refusal))
        → IsRightState first.desk.windows → AreContentsRight first → IsRunOfCalls first calls answers last
        → IsRightState last.desk.windows }
    ensures contents { (first last : ToolboxState) (calls : List Call) (answers : List (Result Reply Refusal))
        → IsRightState first.desk.windows → AreContentsRight first → IsRunOfCalls first calls answers last
        → AreContentsRight last }
{}

/// After any run from a right state that leaves no pixel in any window's update region, the whole screen shows what
/// painting the desk from nothing gives.
#[tactic(auto, using(desk_toolbox::proofs::Runs::served_run_is_all_right))]
pub fn runs_that_leave_every_update_served_are_all_right()
    ensures { (first last : ToolboxState) (calls : List Call) (answers : List (Result Reply Refusal))
        → IsRightState first.desk.windows → AreContentsRight first → IsRunOfCalls first calls answers last
        → AreAllServed last.desk.windows → IsAllRight last.desk.windows }
{}

/// In a right state the screen shows what painting the desk from nothing gives, the pulled menu or the outline last, at each
/// pixel in no update region, and at each that the pulled menu has.
#[tactic(auto, using(crate::proofs::FrontLaws::screen_is_right))]
pub fn the_screen_of_a_right_state_is_right()
    ensures { (s : ToolboxState) → IsRightState s.desk.windows → IsScreenRight s }
{}

/// After any run from a right state that leaves no pixel in any window's update region, the whole screen shows it.
#[tactic(auto, using(crate::proofs::FrontLaws::served_run_shows_all_right))]
pub fn runs_that_leave_every_update_served_show_a_right_screen()
    ensures { (first last : ToolboxState) (calls : List Call) (answers : List (Result Reply Refusal))
        → IsRightState first.desk.windows → AreContentsRight first → IsRunOfCalls first calls answers last
        → AreAllServed last.desk.windows → IsScreenAllRight last }
{}

/// Painting the desk from nothing, the pulled menu or the outline last, gives each pixel the value of its owner, inverted along
/// the outline where gray is black.
#[tactic(auto, using(crate::proofs::FrontLaws::screen_scratch_is_owners))]
pub fn screen_scratch_is_owners()
    ensures { (s : ToolboxState) (p : Point) → IsDesk (layered_desk s.desk.windows.desk)
        → screen_scratch s p ≡ with_outline s (λ q. screen_bit s (screen_owner s q) q) p }
{}

/// The pulled menu is in front of all: it owns each pixel of the screen that it has, which shows the menu, and elsewhere the
/// base image shows, with the outline, and what its owners own.
#[tactic(auto, using(crate::proofs::FrontLaws::menu_is_in_front, crate::proofs::FrontLaws::base_is_elsewhere))]
pub fn the_pulled_menu_is_in_front()
    ensures menu { (s : ToolboxState) (p : Point) → is_on_menu s p ≡ true
        → (screen_owner s p ≡ PulledMenu) × (screen_of s p ≡ screen_bit s PulledMenu p) }
    ensures base { (s : ToolboxState) (p : Point) → on_screen (layered_desk s.desk.windows.desk) p ≡ true
        → is_on_menu s p ≡ false
        → (screen_owner s p ≡ Base (owner (layered_desk s.desk.windows.desk) p))
        × (screen_of s p ≡ with_outline s s.desk.windows.image p) }
{}

/// The outline is in front of all: along it the base image shows inverted where gray is black, and else as it is, where no menu
/// is pulled down.
#[tactic(auto, using(crate::proofs::FrontLaws::outline_is_in_front, crate::proofs::FrontLaws::no_outline_is_elsewhere))]
pub fn the_outline_is_in_front()
    ensures outline { (s : ToolboxState) (p : Point) → is_on_outline s p ≡ true
        → screen_of s p ≡ xor_bit (pattern_bit gray p) (s.desk.windows.image p) }
    ensures base { (s : ToolboxState) (p : Point) → pulled s ≡ None → is_on_outline s p ≡ false
        → screen_of s p ≡ s.desk.windows.image p }
{}

/// A call about an outline, but for the end of a drag, changes nothing but what is open, and so the outline.
#[tactic(auto, using(crate::proofs::OutlineLaws::outlines_leave_the_desk))]
pub fn an_outline_leaves_the_desk_alone()
    ensures { (call : OutlineCall) (answer : Result Reply Refusal) (before after : ToolboxState)
        → ((p : Point) → call ≢ EndDrag p) → IsStep (Outline call) answer before after
        → IsUnchanged before.desk.windows after.desk.windows × IsRestKept before after }
{}

/// A call on menus leaves every update region, and of the base image all that the contents of windows show.
#[tactic(auto, using(crate::proofs::LeftByMenus::menus_leave_windows))]
pub fn calls_on_menus_leave_windows_alone()
    ensures { (call : MenuCall) (answer : Result Reply Refusal) (before after : ToolboxState)
        → IsRightState before.desk.windows
        → IsStep (Menu call) answer before after
        → (p : Point) → on_screen (layered_desk before.desk.windows.desk) p ≡ true
        → (after.desk.windows.stale p ≡ before.desk.windows.stale p)
        × (is_content (owner (layered_desk before.desk.windows.desk) p) ≡ true
        → after.desk.windows.image p ≡ before.desk.windows.image p) }
{}

/// FindWindow answers the menu bar, and no window, at each pixel that the pulled menu has.
#[tactic(auto, using(crate::proofs::FrontLaws::menu_is_found_as_bar))]
pub fn a_pulled_menu_is_found_as_the_menu_bar()
    ensures { (p : Point) (answer : Result Reply Refusal) (before after : ToolboxState)
        → is_on_menu before p ≡ true → IsStep (Window (Find p)) answer before after
        → (answer ≡ Ok (reply.Window found_menu)) × IsToolboxUnchanged before after }
{}

/// FindWindow, asked for a point within the range of coordinates, answers for the owner of the pixel of the screen there: the
/// window that owns it, with the part of it that its definition says, or the desktop or the menu bar, which the pulled menu
/// counts as. Off the screen it finds nothing.
#[tactic(auto, using(crate::proofs::FindWindowLaws::window_is_found_by_owner))]
pub fn a_window_is_found_by_the_owner_of_the_pixel()
    ensures { (p : Point) (answer : Result Reply Refusal) (before after : ToolboxState) → in_plane p ≡ true
        → IsStep (Window (Find p)) answer before after
        → answer ≡ Ok (reply.Window (window_reply.Found (window_on_screen before p))) }
{}

/// FindControl, asked for a point of a window of the desk within the range of coordinates, answers for the owner of the
/// pixel of the screen there, and changes nothing: a control of that window that is active, with the part of it that its
/// definition says. Where something else owns the pixel, the pulled menu too, it answers none.
#[tactic(auto, using(crate::proofs::FindLaws::control_is_found_by_owner))]
pub fn a_control_is_found_by_the_owner_of_the_pixel()
    ensures { (asked : PointInWindow) (answer : Result Reply Refusal) (before after : ToolboxState)
        → is_missing asked.window before.desk.windows.desk.windows ≡ false → in_plane asked.point ≡ true
        → IsStep (Control (controls.Find asked)) answer before after
        → (answer ≡ Ok (reply.Control (control_reply.Found (found_on_screen before asked))))
        × IsToolboxUnchanged before after }
{}

/// A desk that just began is consistent.
#[tactic(auto, using(crate::proofs::Consistent::just_begun_is_consistent))]
pub fn a_desk_that_just_began_is_consistent()
    ensures { (first : ToolboxState) → IsJustBegun first → IsConsistent first }
{}

/// A step keeps a desk consistent.
#[tactic(auto, using(crate::proofs::Consistent::step_keeps_consistent))]
pub fn steps_keep_a_desk_consistent()
    ensures { (call : Call) (answer : Result Reply Refusal) (before after : ToolboxState)
        → IsConsistent before → IsStep call answer before after → IsConsistent after }
{}

/// So does any run: each state that a desk reaches is consistent.
#[tactic(auto, using(crate::proofs::Consistent::run_keeps_consistent))]
pub fn runs_keep_a_desk_consistent()
    ensures { (first last : ToolboxState) (calls : List Call) (answers : List (Result Reply Refusal))
        → IsConsistent first → IsRunOfCalls first calls answers last → IsConsistent last }
{}

/// Where definitions know how their windows stand, each window of a sound desk is shown and hit by what its record says:
/// told all of it again, its definition would answer as it does.
#[tactic(auto, using(crate::proofs::Shown::desk_goes_by_records))]
pub fn windows_are_shown_by_their_records()
    ensures { (desk : FullDesk) → IsSoundDesk desk → AreInformed desk.windows
        → All (λ w. WindowGoesBy (news_by_record w) w.definition) desk.windows }
{}

/// So is each window of a state that a desk reaches.
#[tactic(auto, using(crate::proofs::Shown::windows_go_by_records))]
pub fn windows_of_a_reached_desk_are_shown_by_their_records()
    ensures { (s : ToolboxState) → IsConsistent s
        → All (λ w. WindowGoesBy (news_by_record w) w.definition) s.desk.windows.desk.windows }
{}

/// So is each control of such a state, by what its record says.
#[tactic(auto, using(crate::proofs::Shown::controls_go_by_records))]
pub fn controls_are_shown_by_their_records()
    ensures { (s : ToolboxState) → AreContentsRight s
        → All (λ c. ControlGoesBy (news_of_control c) c.kept.definition.definition) s.controls.controls }
{}

/// And each list: its definition goes by the size of its cells, and by its flag for empty ones.
#[tactic(auto, using(crate::proofs::Shown::lists_go_by_records))]
pub fn lists_are_shown_by_their_records()
    ensures { (s : ToolboxState) → AreContentsRight s
        → All (λ l. ListGoesBy (cell_size l.kept.view) (not l.kept.flags.no_nil_hilite) l.kept.definition.definition)
        s.lists.lists }
{}

/// Over any run of a desk that just began, the activate events that are told of one window are in turn an activation and a
/// deactivation, and the first is an activation.
#[tactic(auto, using(crate::proofs::Histories::told_events_of_runs_alternate))]
pub fn told_activate_events_alternate()
    ensures { (window : ℕ) (first last : ToolboxState) (calls : List Call) (answers : List (Result Reply Refusal))
        → IsJustBegun first → IsRunOfCalls first calls answers last
        → Alternates true (told_of window (activate_events_told calls answers)) }
{}

/// Over any such run, of the windows that were not disposed of at most one was told active, and not told since that it is so
/// no more.
#[tactic(auto, using(crate::proofs::Histories::at_most_one_told_in_runs))]
pub fn at_most_one_window_is_told_active()
    ensures { (v w : ℕ) (first last : ToolboxState) (calls : List Call) (answers : List (Result Reply Refusal))
        → IsJustBegun first → IsRunOfCalls first calls answers last
        → IsNeverDisposed v calls answers → IsNeverDisposed w calls answers
        → is_told_active v (activate_events_told calls answers) ≡ true
        → is_told_active w (activate_events_told calls answers) ≡ true → v ≡ w }
{}
