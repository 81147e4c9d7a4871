//! What holds of text records and of the scrap in each state that a desk reaches.
ghost use Rattle.std.specs.Prelude.{◌≡◌, false, List, [], All, Result};
ghost use Rattle.tb_geom.specs.declared.refusal.Refusal.{Refusal};
ghost use Rattle.desk_call.specs.declared.call.Call.{Call};
ghost use Rattle.desk_call.specs.declared.call.Call.TheVariants.{Window};
ghost use Rattle.desk_call.specs.declared.call.Reply.{Reply};
ghost use Rattle.desk_call.specs.declared.text.TextCall.{TextCall};
ghost use Rattle.desk_call.specs.declared.window.WindowCall.{WindowCall};
ghost use Rattle.window_mgr.specs.FullDesk.{FullDesk};
ghost use Rattle.text_mgr.specs.TextDesks.{TextsState};
ghost use Rattle.text_mgr.specs.TextRefusals.{text_refusals};
ghost use Rattle.desk_toolbox.specs.Reached.{AreRecords, IsConsistent};
ghost use Rattle.desk_toolbox.specs.Run.{AreCounted, IsRunOfCalls, IsStep, texts_made};
ghost use Rattle.desk_toolbox.specs.ToolboxStates.{ToolboxState};
ghost use Rattle.desk_laws.specs.Ordered.{AreInOrder};
ghost use Rattle.desk_laws.specs.TextsAsked.{asks_for_text};

/// The reasons to refuse a call about text records stand in the written order.
#[tactic(auto, using(crate::proofs::TextLaws::text_reasons_in_order))]
pub fn text_reasons_stand_in_the_written_order()
    ensures { (call : TextCall) (desk : FullDesk) (s : TextsState) → AreInOrder (text_refusals call desk s) }
{}

/// The text records that a run makes, in whichever windows, have serials that follow each other: none is used again.
#[tactic(auto, using(crate::proofs::TextLaws::texts_are_counted))]
pub fn texts_are_counted()
    ensures { (first last : ToolboxState) (calls : List Call) (answers : List (Result Reply Refusal))
        → IsRunOfCalls first calls answers last → AreCounted first.texts.next (texts_made answers) }
{}

/// In each state that a desk reaches no selection reaches past its text, and no text and no scrap is too long.
pub fn text_records_are_records()
    ensures { (s : ToolboxState) → IsConsistent s → AreRecords s.texts }
{}

/// Where no call of a run asks for a text record, and there is none at first, there is none at the end. So a script that has no
/// such call is answered as before there were text records.
#[tactic(auto, using(crate::proofs::TextsAsked::texts_only_where_asked))]
pub fn text_records_are_there_only_where_asked()
    ensures { (first last : ToolboxState) (calls : List Call) (answers : List (Result Reply Refusal))
        → IsRunOfCalls first calls answers last → All (λ call. asks_for_text call ≡ false) calls
        → first.texts.texts ≡ [] → last.texts.texts ≡ [] }
{}

/// The scrap outlives windows: no call on windows changes it.
#[tactic(auto, using(crate::proofs::TextsAsked::scrap_stays))]
pub fn the_scrap_outlives_windows()
    ensures { (call : WindowCall) (answer : Result Reply Refusal) (before after : ToolboxState)
        → IsStep (Window call) answer before after → after.texts.scrap ≡ before.texts.scrap }
{}
