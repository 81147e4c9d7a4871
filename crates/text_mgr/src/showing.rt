//! A text record that changed, drawn on the screen.
ghost use Rattle.std.specs.Prelude.{◌≡◌, ℕ, List, Some, IfSome, slice_get};
ghost use Rattle.tb_geom.specs.Points.{PixelSet};
ghost use Rattle.desk_layers.specs.declared.part.Part.{Part};
ghost use Rattle.def_iface.specs.WindowSlots.{WindowSlot};
ghost use Rattle.desk_call.specs.declared.text.TextOf.{TextOf as Named};
ghost use Rattle.text_record.specs.Texts.{Record};
ghost use Rattle.text_paint.specs.Selected.{is_toggled};
ghost use Rattle.window_list.specs.Holders.{layer_index};
ghost use Rattle.window_mgr.specs.Edits.{IsWindowAt};
ghost use Rattle.window_mgr.specs.Records.{state_showing};
ghost use Rattle.text_mgr.specs.Changing.{DrawsChanged, IsShownSo};
ghost use Rattle.text_mgr.specs.Showing.{IsDrawnAnew};
ghost use Rattle.text_mgr.specs.Spots.{IsSpot, IsSpotOf};
ghost use Rattle.text_mgr.specs.TextDesks.{KeptText};

use crate::changes::Change;
use crate::spots::TextAt;
use crate::{DeskTexts, Texts};
use def_iface::{Defined, TakenWindow};
use desk_layers::Part;
use draw_port::Canvas;
use tb_geom::Rect;
use text_paint::{Selection, toggle_selection};
use text_record::TextRecord;
use window_mgr::{DeskWindows, WindowManager};
use window_paint::{Showing, Toggling};

/// A text record, and the selection that it had.
#[derive(Drop)]
struct Reselected<'a> {
    record: &'a TextRecord,
    was: Selection,
}

impl<'a> Toggling for Reselected<'a> {
    ghost is_ready = { λ _. Unit {0} };

    ghost toggles = { λ t font. is_toggled t.was t.record.now };

    fn invert(&self, canvas: &mut Canvas<'_>) {
        toggle_selection(self.record, self.was, canvas);
    }
}

impl Texts {
    /// Where the layer of the text record that stands here lies in its window.
    fn layer(&self, windows: &WindowManager, spot: TextAt) -> usize
        requires beside { ⟦<Self as DeskTexts>⟧.AreBeside windows.now self.now }
        requires spot { IsSpot ⟦<TakenWindow as Defined>⟧.loan windows.now self.now spot }
        ensures { (x : KeptText) → slice_get self.now.list.items.items spot.text ≡ Some x
            → (w : _) → IsWindowAt windows.now.windows.records.items spot.window w
            → layer_index (Part.Text x.serial) w.layers.layers ≡ Some result }
    {
        let serial = self.list.items[spot.text].serial;
        let layers = &windows.list().at(spot.window).layers;
        layers.find(Part::Text(serial)).unwrap()
    }

    /// Draws what may show otherwise of the text record that stands here, where it is not to be redrawn. Takes no memory.
    pub(crate) fn show_change(&self, windows: &mut WindowManager, spot: TextAt, change: Change)
        requires kept { ⟦<WindowManager as DeskWindows>⟧.IsKept windows.old }
        requires beside { ⟦<Self as DeskTexts>⟧.AreBeside windows.old self.now }
        requires spot { IsSpot ⟦<TakenWindow as Defined>⟧.loan windows.old self.now spot }
        ensures { (t : Named) → IsSpotOf ⟦<TakenWindow as Defined>⟧.loan t windows.old self.now spot → (old : Record)
            → IfSome (slice_get self.now.list.items.items spot.text) (λ x. IsShownSo change windows.old.font old x.kept)
            → DrawsChanged ⟦<TakenWindow as Defined>⟧.loan t old windows.old windows.new self.now }
    {
        match change {
            Change::All => self.show_anew(windows, spot),
            Change::From(row) => self.show_from(windows, spot, row),
            Change::Selected(was) => self.show_selection(windows, spot, was),
        }
    }

    /// Draws the text record that stands here where it is not to be redrawn.
    fn show_anew(&self, windows: &mut WindowManager, spot: TextAt)
        requires kept { ⟦<WindowManager as DeskWindows>⟧.IsKept windows.old }
        requires beside { ⟦<Self as DeskTexts>⟧.AreBeside windows.old self.now }
        requires spot { IsSpot ⟦<TakenWindow as Defined>⟧.loan windows.old self.now spot }
        ensures { (t : Named) → IsSpotOf ⟦<TakenWindow as Defined>⟧.loan t windows.old self.now spot
            → (was : List ℕ → Part → PixelSet) (slots : List WindowSlot)
            → ⟦<WindowManager as DeskWindows>⟧.IsWholeOver windows.old slots
            → ⟦<WindowManager as DeskWindows>⟧.IsWholeOver windows.new slots
            × IsDrawnAnew t
            (state_showing was (⟦<WindowManager as DeskWindows>⟧.state_over windows.old slots))
            (state_showing (⟦<Self as Showing>⟧.shows self.now)
            (⟦<WindowManager as DeskWindows>⟧.state_over windows.new slots)) }
    {
        let bounds = self.list.items[spot.text].kept.bounds();
        let layer = self.layer(windows, spot);
        windows.show_layer(spot.window, layer, bounds, self);
    }

    /// Draws the text record that stands here from a row of its window on, where it is not to be redrawn. Above the row it shows
    /// what it showed.
    fn show_from(&self, windows: &mut WindowManager, spot: TextAt, row: i32)
        requires kept { ⟦<WindowManager as DeskWindows>⟧.IsKept windows.old }
        requires beside { ⟦<Self as DeskTexts>⟧.AreBeside windows.old self.now }
        requires spot { IsSpot ⟦<TakenWindow as Defined>⟧.loan windows.old self.now spot }
        ensures { (t : Named) → IsSpotOf ⟦<TakenWindow as Defined>⟧.loan t windows.old self.now spot → (old : Record)
            → IfSome (slice_get self.now.list.items.items spot.text)
            (λ x. IsShownSo (Change.From row) windows.old.font old x.kept)
            → DrawsChanged ⟦<TakenWindow as Defined>⟧.loan t old windows.old windows.new self.now }
    {
        let bounds = self.list.items[spot.text].kept.bounds();
        let layer = self.layer(windows, spot);
        let within = bounds.sect(Rect { top: row, ..bounds });
        windows.show_layer(spot.window, layer, within, self);
    }

    /// Inverts what shows otherwise of the selection of the text record that stands here. Where some of its window is to be
    /// redrawn, the record is drawn, so that no pixel there is written.
    pub(crate) fn show_selection(&self, windows: &mut WindowManager, spot: TextAt, was: Selection)
        requires kept { ⟦<WindowManager as DeskWindows>⟧.IsKept windows.old }
        requires beside { ⟦<Self as DeskTexts>⟧.AreBeside windows.old self.now }
        requires spot { IsSpot ⟦<TakenWindow as Defined>⟧.loan windows.old self.now spot }
        ensures { (t : Named) → IsSpotOf ⟦<TakenWindow as Defined>⟧.loan t windows.old self.now spot → (old : Record)
            → IfSome (slice_get self.now.list.items.items spot.text)
            (λ x. IsShownSo (Change.Selected was) windows.old.font old x.kept)
            → DrawsChanged ⟦<TakenWindow as Defined>⟧.loan t old windows.old windows.new self.now }
    {
        if !windows.area(spot.window).update.is_empty() {
            self.show_anew(windows, spot);
            return;
        }
        let record = &self.list.items[spot.text].kept;
        let layer = self.layer(windows, spot);
        windows.toggle_layer(spot.window, layer, &Reselected { record, was });
    }
}
