//! A window's layers changed, by whoever keeps its controls, lists and text records: planned, which asks for memory,
//! and then put in their place, which does not.
ghost use Rattle.std.specs.Prelude.{◌≡◌, ◌<◌, ℕ, slice_index_or, List, length, Option, IfOk, IfSome};
ghost use Rattle.tb_geom.specs.Points.{PixelSet};
ghost use Rattle.tb_geom.specs.Rects.{rect_holds};
ghost use Rattle.desk_layers.specs.declared.part.Part.{Part};
ghost use Rattle.def_iface.specs.WindowSlots.{WindowSlot};
ghost use Rattle.window_list.specs.declared.layer.Layer.{Layer};
ghost use Rattle.window_list.specs.Holders.{ArePartsApart};
ghost use Rattle.window_mgr.specs.DrawnWithin.{WritesPart};
ghost use Rattle.window_mgr.specs.Edits.{IsWindowAt};
ghost use Rattle.window_mgr.specs.Records.{state_showing};
ghost use Rattle.window_mgr.specs.Relayered.{IsPartAt, MayHaveLayers, IsGainedAt, IsPlanOfLayers, AreLayersSet};
ghost use Rattle.window_mgr.specs.Relayered.{AreLayersPut, HasUpdate, IsLayerDrawnWithin, IsLayerToggled};

use crate::{DeskWindows, WindowManager};
use bit_blit::fill;
use bit_map::{Mode, Pattern};
use def_iface::{Defined, TakenWindow};
use scan_region::Region;
use std::alloc::AllocError;
use tb_geom::{Point, Rect};
use vis_update::{Relaying, relaying_of};
use window_list::{Layers, Relaid};
use window_paint::{Showing, Toggling, invert_layer, paint_layer, show_layer};

impl WindowManager {
    /// What changes on the screen where the window at this index gets these layers, of which the one at the index `afresh`,
    /// if there is one, is to be drawn afresh. `update` is the window's update region then: the one that it has, or the one
    /// that an earlier plan leaves it, so that several changes can be planned before the first of them is made. It changes
    /// nothing.
    pub fn plan_layers(
        &self,
        at: usize,
        update: &Region,
        relaid: &Relaid,
        afresh: Option<usize>,
    ) -> Result<Relaying, AllocError>
        requires kept { ⟦<Self as DeskWindows>⟧.IsKept self.now }
        requires at { at < length self.now.windows.records.items }
        requires apart { ArePartsApart relaid.now.layers.layers }
        requires afresh { IfSome afresh (λ i. i < length relaid.now.layers.layers) }
        ensures { IfOk result (λ r. (u : _) → HasUpdate ⟦<TakenWindow as Defined>⟧.loan at update.now self.now u
            → MayHaveLayers at u relaid.now.layers
            → (part : Option Part) → IsPartAt relaid.now.layers.layers afresh part → IsGainedAt at part u relaid.now
            → IsPlanOfLayers ⟦<TakenWindow as Defined>⟧.loan at relaid.now.layers.layers part u r) }
    {
        let drawn = match afresh {
            Some(index) => Some(relaid.layers.owned(index)),
            None => None,
        };
        let visible = &self.area(at).visible;
        relaying_of(self.alloc, visible, update, &relaid.gained, drawn)
    }

    /// Draws the layer at this index of a window within a rectangle of the window, on the pixels that it owns and that are not to
    /// be redrawn, and writes no other pixel. Where the screen was right, and the layer shows outside of the rectangle what it
    /// showed, it is shown anew so. It takes no memory.
    pub fn show_layer<S: Showing>(&mut self, at: usize, index: usize, within: Rect, showing: &S)
        requires kept { ⟦<Self as DeskWindows>⟧.IsKept self.old }
        requires at { at < length self.old.windows.records.items }
        requires index { (w : _) → IsWindowAt self.old.windows.records.items at w → index < length w.layers.layers }
        requires whole { S.is_whole showing.now }
        ensures drawn { (w : _) → IsWindowAt self.old.windows.records.items at w
            → (l : Layer) → l ≡ slice_index_or w.layers.layers index l
            → (was : List ℕ → Part → PixelSet) (slots : List WindowSlot)
            → ⟦<Self as DeskWindows>⟧.IsWholeOver self.old slots
            → ⟦<Self as DeskWindows>⟧.IsWholeOver self.new slots
            × IsLayerDrawnWithin within w.serial l
            (state_showing was (⟦<Self as DeskWindows>⟧.state_over self.old slots))
            (state_showing (S.shows showing.now) (⟦<Self as DeskWindows>⟧.state_over self.new slots)) }
        ensures within { (w : _) → IsWindowAt self.old.windows.records.items at w
            → (l : Layer) → l ≡ slice_index_or w.layers.layers index l
            → WritesPart ⟦<TakenWindow as Defined>⟧.loan w.serial l.part w.place (rect_holds within) self.old self.new }
    {
        let area = &self.areas[at];
        show_layer(
            &mut self.screen,
            &area.visible,
            &area.update,
            self.windows.at(at),
            index,
            within,
            showing,
            &self.font,
        );
    }

    /// Inverts what the change of a list's selection does of the layer at this index of a window, on all visible pixels that the
    /// layer owns, also where they are to be redrawn. It takes no memory.
    pub fn toggle_layer<T: Toggling>(&mut self, at: usize, index: usize, toggling: &T)
        requires kept { ⟦<Self as DeskWindows>⟧.IsKept self.old }
        requires at { at < length self.old.windows.records.items }
        requires index { (w : _) → IsWindowAt self.old.windows.records.items at w → index < length w.layers.layers }
        requires ready { T.is_ready toggling.now }
        ensures { (w : _) → IsWindowAt self.old.windows.records.items at w
            → (l : Layer) → l ≡ slice_index_or w.layers.layers index l
            → (was is : List ℕ → Part → PixelSet) (slots : List WindowSlot)
            → ⟦<Self as DeskWindows>⟧.IsWholeOver self.old slots
            → ⟦<Self as DeskWindows>⟧.IsWholeOver self.new slots
            × IsLayerToggled w.serial w.place l.part (T.toggles toggling.now)
            (state_showing was (⟦<Self as DeskWindows>⟧.state_over self.old slots))
            (state_showing is (⟦<Self as DeskWindows>⟧.state_over self.new slots)) }
    {
        let area = &self.areas[at];
        invert_layer(
            &mut self.screen,
            &area.visible,
            self.windows.at(at),
            index,
            toggling,
            &self.font,
        );
    }

    /// Gives the window at this index these layers, as planned: what others gain becomes white and is to be redrawn, and the
    /// one at the index `afresh`, if there is one, is drawn afresh. It takes no memory.
    pub fn commit_layers<S: Showing>(
        &mut self,
        at: usize,
        layers: Layers,
        relaying: Relaying,
        afresh: Option<usize>,
        showing: &S,
    )
        requires kept { ⟦<Self as DeskWindows>⟧.IsKept self.old }
        requires at { at < length self.old.windows.records.items }
        requires may { MayHaveLayers at self.old layers }
        requires afresh { IfSome afresh (λ i. i < length layers.layers) }
        requires planned { (part : Option Part) → IsPartAt layers.layers afresh part
            → IsPlanOfLayers ⟦<TakenWindow as Defined>⟧.loan at layers.layers part self.old relaying }
        requires whole { S.is_whole showing.now }
        ensures put { AreLayersPut at layers relaying.update self.old self.new }
        ensures set { (w : _) → IsWindowAt self.old.windows.records.items at w
            → (part : Option Part) → IsPartAt layers.layers afresh part
            → (was : List ℕ → Part → PixelSet) (slots : List WindowSlot)
            → ⟦<Self as DeskWindows>⟧.IsWholeOver self.old slots
            → ⟦<Self as DeskWindows>⟧.IsWholeOver self.new slots
            × AreLayersSet w.serial layers.layers part
            (state_showing was (⟦<Self as DeskWindows>⟧.state_over self.old slots))
            (state_showing (S.shows showing.now) (⟦<Self as DeskWindows>⟧.state_over self.new slots)) }
    {
        self.windows.set_layers(at, layers);
        let origin = Point { h: 0, v: 0 };
        fill(
            &mut self.screen,
            &relaying.erase,
            origin,
            Pattern::WHITE,
            Mode::Copy,
        );
        if let Some(index) = afresh {
            paint_layer(
                &mut self.screen,
                &relaying.draw,
                self.windows.at(at),
                index,
                showing,
                &self.font,
            );
        }
        self.put_update(at, relaying.update);
    }
}
