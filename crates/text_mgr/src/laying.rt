//! Where text records stand in their windows, and whether they are shown.
ghost use Rattle.std.specs.Prelude.{◌≡◌, ◌<◌, true, length, slice_get, IfOk, IfSome};
ghost use Rattle.tb_geom.specs.Rects.{is_in_range};
ghost use Rattle.desk_call.specs.declared.text.TextOf.{TextOf as Named};
ghost use Rattle.desk_call.specs.declared.text.TextCall.TheVariants as asks;
ghost use Rattle.text_record.specs.Placings.{IsPlacing, box_of, is_placing};
ghost use Rattle.window_mgr.specs.DeskStates.{Opened};
ghost use Rattle.text_mgr.specs.Laying.{IsBoxShape, IsLaidOrShort, IsLieOf, MayLie, laid, shown_call};
ghost use Rattle.text_mgr.specs.Spots.{IsSpot, IsSpotOf};
ghost use Rattle.text_mgr.specs.TextSteps.{IsTextStep};
ghost use Rattle.window_items.specs.Items.{edit_at, with_kept};

use crate::judging::{box_of, placing_at};
use crate::spots::TextAt;
use crate::{DeskTexts, Texts};
use def_iface::{Defined, TakenWindow};
use desk_call::{PlaceText, TextOf, TextReply};
use desk_layers::Part;
use scan_region::Region;
use std::alloc::{AllocError, Global};
use tb_geom::{Rect, Refusal};
use text_record::Placing;
use window_list::LayerShape;
use window_mgr::{DeskWindows, WindowManager};

/// How a text record is to lie in its window.
#[derive(Clone, Copy)]
pub(crate) struct Lie {
    pub placing: Placing,
    pub shown: bool,
}

/// The shape of a record with this box.
pub(crate) fn shape_of(alloc: Global, bounds: Rect, shown: bool) -> Result<LayerShape, AllocError>
    requires { is_in_range bounds ≡ true }
    ensures { IfOk result (IsBoxShape bounds shown) }
{
    let region = Region::from_rect_in_range(alloc, bounds)?;
    Ok(LayerShape {
        shown,
        region,
        bounds,
    })
}

impl Texts {
    /// How the text record at this index lies.
    fn lie(&self, at: usize) -> Lie
        requires { at < length self.now.list.items.items }
        ensures read { IfSome (slice_get self.now.list.items.items at) (IsLieOf result) }
        ensures numbers { IsPlacing result.placing.left result.placing.top result.placing.width result.placing.view }
    {
        let record = &self.list.items[at].kept;
        Lie {
            placing: record.placing(),
            shown: record.is_shown(),
        }
    }

    /// Notes that the text record at this index lies so.
    fn put_lie(&mut self, at: usize, lie: Lie)
        requires at { at < length self.old.list.items.items }
        requires may { IfSome (slice_get self.old.list.items.items at)
            (λ x. is_placing x.kept.framed lie.placing ≡ true) }
        ensures texts { self.new.list.items.items ≡ edit_at (with_kept (laid lie)) at self.old.list.items.items }
        ensures next { self.new.list.next ≡ self.old.list.next }
        ensures scrap { self.new.scrap ≡ self.old.scrap }
        ensures alloc { self.new.alloc ≡ self.old.alloc }
    {
        let record = self.list.at_mut(at);
        record.show(lie.shown);
        let _ = record.place(lie.placing);
    }

    /// Lays a text record so in its window, and draws all that it then owns.
    fn lay(
        &mut self,
        windows: &mut WindowManager,
        spot: TextAt,
        lie: Lie,
    ) -> Result<TextReply, Refusal>
        requires kept { ⟦<WindowManager as DeskWindows>⟧.IsKept windows.old }
        requires beside { ⟦<Self as DeskTexts>⟧.AreBeside windows.old self.old }
        requires spot { IsSpot ⟦<TakenWindow as Defined>⟧.loan windows.old self.old spot }
        requires may { MayLie windows.old self.old spot lie }
        ensures { (t : Named) → IsSpotOf ⟦<TakenWindow as Defined>⟧.loan t windows.old self.old spot
            → (o : Opened) → ⟦<Self as DeskTexts>⟧.Leaves
            (IsLaidOrShort t (laid lie) result) windows.old o self.old windows.new o self.new }
    {
        let text = &self.list.items[spot.text];
        let bounds = box_of(text.kept.is_framed(), lie.placing);
        let shape = shape_of(self.alloc, bounds, lie.shown)?;
        let layers = &windows.list().at(spot.window).layers;
        let layer = layers.find(Part::Text(text.serial)).unwrap();
        let relaid = layers.with_shape(self.alloc, layer, shape)?;
        let update = &windows.area(spot.window).update;
        let relaying = windows.plan_layers(spot.window, update, &relaid, Some(layer))?;
        self.put_lie(spot.text, lie);
        windows.commit_layers(spot.window, relaid.layers, relaying, Some(layer), &*self);
        Ok(TextReply::Done)
    }

    /// Shows a text record, or hides it.
    pub(crate) fn show(
        &mut self,
        windows: &mut WindowManager,
        text: TextOf,
        shown: bool,
    ) -> Result<TextReply, Refusal>
        requires kept { ⟦<WindowManager as DeskWindows>⟧.IsKept windows.old }
        requires beside { ⟦<Self as DeskTexts>⟧.AreBeside windows.old self.old }
        ensures { (o : Opened) → ⟦<Self as DeskTexts>⟧.Leaves
            (IsTextStep (shown_call shown text) result) windows.old o self.old windows.new o self.new }
    {
        let spot = self.spot(windows, text)?;
        let lie = Lie {
            shown,
            ..self.lie(spot.text)
        };
        self.lay(windows, spot, lie)
    }

    /// Gives a text record another destination and another view.
    pub(crate) fn place(
        &mut self,
        windows: &mut WindowManager,
        placed: PlaceText,
    ) -> Result<TextReply, Refusal>
        requires kept { ⟦<WindowManager as DeskWindows>⟧.IsKept windows.old }
        requires beside { ⟦<Self as DeskTexts>⟧.AreBeside windows.old self.old }
        ensures { (o : Opened) → ⟦<Self as DeskTexts>⟧.Leaves
            (IsTextStep (asks.Place placed) result) windows.old o self.old windows.new o self.new }
    {
        let spot = self.spot(windows, placed.text)?;
        let framed = self.list.items[spot.text].kept.is_framed();
        let window = windows.list().at(spot.window).place;
        let Some(placing) = placing_at(framed, placed.place, window) else {
            return Err(Refusal::OutOfRange);
        };
        let lie = Lie {
            placing,
            ..self.lie(spot.text)
        };
        self.lay(windows, spot, lie)
    }
}
