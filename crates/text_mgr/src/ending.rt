//! Text records that are disposed of.
ghost use Rattle.desk_call.specs.declared.text.TextCall.TheVariants as asks;
ghost use Rattle.window_mgr.specs.DeskStates.{Opened};
ghost use Rattle.text_mgr.specs.TextSteps.{IsTextStep};

use crate::{DeskTexts, Texts};
use desk_call::{TextOf, TextReply};
use desk_layers::Part;
use tb_geom::Refusal;
use window_mgr::{DeskWindows, WindowManager};

impl Texts {
    /// Ends a text record: what it owned belongs to what lies under it, and is to be redrawn.
    pub(crate) fn dispose(
        &mut self,
        windows: &mut WindowManager,
        text: TextOf,
    ) -> Result<TextReply, Refusal>
        requires kept { ⟦<WindowManager as DeskWindows>⟧.IsKept windows.old }
        requires beside { ⟦<Self as DeskTexts>⟧.AreBeside windows.old self.old }
        ensures { (o : Opened) → ⟦<Self as DeskTexts>⟧.Leaves
            (IsTextStep (asks.Dispose text) result) windows.old o self.old windows.new o self.new }
    {
        let spot = self.spot(windows, text)?;
        let layers = &windows.list().at(spot.window).layers;
        let layer = layers.find(Part::Text(text.text)).unwrap();
        let relaid = layers.without(self.alloc, layer)?;
        let update = &windows.area(spot.window).update;
        let relaying = windows.plan_layers(spot.window, update, &relaid, None)?;
        let _ended = self.list.remove(spot.text);
        windows.commit_layers(spot.window, relaid.layers, relaying, None, &*self);
        Ok(TextReply::Done)
    }
}
