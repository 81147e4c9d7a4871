//! What is asked about text records and the scrap.
ghost use Rattle.std.specs.Prelude.{◌≡◌, Ok, MatchResult};
ghost use Rattle.desk_call.specs.declared.text.TextCall.TheVariants as asks;
ghost use Rattle.window_mgr.specs.DeskStates.{Opened};
ghost use Rattle.text_mgr.specs.TextSteps.{IsBytes, IsTextStep};

use crate::judging::are_too_many;
use crate::telling::{info_of, line_told, offset_named, place_told};
use crate::{DeskTexts, Texts};
use desk_call::{PointInText, TextNumber, TextOf, TextReply};
use tb_geom::{BytesRef, Refusal};
use text_edits::copy;
use window_mgr::{DeskWindows, WindowManager};

impl Texts {
    /// Bytes, copied for an answer.
    fn told(&self, bytes: &[u8]) -> Result<TextReply, Refusal>
        ensures { MatchResult result (IsBytes bytes.now) (λ e. e ≡ Refusal.NoMemory) }
    {
        let mut told = Vec::new(self.alloc);
        told.extend_from_slice(bytes)?;
        Ok(TextReply::Bytes(told))
    }

    /// The text of a record.
    pub(crate) fn get(&self, windows: &WindowManager, text: TextOf) -> Result<TextReply, Refusal>
        requires { ⟦<WindowManager as DeskWindows>⟧.IsKept windows.now }
        ensures { (o : Opened) → ⟦<Self as DeskTexts>⟧.Leaves
            (IsTextStep (asks.Get text) result) windows.now o self.now windows.now o self.now }
    {
        let spot = self.spot(windows, text)?;
        self.told(self.list.items[spot.text].kept.bytes())
    }

    /// What is told of a text record.
    pub(crate) fn info(&self, windows: &WindowManager, text: TextOf) -> Result<TextReply, Refusal>
        requires { ⟦<WindowManager as DeskWindows>⟧.IsKept windows.now }
        ensures { (o : Opened) → ⟦<Self as DeskTexts>⟧.Leaves
            (IsTextStep (asks.Info text) result) windows.now o self.now windows.now o self.now }
    {
        let spot = self.spot(windows, text)?;
        Ok(info_of(&self.list.items[spot.text].kept))
    }

    /// Where a line of a text record begins and ends.
    pub(crate) fn line(
        &self,
        windows: &WindowManager,
        asked: TextNumber,
    ) -> Result<TextReply, Refusal>
        requires { ⟦<WindowManager as DeskWindows>⟧.IsKept windows.now }
        ensures { (o : Opened) → ⟦<Self as DeskTexts>⟧.Leaves
            (IsTextStep (asks.Line asked) result) windows.now o self.now windows.now o self.now }
    {
        let spot = self.spot(windows, asked.text)?;
        match line_told(&self.list.items[spot.text].kept, asked.number) {
            Some(told) => Ok(told),
            None => Err(Refusal::OutOfRange),
        }
    }

    /// The place of an offset of a text record.
    pub(crate) fn place_of(
        &self,
        windows: &WindowManager,
        asked: TextNumber,
    ) -> Result<TextReply, Refusal>
        requires { ⟦<WindowManager as DeskWindows>⟧.IsKept windows.now }
        ensures { (o : Opened) → ⟦<Self as DeskTexts>⟧.Leaves
            (IsTextStep (asks.PlaceOf asked) result) windows.now o self.now windows.now o self.now }
    {
        let spot = self.spot(windows, asked.text)?;
        match offset_named(asked.number) {
            Some(offset) => Ok(place_told(&self.list.items[spot.text].kept, offset)),
            None => Err(Refusal::OutOfRange),
        }
    }

    /// The offset at a point, in a text record.
    pub(crate) fn offset_at(
        &self,
        windows: &WindowManager,
        asked: PointInText,
    ) -> Result<TextReply, Refusal>
        requires { ⟦<WindowManager as DeskWindows>⟧.IsKept windows.now }
        ensures { (o : Opened) → ⟦<Self as DeskTexts>⟧.Leaves
            (IsTextStep (asks.OffsetAt asked) result) windows.now o self.now windows.now o self.now }
    {
        let spot = self.spot(windows, asked.text)?;
        if !asked.point.is_in_range() {
            return Err(Refusal::OutOfRange);
        }
        let offset = self.list.items[spot.text].kept.offset_at(asked.point);
        Ok(TextReply::Offset(offset as u16))
    }

    /// How wide bytes are in the font.
    pub(crate) fn width(
        &self,
        windows: &WindowManager,
        bytes: &BytesRef<'_>,
    ) -> Result<TextReply, Refusal>
        ensures { (o : Opened) → ⟦<Self as DeskTexts>⟧.Leaves
            (IsTextStep (asks.Width bytes.now) result) windows.now o self.now windows.now o self.now }
    {
        if are_too_many(bytes.as_slice()) {
            return Err(Refusal::TooLong);
        }
        let font = windows.parts().font;
        Ok(TextReply::Width(font.width(bytes.as_slice())))
    }

    /// How many rows the font reaches up and down, and how many lie between lines.
    pub(crate) fn font_info(&self, windows: &WindowManager) -> TextReply
        ensures { (o : Opened) → ⟦<Self as DeskTexts>⟧.Leaves
            (IsTextStep asks.FontInfo (Ok result)) windows.now o self.now windows.now o self.now }
    {
        let font = windows.parts().font;
        TextReply::Font(font.ascent(), font.descent(), font.leading())
    }

    /// The bytes of the scrap.
    pub(crate) fn scrap(&self, windows: &WindowManager) -> Result<TextReply, Refusal>
        ensures { (o : Opened) → ⟦<Self as DeskTexts>⟧.Leaves
            (IsTextStep asks.Scrap result) windows.now o self.now windows.now o self.now }
    {
        self.told(self.scrap.bytes())
    }

    /// Puts bytes into the scrap.
    pub(crate) fn set_scrap(
        &mut self,
        windows: &WindowManager,
        bytes: &BytesRef<'_>,
    ) -> Result<TextReply, Refusal>
        ensures { (o : Opened) → ⟦<Self as DeskTexts>⟧.Leaves
            (IsTextStep (asks.SetScrap bytes.now) result) windows.now o self.old windows.now o self.new }
    {
        if are_too_many(bytes.as_slice()) {
            return Err(Refusal::TooLong);
        }
        self.scrap.set(bytes.as_slice())?;
        Ok(TextReply::Done)
    }

    /// Puts the selection of a text record into the scrap.
    pub(crate) fn copy(
        &mut self,
        windows: &WindowManager,
        text: TextOf,
    ) -> Result<TextReply, Refusal>
        requires { ⟦<WindowManager as DeskWindows>⟧.IsKept windows.now }
        ensures { (o : Opened) → ⟦<Self as DeskTexts>⟧.Leaves
            (IsTextStep (asks.Copy text) result) windows.now o self.old windows.now o self.new }
    {
        let spot = self.spot(windows, text)?;
        copy(&self.list.items[spot.text].kept, &mut self.scrap)?;
        Ok(TextReply::Done)
    }
}
