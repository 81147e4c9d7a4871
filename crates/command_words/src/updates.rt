//! The words of the commands for what of a window is to be redrawn.
ghost use Rattle.std.specs.Prelude.{◌≡◌};
ghost use Rattle.line_words.specs.Shapes.{reading};
ghost use Rattle.command_words.specs.UpdateWords.{rect_area_shape, region_area_shape, layer_draw, update_shape};

use desk_call::{AreaRef, LayerDraw, LayerKind, UpdateCall, WindowArea};
use line_words::Words;
use tb_geom::Refusal;

/// The first word of a command for updates. It says which words follow.
#[derive(Clone, Copy)]
pub enum UpdateVerb {
    InvalidateRect,
    InvalidateRegion,
    ValidateRect,
    ValidateRegion,
    Begin,
    DrawPicture,
    DrawTexts,
    DrawLists,
    DrawControls,
    End,
    Serve,
}

impl UpdateVerb {
    /// What is asked by the words that follow.
    #[tactic(auto, unfolding(crate::specs::UpdateWords::update_shape))]
    pub fn call<'a>(self, words: Words<'a>) -> Result<UpdateCall<'a>, Refusal>
        ensures { result ≡ reading (update_shape self) words.entry }
    {
        match self {
            UpdateVerb::InvalidateRect => Ok(UpdateCall::Invalidate(rect_area(words)?)),
            UpdateVerb::InvalidateRegion => Ok(UpdateCall::Invalidate(region_area(words)?)),
            UpdateVerb::ValidateRect => Ok(UpdateCall::Validate(rect_area(words)?)),
            UpdateVerb::ValidateRegion => Ok(UpdateCall::Validate(region_area(words)?)),
            UpdateVerb::Begin => Ok(UpdateCall::Begin(words.last_serial()?)),
            UpdateVerb::DrawPicture => Ok(layer_draw(LayerKind::Picture, words.last_serial()?)),
            UpdateVerb::DrawTexts => Ok(layer_draw(LayerKind::Texts, words.last_serial()?)),
            UpdateVerb::DrawLists => Ok(layer_draw(LayerKind::Lists, words.last_serial()?)),
            UpdateVerb::DrawControls => Ok(layer_draw(LayerKind::Controls, words.last_serial()?)),
            UpdateVerb::End => Ok(UpdateCall::End(words.last_serial()?)),
            UpdateVerb::Serve => Ok(UpdateCall::Serve(words.last_serial()?)),
        }
    }
}

/// A window and a rectangle of it.
fn rect_area<'a>(words: Words<'a>) -> Result<WindowArea<'a>, Refusal>
    ensures { result ≡ reading rect_area_shape words.entry }
{
    let (window, words) = words.serial()?;
    let area = AreaRef::Rect(words.last_rect()?);
    Ok(WindowArea { window, area })
}

/// A window and the bytes of a region of it.
fn region_area<'a>(words: Words<'a>) -> Result<WindowArea<'a>, Refusal>
    ensures { result ≡ reading region_area_shape words.entry }
{
    let (window, words) = words.serial()?;
    let (bytes, words) = words.hex()?;
    words.end()?;
    let area = AreaRef::Region(bytes);
    Ok(WindowArea { window, area })
}

/// Some layers of a window are to be drawn.
fn layer_draw<'a>(layers: LayerKind, window: u64) -> UpdateCall<'a>
    ensures { result ≡ layer_draw layers window }
{
    UpdateCall::Draw(LayerDraw { window, layers })
}
