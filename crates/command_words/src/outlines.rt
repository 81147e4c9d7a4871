//! The words of the commands for the outline of a window that is dragged or grown.
ghost use Rattle.std.specs.Prelude.{◌≡◌};
ghost use Rattle.line_words.specs.Shapes.{reading};
ghost use Rattle.command_words.specs.OutlineWords.{drag_shape, grow_shape, outline_shape};

use def_iface::Size;
use desk_call::{DragWindow, GrowWindow, OutlineCall, SizeLimits};
use line_words::Words;
use tb_geom::Refusal;

/// The first word of a command for an outline. It says which words follow.
#[derive(Clone, Copy)]
pub enum OutlineVerb {
    Drag,
    StepDrag,
    EndDrag,
    Grow,
    StepGrow,
    EndGrow,
}

impl OutlineVerb {
    /// What is asked by the words that follow.
    #[tactic(auto, unfolding(crate::specs::OutlineWords::outline_shape))]
    pub fn call(self, words: Words<'_>) -> Result<OutlineCall, Refusal>
        ensures { result ≡ reading (outline_shape self) words.entry }
    {
        match self {
            OutlineVerb::Drag => drag(words),
            OutlineVerb::StepDrag => Ok(OutlineCall::StepDrag(words.last_point()?)),
            OutlineVerb::EndDrag => Ok(OutlineCall::EndDrag(words.last_point()?)),
            OutlineVerb::Grow => grow(words),
            OutlineVerb::StepGrow => Ok(OutlineCall::StepGrow(words.last_point()?)),
            OutlineVerb::EndGrow => Ok(OutlineCall::EndGrow(words.last_point()?)),
        }
    }
}

/// The words after `drag`: a window, and the point of the screen at which the mouse button was pressed.
fn drag(words: Words<'_>) -> Result<OutlineCall, Refusal>
    ensures { result ≡ reading drag_shape words.entry }
{
    let (window, words) = words.serial()?;
    let point = words.last_point()?;
    Ok(OutlineCall::Drag(DragWindow { window, point }))
}

/// The words after `grow`: a window, the point of the screen at which the mouse button was pressed, and between which sizes
/// the window can be grown.
fn grow(words: Words<'_>) -> Result<OutlineCall, Refusal>
    ensures { result ≡ reading grow_shape words.entry }
{
    let (window, words) = words.serial()?;
    let (point, words) = words.point()?;
    let (width, words) = words.number()?;
    let (height, words) = words.number()?;
    let least = Size { width, height };
    let (width, words) = words.number()?;
    let height = words.last_number()?;
    let most = Size { width, height };
    let limits = SizeLimits { least, most };
    Ok(OutlineCall::Grow(GrowWindow {
        window,
        point,
        limits,
    }))
}
