//! The words of the commands for the frame of a window.
ghost use Rattle.std.specs.Prelude.{◌≡◌};
ghost use Rattle.line_words.specs.Shapes.{reading};
ghost use Rattle.command_words.specs.FrameWords.{title_shape, hilite_shape, track_shape, frame_shape};

use desk_call::{FrameCall, GoAwayPoint, HiliteWindow, NewTitle};
use line_words::Words;
use tb_geom::Refusal;

/// The first word of a command for the frame of a window. It says which words follow.
#[derive(Clone, Copy)]
pub enum FrameVerb {
    SetTitle,
    Hilite,
    TrackGoAway,
    StepGoAway,
    EndGoAway,
}

impl FrameVerb {
    /// What is asked by the words that follow.
    #[tactic(auto, unfolding(crate::specs::FrameWords::frame_shape))]
    pub fn call<'a>(self, words: Words<'a>) -> Result<FrameCall<'a>, Refusal>
        ensures { result ≡ reading (frame_shape self) words.entry }
    {
        match self {
            FrameVerb::SetTitle => set_title(words),
            FrameVerb::Hilite => hilite(words),
            FrameVerb::TrackGoAway => track(words),
            FrameVerb::StepGoAway => Ok(FrameCall::StepGoAway(words.last_point()?)),
            FrameVerb::EndGoAway => Ok(FrameCall::EndGoAway(words.last_point()?)),
        }
    }
}

/// The words after `title`: a window, and its new title.
fn set_title<'a>(words: Words<'a>) -> Result<FrameCall<'a>, Refusal>
    ensures { result ≡ reading title_shape words.entry }
{
    let (window, words) = words.serial()?;
    let title = words.last_text()?;
    Ok(FrameCall::SetTitle(NewTitle { window, title }))
}

/// The words after `hilite`: a window, and whether it is to be highlighted.
fn hilite<'a>(words: Words<'a>) -> Result<FrameCall<'a>, Refusal>
    ensures { result ≡ reading hilite_shape words.entry }
{
    let (window, words) = words.serial()?;
    let highlighted = words.last_flag()?;
    Ok(FrameCall::Hilite(HiliteWindow {
        window,
        highlighted,
    }))
}

/// The words after `goaway`: a window, and the point of the screen at which the mouse button was pressed.
fn track<'a>(words: Words<'a>) -> Result<FrameCall<'a>, Refusal>
    ensures { result ≡ reading track_shape words.entry }
{
    let (window, words) = words.serial()?;
    let point = words.last_point()?;
    Ok(FrameCall::TrackGoAway(GoAwayPoint { window, point }))
}
