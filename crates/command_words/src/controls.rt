//! The words of the commands for controls.
ghost use Rattle.std.specs.Prelude.{◌≡◌};
ghost use Rattle.line_words.specs.Shapes.{reading};
ghost use Rattle.command_words.specs.ControlWords.{control_at, new_shape, alone_shape, move_shape, size_shape};
ghost use Rattle.command_words.specs.ControlWords.{number_shape, title_shape, find_shape, at_shape, control_shape};

use def_iface::Size;
use desk_call::{
    ControlCall, ControlNumber, ControlOf, ControlTitle, MoveControl, NewControl, PointAtControl,
    PointInWindow, SizeControl,
};
use line_words::Words;
use tb_geom::Refusal;

/// The first word of a command for controls. It says which words follow.
#[derive(Clone, Copy)]
pub enum ControlVerb {
    New,
    Dispose,
    Show,
    Hide,
    Move,
    Size,
    SetValue,
    SetMinimum,
    SetMaximum,
    Hilite,
    SetTitle,
    Get,
    Find,
    Test,
    Track,
    Step,
    End,
}

impl ControlVerb {
    /// What is asked by the words that follow.
    #[tactic(auto, using(line_words::proofs::Mapped::reading_mapped), unfolding(crate::specs::ControlWords::control_shape))]
    pub fn call<'a>(self, words: Words<'a>) -> Result<ControlCall<'a>, Refusal>
        ensures { result ≡ reading (control_shape self) words.entry }
    {
        match self {
            ControlVerb::New => new_control(words),
            ControlVerb::Dispose => Ok(ControlCall::Dispose(last_control(words)?)),
            ControlVerb::Show => Ok(ControlCall::Show(last_control(words)?)),
            ControlVerb::Hide => Ok(ControlCall::Hide(last_control(words)?)),
            ControlVerb::Move => move_to(words),
            ControlVerb::Size => resize(words),
            ControlVerb::SetValue => Ok(ControlCall::SetValue(number(words)?)),
            ControlVerb::SetMinimum => Ok(ControlCall::SetMinimum(number(words)?)),
            ControlVerb::SetMaximum => Ok(ControlCall::SetMaximum(number(words)?)),
            ControlVerb::Hilite => Ok(ControlCall::Hilite(number(words)?)),
            ControlVerb::SetTitle => set_title(words),
            ControlVerb::Get => Ok(ControlCall::Get(last_control(words)?)),
            ControlVerb::Find => find(words),
            ControlVerb::Test => Ok(ControlCall::Test(point_at(words)?)),
            ControlVerb::Track => Ok(ControlCall::Track(point_at(words)?)),
            ControlVerb::Step => Ok(ControlCall::Step(words.last_point()?)),
            ControlVerb::End => Ok(ControlCall::End(words.last_point()?)),
        }
    }
}

/// A control of a window, and the words after it.
fn control<'a>(words: Words<'a>) -> Result<(ControlOf, Words<'a>), Refusal>
    ensures { result ≡ control_at words.entry }
{
    let (window, words) = words.serial()?;
    let (control, words) = words.serial()?;
    Ok((ControlOf { window, control }, words))
}

/// A control of a window, and nothing after it.
fn last_control(words: Words<'_>) -> Result<ControlOf, Refusal>
    ensures { result ≡ reading alone_shape words.entry }
{
    let (control, rest) = control(words)?;
    rest.end()?;
    Ok(control)
}

/// The words after `control`: a window, the kind, the place and the size in it, whether it is shown, the minimum, the maximum
/// and the value, and the title.
fn new_control<'a>(words: Words<'a>) -> Result<ControlCall<'a>, Refusal>
    ensures { result ≡ reading new_shape words.entry }
{
    let (window, words) = words.serial()?;
    let (kind, words) = words.name()?;
    let (place, words) = words.point()?;
    let (width, words) = words.number()?;
    let (height, words) = words.number()?;
    let (shown, words) = words.flag()?;
    let (minimum, words) = words.number()?;
    let (maximum, words) = words.number()?;
    let (value, words) = words.number()?;
    let (title, words) = words.text()?;
    words.end()?;
    let size = Size { width, height };
    Ok(ControlCall::New(NewControl {
        window,
        kind,
        place,
        size,
        shown,
        minimum,
        maximum,
        value,
        title,
    }))
}

/// The words after `cmove`: a control, and where it is to lie in its window.
fn move_to<'a>(words: Words<'a>) -> Result<ControlCall<'a>, Refusal>
    ensures { result ≡ reading move_shape words.entry }
{
    let (control, words) = control(words)?;
    let place = words.last_point()?;
    Ok(ControlCall::Move(MoveControl { control, place }))
}

/// The words after `csize`: a control, and its width and height.
fn resize<'a>(words: Words<'a>) -> Result<ControlCall<'a>, Refusal>
    ensures { result ≡ reading size_shape words.entry }
{
    let (control, words) = control(words)?;
    let (width, words) = words.number()?;
    let height = words.last_number()?;
    let size = Size { width, height };
    Ok(ControlCall::Size(SizeControl { control, size }))
}

/// A control, and a number that it is to have.
fn number(words: Words<'_>) -> Result<ControlNumber, Refusal>
    ensures { result ≡ reading number_shape words.entry }
{
    let (control, words) = control(words)?;
    let number = words.last_number()?;
    Ok(ControlNumber { control, number })
}

/// The words after `ctitle`: a control, and its new title.
fn set_title<'a>(words: Words<'a>) -> Result<ControlCall<'a>, Refusal>
    ensures { result ≡ reading title_shape words.entry }
{
    let (control, words) = control(words)?;
    let title = words.last_text()?;
    Ok(ControlCall::SetTitle(ControlTitle { control, title }))
}

/// The words after `findc`: a window, and a point of it.
fn find<'a>(words: Words<'a>) -> Result<ControlCall<'a>, Refusal>
    ensures { result ≡ reading find_shape words.entry }
{
    let (window, words) = words.serial()?;
    let point = words.last_point()?;
    Ok(ControlCall::Find(PointInWindow { window, point }))
}

/// A control, and a point of its window at which it is asked for.
fn point_at(words: Words<'_>) -> Result<PointAtControl, Refusal>
    ensures { result ≡ reading at_shape words.entry }
{
    let (control, words) = control(words)?;
    let point = words.last_point()?;
    Ok(PointAtControl { control, point })
}
