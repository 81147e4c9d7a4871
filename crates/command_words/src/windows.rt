//! The words of the commands for windows.
ghost use Rattle.std.specs.Prelude.{◌≡◌};
ghost use Rattle.line_words.specs.Shapes.{reading};
ghost use Rattle.command_words.specs.WindowWords.{new_shape, behind_shape, move_shape, size_shape, zoom_shape};
ghost use Rattle.command_words.specs.WindowWords.{show_hide_shape, scroll_shape, other_window, no_picture, window_shape};

use crate::asked::asked_region;
use crate::drawing::drawing;
use def_iface::Size;
use desk_call::{
    MoveWindow, NewPicture, NewWindow, PictureRef, ScrollPicture, SendBehind, ShowHide, SizeWindow,
    WindowCall, ZoomWindow,
};
use line_words::Words;
use tb_geom::{Point, Refusal};

/// The first word of a command for windows. It says which words follow.
#[derive(Clone, Copy)]
pub enum WindowVerb {
    New,
    Float,
    Close,
    Show,
    Hide,
    ShowHide,
    Select,
    BringToFront,
    SendBehind,
    Move,
    Size,
    Zoom,
    Clear,
    Draw,
    Scroll,
    Find,
    Front,
    Info,
    UpdateRegion,
    VisibleRegion,
    Region,
}

impl WindowVerb {
    /// What is asked by the words that follow, in a script of this version.
    #[tactic(auto, using(line_words::proofs::Mapped::reading_mapped), unfolding(crate::specs::WindowWords::window_shape))]
    pub fn call<'a>(self, version: i32, words: Words<'a>) -> Result<WindowCall<'a>, Refusal>
        ensures { result ≡ reading (window_shape version self) words.entry }
    {
        match self {
            WindowVerb::New => Ok(WindowCall::New(new_window(words)?)),
            WindowVerb::Float => Ok(WindowCall::NewFloating(new_window(words)?)),
            WindowVerb::Close => Ok(WindowCall::Dispose(words.last_serial()?)),
            WindowVerb::Show => Ok(WindowCall::Show(words.last_serial()?)),
            WindowVerb::Hide => Ok(WindowCall::Hide(words.last_serial()?)),
            WindowVerb::ShowHide => show_hide(words),
            WindowVerb::Select => Ok(WindowCall::Select(words.last_serial()?)),
            WindowVerb::BringToFront => Ok(WindowCall::BringToFront(words.last_serial()?)),
            WindowVerb::SendBehind => behind(words),
            WindowVerb::Move => move_to(words),
            WindowVerb::Size => resize(words),
            WindowVerb::Zoom => zoom(words),
            WindowVerb::Clear => Ok(WindowCall::SetPicture(no_picture(words.last_serial()?))),
            WindowVerb::Draw => Ok(WindowCall::Draw(drawing(version, words)?)),
            WindowVerb::Scroll => scroll(words),
            WindowVerb::Find => Ok(WindowCall::Find(words.last_point()?)),
            WindowVerb::Front => {
                words.end()?;
                Ok(WindowCall::Front)
            }
            WindowVerb::Info => Ok(WindowCall::Info(words.last_serial()?)),
            WindowVerb::UpdateRegion => Ok(WindowCall::UpdateRegion(words.last_serial()?)),
            WindowVerb::VisibleRegion => Ok(WindowCall::VisibleRegion(words.last_serial()?)),
            WindowVerb::Region => Ok(WindowCall::Region(asked_region(words)?)),
        }
    }
}

/// The words after `window` and after `float`: the kind, the place and size of the content on the screen, whether it is
/// shown, whether it has a go-away box, and the title.
fn new_window<'a>(words: Words<'a>) -> Result<NewWindow<'a>, Refusal>
    ensures { result ≡ reading new_shape words.entry }
{
    let (kind, words) = words.name()?;
    let (place, words) = words.point()?;
    let (width, words) = words.number()?;
    let (height, words) = words.number()?;
    let (shown, words) = words.flag()?;
    let (go_away, words) = words.flag()?;
    let (title, words) = words.text()?;
    words.end()?;
    let size = Size { width, height };
    Ok(NewWindow {
        kind,
        place,
        size,
        shown,
        go_away,
        title,
    })
}

/// The words after `showhide`: a window, and whether it is to be shown.
fn show_hide<'a>(words: Words<'a>) -> Result<WindowCall<'a>, Refusal>
    ensures { result ≡ reading show_hide_shape words.entry }
{
    let (window, words) = words.serial()?;
    let shown = words.last_flag()?;
    Ok(WindowCall::ShowHide(ShowHide { window, shown }))
}

/// The words after `behind`: a window, and the window that is to be in front of it.
fn behind<'a>(words: Words<'a>) -> Result<WindowCall<'a>, Refusal>
    ensures { result ≡ reading behind_shape words.entry }
{
    let (window, words) = words.serial()?;
    let other = words.last_number()?;
    let behind = other_window(other);
    Ok(WindowCall::SendBehind(SendBehind { window, behind }))
}

/// The number of the window that is to be in front: None for 0, behind all others. A number below 0
/// names no window, and not all of them.
fn other_window(window: i32) -> Option<u64>
    ensures { result ≡ other_window window }
{
    if window == 0 {
        None
    } else {
        Some(window.max(0) as u64)
    }
}

/// The words after `move`: a window, where its content is to lie on the screen, and whether the window
/// comes to the front.
fn move_to<'a>(words: Words<'a>) -> Result<WindowCall<'a>, Refusal>
    ensures { result ≡ reading move_shape words.entry }
{
    let (window, words) = words.serial()?;
    let (place, words) = words.point()?;
    let select = words.last_flag()?;
    Ok(WindowCall::Move(MoveWindow {
        window,
        place,
        select,
    }))
}

/// The words after `size`: a window, and the width and height of its content.
fn resize<'a>(words: Words<'a>) -> Result<WindowCall<'a>, Refusal>
    ensures { result ≡ reading size_shape words.entry }
{
    let (window, words) = words.serial()?;
    let (width, words) = words.number()?;
    let height = words.last_number()?;
    let size = Size { width, height };
    Ok(WindowCall::Size(SizeWindow { window, size }))
}

/// The words after `zoom`: a window, and the part of it that zooms.
fn zoom<'a>(words: Words<'a>) -> Result<WindowCall<'a>, Refusal>
    ensures { result ≡ reading zoom_shape words.entry }
{
    let (window, words) = words.serial()?;
    let part = words.last_number()?;
    Ok(WindowCall::Zoom(ZoomWindow { window, part }))
}

/// The picture of no operation for a window, its 0 0 in the content's.
fn no_picture<'a>(window: u64) -> NewPicture<'a>
    ensures { result ≡ no_picture window }
{
    NewPicture {
        window,
        picture: PictureRef::empty(),
        origin: Point { h: 0, v: 0 },
    }
}

/// The words after `scroll`: a window, and how far its picture moves to the right and down.
fn scroll<'a>(words: Words<'a>) -> Result<WindowCall<'a>, Refusal>
    ensures { result ≡ reading scroll_shape words.entry }
{
    let (window, words) = words.serial()?;
    let by = words.last_point()?;
    Ok(WindowCall::Scroll(ScrollPicture { window, by }))
}
