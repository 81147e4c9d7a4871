//! A window's record.

ghost use Rattle.std.specs.Prelude.{◌≡◌, ◌≤◌, true, length};
ghost use Rattle.window_list.specs.Lists.{dimmed, leads, relit};
ghost use Rattle.window_list.specs.Changes.{has_short_title, with_change};

use crate::Layers;
use arrayvec::ArrayVec;
use def_iface::{Size, TakenWindow, WindowChange};
use draw_port::Picture;
use tb_geom::Point;

/// A title: at most 255 bytes.
pub type Title = ArrayVec<u8, 255>;

/// The place and size that a zoomed window has when it is zoomed in again (the user state of a WStateData record:
/// *Inside Macintosh* IV, "The Window Manager").
#[derive(Clone, Copy)]
pub struct UserState {
    /// Where the content's 0 0 lies on the screen.
    pub place: Point,
    pub size: Size,
}

/// Where a window lies and how large it is, and whether it is zoomed.
#[derive(Clone, Copy)]
pub struct Placement {
    /// Where the content's 0 0 lies on the screen.
    pub place: Point,
    pub size: Size,
    /// What it has when it is zoomed in again, or None where it is not zoomed.
    pub user_state: Option<UserState>,
}

/// What a window's definition heard last of how the window stands, beside its size, its title and its go-away box.
#[derive(Clone, Copy)]
pub struct Heard {
    pub highlighted: bool,
    pub zoomed: bool,
    /// Whether its go-away box is tracked, with the point inside.
    pub tracked: bool,
}

/// A window's record. Whoever has it may read it; what lies in a list is changed by the list alone.
#[derive(Drop)]
pub struct Window {
    pub serial: u64,
    /// Where the content's 0 0 lies on the screen.
    pub place: Point,
    pub size: Size,
    /// What it has when it is zoomed in again, or None where it is not zoomed.
    pub user_state: Option<UserState>,
    pub shown: bool,
    /// Whether it floats in front of those that do not: so it was made, and so it stays.
    pub floating: bool,
    pub highlighted: bool,
    pub go_away: bool,
    pub title: Title,
    /// What its definition, told by the list alone, goes by.
    pub heard: Heard,
    pub picture: Picture,
    /// Where the picture's own 0 0 lies in the window.
    pub origin: Point,
    /// What lies in front of the picture in the window's content.
    pub layers: Layers,
    pub taken: TakenWindow,
}

impl Window {
    /// Whether it is visible and ordinary: only such a window becomes active.
    pub fn leads(&self) -> bool
        ensures { result ≡ leads self.now }
    {
        self.shown && !self.floating
    }

    /// Takes the highlighting away, if this is the active window.
    pub(crate) fn dim(&mut self, active: Option<u64>)
        ensures { self.new ≡ dimmed active self.old }
    {
        if active == Some(self.serial) {
            self.highlighted = false;
        }
    }

    /// Highlights the window if it is to be the active one, and not if it was.
    pub(crate) fn relight(&mut self, former: Option<u64>, active: Option<u64>)
        ensures { self.new ≡ relit former active self.old }
    {
        self.dim(former);
        if active == Some(self.serial) {
            self.highlighted = true;
        }
    }

    /// Keeps what the window's definition is told, the title, the highlighting and the go-away box as the window's own too.
    pub(crate) fn keep(&mut self, change: WindowChange<'_>)
        requires { has_short_title change ≡ true }
        ensures { self.new ≡ with_change change.entry self.old }
    {
        match change {
            WindowChange::Titled(title) => self.title = title_of(title),
            WindowChange::Highlighted(highlighted) => {
                self.highlighted = highlighted;
                self.heard.highlighted = highlighted;
            }
            WindowChange::Closable(go_away) => self.go_away = go_away,
            WindowChange::Zoomed(zoomed) => self.heard.zoomed = zoomed,
            WindowChange::Tracked(tracked) => self.heard.tracked = tracked,
            WindowChange::Resized(_) => {}
        }
    }
}

/// The title of these bytes.
fn title_of(bytes: &[u8]) -> Title
    requires { length bytes.now ≤ 255 }
    ensures { result ≡ record { items = bytes.now } }
{
    ArrayVec::try_from(bytes).unwrap()
}
