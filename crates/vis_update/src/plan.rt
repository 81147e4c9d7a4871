//! A call's touch on windows, the windows as they are to be, and the plan of what changes.
ghost use Rattle.std.specs.Prelude.{◌≡◌};
ghost use Rattle.vis_update.specs.Touches.{way_of, draws_whole};
ghost use Rattle.vis_update.specs.Seats.{IsSeatOf};
ghost use Rattle.vis_update.specs.Plans.{IsEmptyPart, areas_then};

use crate::Area;
use def_iface::{Size, TakenWindow};
use scan_region::Region;
use std::alloc::Global;
use tb_geom::Point;
use window_list::Window;

/// What is to be drawn of a window.
#[derive(Drop)]
pub struct Repaint {
    /// What of its content was not its own before, and becomes white.
    pub erase: Region,
    /// What of its frame is drawn.
    pub redraw: Region,
}

impl Repaint {
    /// The part of a window of which nothing is drawn.
    pub(crate) fn empty(alloc: Global) -> Repaint
        ensures { IsEmptyPart result }
    {
        Repaint {
            erase: Region::empty(alloc),
            redraw: Region::empty(alloc),
        }
    }
}

/// What a call does with the windows that it arranges.
#[derive(Clone, Copy)]
pub struct Touch {
    /// The window that the call is about.
    pub window: u64,
    /// How far its content moves, if it does.
    pub by: Option<Point>,
    /// Whether its frame is drawn whole, as that of a window which moves or gets another size has to be; else what it gains.
    pub whole: bool,
}

impl Touch {
    /// How far the content of the window of this serial moves.
    pub(crate) fn way_of(self, serial: u64) -> Option<Point>
        ensures { result ≡ way_of self serial }
    {
        if serial == self.window { self.by } else { None }
    }

    /// Whether the frame of the window of this serial is drawn whole.
    pub(crate) fn draws_whole(self, serial: u64) -> bool
        ensures { result ≡ draws_whole self serial }
    {
        serial == self.window && self.whole
    }
}

/// What a call changes on the screen, with all the memory that it needs.
#[derive(Drop)]
pub struct Plan {
    /// The areas of all windows after the call, from front to back; None where one is as it was.
    pub areas: Vec<Option<Area>>,
    /// What is to be drawn of each, in the same order.
    pub parts: Vec<Repaint>,
    /// The desktop after the call.
    pub desktop: Region,
    /// What of that was not the desktop's before.
    pub uncovered: Region,
    /// Where content arrives that moves.
    pub copied: Region,
}

/// Gives windows the areas that a plan has for them; the others keep theirs.
pub fn settle(areas: &mut Vec<Area>, planned: Vec<Option<Area>>)
    ensures { areas.new.items ≡ areas_then areas.old.items planned.items }
{
    let mut planned = planned;
    while let Some(area) = planned.pop() {
        let at = planned.len();
        if let Some(area) = area {
            if at < areas.len() {
                areas[at] = area;
            }
        }
    }
}

/// A window as it is to be, with the area that it had.
#[derive(Clone, Copy)]
pub struct Seat<'a> {
    pub serial: u64,
    pub place: Point,
    pub size: Size,
    pub shown: bool,
    /// Whether it floats in front of those that do not.
    pub floating: bool,
    pub taken: &'a TakenWindow,
    pub area: &'a Area,
}

/// The seat of a window, where it stays as it is.
pub fn seat_of<'a>(window: &'a Window, area: &'a Area) -> Seat<'a>
    ensures { IsSeatOf window.now area.now result }
{
    Seat {
        serial: window.serial,
        place: window.place,
        size: window.size,
        shown: window.shown,
        floating: window.floating,
        taken: &window.taken,
        area,
    }
}
