//! The desk of the model: its windows with their layers, which of them a pixel of the screen belongs to, and what it shows.

use def_iface::Size;
use desk_layers::Part;
use tb_geom::{Point, Rect};

/// The pixels of the screen, which has no menu bar.
pub const SCREEN: Rect = Rect {
    left: 0,
    top: 0,
    right: 24,
    bottom: 16,
};

/// No pixel.
pub const NOTHING: Rect = Rect {
    left: 0,
    top: 0,
    right: 0,
    bottom: 0,
};

/// The pixels in which a picture paints, in its own coordinates.
const PAINTED: Rect = Rect {
    left: 0,
    top: 0,
    right: 10,
    bottom: 10,
};

/// As many columns as the screen has.
pub const COLUMNS: i32 = 24;

/// Whose a pixel of the screen is.
#[derive(Clone, Copy, PartialEq, Eq)]
pub enum Owner {
    Desktop,
    Frame(u64),
    Content(u64, Part),
}

/// A layer of a window, in the window's own coordinates.
#[derive(Clone, Copy)]
pub struct PlainLayer {
    pub part: Part,
    /// Whether the window has it.
    pub there: bool,
    pub shown: bool,
    pub rect: Rect,
}

/// What a window's picture shows from its 0 0 on, over ten columns and rows; it is white elsewhere.
#[derive(Clone, Copy, PartialEq, Eq)]
pub enum Painting {
    White,
    /// Black diagonals, each fourth.
    Slanted,
    /// Squares of two columns and rows, black ones and white ones.
    Checked,
}

#[derive(Clone, Copy)]
pub struct PlainWindow {
    pub serial: u64,
    pub place: Point,
    pub size: Size,
    pub shown: bool,
    pub painting: Painting,
    /// Where the picture's 0 0 lies in the window.
    pub origin: Point,
    /// What was inverted in the picture, in its own coordinates.
    pub inverted: Rect,
    /// Those that it may have, from front to back.
    pub layers: [PlainLayer; 4],
}

/// The windows, from front to back.
#[derive(Clone, Copy)]
pub struct PlainDesk {
    pub windows: [PlainWindow; 2],
}

/// The point, as it is seen from another. No number here is so large that a difference or a sum of two is none.
pub fn seen_from(point: Point, from: Point) -> Point {
    Point {
        h: point.h.saturating_sub(from.h),
        v: point.v.saturating_sub(from.v),
    }
}

/// The point, moved so far.
pub fn moved(point: Point, by: Point) -> Point {
    Point {
        h: point.h.saturating_add(by.h),
        v: point.v.saturating_add(by.v),
    }
}

/// Whether a coordinate is even.
fn is_even(coordinate: i32) -> bool {
    coordinate.rem_euclid(2) == 0
}

/// A window's content with the frame around it, in the window's own coordinates.
fn box_of(window: &PlainWindow) -> Rect {
    Rect {
        left: -1,
        top: -1,
        right: window.size.width.saturating_add(1),
        bottom: window.size.height.saturating_add(1),
    }
}

/// A rectangle of a window's picture, on the screen.
pub fn moved_box(rect: Rect, window: &PlainWindow) -> Rect {
    let by = moved(window.place, window.origin);
    Rect {
        left: rect.left.saturating_add(by.h),
        top: rect.top.saturating_add(by.v),
        right: rect.right.saturating_add(by.h),
        bottom: rect.bottom.saturating_add(by.v),
    }
}

impl Painting {
    fn bit(self, point: Point) -> bool {
        if !PAINTED.contains(point) {
            return false;
        }
        match self {
            Painting::White => false,
            Painting::Slanted => point.h.saturating_sub(point.v).rem_euclid(4) == 0,
            Painting::Checked => is_even(point.h / 2) == is_even(point.v / 2),
        }
    }
}

impl PlainWindow {
    /// What of the window a pixel is, in its own coordinates, if it is the window's.
    fn owner(&self, point: Point) -> Option<Owner> {
        if !box_of(self).contains(point) {
            return None;
        }
        if !self.size.rect().contains(point) {
            return Some(Owner::Frame(self.serial));
        }
        for layer in self.layers {
            if layer.there && layer.shown && layer.rect.contains(point) {
                return Some(Owner::Content(self.serial, layer.part));
            }
        }
        Some(Owner::Content(self.serial, Part::Picture))
    }

    /// What its picture shows at a pixel, in the picture's coordinates.
    fn picture_bit(&self, point: Point) -> bool {
        self.painting.bit(point) != self.inverted.contains(point)
    }

    /// What this part of its content shows at a pixel, in its own coordinates.
    fn bit(&self, part: Part, point: Point) -> bool {
        match part {
            Part::Picture => self.picture_bit(seen_from(point, self.origin)),
            Part::Control(_) => is_even(point.h),
            Part::List(_) => is_even(point.v),
            Part::Text(_) => is_even(point.h) == is_even(point.v),
        }
    }
}

impl PlainDesk {
    /// Whose a pixel of the screen is.
    pub fn owner(&self, point: Point) -> Owner {
        for window in self.windows {
            if window.shown {
                if let Some(owner) = window.owner(seen_from(point, window.place)) {
                    return owner;
                }
            }
        }
        Owner::Desktop
    }

    /// What its owner shows at a pixel of the screen.
    pub fn bit(&self, owner: Owner, point: Point) -> bool {
        match owner {
            Owner::Desktop => is_even(point.h) == is_even(point.v),
            Owner::Frame(_) => true,
            Owner::Content(serial, part) => {
                for window in self.windows {
                    if window.serial == serial {
                        return window.bit(part, seen_from(point, window.place));
                    }
                }
                false
            }
        }
    }
}
