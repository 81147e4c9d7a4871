//! Scroll bars.
ghost use Rattle.std.specs.Prelude.{◌≡◌, true};
ghost use Rattle.def_iface.specs.ControlMeaning.{is_fitting_control};

use crate::checksum::Checksum;
use crate::controls::{Numbers, add_picture, begin};
use crate::tools::Tools;
use anyhow::Result;
use def_iface::{ControlDef, Size, Stage};
use std_cdef::StdScroll;
use tb_geom::{Point, Refusal};

/// Numbers of a scroll bar, in the order of their fields.
macro_rules! numbers {
    ($minimum:expr, $maximum:expr, $value:expr, $highlight:expr) => {
        Numbers {
            minimum: $minimum,
            maximum: $maximum,
            value: $value,
            highlight: $highlight,
        }
    };
}

/// The numbers of which a line tells: all kinds of ranges and values, and all highlights that show.
const NUMBERS: [Numbers; 14] = [
    numbers!(0, 100, 0, 0),
    numbers!(0, 100, 37, 0),
    numbers!(0, 100, 100, 0),
    numbers!(7, 7, 7, 0),
    numbers!(-300, -100, -211, 0),
    numbers!(-5, 3, 1, 0),
    numbers!(-32768, 32767, -32768, 0),
    numbers!(-32768, 32767, 12345, 0),
    numbers!(-32768, 32767, 32767, 0),
    numbers!(0, 100, 50, 20),
    numbers!(0, 100, 50, 21),
    numbers!(0, 100, 50, 129),
    numbers!(0, 100, 50, 255),
    numbers!(0, 0, 0, 21),
];

/// A length, and how many pixels it is across.
const SIDES: [(u16, u16); 15] = [
    (47, 1),
    (47, 16),
    (47, 40),
    (48, 1),
    (48, 16),
    (48, 48),
    (49, 16),
    (49, 40),
    (64, 16),
    (64, 64),
    (100, 1),
    (100, 16),
    (100, 40),
    (1024, 1),
    (1024, 16),
];

/// The length, how many pixels across, and whether it runs down, or else to the right.
#[derive(Clone, Copy)]
struct Bar {
    length: u16,
    across: u16,
    down: bool,
}

impl Bar {
    /// The point so far along the bar and across it.
    fn point(self, along: i32, across: i32) -> Point {
        if self.down {
            Point {
                h: across,
                v: along,
            }
        } else {
            Point {
                h: along,
                v: across,
            }
        }
    }

    fn size(self) -> Size {
        let corner = self.point(i32::from(self.length), i32::from(self.across));
        Size {
            width: corner.h,
            height: corner.v,
        }
    }
}

/// The checksums of a bar: of its pictures, of its parts, and of where dragged thumbs lead.
#[derive(Drop)]
struct Sums {
    look: Checksum,
    part: Checksum,
    drag: Checksum,
}

/// Adds the part codes, or 0, of all points along the bar and one past each end: beside it, on its first line and its last, and
/// beside it.
fn add_parts<C: ControlDef>(sum: &mut Checksum, control: &C, bar: Bar)
    requires live { (C.control_meaning control.now).stage ≡ Stage.Live }
    requires told { is_fitting_control (C.control_meaning control.now) (C.control_meaning control.now).size ≡ true }
{
    let wide = i32::from(bar.across);
    for across in [-1, 0, wide - 1, wide] {
        for along in -1..=i32::from(bar.length) {
            let number = match control.hit(bar.point(along, across)) {
                Some(part) => u32::from(part.number()),
                None => 0,
            };
            sum.add(number);
        }
    }
}

/// Where the thumb is dragged to from 60 60: with the column up to 60 columns to the left or to the right, and as many rows down
/// or up.
fn way_to(column: u8) -> Point {
    Point {
        h: i32::from(column),
        v: 120 - i32::from(column),
    }
}

/// Adds the values, and 32768, once the thumb was dragged each way.
fn add_drags<C: ControlDef>(sum: &mut Checksum, control: &C)
    requires live { (C.control_meaning control.now).stage ≡ Stage.Live }
    requires told { is_fitting_control (C.control_meaning control.now) (C.control_meaning control.now).size ≡ true }
{
    let from = Point { h: 60, v: 60 };
    for column in 0..121 {
        let to = way_to(column);
        let value = control.thumb_value(from, to);
        sum.add((i32::from(value) + 32768) as u32);
    }
}

/// Adds all that comes of a bar with these numbers.
fn add_bar(sums: &mut Sums, tools: Tools<'_>, bar: Bar, numbers: Numbers) -> Result<(), Refusal> {
    let mut scroll = StdScroll::new();
    begin(&mut scroll, bar.size(), b"Ag", numbers)?;
    add_picture(&mut sums.look, tools, &scroll, bar.size())?;
    add_parts(&mut sums.part, &scroll, bar);
    add_drags(&mut sums.drag, &scroll);
    Ok(())
}

/// The checksums of a bar with all of the numbers.
fn sums_of(tools: Tools<'_>, bar: Bar) -> Result<Sums, Refusal> {
    let mut sums = Sums {
        look: Checksum::new(),
        part: Checksum::new(),
        drag: Checksum::new(),
    };
    for numbers in NUMBERS {
        add_bar(&mut sums, tools, bar, numbers)?;
    }
    Ok(sums)
}

/// Prints three lines for each bar.
pub fn print(rt: &impl Print, tools: Tools<'_>) -> Result<()> {
    for (length, across) in SIDES {
        for down in [true, false] {
            let bar = Bar {
                length,
                across,
                down,
            };
            let Size { width, height } = bar.size();
            let sums = sums_of(tools, bar)?;
            println!(rt; "scroll {width} {height} look {}", sums.look.sum)?;
            println!(rt; "scroll {width} {height} part {}", sums.part.sum)?;
            println!(rt; "scroll {width} {height} drag {}", sums.drag.sum)?;
        }
    }
    Ok(())
}
