//! The sizes of what is drawn.
ghost use Rattle.std.specs.Prelude.{◌≡◌};
ghost use Rattle.def_iface.specs.ControlMeaning.{is_control_extent, is_control_size};

use def_iface::Size;
use std::alloc::{AllocError, Global};

/// The widths from the first to the last, of which a line of output tells.
#[derive(Clone, Copy)]
pub struct Widths {
    pub first: u8,
    pub last: u8,
}

/// The groups of widths.
pub const GROUPS: [Widths; 4] = [
    Widths { first: 1, last: 10 },
    Widths {
        first: 11,
        last: 20,
    },
    Widths {
        first: 21,
        last: 30,
    },
    Widths {
        first: 31,
        last: 40,
    },
];

/// The greatest height.
const HIGHEST: u8 = 40;

/// Whether a size is drawn: each is, or where just a few are, those whose sides have a sum that is a multiple of 7.
fn is_drawn(width: u8, height: u8, few: bool) -> bool {
    !few || (u16::from(width) + u16::from(height)) % 7 == 0
}

/// The sizes of these widths that are drawn, the narrower ones first, and of each width the lower ones.
pub fn sizes(alloc: Global, widths: Widths, few: bool) -> Result<Vec<Size>, AllocError> {
    let mut sizes = Vec::new(alloc);
    for width in widths.first..=widths.last {
        for height in 1..=HIGHEST {
            if is_drawn(width, height, few) {
                sizes.push(Size {
                    width: i32::from(width),
                    height: i32::from(height),
                })?;
            }
        }
    }
    Ok(sizes)
}

/// Whether a control or a cell may have this size: whether its sides lie in 1..=1024.
pub fn is_fitting_size(size: Size) -> bool
    ensures { result ≡ is_control_size size }
{
    is_extent(size.width) && is_extent(size.height)
}

fn is_extent(n: i32) -> bool
    ensures { result ≡ is_control_extent n }
{
    1 <= n && n <= 1024
}
