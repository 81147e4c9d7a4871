//! The lines of the outline that stands for a standard window while its size is chosen.
ghost use Rattle.std.specs.Prelude.{◌≡◌, true, pos};
ghost use Rattle.tb_geom.specs.Rects.{is_coordinate};
ghost use Rattle.def_iface.specs.Sizes.{is_size};
ghost use Rattle.def_iface.specs.Lines.{AreApart};
ghost use Rattle.std_wdef.specs.Lines.{back, size_box_column, left_of_column, right_of_column, size_box_lines, grow_lines};

use crate::areas::structure_box;
use crate::kind::Variation;
use def_iface::{NO_LINE, Size, frame_lines};
use looks::{less, sides};
use tb_geom::Rect;

/// The outermost pixels of the structure's box, and the lines of the size box where the kind has one.
pub(crate) fn grow_lines(variation: Variation, size: Size) -> [Rect; 8]
    requires { is_size size ≡ true }
    ensures value { result ≡ grow_lines variation size }
    ensures apart { AreApart result }
{
    let frame = frame_lines(structure_box(variation, size));
    if variation.has_size_box() {
        let corner = size_box_lines(size);
        [
            frame[0], frame[1], frame[2], frame[3], corner[0], corner[1], corner[2], corner[3],
        ]
    } else {
        frame
    }
}

/// The first column of the size box, from the top of the content down, and its first row from the left, in two pieces.
/// What lies before the content is left out.
fn size_box_lines(size: Size) -> [Rect; 4]
    requires { is_size size ≡ true }
    ensures { result ≡ size_box_lines size }
{
    [
        size_box_column(size),
        left_of_column(size),
        right_of_column(size),
        NO_LINE,
    ]
}

/// The column.
fn size_box_column(size: Size) -> Rect
    requires { is_size size ≡ true }
    ensures { result ≡ size_box_column size }
{
    sides(back(size.width, 15), 0, back(size.width, 14), size.height)
}

/// The row left of it.
fn left_of_column(size: Size) -> Rect
    requires { is_size size ≡ true }
    ensures { result ≡ left_of_column size }
{
    sides(
        0,
        back(size.height, 15),
        back(size.width, 15),
        back(size.height, 14),
    )
}

/// The row right of it.
fn right_of_column(size: Size) -> Rect
    requires { is_size size ≡ true }
    ensures { result ≡ right_of_column size }
{
    sides(
        back(size.width, 14),
        back(size.height, 15),
        size.width,
        back(size.height, 14),
    )
}

/// The number `far` before `end`, and not below 0.
fn back(end: i32, far: u8) -> i32
    requires { is_coordinate end ≡ true }
    ensures { result ≡ back end (pos far) }
{
    0.max(less(end, far))
}
