//! The rectangles of the tables, in the window's coordinates.
ghost use Rattle.std.specs.Prelude.{◌≡◌, true, pos, ◌-ℤ◌};
ghost use Rattle.def_iface.specs.Sizes.{is_size};
ghost use Rattle.looks.specs.Marks.{box};
ghost use Rattle.std_wdef.specs.Looks.{ring, document_box, shadow_box, size_box, title_bar};

use def_iface::Size;
use looks::{less, more, sides};
use tb_geom::Rect;

/// The pixels up to a distance from the content.
pub(crate) fn ring(k: u8, size: Size) -> Rect
    requires { is_size size ≡ true }
    ensures { result ≡ ring k size }
{
    sides(
        less(0, k),
        less(0, k),
        more(size.width, k),
        more(size.height, k),
    )
}

/// The structure of the document kinds.
pub(crate) fn document_box(size: Size) -> Rect
    requires { is_size size ≡ true }
    ensures { result ≡ document_box size }
{
    sides(-1, -19, more(size.width, 1), more(size.height, 1))
}

/// The box around the structure of a shadow window.
pub(crate) fn shadow_box(size: Size) -> Rect
    requires { is_size size ≡ true }
    ensures { result ≡ shadow_box size }
{
    sides(-1, -1, more(size.width, 3), more(size.height, 3))
}

/// The rectangle at the distances from the content's right and lower side.
pub(crate) fn from_corner(size: Size, left: u8, top: u8, right: u8, bottom: u8) -> Rect
    requires { is_size size ≡ true }
    ensures { result ≡ box (size.width -ℤ pos left) (size.height -ℤ pos top)
        (size.width -ℤ pos right) (size.height -ℤ pos bottom) }
{
    sides(
        less(size.width, left),
        less(size.height, top),
        less(size.width, right),
        less(size.height, bottom),
    )
}

/// The size box.
pub(crate) fn size_box(size: Size) -> Rect
    requires { is_size size ≡ true }
    ensures { result ≡ size_box size }
{
    sides(
        less(size.width, 15),
        less(size.height, 15),
        size.width,
        size.height,
    )
}

/// The first column of the size box.
pub(crate) fn size_box_left(size: Size) -> Rect
    requires { is_size size ≡ true }
    ensures { result ≡ box (size.width -ℤ pos 15) (size.height -ℤ pos 15) (size.width -ℤ pos 14) size.height }
{
    sides(
        less(size.width, 15),
        less(size.height, 15),
        less(size.width, 14),
        size.height,
    )
}

/// The first row of the size box.
pub(crate) fn size_box_top(size: Size) -> Rect
    requires { is_size size ≡ true }
    ensures { result ≡ box (size.width -ℤ pos 15) (size.height -ℤ pos 15) size.width (size.height -ℤ pos 14) }
{
    sides(
        less(size.width, 15),
        less(size.height, 15),
        size.width,
        less(size.height, 14),
    )
}

/// What the lines of the title bar are cut to.
pub(crate) fn title_bar(size: Size) -> Rect
    ensures { result ≡ title_bar size }
{
    sides(0, -18, size.width, -1)
}
