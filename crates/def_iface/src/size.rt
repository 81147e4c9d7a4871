//! Sizes: of windows, and of controls, lists and menus.
ghost use Rattle.std.specs.Prelude.{◌≡◌};
ghost use Rattle.def_iface.specs.Sizes.{is_extent, is_size, rect_of};

use tb_geom::Rect;

/// A size in pixels: of a window that of its content rectangle.
#[derive(Clone, Copy, Debug, PartialEq, Eq)]
pub struct Size {
    /// In columns.
    pub width: i32,
    /// In rows.
    pub height: i32,
}

impl Size {
    /// Whether the width and the height lie in 1..=16383.
    pub fn is_in_range(self) -> bool
        ensures { result ≡ is_size self }
    {
        is_extent(self.width) && is_extent(self.height)
    }

    /// The rectangle of this size at 0 0.
    pub fn rect(self) -> Rect
        ensures { result ≡ rect_of self }
    {
        Rect {
            left: 0,
            top: 0,
            right: self.width,
            bottom: self.height,
        }
    }
}

/// Whether `n` lies in 1..=16383.
fn is_extent(n: i32) -> bool
    ensures { result ≡ is_extent n }
{
    1 <= n && n <= 16383
}
