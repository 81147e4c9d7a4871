//! Rectangles for tables, by their sides, and numbers near a side.
ghost use Rattle.std.specs.Prelude.{◌≡◌, true, nat_abs, pos, ◌-ℤ◌, ◌+ℤ◌, ◌≤ℤ◌};
ghost use Rattle.tb_geom.specs.Rects.{is_coordinate};
ghost use Rattle.looks.specs.Marks.{box};

use tb_geom::Rect;

/// A rectangle by its sides.
pub fn sides(left: i32, top: i32, right: i32, bottom: i32) -> Rect
    ensures { result ≡ box left top right bottom }
{
    Rect {
        left,
        top,
        right,
        bottom,
    }
}

/// The number `d` below `x`.
pub fn less(x: i32, d: u8) -> i32
    requires { is_coordinate x ≡ true }
    ensures { result ≡ x -ℤ pos d }
{
    x - i32::from(d)
}

/// The number `d` above `x`.
pub fn more(x: i32, d: u8) -> i32
    requires { is_coordinate x ≡ true }
    ensures { result ≡ x +ℤ pos d }
{
    x + i32::from(d)
}

/// The rectangle whose left and right side lie so far left of the column `end`, as of the right side of a content.
pub fn from_right(end: i32, left: u8, top: i32, right: u8, bottom: i32) -> Rect
    requires { is_coordinate end ≡ true }
    ensures { result ≡ box (end -ℤ pos left) top (end -ℤ pos right) bottom }
{
    sides(less(end, left), top, less(end, right), bottom)
}

/// A width as the count of columns that a text is centred in (`Step::black_text`).
pub fn columns(width: i32) -> u16
    requires low { pos 0 ≤ℤ width }
    requires high { width ≤ℤ pos 65535 }
    ensures { result ≡ nat_abs width }
{
    width as u16
}
