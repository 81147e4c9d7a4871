//! Where a menu lies that is pulled down, and how large it then is.
ghost use Rattle.std.specs.Prelude.{◌≡◌, ◌≤ℤ◌, ◌-ℤ◌, true, pos};
ghost use Rattle.def_iface.specs.MenuMeaning.{is_menu_size};
ghost use Rattle.overlay.specs.Places.{pulled_place, shown_size};
ghost use Rattle.overlay.specs.Overlays.{is_menu_place};

use def_iface::Size;
use menu_record::Menu;
use tb_geom::Point;

/// The column that no menu passes to the left.
const FIRST_COLUMN: i32 = 0;

/// The row below the menu bar.
const FIRST_ROW: i32 = 20;

/// Where the corner of a menu lies on a screen of this many columns, when it is pulled down from the title whose box begins
/// at the column `left`: below the menu bar, and at that column, or further left as far as its right edge would pass the
/// screen, though never before column 0.
pub fn pulled_place(width: i32, left: i32, size: Size) -> Point
    requires screen { (pos 0 ≤ℤ width) × (width ≤ℤ pos 1024) }
    requires title { (pos 0 ≤ℤ left) × (left ≤ℤ pos 1200000) }
    requires size { is_menu_size size ≡ true }
    ensures value { result ≡ pulled_place width left size }
    ensures place { is_menu_place result ≡ true }
{
    Point {
        h: pulled_column(width, left, size),
        v: FIRST_ROW,
    }
}

/// The column of the corner.
fn pulled_column(width: i32, left: i32, size: Size) -> i32
    requires screen { (pos 0 ≤ℤ width) × (width ≤ℤ pos 1024) }
    requires title { (pos 0 ≤ℤ left) × (left ≤ℤ pos 1200000) }
    requires size { is_menu_size size ≡ true }
    ensures value { result ≡ (pulled_place width left size).h }
    ensures near { (pos 0 ≤ℤ result) × (result ≤ℤ pos 1024) }
{
    let last = last_column(width, size);
    if left <= last {
        left
    } else if FIRST_COLUMN <= last {
        last
    } else {
        FIRST_COLUMN
    }
}

/// The column from which a menu of this size ends where the screen does.
fn last_column(width: i32, size: Size) -> i32
    requires screen { (pos 0 ≤ℤ width) × (width ≤ℤ pos 1024) }
    requires size { is_menu_size size ≡ true }
    ensures value { result ≡ width -ℤ size.width }
    ensures near { result ≤ℤ pos 1024 }
{
    width - size.width
}

/// How large a menu is where it is pulled down, whose definition says this size: one without items is nowhere.
pub fn shown_size(menu: &Menu, size: Size) -> Size
    requires { is_menu_size size ≡ true }
    ensures value { result ≡ shown_size menu.now size }
    ensures fits { is_menu_size result ≡ true }
{
    if menu.items.as_slice().is_empty() {
        return Size {
            width: 0,
            height: 0,
        };
    }
    size
}
