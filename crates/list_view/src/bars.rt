//! The scroll bars of a view.
ghost use Rattle.std.specs.Prelude.{◌≡◌, ◌≤◌};
ghost use Rattle.list_view.specs.Bars.{vertical_bar, horizontal_bar, vertical_setting, horizontal_setting};

use crate::view::ListView;
use control_values::ControlValues;
use tb_geom::Rect;

/// How wide a vertical scroll bar is, and how high a horizontal one.
const THICKNESS: i32 = 16;

impl ListView {
    /// Where the vertical scroll bar lies: at the view's right side, 16 wide and as high as the view. Its right side may lie
    /// outside -16384..=16383.
    pub fn vertical_bar(self) -> Rect
        ensures { result ≡ vertical_bar self }
    {
        let left = self.across().end();
        let down = self.down();
        Rect {
            left,
            top: down.start,
            right: left + THICKNESS,
            bottom: down.end(),
        }
    }

    /// Where the horizontal scroll bar lies: below the view, 16 high and as wide as the view. Its bottom side may lie outside
    /// -16384..=16383.
    pub fn horizontal_bar(self) -> Rect
        ensures { result ≡ horizontal_bar self }
    {
        let across = self.across();
        let top = self.down().end();
        Rect {
            left: across.start,
            top,
            right: across.end(),
            bottom: top + THICKNESS,
        }
    }

    /// The setting of the vertical scroll bar over so many rows: from 0 to how far the view can be scrolled down, and how far
    /// it is.
    pub fn vertical_values(self, rows: usize) -> ControlValues
        requires { rows ≤ 4096 }
        ensures { result ≡ vertical_setting rows self }
    {
        let bound = self.down().bound(rows);
        ControlValues::new(0, bound, self.first().row).unwrap()
    }

    /// The setting of the horizontal scroll bar over so many columns: from 0 to how far the view can be scrolled to the right,
    /// and how far it is.
    pub fn horizontal_values(self, columns: usize) -> ControlValues
        requires { columns ≤ 4096 }
        ensures { result ≡ horizontal_setting columns self }
    {
        let bound = self.across().bound(columns);
        ControlValues::new(0, bound, self.first().column).unwrap()
    }
}
