//! Whether a box and data are those of a set of pixels.
ghost use Rattle.std.specs.Prelude.{◌≡◌, ◌≤◌, ◌∷◌, [], ◌↔◌, List, length, IsTrue, false, pos, None};
ghost use Rattle.std.specs.List.{fold};
ghost use Rattle.region_bytes.specs.Points.{PointRow};
ghost use Rattle.region_bytes.specs.Words.{grown, box_words, words_in};
ghost use Rattle.region_bytes.specs.Scan.{points_in};
ghost use Rattle.region_bytes.specs.Text.{IsText, IsRectOfWords};

use crate::bounds::data_box;
use crate::closed::is_data;
use tb_geom::Rect;

const NOTHING: Rect = Rect {
    left: 0,
    top: 0,
    right: 0,
    bottom: 0,
};

/// Whether a box with no data after it is that of no pixel or of a rectangle.
fn is_box_alone(bounds: Rect) -> bool
    requires { IsRectOfWords bounds }
    ensures { IsTrue result ↔ ((rows : List PointRow) × IsText bounds [] rows) }
{
    bounds == NOTHING || !bounds.is_empty()
}

/// Whether the box of the points of data is this one.
fn is_box_of(after: &[u8], bounds: Rect) -> bool
    ensures { IsTrue result ↔ (box_words (fold grown None (points_in false (pos 0) (words_in after.now)))
        ≡ bounds.top ∷ bounds.left ∷ bounds.bottom ∷ bounds.right ∷ []) }
{
    data_box(after).unwrap_or(NOTHING) == bounds
}

/// Whether a box and the data after it are those of a set of pixels other than a rectangle. One word
/// would be the data of no pixel, and nine those of a rectangle.
fn is_long(bounds: Rect, after: &[u8]) -> bool
    requires { 2 ≤ length after.now }
    ensures { IsTrue result ↔ ((rows : List PointRow) × IsText bounds (words_in after.now) rows) }
{
    let words = after.len() / 2;
    words != 1 && (words != 9 && (is_data(after) && is_box_of(after, bounds)))
}

/// Whether a box and the data after it are those of a set of pixels, in range or not.
pub fn is_text(bounds: Rect, after: &[u8]) -> bool
    requires { IsRectOfWords bounds }
    ensures { IsTrue result ↔ ((rows : List PointRow) × IsText bounds (words_in after.now) rows) }
{
    if after.len() < 2 {
        is_box_alone(bounds)
    } else {
        is_long(bounds, after)
    }
}
