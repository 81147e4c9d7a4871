//! The lines of an outline on the screen.
ghost use Rattle.std.specs.Prelude.{◌≡◌, MatchResult, IfOk, true, false};
ghost use Rattle.tb_geom.specs.Rects.{is_in_range};
ghost use Rattle.def_iface.specs.Lines.{AreApart};
ghost use Rattle.window_outline.specs.OutlineRefusals.{AreLines};
ghost use Rattle.window_outline.specs.Outlining.{moved_line, moved_lines};

use def_iface::NO_LINE;
use tb_geom::{Point, Rect, Refusal};

/// Lines of no pixel.
pub(crate) const NO_LINES: [Rect; 8] = [NO_LINE; 8];

/// Lines local to a window, of which no two share a pixel, on the screen, where the window's own 0 0 lies at this place.
/// OutOfRange where one that has pixels leaves the range of coordinates.
pub(crate) fn moved_lines(lines: [Rect; 8], place: Point) -> Result<[Rect; 8], Refusal>
    requires { AreApart lines }
    ensures moved { AreLines (moved_lines place lines) result }
    ensures apart { IfOk result AreApart }
{
    let mut moved = NO_LINES;
    for at in 0..8usize {
        moved[at] = moved_line(lines[at], place)?;
    }
    Ok(moved)
}

/// A line local to a window, on the screen.
fn moved_line(line: Rect, place: Point) -> Result<Rect, Refusal>
    ensures { MatchResult result
        (λ moved. (moved ≡ moved_line place line) × (is_in_range (moved_line place line) ≡ true))
        (λ e. (is_in_range (moved_line place line) ≡ false) × (e ≡ Refusal.OutOfRange)) }
{
    if line.is_empty() {
        Ok(NO_LINE)
    } else {
        line.offset(place.h, place.v)
    }
}
