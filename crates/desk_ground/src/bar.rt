//! What a menu bar looks like, and which title a point is on.
ghost use Rattle.std.specs.Prelude.{◌≡◌, ◌≤◌, ◌≤ℤ◌, pos, int_lt, length, All, IfSome};
ghost use Rattle.bit_blit.specs.Draws.{Draws};
ghost use Rattle.draw_port.specs.Canvases.{canvas_holds, canvas_point, SameFrame};
ghost use Rattle.looks.specs.Lettered.{lettered_value, has_short_text};
ghost use Rattle.desk_ground.specs.Bars as bars;

use crate::{BarTitle, Titles};
use bit_map::BitMap;
use draw_port::{Canvas, Cut};
use looks::{Baseline, Label, Lettered, Step, draw_lettered, draw_look, sides};
use strike_font::Font;
use tb_geom::{Point, Rect};

/// The column in which the first title begins.
const FIRST_COLUMN: u32 = 10;

/// The columns that a title takes.
fn title_width(font: &Font, title: &BarTitle) -> u32
    ensures value { result ≡ bars.title_width font.now title.now }
    ensures small { result ≤ 65041 }
{
    font.width(title.text.as_slice()) + 16
}

/// The box of a title of so many columns that begins at a column.
fn title_box(left: u32, width: u32) -> Rect
    requires left { left ≤ 1100000 }
    requires width { width ≤ 65041 }
    ensures { result ≡ bars.title_box left width }
{
    sides(left as i32, 0, (left + width) as i32, 19)
}

/// A text from a column on.
fn text_in_bar(column: u32) -> Step
    requires { column ≤ 1200000 }
    ensures { result ≡ bars.text_in_bar column }
{
    Step::text_at(sides(0, 0, 1024, 20), column as i32, Baseline::At(14))
}

/// A step with its text.
fn lettered(text: &[u8], step: Step) -> Lettered<'_>
    ensures { result ≡ bars.lettered text.entry.now step }
{
    Lettered {
        text: Label::new(text),
        step,
    }
}

/// The steps of a title of so many columns that begins at a column.
fn title_steps<'a>(left: u32, width: u32, title: &'a BarTitle) -> [Lettered<'a>; 3]
    requires left { left ≤ 1100000 }
    requires width { width ≤ 65041 }
    ensures value { result ≡ bars.title_steps left width title.entry.now }
    ensures short { All has_short_text result }
{
    let area = title_box(left, width);
    [
        lettered(title.text.as_slice(), text_in_bar(left + 8)),
        lettered(b"", Step::grayed(area).when(!title.enabled)),
        lettered(b"", Step::inverted(area).when(title.highlighted)),
    ]
}

/// Draws a title that begins at a column over what stands there.
fn draw_title(canvas: &mut Canvas<'_>, left: u32, width: u32, title: &BarTitle)
    requires left { left ≤ 1100000 }
    requires width { width ≤ 65041 }
    ensures same_map { canvas.new.map.ghost_name ≡ canvas.old.map.ghost_name }
    ensures same_frame { SameFrame canvas.old canvas.new }
    ensures drawn { Draws (canvas_holds canvas.old)
        (λ p d. lettered_value canvas.old.font.now (bars.title_steps left width title.now) (canvas_point canvas.old p)
        d)
        canvas.old.map.now canvas.new.map.now }
{
    draw_lettered(canvas, &title_steps(left, width, title));
}

/// Draws the titles over what stands there.
fn draw_titles(canvas: &mut Canvas<'_>, titles: &[BarTitle])
    requires { length titles.now ≤ 16 }
    ensures same_map { canvas.new.map.ghost_name ≡ canvas.old.map.ghost_name }
    ensures same_frame { SameFrame canvas.old canvas.new }
    ensures drawn { Draws (canvas_holds canvas.old)
        (λ p d. bars.titles_value canvas.old.font.now 10 titles.now (canvas_point canvas.old p) d)
        canvas.old.map.now canvas.new.map.now }
{
    let mut left = FIRST_COLUMN;
    for title in titles {
        let width = title_width(canvas.font, title);
        draw_title(canvas, left, width, title);
        left += width;
    }
}

/// Draws the menu bar, which has the first `rows` rows of a screen, on them (DrawMenuBar of *Inside Macintosh*, The Menu
/// Manager). The screen is at most 1024 columns wide. Its other rows stay as they are.
pub fn draw_bar(map: &mut BitMap, rows: i32, font: &Font, titles: &Titles)
    requires { map.old.width ≤ 1024 }
    ensures { Draws (λ p. int_lt p.v rows) (λ p _. bars.bar_picture font.now titles.now p) map.old map.new }
{
    let cut = Cut {
        inside: [None, None, None],
        outside: None,
    };
    let mut canvas = Canvas {
        map,
        clip: sides(0, 0, 1024, rows),
        origin: Point { h: 0, v: 0 },
        cut: &cut,
        font,
    };
    draw_look(
        &mut canvas,
        &[Step::black_fill(sides(0, 19, 1024, 20))],
        b"",
    );
    draw_titles(&mut canvas, titles.as_slice());
}

/// The title that a point is on.
#[derive(Clone, Copy, Debug, PartialEq, Eq)]
pub struct TitleHit {
    /// The number of its menu.
    pub menu: u16,
    /// The first column of its box, of the screen.
    pub left: i32,
}

/// The title in whose box a point of the screen lies, if it lies in one. A box has the rows 0 to 18. So without a bar on the
/// screen this is not to be asked.
pub fn title_at(font: &Font, titles: &Titles, point: Point) -> Option<TitleHit>
    ensures value { result ≡ bars.title_at font.now 10 titles.now point }
    ensures near { IfSome result (λ hit. (pos 0 ≤ℤ hit.left) × (hit.left ≤ℤ pos 1100000)) }
{
    let mut left = FIRST_COLUMN;
    for title in titles.as_slice() {
        let width = title_width(font, title);
        if title_box(left, width).contains(point) {
            return Some(TitleHit {
                menu: title.menu,
                left: left as i32,
            });
        }
        left += width;
    }
    None
}
