//! The rows of a menu.
ghost use Rattle.std.specs.Prelude.{◌≡◌, ◌≤◌, ◌<◌, true, pos, ◌-ℤ◌, ◌+ℤ◌, ◌≤ℤ◌, All, length};
ghost use Rattle.bit_blit.specs.Draws.{Draws};
ghost use Rattle.draw_port.specs.Canvases.{canvas_holds, canvas_point, SameFrame};
ghost use Rattle.def_iface.specs.MenuMeaning.{is_menu_size};
ghost use Rattle.looks.specs.Lettered.{has_short_text, lettered_value};
ghost use Rattle.std_mldef.specs.Rows as rows;

use crate::measures::menu_size;
use arrayvec::ArrayVec;
use def_iface::Size;
use draw_port::{Canvas, placed_within};
use looks::{Baseline, Label, Lettered, Step, draw_lettered, draw_look, sides};
use menu_record::{Menu, MenuItem};
use tb_geom::Rect;

/// Where a row lies in a menu.
#[derive(Clone, Copy)]
pub(crate) struct Row {
    /// That of the menu.
    pub width: i32,
    pub top: i32,
}

/// The row of the item at place `at`, from 0 on, of a menu of this size.
pub(crate) fn row_of(size: Size, at: u8) -> Row
    requires { is_menu_size size ≡ true }
    ensures value { result ≡ rows.row_of size at }
    ensures within { rows.is_row result ≡ true }
{
    Row {
        width: size.width,
        top: 16 * i32::from(at) + 1,
    }
}

/// All of a row.
fn row_box(row: Row) -> Rect
    requires { rows.is_row row ≡ true }
    ensures { result ≡ rows.row_box row }
{
    sides(0, row.top, row.width, row.top + 16)
}

/// What of it lies inside the frame.
pub(crate) fn inner_box(row: Row) -> Rect
    requires { rows.is_row row ≡ true }
    ensures { result ≡ rows.inner_box row }
{
    sides(1, row.top, row.width - 1, row.top + 16)
}

/// The column before one.
fn before(column: i32) -> i32
    requires { pos 0 ≤ℤ column }
    ensures { result ≡ column -ℤ pos 1 }
{
    column - 1
}

/// A pixel row of a row.
fn below(row: Row, by: u8) -> i32
    requires { rows.is_row row ≡ true }
    ensures { result ≡ row.top +ℤ pos by }
{
    row.top + i32::from(by)
}

/// The dividing line.
fn line_box(row: Row) -> Rect
    requires { rows.is_row row ≡ true }
    ensures { result ≡ rows.line_box row }
{
    sides(1, below(row, 8), before(row.width), below(row, 9))
}

/// A text, from a column on.
fn text_in(row: Row, column: i32) -> Step
    requires { rows.is_row row ≡ true }
    ensures { result ≡ rows.text_in row column }
{
    Step::text_at(row_box(row), column, Baseline::At(below(row, 12)))
}

/// The text of a key, near the right end.
fn key_in(row: Row) -> Step
    requires { rows.is_row row ≡ true }
    ensures { result ≡ rows.text_in row (row.width -ℤ pos 21) }
{
    text_in(row, row.width - 21)
}

/// A step with its text.
fn lettered(text: &[u8], step: Step) -> Lettered<'_>
    ensures { result ≡ rows.lettered text.entry.now step }
{
    Lettered {
        text: Label::new(text),
        step,
    }
}

/// The character of a mark, or none.
fn mark_text(mark: Option<u8>) -> ArrayVec<u8, 1>
    ensures { result.items ≡ rows.mark_text mark }
{
    match mark {
        Some(character) => ArrayVec::from([character]),
        None => ArrayVec::new(),
    }
}

/// The characters that show a key: ^ and the character, or none.
fn key_text(key: Option<u8>) -> ArrayVec<u8, 2>
    ensures { result.items ≡ rows.key_text key }
{
    match key {
        Some(character) => ArrayVec::from([b'^', character]),
        None => ArrayVec::new(),
    }
}

/// The texts of a row.
#[derive(Clone, Copy)]
struct Texts<'a> {
    mark: &'a [u8],
    text: &'a [u8],
    key: &'a [u8],
}

/// The steps of a row of these texts, or of a line across it.
fn row_steps(row: Row, line: bool, texts: Texts<'_>, bright: bool, lit: bool) -> [Lettered<'_>; 6]
    requires { rows.is_row row ≡ true }
    ensures { result ≡ rows.row_steps row line texts.entry.mark.now texts.entry.text.now texts.entry.key.now bright
        lit }
{
    [
        lettered(texts.mark, text_in(row, 3).when(!line)),
        lettered(texts.text, text_in(row, 15).when(!line)),
        lettered(texts.key, key_in(row).when(!line)),
        lettered(b"", Step::black_fill(line_box(row)).when(line)),
        lettered(b"", Step::grayed(inner_box(row)).when(!bright)),
        lettered(b"", Step::inverted(inner_box(row)).when(lit)),
    ]
}

/// Draws the row of an item over what stands there, where the canvas has pixels of it.
#[tactic(auto, unfolding(crate::specs::Rows::item_steps))]
pub(crate) fn draw_item(canvas: &mut Canvas<'_>, row: Row, item: &MenuItem, bright: bool, lit: bool)
    requires { rows.is_row row ≡ true }
    ensures same_map { canvas.new.map.ghost_name ≡ canvas.old.map.ghost_name }
    ensures same_frame { SameFrame canvas.old canvas.new }
    ensures drawn { Draws (canvas_holds canvas.old)
        (λ p d. lettered_value canvas.old.font.now (rows.item_steps row item.now bright lit) (canvas_point canvas.old p)
        d)
        canvas.old.map.now canvas.new.map.now }
{
    if placed_within(canvas.clip, row_box(row), canvas.origin).is_empty() {
        return;
    }
    let mark = mark_text(item.mark);
    let key = key_text(item.key);
    let texts = Texts {
        mark: mark.as_slice(),
        text: item.text.as_slice(),
        key: key.as_slice(),
    };
    let steps = row_steps(row, item.is_line(), texts, bright, lit);
    draw_lettered(canvas, &steps);
}

/// Whether the item at place `at`, from 0 on, is the highlighted one.
fn is_lit(lit: Option<u8>, at: u8) -> bool
    requires { at < 31 }
    ensures { result ≡ rows.is_lit lit at }
{
    match lit {
        Some(number) => number == at + 1,
        None => false,
    }
}

/// Draws the menu: each pixel of the canvas gets the value of the menu's picture.
#[tactic(auto, unfolding(crate::specs::Rows::menu_bit))]
pub(crate) fn draw_menu(canvas: &mut Canvas<'_>, menu: &Menu, lit: Option<u8>)
    ensures same_map { canvas.new.map.ghost_name ≡ canvas.old.map.ghost_name }
    ensures same_frame { SameFrame canvas.old canvas.new }
    ensures drawn { Draws (canvas_holds canvas.old)
        (λ p _. rows.menu_bit canvas.old.font.now lit menu.now (canvas_point canvas.old p))
        canvas.old.map.now canvas.new.map.now }
{
    let size = menu_size(canvas.font, menu);
    draw_look(canvas, &[Step::black_frame(menu_box(size))], b"");
    let items = menu.items.as_slice();
    for (at, item) in items.iter().enumerate() {
        let place = at as u8;
        draw_item(
            canvas,
            row_of(size, place),
            item,
            menu.is_bright(item),
            is_lit(lit, place),
        );
    }
}

/// The rectangle of a menu.
fn menu_box(size: Size) -> Rect
    ensures { result ≡ rows.menu_box size }
{
    sides(0, 0, size.width, size.height)
}
