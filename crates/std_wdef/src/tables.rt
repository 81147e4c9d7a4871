//! The looks of the standard windows, as tables.
ghost use Rattle.std.specs.Prelude.{◌≡◌, true, length};
ghost use Rattle.tb_geom.specs.Rects.{is_coordinate};
ghost use Rattle.def_iface.specs.Sizes.{is_size};
ghost use Rattle.std_wdef.specs.Looks.{plain_look, shadow_look, dialog_look, bar_lines, go_away_line, zoom_line, title_line};
ghost use Rattle.std_wdef.specs.Looks.{size_line, document_look, in_title_bar, in_content, stripe};

use crate::kind::{Shown, Variation};
use crate::rects::{
    document_box, from_corner, ring, shadow_box, size_box, size_box_left, size_box_top, title_bar,
};
use def_iface::{Flags, Size};
use looks::{Look, Plate, Step, columns, from_right, less, more, sides};

/// A plain window: its frame.
pub(crate) fn plain_look(size: Size) -> [Step; 2]
    requires { is_size size ≡ true }
    ensures { result ≡ plain_look size }
{
    [
        Step::black_fill(ring(1, size)),
        Step::white_fill(size.rect()),
    ]
}

/// A shadow window: its frame and its shadow.
pub(crate) fn shadow_look(size: Size) -> [Step; 1]
    requires { is_size size ≡ true }
    ensures { result ≡ shadow_look size }
{
    [Step::black_fill(shadow_box(size))]
}

/// A dialog window: rings around the content.
pub(crate) fn dialog_look(size: Size) -> [Step; 4]
    requires { is_size size ≡ true }
    ensures { result ≡ dialog_look size }
{
    [
        Step::black_fill(ring(8, size)),
        Step::white_fill(ring(7, size)),
        Step::black_fill(ring(5, size)),
        Step::white_fill(ring(3, size)),
    ]
}

/// The step, cut to the title bar.
fn in_title_bar(size: Size, step: Step) -> Step
    ensures { result ≡ in_title_bar size step }
{
    step.cut_to(title_bar(size))
}

/// The step, cut to the content rectangle.
fn in_content(size: Size, step: Step) -> Step
    ensures { result ≡ in_content size step }
{
    step.cut_to(size.rect())
}

/// A row of the title bar.
fn stripe(row: i32, flags: Flags, size: Size) -> Step
    requires row { is_coordinate row ≡ true }
    requires size { is_size size ≡ true }
    ensures { result ≡ stripe row flags size }
{
    let rect = sides(1, row, less(size.width, 1), more(row, 1));
    in_title_bar(size, Step::black_fill(rect).when(flags.highlighted))
}

/// The structure, its frame, the row under the title bar, and the stripes.
fn bar_lines(flags: Flags, size: Size) -> [Step; 9]
    requires { is_size size ≡ true }
    ensures { result ≡ bar_lines flags size }
{
    [
        Step::white_fill(document_box(size)),
        Step::black_frame(document_box(size)),
        Step::black_fill(sides(-1, -1, more(size.width, 1), 0)),
        stripe(-15, flags, size),
        stripe(-13, flags, size),
        stripe(-11, flags, size),
        stripe(-9, flags, size),
        stripe(-7, flags, size),
        stripe(-5, flags, size),
    ]
}

/// The go-away box.
fn go_away_line(variation: Variation, flags: Flags, size: Size) -> [Step; 3]
    requires { is_size size ≡ true }
    ensures { result ≡ go_away_line variation flags size }
{
    let closes = variation.closes(flags);
    let tracks = variation.tracks(flags);
    [
        in_title_bar(size, Step::white_fill(sides(7, -16, 20, -4)).when(closes)),
        in_title_bar(size, Step::black_frame(sides(8, -16, 19, -5)).when(closes)),
        in_title_bar(size, Step::black_fill(sides(9, -15, 18, -6)).when(tracks)),
    ]
}

/// The zoom box.
fn zoom_line(variation: Variation, flags: Flags, size: Size) -> [Step; 3]
    requires { is_size size ≡ true }
    ensures { result ≡ zoom_line variation flags size }
{
    let on = variation.zooms(flags);
    [
        in_title_bar(
            size,
            Step::white_fill(from_right(size.width, 20, -16, 7, -4)).when(on),
        ),
        in_title_bar(
            size,
            Step::black_frame(from_right(size.width, 19, -16, 8, -5)).when(on),
        ),
        in_title_bar(
            size,
            Step::black_frame(from_right(size.width, 19, -16, 12, -9)).when(on),
        ),
    ]
}

/// The title, and white behind it.
fn title_line(titled: bool, size: Size) -> [Step; 2]
    requires { is_size size ≡ true }
    ensures { result ≡ title_line titled size }
{
    let bar = title_bar(size);
    let width = columns(size.width);
    let plate = Plate {
        width,
        margin: 4,
        top: -16,
        bottom: -4,
    };
    [
        Step::white_plate(bar, plate).when(titled),
        Step::black_text(bar, width, -6).when(titled),
    ]
}

/// The size box.
fn size_line(variation: Variation, flags: Flags, size: Size) -> [Step; 4]
    requires { is_size size ≡ true }
    ensures { result ≡ size_line variation flags size }
{
    let sized = variation.has_size_box();
    let grows = variation.grows(flags);
    let inner = from_corner(size, 11, 11, 4, 4);
    [
        in_content(size, Step::white_fill(size_box(size)).when(sized)),
        in_content(size, Step::black_fill(size_box_left(size)).when(sized)),
        in_content(size, Step::black_fill(size_box_top(size)).when(sized)),
        in_content(size, Step::black_frame(inner).when(grows)),
    ]
}

/// The document kinds: the lines in their order.
#[tactic(auto, unfolding(crate::specs::Looks::document_look))]
pub(crate) fn document_look(variation: Variation, shown: Shown) -> Look<21>
    requires { is_size shown.size ≡ true }
    ensures steps { result.steps.items ≡ document_look variation shown.flags shown.titled shown.size }
    ensures count { length result.steps.items ≡ 21 }
{
    let flags = shown.flags;
    let size = shown.size;
    Look::new()
        .with(&bar_lines(flags, size))
        .with(&go_away_line(variation, flags, size))
        .with(&zoom_line(variation, flags, size))
        .with(&title_line(shown.titled, size))
        .with(&size_line(variation, flags, size))
}
