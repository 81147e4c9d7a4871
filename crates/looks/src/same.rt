//! Whether two steps are the same.
ghost use Rattle.std.specs.Prelude.{◌≡◌, true, ◌||◌, ◌&&◌, not};
ghost use Rattle.looks.specs.Damages.{same_steps};
ghost use Rattle.looks.specs.Same.{same_rects, same_shades, same_marks, same_plates, same_pens, same_baselines, shows_text};
ghost use Rattle.looks.specs.Same.{same_corners, same_rounded};

use crate::pen::{Baseline, Pen, Place, Plate};
use crate::rounded::Rounded;
use crate::step::{Mark, Step};
use draw_port::Shade;
use shape_strips::Corner;
use tb_geom::Rect;

/// Whether the two are the same step. Where it says so, they are.
pub(crate) fn is_same(a: Step, b: Step) -> bool
    ensures same { result ≡ true → a ≡ b }
    ensures exact { result ≡ same_steps a b }
{
    a.on == b.on && (same_rects(a.cut, b.cut) && same_marks(a.mark, b.mark))
}

fn same_marks(a: Mark, b: Mark) -> bool
    ensures { result ≡ same_marks a b }
{
    match a {
        Mark::Fill(r, s) => match b {
            Mark::Fill(q, t) => same_rects(r, q) && same_shades(s, t),
            _ => false,
        },
        Mark::Frame(r, s) => match b {
            Mark::Frame(q, t) => same_rects(r, q) && same_shades(s, t),
            _ => false,
        },
        Mark::Behind(plate) => match b {
            Mark::Behind(other) => same_plates(plate, other),
            _ => false,
        },
        Mark::Text(place) => match b {
            Mark::Text(other) => same_places(place, other),
            _ => false,
        },
        Mark::Cross(r) => match b {
            Mark::Cross(q) => same_rects(r, q),
            _ => false,
        },
        Mark::Round(r, s) => match b {
            Mark::Round(q, t) => same_rounded(r, q) && same_shades(s, t),
            _ => false,
        },
    }
}

fn same_rounded(a: Rounded, b: Rounded) -> bool
    ensures { result ≡ same_rounded a b }
{
    same_rects(a.rect, b.rect) && (same_corners(a.corner, b.corner) && a.inside == b.inside)
}

fn same_corners(a: Corner, b: Corner) -> bool
    ensures { result ≡ same_corners a b }
{
    a.width == b.width && a.height == b.height
}

fn same_plates(a: Plate, b: Plate) -> bool
    ensures { result ≡ same_plates a b }
{
    a.width == b.width && (a.margin == b.margin && (a.top == b.top && a.bottom == b.bottom))
}

fn same_places(a: Place, b: Place) -> bool
    ensures { result ≡ (same_pens a.pen b.pen && same_baselines a.baseline b.baseline) }
{
    same_pens(a.pen, b.pen) && same_baselines(a.baseline, b.baseline)
}

fn same_pens(a: Pen, b: Pen) -> bool
    ensures { result ≡ same_pens a b }
{
    match a {
        Pen::At(x) => match b {
            Pen::At(y) => x == y,
            _ => false,
        },
        Pen::Middle(w) => match b {
            Pen::Middle(v) => w == v,
            _ => false,
        },
    }
}

fn same_baselines(a: Baseline, b: Baseline) -> bool
    ensures { result ≡ same_baselines a b }
{
    match a {
        Baseline::At(x) => match b {
            Baseline::At(y) => x == y,
            _ => false,
        },
        Baseline::Middle(h) => match b {
            Baseline::Middle(k) => h == k,
            _ => false,
        },
    }
}

/// Whether a mark stays as it is: it does not stand by the text, or that is the same.
pub(crate) fn keeps_text(mark: Mark, same_text: bool) -> bool
    ensures { result ≡ (same_text || not (shows_text mark)) }
{
    match mark {
        Mark::Fill(_, _) | Mark::Frame(_, _) | Mark::Cross(_) | Mark::Round(_, _) => true,
        Mark::Behind(_) | Mark::Text(_) => same_text,
    }
}

fn same_shades(a: Shade, b: Shade) -> bool
    ensures { result ≡ same_shades a b }
{
    a.pattern.rows.as_slice() == b.pattern.rows.as_slice()
        && a.mode.source_number() == b.mode.source_number()
}

fn same_rects(a: Rect, b: Rect) -> bool
    ensures { result ≡ same_rects a b }
{
    a.left == b.left && (a.top == b.top && (a.right == b.right && a.bottom == b.bottom))
}
