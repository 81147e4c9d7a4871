//! Structure and content of the standard windows.
ghost use Rattle.std.specs.Prelude.{◌≡◌, true};
ghost use Rattle.def_iface.specs.Sizes.{is_size};
ghost use Rattle.std_wdef.specs.Areas.{first_box, structure_of, content_of, structure_box};

use crate::kind::Variation;
use crate::rects::{document_box, ring, shadow_box, size_box};
use def_iface::Size;
use looks::{Piece, more, sides};
use tb_geom::Rect;

/// The first rectangle of the structure.
fn first_box(variation: Variation, size: Size) -> Rect
    requires { is_size size ≡ true }
    ensures { result ≡ first_box variation size }
{
    match variation {
        Variation::Plain => ring(1, size),
        Variation::Shadow => ring(1, size),
        Variation::Dialog => ring(8, size),
        Variation::Document => document_box(size),
        Variation::NoGrow => document_box(size),
        Variation::Zoom => document_box(size),
    }
}

/// The structure.
pub(crate) fn structure_of(variation: Variation, size: Size) -> [Piece; 2]
    requires { is_size size ≡ true }
    ensures { result ≡ structure_of variation size }
{
    let second = sides(1, 1, more(size.width, 3), more(size.height, 3));
    [
        Piece::added(first_box(variation, size)),
        Piece::added(second).only(variation.is_shadow()),
    ]
}

/// The content.
pub(crate) fn content_of(variation: Variation, size: Size) -> [Piece; 2]
    requires { is_size size ≡ true }
    ensures { result ≡ content_of variation size }
{
    [
        Piece::added(size.rect()),
        Piece::removed(size_box(size)).only(variation.has_size_box()),
    ]
}

/// The box of the structure.
pub(crate) fn structure_box(variation: Variation, size: Size) -> Rect
    requires { is_size size ≡ true }
    ensures { result ≡ structure_box variation size }
{
    match variation {
        Variation::Shadow => shadow_box(size),
        Variation::Plain => ring(1, size),
        Variation::Dialog => ring(8, size),
        Variation::Document => document_box(size),
        Variation::NoGrow => document_box(size),
        Variation::Zoom => document_box(size),
    }
}
