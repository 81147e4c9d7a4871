//! The parts of the standard windows.
ghost use Rattle.std.specs.Prelude.{◌≡◌, true};
ghost use Rattle.def_iface.specs.Sizes.{is_size};
ghost use Rattle.std_wdef.specs.Hits.{zoom_hit, spots_of, frame_hit, std_hit};

use crate::areas::content_of;
use crate::kind::Variation;
use crate::rects::{size_box, title_bar};
use def_iface::{Flags, Hit, Size};
use looks::{Spot, area_has, first_part, from_right, sides};
use tb_geom::Point;

/// The parts of the frame, the first of which counts.
fn spots_of(variation: Variation, flags: Flags, size: Size) -> [Spot<Hit>; 3]
    requires { is_size size ≡ true }
    ensures { result ≡ spots_of variation flags size }
{
    let bar = title_bar(size);
    let closes = variation.closes(flags);
    let zooms = variation.zooms(flags);
    let grows = variation.grows(flags);
    [
        Spot::new(closes, bar, sides(8, -16, 19, -5), Hit::InGoAway),
        Spot::new(
            zooms,
            bar,
            from_right(size.width, 19, -16, 8, -5),
            zoom_hit(flags),
        ),
        Spot::new(grows, size.rect(), size_box(size), Hit::InGrow),
    ]
}

/// What the zoom box does.
fn zoom_hit(flags: Flags) -> Hit
    ensures { result ≡ zoom_hit flags }
{
    if flags.zoomed {
        Hit::InZoomIn
    } else {
        Hit::InZoomOut
    }
}

/// The part of the window that the point lies in.
pub(crate) fn std_hit(variation: Variation, flags: Flags, size: Size, point: Point) -> Hit
    requires { is_size size ≡ true }
    ensures { result ≡ std_hit variation flags size point }
{
    if area_has(&content_of(variation, size), point) {
        Hit::InContent
    } else {
        first_part(
            &spots_of(variation, flags, size),
            frame_hit(variation),
            point,
        )
    }
}

/// The rest of the frame drags a document window.
fn frame_hit(variation: Variation) -> Hit
    ensures { result ≡ frame_hit variation }
{
    if variation.is_document() {
        Hit::InDrag
    } else {
        Hit::NoHit
    }
}
