//! The pixels and the parts of the rounded window.
ghost use Rattle.std.specs.Prelude.{◌≡◌, true};
ghost use Rattle.tb_geom.specs.Rects.{is_in_range};
ghost use Rattle.def_iface.specs.Sizes.{is_size};
ghost use Rattle.std_wdef.specs.Looks.{document_box};
ghost use Rattle.std_wdef.specs.Rounded.{window_corner, frame_pen, round_hit};

use crate::cut_inside::{CutInside, has};
use crate::kind::Variation;
use crate::rects::{document_box, title_bar};
use def_iface::{Flags, Hit, Size};
use shape_strips::{Corner, InsideStrip, Pen};
use tb_geom::{Point, Rect};

/// The corners of the window.
pub(crate) const CORNER: Corner = Corner {
    width: 16,
    height: 16,
};

/// The pen of its frame.
const PEN: Pen = Pen {
    width: 1,
    height: 1,
};

/// The go-away box.
pub(crate) const GO_AWAY: Rect = Rect {
    left: 8,
    top: -16,
    right: 19,
    bottom: -5,
};

/// What the frame leaves of a window of this size, within a rectangle.
pub(crate) fn inside_within(cut: Rect, size: Size) -> CutInside
    requires size { is_size size ≡ true }
    requires in_range { is_in_range (document_box size) ≡ true }
    ensures cut { result.cut ≡ cut }
    ensures rect { result.inside.rect ≡ document_box size }
    ensures corner { result.inside.corner ≡ window_corner }
    ensures pen { result.inside.pen ≡ frame_pen }
{
    CutInside {
        cut,
        inside: InsideStrip {
            rect: document_box(size),
            corner: CORNER,
            pen: PEN,
        },
    }
}

/// The part of the window that the point lies in.
pub(crate) fn round_hit(flags: Flags, size: Size, point: Point) -> Hit
    requires size { is_size size ≡ true }
    requires in_range { is_in_range (document_box size) ≡ true }
    ensures { result ≡ round_hit flags size point }
{
    if has(&inside_within(size.rect(), size), point) {
        return Hit::InContent;
    }
    let bar = inside_within(title_bar(size), size);
    if Variation::NoGrow.closes(flags) && (has(&bar, point) && GO_AWAY.contains(point)) {
        Hit::InGoAway
    } else {
        Hit::InDrag
    }
}
