//! The box of the points of data.
ghost use Rattle.std.specs.Prelude.{◌≡◌, false, pos, None};
ghost use Rattle.std.specs.List.{fold};
ghost use Rattle.region_bytes.specs.Words.{grown, words_in};
ghost use Rattle.region_bytes.specs.Scan.{points_in};

use crate::data_points::DataPoints;
use tb_geom::{Point, Rect};

/// The least box of some points and one more.
pub fn grown(bounds: Option<Rect>, point: Point) -> Option<Rect>
    ensures { result ≡ grown bounds point }
{
    match bounds {
        None => Some(Rect {
            left: point.h,
            top: point.v,
            right: point.h,
            bottom: point.v,
        }),
        Some(r) => Some(Rect {
            left: r.left.min(point.h),
            top: r.top.min(point.v),
            right: r.right.max(point.h),
            bottom: r.bottom.max(point.v),
        }),
    }
}

/// The exact box of the points of data; None where it has no point.
pub fn data_box(bytes: &[u8]) -> Option<Rect>
    ensures { result ≡ fold grown None (points_in false (pos 0) (words_in bytes.now)) }
{
    let mut bounds = None;
    for p in DataPoints::new(bytes) {
        bounds = grown(bounds, p);
    }
    bounds
}
