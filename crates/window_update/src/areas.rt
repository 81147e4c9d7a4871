//! The pixels of an area that a call carries.
ghost use Rattle.std.specs.Prelude.{◌≡◌, None, Some, IfOk, MatchResult};
ghost use Rattle.tb_geom.specs.Pixels.{holds};
ghost use Rattle.window_update.specs.Sets.{IsAreaOf, IsAreaJudged, judged_set};
ghost use Rattle.window_update.specs.UpdateRefusals.{IsAreaForm, IsUpdateForm};

use crate::{AreaRef, UpdateCall, WindowArea};
use region_bytes::RegionBytes;
use scan_region::Region;
use std::alloc::{AllocError, Global};
use tb_geom::{Point, Rect, Refusal};

/// An area that was judged: its pixels can be asked for, without memory.
#[derive(Drop)]
pub enum JudgedArea<'a> {
    Rect(Rect),
    Region(RegionBytes<'a>),
}

impl JudgedArea<'_> {
    /// Whether the area has the pixel.
    pub(crate) fn contains(&self, point: Point) -> bool
        ensures { result ≡ judged_set self.now point }
    {
        match self {
            JudgedArea::Rect(rect) => rect.contains(point),
            JudgedArea::Region(region) => region.contains(point),
        }
    }
}

/// Judges an area, without memory. BadRegion where its bytes have not the form of a region's, OutOfRange where
/// a coordinate lies outside -16384..=16383.
pub(crate) fn judge<'a>(area: &AreaRef<'a>) -> Result<JudgedArea<'a>, Refusal>
    ensures { MatchResult result
        (λ judged. IsAreaJudged area.now None × IsAreaOf area.now (judged_set judged))
        (λ e. IsAreaJudged area.now (Some e)) }
{
    match area {
        AreaRef::Rect(rect) => {
            if rect.is_in_range() {
                Ok(JudgedArea::Rect(*rect))
            } else {
                Err(Refusal::OutOfRange)
            }
        }
        AreaRef::Region(bytes) => Ok(JudgedArea::Region(RegionBytes::read(bytes.as_slice())?)),
    }
}

/// The region of an area that was judged, so that only memory can be refused.
pub(crate) fn region_of(alloc: Global, area: &AreaRef<'_>) -> Result<Region, AllocError>
    ensures { IfOk result (λ region. IsAreaOf area.now (holds region)) }
{
    match area {
        AreaRef::Rect(rect) => match Region::from_rect(alloc, *rect) {
            Ok(region) => Ok(region),
            Err(_) => Err(AllocError),
        },
        AreaRef::Region(bytes) => match Region::from_bytes(alloc, bytes.as_slice()) {
            Ok(region) => Ok(region),
            Err(_) => Err(AllocError),
        },
    }
}

/// Why a call is refused whatever is open: the bytes of its area have not their form.
pub fn update_form_refusal(call: &UpdateCall<'_>) -> Option<Refusal>
    ensures { IsUpdateForm call.now result }
{
    match call {
        UpdateCall::Invalidate(marking) => form_refusal_of(marking),
        UpdateCall::Validate(marking) => form_refusal_of(marking),
        _ => None,
    }
}

/// The same, of an area.
fn form_refusal_of(marking: &WindowArea<'_>) -> Option<Refusal>
    ensures { IsAreaForm marking.now result }
{
    match judge(&marking.area) {
        Err(Refusal::BadRegion) => Some(Refusal::BadRegion),
        _ => None,
    }
}
