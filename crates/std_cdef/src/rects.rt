//! What the controls have in common: their sizes, their region, and where a title stands.
ghost use Rattle.std.specs.Prelude.{◌≡◌, ◌≤◌, true, IfOk};
ghost use Rattle.tb_geom.specs.declared.point.Point.{Point};
ghost use Rattle.tb_geom.specs.Rects.{rect_holds, is_in_range};
ghost use Rattle.tb_geom.specs.Pixels.{holds};
ghost use Rattle.def_iface.specs.ControlMeaning.{is_control_size};
ghost use Rattle.def_iface.specs.Sizes.{rect_of};
ghost use Rattle.std_cdef.specs.Axes.{middle_of};

use def_iface::Size;
use looks::Baseline;
use scan_region::Region;
use std::alloc::{AllocError, Global};

/// Whether the size is one of a control: both sides lie in 1..=1024.
pub(crate) fn is_control_size(size: Size) -> bool
    ensures { result ≡ is_control_size size }
{
    let Size { width, height } = size;
    (1 <= width && width <= 1024) && (1 <= height && height <= 1024)
}

/// The region of a control: its rectangle.
pub(crate) fn region_of(alloc: Global, size: Size) -> Result<Region, AllocError>
    requires { is_in_range (rect_of size) ≡ true }
    ensures { IfOk result (λ r. (p : Point) → holds r p ≡ rect_holds (rect_of size) p) }
{
    Region::from_rect_in_range(alloc, size.rect())
}

/// The baseline of a title: that of a text in the middle of the control's rows.
pub(crate) fn middle(size: Size) -> Baseline
    requires { is_control_size size ≡ true }
    ensures { result ≡ middle_of size }
{
    Baseline::Middle(size.height as u16)
}
