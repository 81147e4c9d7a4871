//! The pixels and the parts of rounded windows.

use def_iface::{Hit, Size, WindowChange, WindowDef};
use std::test::Fail;
use std_wdef::RoundWindow;
use test_pixels::{point, rect};

const SIZE: Size = Size {
    width: 22,
    height: 7,
};

#[test]
fn a_rounded_window_has_round_corners(rt: HostRuntime) -> Result<(), Fail> {
    let regions = RoundWindow::new().regions_for(rt.alloc(), SIZE)?;
    assert!(rt; regions.structure.bbox() == rect!(-1, -19, 23, 8));
    assert!(rt; !regions.structure.contains(point!(3, -19)));
    assert!(rt; regions.structure.contains(point!(4, -19)));
    assert!(rt; regions.structure.contains(point!(17, -19)));
    assert!(rt; !regions.structure.contains(point!(-1, 3)));
    assert!(rt; regions.structure.contains(point!(-1, 2)));
    assert!(rt; regions.content.bbox() == rect!(0, 0, 22, 7));
    assert!(rt; regions.content.contains(point!(0, 2)));
    assert!(rt; !regions.content.contains(point!(0, 3)));
    assert!(rt; !regions.content.contains(point!(3, 6)));
    assert!(rt; regions.content.contains(point!(4, 6)));
    assert!(rt; !regions.content.contains(point!(4, -2)));
    Ok(())
}

#[test]
fn the_smallest_rounded_window_has_no_content(rt: HostRuntime) -> Result<(), Fail> {
    let size = Size {
        width: 1,
        height: 1,
    };
    let regions = RoundWindow::new().regions_for(rt.alloc(), size)?;
    assert!(rt; regions.structure.bbox() == rect!(-1, -19, 2, 2));
    assert!(rt; regions.content.is_empty());
    Ok(())
}

#[test]
fn a_rounded_window_is_hit_in_its_parts(rt: HostRuntime) {
    let mut window = RoundWindow::new();
    window.begin();
    window.told(WindowChange::Resized(SIZE));
    window.told(WindowChange::Closable(true));
    assert!(rt; window.hit(point!(0, 2)) == Hit::InContent);
    assert!(rt; window.hit(point!(0, 3)) == Hit::InDrag);
    assert!(rt; window.hit(point!(8, -16)) == Hit::InDrag);
    window.told(WindowChange::Highlighted(true));
    assert!(rt; window.hit(point!(8, -16)) == Hit::InGoAway);
    assert!(rt; window.hit(point!(18, -6)) == Hit::InGoAway);
    assert!(rt; window.hit(point!(19, -6)) == Hit::InDrag);
    assert!(rt; window.hit(point!(7, 7)) == Hit::InDrag);
    let narrow = Size {
        width: 12,
        height: 7,
    };
    window.told(WindowChange::Resized(narrow));
    assert!(rt; window.hit(point!(11, -14)) == Hit::InGoAway);
    assert!(rt; window.hit(point!(11, -15)) == Hit::InDrag);
}

#[test]
fn highlighting_a_rounded_window_damages_its_title_bar(rt: HostRuntime) {
    let mut window = RoundWindow::new();
    window.begin();
    window.told(WindowChange::Resized(SIZE));
    assert!(rt; window.told(WindowChange::Closable(true)) == rect!(0, 0, 0, 0));
    assert!(rt; window.told(WindowChange::Highlighted(true)) == rect!(0, -18, 22, -1));
    assert!(rt; window.told(WindowChange::Tracked(true)) == rect!(9, -15, 18, -6));
    assert!(rt; window.told(WindowChange::Closable(false)) == rect!(8, -16, 19, -5));
    assert!(rt; window.told(WindowChange::Titled(b"")) == rect!(0, 0, 0, 0));
    assert!(rt; window.told(WindowChange::Titled(b"A")) == rect!(0, -18, 22, -1));
}
