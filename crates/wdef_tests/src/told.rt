//! What a window is told, and the parts that a point lies in.

use def_iface::{Hit, Size, WindowChange, WindowDef};
use std::test::Fail;
use std_wdef::{NotchedWindow, StdWindow, Variation};
use tb_geom::Point;
use test_pixels::{point, rect};

const SIZE: Size = Size {
    width: 60,
    height: 20,
};

#[test]
fn a_zoom_window_is_hit_in_its_parts(rt: HostRuntime) {
    let mut window = StdWindow::new(Variation::Zoom);
    window.begin();
    window.told(WindowChange::Resized(SIZE));
    window.told(WindowChange::Closable(true));
    assert!(rt; window.hit(point!(8, -16)) == Hit::InDrag);
    assert!(rt; window.hit(point!(59, 19)) == Hit::InDrag);
    window.told(WindowChange::Highlighted(true));
    assert!(rt; window.hit(point!(8, -16)) == Hit::InGoAway);
    assert!(rt; window.hit(point!(18, -6)) == Hit::InGoAway);
    assert!(rt; window.hit(point!(19, -6)) == Hit::InDrag);
    assert!(rt; window.hit(point!(41, -16)) == Hit::InZoomOut);
    assert!(rt; window.hit(point!(59, 19)) == Hit::InGrow);
    assert!(rt; window.hit(point!(44, 19)) == Hit::InContent);
    window.told(WindowChange::Zoomed(true));
    assert!(rt; window.hit(point!(41, -16)) == Hit::InZoomIn);
}

#[test]
fn a_new_title_damages_the_title_bar_alone(rt: HostRuntime) {
    let mut window = StdWindow::new(Variation::NoGrow);
    window.begin();
    window.told(WindowChange::Resized(SIZE));
    assert!(rt; window.told(WindowChange::Titled(b"A")) == rect!(0, -18, 60, -1));
    assert!(rt; window.told(WindowChange::Zoomed(true)) == rect!(0, 0, 0, 0));
    assert!(rt; window.bounds(SIZE) == rect!(-1, -19, 61, 21));
}

#[test]
fn tracking_damages_the_inside_of_the_go_away_box_alone(rt: HostRuntime) {
    let mut window = StdWindow::new(Variation::NoGrow);
    window.begin();
    window.told(WindowChange::Resized(SIZE));
    window.told(WindowChange::Closable(true));
    assert!(rt; window.told(WindowChange::Tracked(true)) == rect!(0, 0, 0, 0));
    window.told(WindowChange::Tracked(false));
    window.told(WindowChange::Highlighted(true));
    assert!(rt; window.told(WindowChange::Tracked(true)) == rect!(9, -15, 18, -6));
    assert!(rt; window.told(WindowChange::Tracked(true)) == rect!(0, 0, 0, 0));
    assert!(rt; window.told(WindowChange::Tracked(false)) == rect!(9, -15, 18, -6));
    let narrow = Size {
        width: 12,
        height: 20,
    };
    window.told(WindowChange::Resized(narrow));
    assert!(rt; window.told(WindowChange::Tracked(true)) == rect!(9, -15, 12, -6));
}

#[test]
fn highlighting_damages_what_comes_and_goes_with_it(rt: HostRuntime) {
    let mut window = StdWindow::new(Variation::NoGrow);
    window.begin();
    window.told(WindowChange::Resized(SIZE));
    assert!(rt; window.told(WindowChange::Highlighted(true)) == rect!(1, -15, 59, -4));
    assert!(rt; window.told(WindowChange::Closable(true)) == rect!(7, -16, 20, -4));
    assert!(rt; window.told(WindowChange::Highlighted(false)) == rect!(1, -16, 59, -4));
    let mut window = StdWindow::new(Variation::Zoom);
    window.begin();
    window.told(WindowChange::Resized(SIZE));
    assert!(rt; window.told(WindowChange::Highlighted(true)) == rect!(1, -16, 59, 16));
}

#[test]
fn a_notched_window_lacks_its_corner(rt: HostRuntime) -> Result<(), Fail> {
    let alloc = rt.alloc();
    let mut window = NotchedWindow::new();
    window.begin();
    let size = Size {
        width: 3,
        height: 2,
    };
    window.told(WindowChange::Resized(size));
    assert!(rt; window.hit(point!(1, 0)) == Hit::InContent);
    assert!(rt; window.hit(point!(2, 0)) == Hit::NoHit);
    let regions = window.regions_for(alloc, size)?;
    assert!(rt; regions.structure.contains(point!(2, -1)));
    assert!(rt; !regions.structure.contains(point!(3, -1)));
    assert!(rt; regions.structure.contains(point!(3, 0)));
    assert!(rt; !regions.content.contains(point!(2, 0)));
    Ok(())
}
