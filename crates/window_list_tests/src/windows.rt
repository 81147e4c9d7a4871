//! Lists of windows, and of values in an order of their own.
ghost use Rattle.std.specs.Prelude.{◌≡◌, ◌<◌, [], length, true, IfOk, OnOk, Some};
ghost use Rattle.def_iface.specs.WindowMeaning.{is_fitting};

use def_iface::{Defined, Size, Stage, TakenWindow, WindowChange, WindowDef, WindowStock};
use draw_port::{Op, Picture, Shape};
use std::alloc::Global;
use std::test::Fail;
use tb_geom::Refusal;
use test_pixels::{point, rect};
use titled_window::Titled;
use window_list::{Heard, Layers, Placement, Ranks, Title, Window, WindowList};

#[test]
fn values_keep_their_order(rt: HostRuntime) -> Result<(), Fail> {
    let mut ranks: Ranks<u32> = Ranks::new(rt.alloc());
    ranks.reserve()?;
    ranks.insert(0, 5);
    ranks.reserve()?;
    ranks.insert(0, 6);
    ranks.reserve()?;
    ranks.insert(1, 7);
    assert!(rt; [*ranks.at(0), *ranks.at(1), *ranks.at(2)] == [6, 7, 5]);
    ranks.place(2, 0);
    *ranks.at_mut(1) = 9;
    assert!(rt; [*ranks.at(0), *ranks.at(1), *ranks.at(2)] == [5, 9, 7]);
    assert!(rt; ranks.remove(0) == 5);
    ranks.reserve()?;
    ranks.insert(0, 8);
    assert!(rt; ranks.remove(2) == 7 && ranks.len() == 2 && [*ranks.at(0), *ranks.at(1)] == [8, 9]);
    Ok(())
}

const SIZE: Size = Size {
    width: 3,
    height: 2,
};

/// Another one.
const WIDE: Size = Size {
    width: 9,
    height: 4,
};

/// An ordinary window of this serial, highlighted where it is visible, with a white picture.
fn window(alloc: Global, serial: u64, shown: bool, taken: TakenWindow) -> Window
    ensures serial { result.serial ≡ serial }
    ensures taken { result.taken ≡ taken }
    ensures layers { result.layers.layers ≡ [] }
{
    window_of(alloc, serial, shown, false, taken)
}

/// The same, of either class.
fn window_of(alloc: Global, serial: u64, shown: bool, floating: bool, taken: TakenWindow) -> Window
    ensures serial { result.serial ≡ serial }
    ensures taken { result.taken ≡ taken }
    ensures layers { result.layers.layers ≡ [] }
{
    Window {
        serial,
        place: point!(0, 0),
        size: SIZE,
        user_state: None,
        shown,
        floating,
        highlighted: shown,
        go_away: false,
        title: Title::new(),
        heard: Heard {
            highlighted: shown,
            zoomed: false,
            tracked: false,
        },
        picture: Picture::new(alloc),
        origin: point!(0, 0),
        layers: Layers::new(alloc, point!(0, 0)),
        taken,
    }
}

/// The serial of the next window.
fn next(windows: &WindowList) -> Result<u64, Refusal>
    ensures { IfOk result (λ serial. windows.now.next ≡ Some serial) }
{
    windows.next().ok_or(Refusal::TooMany)
}

/// Whether the windows, from front to back, have these serials, and are highlighted or not.
fn are(windows: &WindowList, wanted: &[(u64, bool)]) -> bool {
    if windows.len() != wanted.len() {
        return false;
    }
    for at in 0..wanted.len() {
        let window = windows.at(at);
        if window.serial != wanted[at].0 || window.highlighted != wanted[at].1 {
            return false;
        }
    }
    true
}

/// NoSuchWindow where no window is at this index.
fn there(windows: &WindowList, at: usize) -> Result<(), Refusal>
    ensures { OnOk result (at < length windows.now.records.items) }
{
    if at < windows.len() {
        Ok(())
    } else {
        Err(Refusal::NoSuchWindow)
    }
}

/// Changes all of the window at this index that can be changed by itself.
fn change(windows: &mut WindowList, at: usize) -> Result<(), Refusal> {
    there(windows, at)?;
    if !windows.at(at).layers.fit_at(point!(7, -8)) {
        return Err(Refusal::OutOfRange);
    }
    windows.set_stand(at, point!(7, -8), true, None);
    there(windows, at)?;
    let operation = Op {
        clip: None,
        shape: Shape::Invert(rect!(0, 0, 1, 1)),
    };
    windows.push_operation(at, operation)
}

/// Whether all of the window at this index was changed so.
fn is_changed(windows: &WindowList, at: usize) -> bool {
    if windows.len() <= at {
        return false;
    }
    let window = windows.at(at);
    let moved = window.place == point!(7, -8);
    moved && window.shown && window.picture.ops().len() == 1
}

/// Moves the window at an index to the front, and takes the last of so many out.
fn reorder(windows: &mut WindowList, from: usize, last: usize) -> Result<Window, Refusal> {
    there(windows, from)?;
    windows.move_to(from, 0);
    there(windows, last)?;
    Ok(windows.remove(last))
}

/// A stock of so many definitions of windows with a title.
fn filled(alloc: Global, count: u32) -> Result<WindowStock, Fail> {
    let mut stock = WindowStock::new(alloc);
    for _ in 0..count {
        let Ok(()) = stock.add(b"titled", Box::new(alloc, Titled::new())?) else {
            return Err(Fail::from(Refusal::NoMemory));
        };
    }
    Ok(stock)
}

/// A definition out of the stock, begun at the size.
fn begun(stock: &mut WindowStock) -> Result<TakenWindow, Refusal>
    ensures live { IfOk result (λ t. (⟦<TakenWindow as Defined>⟧.loan t).definition.stage ≡ Stage.Live) }
    ensures told { IfOk result (λ t. is_fitting (⟦<TakenWindow as Defined>⟧.loan t).definition
        (⟦<TakenWindow as Defined>⟧.loan t).definition.size ≡ true) }
{
    let mut taken = stock.take(b"titled")?;
    if !SIZE.is_in_range() || !taken.bounds(SIZE).is_in_range() {
        return Err(Refusal::OutOfRange);
    }
    taken.begin(SIZE, b"", false, false);
    Ok(taken)
}

#[test]
fn windows_lie_from_front_to_back(rt: HostRuntime) -> Result<(), Fail> {
    let alloc = rt.alloc();
    let mut stock = filled(alloc, 3)?;
    let mut windows = WindowList::new(Ranks::new(alloc));
    assert!(rt; windows.active().is_none() && windows.next() == Some(1));
    for shown in [true, true, false] {
        let taken = begun(&mut stock)?;
        windows.reserve()?;
        let serial = next(&windows)?;
        windows.add(window(alloc, serial, shown, taken));
    }
    assert!(rt; are(&windows, &[(3, false), (2, true), (1, false)]));
    assert!(rt; windows.active() == Some(2) && windows.next() == Some(4));
    assert!(rt;
        windows.front() == Some(2) && windows.find(1) == Some(2) && windows.find(4).is_none()
    );
    windows.set_active(Some(1));
    assert!(rt; are(&windows, &[(3, false), (2, false), (1, true)]));
    change(&mut windows, 0)?;
    assert!(rt; is_changed(&windows, 0) && windows.front() == Some(3));
    let behind = reorder(&mut windows, 1, 2)?;
    assert!(rt; behind.serial == 1 && are(&windows, &[(2, false), (3, false)]));
    Ok(())
}

#[test]
fn floating_windows_lie_in_front(rt: HostRuntime) -> Result<(), Fail> {
    let alloc = rt.alloc();
    let mut stock = filled(alloc, 4)?;
    let mut windows = WindowList::new(Ranks::new(alloc));
    for floating in [true, false, true, false] {
        let taken = begun(&mut stock)?;
        windows.reserve()?;
        let serial = next(&windows)?;
        windows.add(window_of(alloc, serial, true, floating, taken));
    }
    assert!(rt; are(&windows, &[(3, true), (1, true), (4, true), (2, false)]));
    assert!(rt; windows.active() == Some(4) && windows.front() == Some(4));
    assert!(rt; windows.class_front(true, 1) == 0 && windows.class_front(false, 3) == 2);
    there(&windows, 0)?;
    assert!(rt; !windows.at(0).leads() && windows.class_back(true, 0) == 1);
    there(&windows, 2)?;
    assert!(rt; windows.at(2).leads() && windows.class_back(false, 2) == 3);
    Ok(())
}

#[test]
fn a_windows_box_comes_out(rt: HostRuntime) -> Result<(), Fail> {
    let alloc = rt.alloc();
    let mut stock = filled(alloc, 1)?;
    let mut windows = WindowList::new(Ranks::new(alloc));
    let taken = begun(&mut stock)?;
    windows.reserve()?;
    let serial = next(&windows)?;
    windows.add(window(alloc, serial, true, taken));
    assert!(rt; windows.len() == 1 && windows.next_box().is_some());
    assert!(rt; windows.len() == 0 && windows.next_box().is_none());
    Ok(())
}

#[test]
fn a_window_is_given_a_size_where_it_lies(rt: HostRuntime) -> Result<(), Fail> {
    let alloc = rt.alloc();
    let mut stock = filled(alloc, 1)?;
    let mut windows = WindowList::new(Ranks::new(alloc));
    let taken = begun(&mut stock)?;
    assert!(rt; WIDE.is_in_range() && taken.bounds(WIDE).is_in_range());
    windows.reserve()?;
    let serial = next(&windows)?;
    windows.add(window(alloc, serial, false, taken));
    let wide = Placement {
        place: point!(3, 4),
        size: WIDE,
        user_state: None,
    };
    windows.set_placement(0, wide);
    assert!(rt;
        windows.len() == 1 && windows.at(0).size == WIDE && windows.at(0).place == point!(3, 4)
    );
    Ok(())
}

#[test]
fn a_window_is_told_its_title_where_it_lies(rt: HostRuntime) -> Result<(), Fail> {
    let alloc = rt.alloc();
    let mut stock = filled(alloc, 1)?;
    let mut windows = WindowList::new(Ranks::new(alloc));
    let taken = begun(&mut stock)?;
    windows.reserve()?;
    let serial = next(&windows)?;
    windows.add(window(alloc, serial, false, taken));
    let damage = windows.notify(0, WindowChange::Titled(b"new"));
    assert!(rt; damage == SIZE.rect());
    assert!(rt; windows.len() == 1 && windows.at(0).title.as_slice() == b"new".as_slice());
    Ok(())
}

#[test]
fn a_window_is_told_its_highlighting_where_it_lies(rt: HostRuntime) -> Result<(), Fail> {
    let alloc = rt.alloc();
    let mut stock = filled(alloc, 1)?;
    let mut windows = WindowList::new(Ranks::new(alloc));
    let taken = begun(&mut stock)?;
    windows.reserve()?;
    let serial = next(&windows)?;
    windows.add(window(alloc, serial, false, taken));
    let damage = windows.notify(0, WindowChange::Highlighted(true));
    assert!(rt; damage == SIZE.rect());
    assert!(rt; windows.len() == 1 && windows.at(0).highlighted);
    Ok(())
}
