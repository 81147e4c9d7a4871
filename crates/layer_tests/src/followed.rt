//! The tests: steps in a row, after each of which the library and the model agree.

ghost use Rattle.std.specs.Prelude.{All, IfOk};
ghost use Rattle.def_iface.specs.WindowSlots.{IsFull};

use def_iface::{Size, Stocked, WindowDef, WindowStock};
use desk_layers::Part;
use layer_steps::steps::Desk;
use plain_layers::desk::Painting;
use plain_layers::steps::Step;
use std::alloc::Global;
use std::test::Fail;
use std_wdef::{StdWindow, Variation};
use tb_geom::{Rect, Refusal};
use test_pixels::{point, rect};
use window_update::LayerKind as Kind;

const BUTTON: Part = Part::Control(1);

const SLIDER: Part = Part::Control(2);

const NAMES: Part = Part::List(1);

const NOTES: Part = Part::Text(1);

/// All layers, from back to front.
const ALL: &[Kind] = &[Kind::Picture, Kind::Texts, Kind::Lists, Kind::Controls];

/// Over the upper left corner of the content, beyond its left side, and over the list.
const CORNER: Rect = rect!(-2, 1, 4, 6);

/// The first steps of each row: window 1 with a picture, two controls, a list and a text record, which lie over one another and
/// past the sides of the content, all drawn.
const BEGIN: [Step; 7] = [
    Step::Replace(1, Painting::Slanted, point!(1, 1)),
    Step::Update(1, ALL),
    Step::Put(1, NAMES, true, rect!(2, 3, 14, 7)),
    Step::Put(1, NOTES, true, rect!(1, -2, 7, 9)),
    Step::Put(1, BUTTON, true, CORNER),
    Step::Put(1, SLIDER, true, rect!(3, 5, 8, 12)),
    Step::Update(2, ALL),
];

/// A stock of two plain windows.
fn plain_stock(alloc: Global) -> Result<WindowStock, Refusal>
    ensures { IfOk result (λ s. All IsFull (⟦<WindowStock as Stocked>⟧.slots s)) }
{
    let mut stock = WindowStock::new(alloc);
    for _ in 0..2 {
        let window = Box::new(alloc, StdWindow::new(Variation::Plain))?;
        let Ok(()) = stock.add(b"plain", window) else {
            return Err(Refusal::NoMemory);
        };
    }
    Ok(stock)
}

/// Whether library and model agree at the beginning and after each of these steps.
fn follow(alloc: Global, steps: &[Step]) -> Result<bool, Refusal> {
    let mut desk = Desk::new(alloc, plain_stock(alloc)?)?;
    if !desk.agrees() {
        return Ok(false);
    }
    for at in 0..BEGIN.len() {
        if !desk.follows(BEGIN[at])? {
            return Ok(false);
        }
    }
    for at in 0..steps.len() {
        if !desk.follows(steps[at])? {
            return Ok(false);
        }
    }
    Ok(true)
}

#[test]
fn layers_change(rt: HostRuntime) -> Result<(), Fail> {
    let steps = [
        Step::Put(1, BUTTON, false, CORNER),
        Step::Put(1, BUTTON, true, CORNER),
        Step::Put(1, BUTTON, true, rect!(1, 2, 7, 7)),
        Step::TakeOut(1, SLIDER),
        Step::Update(1, &[Kind::Lists]),
        Step::Put(1, SLIDER, true, rect!(6, -3, 9, 5)),
        Step::TakeOut(1, NAMES),
        Step::Put(1, NOTES, false, rect!(1, -2, 7, 9)),
        Step::Put(1, NOTES, true, rect!(4, 1, 12, 4)),
        Step::Put(1, SLIDER, false, rect!(6, -3, 9, 5)),
        Step::Move(1, point!(-2, 5)),
        Step::Put(1, SLIDER, true, rect!(0, 0, 9, 5)),
        Step::TakeOut(1, BUTTON),
    ];
    assert!(rt; follow(rt.alloc(), &steps)?);
    Ok(())
}

#[test]
fn windows_over_layers_move(rt: HostRuntime) -> Result<(), Fail> {
    let steps = [
        Step::Move(2, point!(6, 4)),
        Step::Move(2, point!(14, 9)),
        Step::Move(1, point!(-3, 4)),
        Step::Move(1, point!(9, -2)),
        Step::Front(1),
        Step::Back(1),
        Step::Hide(2),
        Step::Update(1, &[Kind::Controls]),
        Step::Move(1, point!(2, 7)),
        Step::Show(2),
        Step::Front(2),
        Step::Back(2),
        Step::Hide(1),
        Step::Show(1),
        Step::Update(1, ALL),
    ];
    assert!(rt; follow(rt.alloc(), &steps)?);
    Ok(())
}

#[test]
fn content_is_sized(rt: HostRuntime) -> Result<(), Fail> {
    let size = Size {
        width: 5,
        height: 10,
    };
    let wide = Size {
        width: 13,
        height: 6,
    };
    let steps = [
        Step::Resize(1, size),
        Step::Resize(1, wide),
        Step::Front(1),
        Step::Resize(1, size),
        Step::Update(1, &[Kind::Lists, Kind::Controls]),
        Step::Resize(2, wide),
        Step::Update(1, ALL),
    ];
    assert!(rt; follow(rt.alloc(), &steps)?);
    Ok(())
}

#[test]
fn pictures_behind_layers_change(rt: HostRuntime) -> Result<(), Fail> {
    let steps = [
        Step::Scroll(1, point!(2, -1)),
        Step::Update(1, ALL),
        Step::Scroll(1, point!(-3, 3)),
        Step::Scroll(1, point!(1, 0)),
        Step::Put(1, BUTTON, false, CORNER),
        Step::Scroll(1, point!(0, 2)),
        Step::Replace(1, Painting::Checked, point!(2, -1)),
        Step::Put(1, BUTTON, true, CORNER),
        Step::Scroll(1, point!(-1, -1)),
        Step::Update(1, &[Kind::Picture]),
        Step::Invert(1, rect!(1, 2, 9, 7)),
        Step::Scroll(1, point!(1, 1)),
        Step::Update(1, ALL),
        Step::Scroll(1, point!(30, 0)),
    ];
    assert!(rt; follow(rt.alloc(), &steps)?);
    Ok(())
}

#[test]
fn updates_draw_layer_by_layer(rt: HostRuntime) -> Result<(), Fail> {
    let steps = [
        Step::Front(1),
        Step::Hide(1),
        Step::Show(1),
        Step::Update(1, &[Kind::Controls, Kind::Picture]),
        Step::Update(1, &[Kind::Lists]),
        Step::Hide(1),
        Step::Show(1),
        Step::Update(
            1,
            &[Kind::Lists, Kind::Lists, Kind::Controls, Kind::Picture],
        ),
        Step::Front(2),
        Step::Hide(2),
        Step::Update(1, &[Kind::Picture]),
        Step::Update(1, &[]),
        Step::Update(1, &[Kind::Controls, Kind::Lists]),
        Step::Front(2),
        Step::Show(2),
        Step::Move(2, point!(1, 1)),
        Step::Move(2, point!(12, 1)),
        Step::Serve(1),
        Step::Serve(2),
    ];
    assert!(rt; follow(rt.alloc(), &steps)?);
    Ok(())
}

#[test]
fn updates_draw_text_records(rt: HostRuntime) -> Result<(), Fail> {
    let steps = [
        Step::Front(1),
        Step::Hide(1),
        Step::Show(1),
        Step::Update(1, &[Kind::Texts, Kind::Picture, Kind::Lists]),
        Step::Update(1, &[Kind::Controls]),
        Step::Hide(1),
        Step::Show(1),
        Step::Update(1, &[Kind::Controls, Kind::Texts, Kind::Picture]),
        Step::Hide(1),
        Step::Show(1),
        Step::Update(1, &[Kind::Lists, Kind::Texts, Kind::Controls]),
        Step::TakeOut(1, NOTES),
        Step::Update(1, ALL),
    ];
    assert!(rt; follow(rt.alloc(), &steps)?);
    Ok(())
}

#[test]
fn hidden_layers_stay_in_range(rt: HostRuntime) -> Result<(), Fail> {
    let mut desk = Desk::new(rt.alloc(), plain_stock(rt.alloc())?)?;
    let far = Step::Put(1, BUTTON, false, rect!(16000, 0, 16010, 5));
    assert!(rt; desk.follows(far)?);
    assert!(rt; desk.refuses(Step::Move(1, point!(400, 2))));
    assert!(rt; desk.follows(Step::Move(1, point!(300, 2)))?);
    Ok(())
}
