//! Calls, carried out by the library and by the model, and what both then have.
ghost use Rattle.std.specs.Prelude.{◌<◌, All, IfOk, length};
ghost use Rattle.def_iface.specs.WindowSlots.{IsFull};

use bit_map::{BitMap, Mode, Pattern};
use def_iface::{Size, Stocked, WindowStock};
use desk_call::{Activity, PictureRef};
use desk_layers::Part;
use draw_port::{Op, Picture, Shade, Shape as Form};
use lent_ops::{OpRef, ShapeRef};
use plain_layers::desk::{Owner, Painting, PlainDesk, PlainLayer, PlainWindow, seen_from};
use plain_layers::pixels::Plain;
use plain_layers::steps::{Effect, Step};
use std::alloc::Global;
use strike_font::Font;
use striped_layers::relaying::{put, take_out};
use striped_layers::updating::{update, update_at_once, updates_for};
use tb_geom::{BytesRef, Point, Rect, Refusal};
use window_list::{Ranks, WindowList};
use window_mgr::{
    DeskWindows, Drawing, MoveWindow, NewPicture, NewWindow, ScrollPicture, SendBehind, SizeWindow,
    WindowCall, WindowManager,
};
use window_update::{DeskUpdates, LayerDraw, LayerKind as Kind, UpdateCall, Updates};

const ORIGIN: Point = Point { h: 0, v: 0 };

/// A rectangle of no pixel.
const NOTHING: Rect = Rect {
    left: 0,
    top: 0,
    right: 0,
    bottom: 0,
};

/// What pictures cover.
const PAINTED: Rect = Rect {
    left: 0,
    top: 0,
    right: 10,
    bottom: 10,
};

/// The desk, its stock, and the model of it.
#[derive(Drop)]
pub struct Desk {
    alloc: Global,
    windows: WindowManager,
    stock: WindowStock,
    plain: Plain,
}

/// A window of ten columns and eight rows, without layers.
fn plain_window(serial: u64, h: i32, v: i32) -> PlainWindow {
    PlainWindow {
        serial,
        place: Point { h, v },
        size: Size {
            width: 10,
            height: 8,
        },
        shown: false,
        painting: Painting::White,
        origin: ORIGIN,
        inverted: NOTHING,
        layers: [
            no_layer(Part::Control(1)),
            no_layer(Part::Control(2)),
            no_layer(Part::List(1)),
            no_layer(Part::Text(1)),
        ],
    }
}

/// A layer that is not there.
fn no_layer(part: Part) -> PlainLayer {
    PlainLayer {
        part,
        there: false,
        shown: false,
        rect: NOTHING,
    }
}

/// The picture of the library that shows this.
fn picture(alloc: Global, painting: Painting) -> Result<Picture, Refusal> {
    let rows = match painting {
        Painting::White => return Ok(Picture::new(alloc)),
        Painting::Slanted => [0x88, 0x44, 0x22, 0x11, 0x88, 0x44, 0x22, 0x11],
        Painting::Checked => [0xCC, 0xCC, 0x33, 0x33, 0xCC, 0xCC, 0x33, 0x33],
    };
    let shade = Shade {
        pattern: Pattern { rows },
        mode: Mode::Copy,
    };
    let mut picture = Picture::new(alloc);
    picture.push(Op {
        clip: None,
        shape: Form::Fill(PAINTED, shade),
    })?;
    Ok(picture)
}

impl Desk {
    /// Two windows out of a stock of two plain ones, of which the second covers a part of the first, and nothing of them drawn
    /// yet.
    pub fn new(alloc: Global, stock: WindowStock) -> Result<Desk, Refusal>
        requires { All IsFull (⟦<WindowStock as Stocked>⟧.slots stock) }
        ensures { IfOk result (λ d. ⟦<WindowManager as DeskWindows>⟧.IsWhole d.windows d.stock) }
    {
        let list = WindowList::new(Ranks::new(alloc));
        let font = Font::built_in(alloc)?;
        let Ok(windows) = WindowManager::new(alloc, 24, 16, 0, font, list) else {
            return Err(Refusal::NoMemory);
        };
        let desk = PlainDesk {
            windows: [plain_window(2, 11, 6), plain_window(1, 3, 2)],
        };
        let mut desk = Desk {
            alloc,
            windows,
            stock,
            plain: Plain::new(alloc, desk)?,
        };
        desk.open(1)?;
        desk.open(2)?;
        Ok(desk)
    }

    /// Makes the window of the library that this one of the model is.
    fn open(&mut self, serial: u64) -> Result<(), Refusal>
        requires { ⟦<WindowManager as DeskWindows>⟧.IsWhole self.old.windows self.old.stock }
        ensures { ⟦<WindowManager as DeskWindows>⟧.IsWhole self.new.windows self.new.stock }
    {
        let mut desk = self.plain.desk;
        let at = desk.index_of(serial);
        desk.windows[at].shown = true;
        let window = desk.windows[at];
        let _made = self.windows.perform(
            &WindowCall::New(NewWindow {
                kind: BytesRef::new(b"plain"),
                place: window.place,
                size: window.size,
                shown: true,
                go_away: false,
                title: BytesRef::new(b""),
            }),
            &mut self.stock,
        )?;
        self.plain = self.plain.after(self.alloc, desk, Effect::Nothing)?;
        Ok(())
    }

    /// Whether each pixel of the screen, and each region that is kept, is what the model has.
    pub fn agrees(&self) -> bool
        requires { ⟦<WindowManager as DeskWindows>⟧.IsWhole self.now.windows self.now.stock }
    {
        for v in 0..16 {
            for h in 0..24 {
                if !self.agrees_at(Point { h, v }) {
                    return false;
                }
            }
        }
        true
    }

    fn agrees_at(&self, point: Point) -> bool
        requires { ⟦<WindowManager as DeskWindows>⟧.IsWhole self.now.windows self.now.stock }
    {
        if is_black(self.windows.screen(), point) != self.plain.is_black(point) {
            return false;
        }
        let owner = self.plain.desk.owner(point);
        let stale = self.plain.is_stale(point);
        for at in 0..self.windows.list().len() {
            let serial = self.windows.list().at(at).serial;
            let area = self.windows.area(at);
            let is_content = match owner {
                Owner::Content(of, _) => of == serial,
                _ => false,
            };
            if is_content && !self.has_part_at(at, owner, point) {
                return false;
            }
            if area.visible.contains(point) != is_content
                || area.update.contains(point) != (is_content && stale)
                || area.frame.contains(point) != (owner == Owner::Frame(serial))
            {
                return false;
            }
        }
        true
    }
}

impl Desk {
    /// Whether the library says of a pixel of the window at this index that its part is the owner's.
    fn has_part_at(&self, at: usize, owner: Owner, point: Point) -> bool
        requires { at < length self.now.windows.windows.records.items }
    {
        let window = self.windows.list().at(at);
        match owner {
            Owner::Content(_, part) => window
                .layers
                .part_at(seen_from(point, window.place))
                .is(part),
            _ => false,
        }
    }

    /// Carries out a step, and answers whether the library and the model then agree.
    pub fn follows(&mut self, step: Step) -> Result<bool, Refusal>
        requires { ⟦<WindowManager as DeskWindows>⟧.IsWhole self.old.windows self.old.stock }
        ensures { ⟦<WindowManager as DeskWindows>⟧.IsWhole self.new.windows self.new.stock }
    {
        match step {
            Step::Update(window, kinds) => return self.update(window, kinds),
            Step::Serve(window) => return self.serve(window),
            _ => self.perform(step)?,
        }
        let (desk, effect) = self.plain.desk.after(step);
        self.plain = self.plain.after(self.alloc, desk, effect)?;
        Ok(self.agrees())
    }

    /// Whether the library refuses a step as out of range, and stays as it was.
    pub fn refuses(&mut self, step: Step) -> bool
        requires { ⟦<WindowManager as DeskWindows>⟧.IsWhole self.old.windows self.old.stock }
        ensures { ⟦<WindowManager as DeskWindows>⟧.IsWhole self.new.windows self.new.stock }
    {
        let answer = self.perform(step);
        is_out_of_range(answer) && self.agrees()
    }

    /// Carries out a step that is no update by the library.
    fn perform(&mut self, step: Step) -> Result<(), Refusal>
        requires { ⟦<WindowManager as DeskWindows>⟧.IsWhole self.old.windows self.old.stock }
        ensures { ⟦<WindowManager as DeskWindows>⟧.IsWhole self.new.windows self.new.stock }
    {
        match step {
            Step::Put(window, part, shown, rect) => {
                put(self.alloc, &mut self.windows, window, part, shown, rect)
            }
            Step::TakeOut(window, part) => take_out(self.alloc, &mut self.windows, window, part),
            Step::Replace(window, painting, origin) => self.replace(window, painting, origin),
            _ => match call_of(step) {
                Some(call) => self.call(&call),
                None => Ok(()),
            },
        }
    }

    fn call(&mut self, call: &WindowCall<'_>) -> Result<(), Refusal>
        requires { ⟦<WindowManager as DeskWindows>⟧.IsWhole self.old.windows self.old.stock }
        ensures { ⟦<WindowManager as DeskWindows>⟧.IsWhole self.new.windows self.new.stock }
    {
        let _done = self.windows.perform(call, &mut self.stock)?;
        Ok(())
    }

    fn replace(&mut self, window: u64, painting: Painting, origin: Point) -> Result<(), Refusal>
        requires { ⟦<WindowManager as DeskWindows>⟧.IsWhole self.old.windows self.old.stock }
        ensures { ⟦<WindowManager as DeskWindows>⟧.IsWhole self.new.windows self.new.stock }
    {
        let picture = picture(self.alloc, painting)?;
        self.call(&WindowCall::SetPicture(NewPicture {
            window,
            picture: PictureRef::new(&picture),
            origin,
        }))
    }

    /// Performs a call on updates, if it may come.
    fn update_by(
        &mut self,
        updates: &mut Updates,
        activity: &mut Activity,
        call: &UpdateCall<'_>,
    ) -> Result<(), Refusal>
        requires whole { ⟦<WindowManager as DeskWindows>⟧.IsWhole self.old.windows self.old.stock }
        requires updates { ⟦<Updates as DeskUpdates>⟧.IsWhole activity.old self.old.windows updates.old }
        ensures whole { ⟦<WindowManager as DeskWindows>⟧.IsWhole self.new.windows self.new.stock }
        ensures updates { ⟦<Updates as DeskUpdates>⟧.IsWhole activity.new self.new.windows updates.new }
    {
        update(&mut self.windows, updates, activity, call)
    }

    /// Begins the update of a window, draws these kinds of layers, and ends it.
    fn update(&mut self, window: u64, kinds: &[Kind]) -> Result<bool, Refusal>
        requires { ⟦<WindowManager as DeskWindows>⟧.IsWhole self.old.windows self.old.stock }
        ensures { ⟦<WindowManager as DeskWindows>⟧.IsWhole self.new.windows self.new.stock }
    {
        let mut updates = updates_for(self.alloc, &self.windows)?;
        let mut activity = Activity::Idle;
        let begin = UpdateCall::Begin(window);
        self.update_by(&mut updates, &mut activity, &begin)?;
        let mut agree = self.agrees();
        for at in 0..kinds.len() {
            let layers = kinds[at];
            let draw = UpdateCall::Draw(LayerDraw { window, layers });
            self.update_by(&mut updates, &mut activity, &draw)?;
            self.plain = self.plain.redrawn(self.alloc, window, layers)?;
            agree = agree && self.agrees();
        }
        let end = UpdateCall::End(window);
        self.update_by(&mut updates, &mut activity, &end)?;
        Ok(agree && self.agrees())
    }

    /// Performs a call on updates while none is open.
    fn update_at_once(&mut self, call: &UpdateCall<'_>) -> Result<(), Refusal>
        requires { ⟦<WindowManager as DeskWindows>⟧.IsWhole self.old.windows self.old.stock }
        ensures { ⟦<WindowManager as DeskWindows>⟧.IsWhole self.new.windows self.new.stock }
    {
        update_at_once(self.alloc, &mut self.windows, call)
    }

    /// Serves a window.
    fn serve(&mut self, window: u64) -> Result<bool, Refusal>
        requires { ⟦<WindowManager as DeskWindows>⟧.IsWhole self.old.windows self.old.stock }
        ensures { ⟦<WindowManager as DeskWindows>⟧.IsWhole self.new.windows self.new.stock }
    {
        self.update_at_once(&UpdateCall::Serve(window))?;
        self.plain = self.plain.served(self.alloc, window)?;
        Ok(self.agrees())
    }
}

/// Whether a call was refused as out of range.
fn is_out_of_range(answer: Result<(), Refusal>) -> bool {
    match answer {
        Ok(()) => false,
        Err(refusal) => refusal == Refusal::OutOfRange,
    }
}

/// Whether the map has the pixel, and it is black.
fn is_black(map: &BitMap, point: Point) -> bool {
    map.bounds().contains(point) && map.get(point)
}

/// The call of a step that is a call on windows without more.
fn call_of(step: Step) -> Option<WindowCall<'static>> {
    match step {
        Step::Move(window, place) => Some(WindowCall::Move(MoveWindow {
            window,
            place,
            select: false,
        })),
        Step::Resize(window, size) => Some(WindowCall::Size(SizeWindow { window, size })),
        Step::Hide(window) => Some(WindowCall::Hide(window)),
        Step::Show(window) => Some(WindowCall::Show(window)),
        Step::Front(window) => Some(WindowCall::BringToFront(window)),
        Step::Back(window) => Some(WindowCall::SendBehind(SendBehind {
            window,
            behind: None,
        })),
        Step::Scroll(window, by) => Some(WindowCall::Scroll(ScrollPicture { window, by })),
        Step::Invert(window, rect) => Some(WindowCall::Draw(Drawing {
            window,
            operation: OpRef {
                clip: None,
                shape: ShapeRef::Invert(rect),
            },
        })),
        _ => None,
    }
}
