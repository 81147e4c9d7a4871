//! The calls on the desk, and the picture that one of them gives.

use bit_map::{Mode, Pattern};
use def_iface::Size;
use desk_toolbox::{Call, NewPicture, NewWindow, PictureRef, UpdateCall, WindowCall};
use draw_port::{Op, Picture, Shade, Shape};
use std::alloc::Global;
use tb_geom::{BytesRef, Point, Rect, Refusal};

/// A bar of two columns and nine rows.
const BAR: Rect = Rect {
    left: 0,
    top: 0,
    right: 2,
    bottom: 9,
};

/// The upper right pixel of the bar.
const CORNER: Rect = Rect {
    left: 1,
    top: 0,
    right: 2,
    bottom: 1,
};

/// A black bar without its upper right pixel.
pub fn bar(alloc: Global) -> Result<Picture, Refusal> {
    let black = Shade {
        pattern: Pattern::BLACK,
        mode: Mode::Copy,
    };
    let mut bar = Picture::new(alloc);
    bar.push(Op {
        clip: None,
        shape: Shape::Fill(BAR, black),
    })?;
    bar.push(Op {
        clip: None,
        shape: Shape::Erase(CORNER),
    })?;
    Ok(bar)
}

/// The call that makes a window of this kind, whose content is six pixels wide and begins at this place of the screen.
fn opening<'a>(kind: &'static [u8], place: Point, height: i32) -> Call<'a> {
    Call::Window(WindowCall::New(NewWindow {
        kind: BytesRef::new(kind),
        place,
        size: Size { width: 6, height },
        shown: true,
        go_away: false,
        title: BytesRef::new(b""),
    }))
}

/// The call that asks which window is in front at a point of the screen.
fn finding<'a>(point: Point) -> Call<'a> {
    Call::Window(WindowCall::Find(point))
}

/// The call that selects a window.
fn selecting<'a>(window: u64) -> Call<'a> {
    Call::Window(WindowCall::Select(window))
}

/// Window 1 gets a picture, from column 2 and row 1 of its content on, which is drawn; window 2 comes over its right half, and
/// window 1 in front of that again. A kind that the stock does not know and a third window are refused.
pub fn calls(picture: &Picture) -> [Call<'_>; 10] {
    let given = NewPicture {
        window: 1,
        picture: PictureRef::new(picture),
        origin: Point { h: 2, v: 1 },
    };
    let first = Point { h: 1, v: 1 };
    let second = Point { h: 5, v: 3 };
    let in_both = Point { h: 6, v: 4 };
    [
        opening(b"plain", first, 6),
        Call::Window(WindowCall::SetPicture(given)),
        Call::Update(UpdateCall::Serve(1)),
        opening(b"none", first, 6),
        opening(b"plain", second, 4),
        opening(b"plain", first, 6),
        finding(in_both),
        selecting(1),
        finding(in_both),
        Call::Window(WindowCall::Front),
    ]
}
