//! What the Window Manager can be asked, and what it answers.

use def_iface::Size;
use draw_port::Picture;
use lent_ops::{OpRef, RegionRef};
use std::alloc::{AllocError, Global};
use std::marker::Model;
use tb_geom::{BytesRef, Point};

/// A call of the Window Manager. A window is named by its serial: no window has the serial 0, none is used again, and
/// one that is not there is NoSuchWindow. Texts and the bytes of operations are borrowed, so that a call
/// takes no memory.
#[derive(Drop)]
pub enum WindowCall<'a> {
    /// Makes an ordinary window in front of all ordinary ones, behind those that float; a visible one becomes active.
    New(NewWindow<'a>),
    /// Makes a floating window, in front of all others: it is highlighted from the start, hidden too, and never active.
    /// What it takes and why it is refused is as for `New`.
    NewFloating(NewWindow<'a>),
    /// Ends a window: its definition is disposed of, and goes back Closed into its slot (DisposeWindow).
    /// Where it was active, the first visible ordinary window becomes so, or none.
    Dispose(u64),
    /// Makes a hidden window visible, and active where it is the first visible ordinary one then (ShowWindow). A
    /// visible one stays as it is.
    Show(u64),
    /// Makes a visible window hidden; it keeps its place in the order (HideWindow). Where it was
    /// active, the first visible ordinary window becomes so, or none. A hidden one stays as it is.
    Hide(u64),
    /// Makes a window visible or hidden, and changes no highlighting (ShowHide).
    ShowHide(ShowHide),
    /// Brings a window to the front of its class; a visible ordinary one becomes active (SelectWindow).
    Select(u64),
    /// Brings a window to the front of its class, and changes no highlighting (BringToFront).
    BringToFront(u64),
    /// Puts a window behind another of its class or behind all of that (SendBehind). Where it was active, the first
    /// visible ordinary window becomes so, if that is another. OutOfRange where the other is the window itself, or of the
    /// other class.
    SendBehind(SendBehind),
    /// Moves a window, and selects it where that is asked (MoveWindow). OutOfRange where it may not be
    /// there.
    Move(MoveWindow),
    /// Gives a window another size (SizeWindow). OutOfRange where it may not have it.
    Size(SizeWindow),
    /// Zooms a window, which may be any (ZoomWindow). Part 8, InZoomOut, gives one that is not zoomed the place 1 across
    /// and 19 rows below the menu bar, and the size of the screen, less 2 columns and less the menu bar and 20 rows; part
    /// 7, InZoomIn, gives one that is zoomed the place and size that it had before. Where it is zoomed so already nothing
    /// changes. A window that is moved or sized is not zoomed any more. OutOfRange where the part is another, and where
    /// the window may not be there or have the size.
    Zoom(ZoomWindow),
    /// Adds an operation to a window's picture, and draws it where the picture shows.
    Draw(Drawing<'a>),
    /// Gives a window another picture (SetWindowPic), all of which is to be redrawn where it shows. OutOfRange
    /// where its origin is no point.
    SetPicture(NewPicture<'a>),
    /// Moves a window's picture in its content (ScrollRect, SetOrigin): what comes into sight is to be redrawn.
    /// OutOfRange where its origin would be no point.
    Scroll(ScrollPicture),
    /// Whose a point of the screen is (FindWindow). A point outside the range of coordinates is
    /// OutOfRange.
    Find(Point),
    /// Which window is the first visible ordinary one (FrontWindow).
    Front,
    /// Where a window stands, and how.
    Info(u64),
    /// The bytes of a window's visible region, in the window's own coordinates: what of the screen its
    /// content owns. TooLong where they are more than 32766.
    VisibleRegion(u64),
    /// The bytes of a window's update region, in the window's own coordinates: what of its visible
    /// region is to be redrawn. TooLong where they are more than 32766.
    UpdateRegion(u64),
    /// The bytes of a region that has to do with no window: of a shape, of a region, moved, or of what two regions make
    /// together. BadRegion where bytes have not the form of a region's, OutOfRange where a number leaves its range or a moved
    /// pixel does, TooLong where the bytes are more than 32766.
    Region(RegionRef<'a>),
}

/// A window that is to be visible, or hidden.
#[derive(Clone, Copy, PartialEq, Eq)]
pub struct ShowHide {
    pub window: u64,
    pub shown: bool,
}

/// A window that is to go behind another.
#[derive(Clone, Copy, PartialEq, Eq)]
pub struct SendBehind {
    pub window: u64,
    /// The window in front of it then, another than itself and of its class, or None: behind all others of its class.
    pub behind: Option<u64>,
}

/// A window that is to stand elsewhere.
#[derive(Clone, Copy, PartialEq, Eq)]
pub struct MoveWindow {
    pub window: u64,
    /// Where the content's 0 0 is to lie on the screen.
    pub place: Point,
    /// Whether it is selected too.
    pub select: bool,
}

/// A window that is to have another size.
#[derive(Clone, Copy, PartialEq, Eq)]
pub struct SizeWindow {
    pub window: u64,
    /// Of its content.
    pub size: Size,
}

/// A window that is to be zoomed.
#[derive(Clone, Copy, PartialEq, Eq)]
pub struct ZoomWindow {
    pub window: u64,
    /// The code of the part, 7 or 8, as it was asked for, judged by nobody.
    pub part: i32,
}

/// Which way a window is zoomed.
#[derive(Clone, Copy, PartialEq, Eq)]
pub enum Zoom {
    /// To the size of the screen.
    Out,
    /// To the place and size that it had before.
    In,
}

impl ZoomWindow {
    ghost use Rattle.std.specs.Prelude.{◌≡◌};
    ghost use Rattle.desk_call.specs.Parts.{zoom_of};

    /// Which way the part zooms, if it does.
    pub fn direction(self) -> Option<Zoom>
        ensures { result ≡ zoom_of self.part }
    {
        if self.part == i32::from(WindowPart::InZoomOut.number()) {
            Some(Zoom::Out)
        } else if self.part == i32::from(WindowPart::InZoomIn.number()) {
            Some(Zoom::In)
        } else {
            None
        }
    }
}

/// A window to be made (NewWindow: *Inside Macintosh* I, "The Window Manager").
#[derive(Drop)]
pub struct NewWindow<'a> {
    /// The name of the kind, by which the stock finds a definition.
    pub kind: BytesRef<'a>,
    /// Where the content's 0 0 lies on the screen.
    pub place: Point,
    pub size: Size,
    pub shown: bool,
    /// Whether it has a go-away box.
    pub go_away: bool,
    /// At most 255 bytes.
    pub title: BytesRef<'a>,
}

/// What is to be drawn in a window.
#[derive(Drop)]
pub struct Drawing<'a> {
    /// The window's serial. No window has the serial 0.
    pub window: u64,
    /// In the coordinates of the window's picture.
    pub operation: OpRef<'a>,
}

/// A picture that a window is to have.
#[derive(Drop)]
pub struct NewPicture<'a> {
    /// The window's serial.
    pub window: u64,
    pub picture: PictureRef<'a>,
    /// Where the picture's 0 0 is to lie in the window.
    pub origin: Point,
}

/// A picture that a call lends. Contracts see the list of its operations.
#[derive(Drop)]
pub struct PictureRef<'a> {
    picture: Option<&'a Picture>,
}

impl<'a> Model for PictureRef<'a> {
    ghost use Rattle.std.specs.Prelude.{List};
    ghost use Rattle.std.specs.Coded.{coded_list};
    ghost use Rattle.draw_port.specs.declared.shapes.Op.{Op};
    ghost use Rattle.draw_port.specs.contracts.shapes.Op as op;
    ghost use Rattle.desk_call.specs.Lent.{operations_lent};

    ghost Value = { List Op };

    ghost coded = { coded_list op.the_row.coded };

    ghost view = { λ p. operations_lent p.picture };
}

impl<'a> PictureRef<'a> {
    ghost use Rattle.std.specs.Prelude.{◌≡◌, [], IfOk};

    /// This picture.
    pub fn new(picture: &'a Picture) -> PictureRef<'a>
        ensures { result ≡ picture.entry.now }
    {
        PictureRef {
            picture: Some(picture),
        }
    }

    /// The picture of no operation.
    pub fn empty() -> PictureRef<'a>
        ensures { result ≡ [] }
    {
        PictureRef { picture: None }
    }

    /// An equal picture.
    pub fn copy(&self, alloc: Global) -> Result<Picture, AllocError>
        ensures { IfOk result (λ picture. picture ≡ self.now) }
    {
        match self.picture {
            Some(picture) => picture.copy(alloc),
            None => Ok(Picture::new(alloc)),
        }
    }
}

/// A picture that is to be moved in its window.
#[derive(Clone, Copy, PartialEq, Eq)]
pub struct ScrollPicture {
    /// The window's serial.
    pub window: u64,
    /// How far the picture's origin moves.
    pub by: Point,
}

/// A part of the screen, as FindWindow answers it (*Inside Macintosh* I, "The Window Manager").
#[derive(Clone, Copy, Debug, PartialEq, Eq)]
pub enum WindowPart {
    /// The desktop, what lies off the screen, and a part of a window in which a click means nothing.
    InDesk = 0,
    InMenuBar = 1,
    InContent = 3,
    /// Where a window can be dragged.
    InDrag = 4,
    /// Where its size can be changed.
    InGrow = 5,
    /// The box that closes it.
    InGoAway = 6,
    /// The box that gives a zoomed window its own size back.
    InZoomIn = 7,
    /// The box that zooms it.
    InZoomOut = 8,
}

impl WindowPart {
    ghost use Rattle.std.specs.Prelude.{◌≡◌};
    ghost use Rattle.desk_call.specs.Parts.{part_number};

    /// The code of the part.
    pub fn number(self) -> u8
        ensures { result ≡ part_number self }
    {
        self as u8
    }
}

/// What FindWindow found at a point.
#[derive(Clone, Copy, Debug, PartialEq, Eq)]
pub struct Found {
    pub part: WindowPart,
    /// The window whose point it is, if it is one's.
    pub window: Option<u64>,
}

/// What is told of a window.
#[derive(Clone, Copy, Debug, PartialEq, Eq)]
pub struct WindowInfo {
    /// Where the content's 0 0 lies on the screen.
    pub place: Point,
    pub size: Size,
    pub shown: bool,
    pub highlighted: bool,
}

/// The value of a call that was done.
#[derive(Debug, PartialEq, Eq, Drop)]
pub enum WindowReply {
    /// Nothing more than that it was done.
    Done,
    /// The serial of a new window, from 1.
    Made(u64),
    /// Whose a point is.
    Found(Found),
    /// The serial of the first visible ordinary window, if there is one.
    Front(Option<u64>),
    /// Where a window stands, and how.
    Info(WindowInfo),
    /// A region, as its bytes (*Inside Macintosh* I, "QuickDraw": the type `Region`).
    Region(Vec<u8>),
}
