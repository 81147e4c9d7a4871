//! What a Toolbox can be asked about controls, and what it answers.

use control_values::{ControlPart, ControlValues, Highlight};
use def_iface::Size;
use tb_geom::{BytesRef, Point};

/// A call about controls (*Inside Macintosh* I, "The Control Manager"). A window and a control are named by their serials, from
/// 1 on; no one has the serial 0. Numbers are as they were asked for, judged by nobody. One that names no window is
/// NoSuchWindow, and one that names no control of it NoSuchControl. Points are in the window's own coordinates, and lie in the
/// range of coordinates; else they are OutOfRange.
#[derive(Drop)]
pub enum ControlCall<'a> {
    /// Makes a control of a window (NewControl). It lies behind the controls that the window has already, and all that it then
    /// owns is drawn. OutOfRange where a number of it is out of its range, or the minimum above the maximum, TooLong where the
    /// title has more than 255 bytes, TooMany where the window has 64 controls, NoDefinition where the stock has no definition
    /// of the kind left.
    New(NewControl<'a>),
    /// Ends a control: its definition is disposed of, and goes back Closed into its slot (DisposeControl).
    Dispose(ControlOf),
    /// Shows a control (ShowControl), and draws all that it then owns, also where it was shown already.
    Show(ControlOf),
    /// Hides a control (HideControl): what it owned belongs to what lies under it, and is to be redrawn. It owns nothing then.
    Hide(ControlOf),
    /// Moves a control to another place in its window (MoveControl), and draws all that it then owns.
    Move(MoveControl),
    /// Gives a control another size (SizeControl), and draws all that it then owns.
    Size(SizeControl),
    /// Sets the value (SetCtlValue). One outside minimum and maximum is moved to the nearer of them; OutOfRange outside
    /// -32768..=32767.
    SetValue(ControlNumber),
    /// Sets the minimum (SetCtlMin), and moves a value below it up to it. OutOfRange outside -32768..=32767 and above the
    /// maximum.
    SetMinimum(ControlNumber),
    /// Sets the maximum (SetCtlMax), and moves a value above it down to it. OutOfRange outside -32768..=32767 and below the
    /// minimum.
    SetMaximum(ControlNumber),
    /// Highlights a control (HiliteControl): 0 not at all, 1..=253 the part of this part code, 255 as inactive. Any other number
    /// is OutOfRange.
    Hilite(ControlNumber),
    /// Gives a control another title (SetCTitle). TooLong where that has more than 255 bytes.
    SetTitle(ControlTitle<'a>),
    /// The value of a control, its minimum and its maximum (GetCtlValue, GetCtlMin, GetCtlMax), how it is highlighted, and
    /// whether it is shown.
    Get(ControlOf),
    /// Which control owns a point of a window's content, and which part of it lies there (FindControl). One that is inactive is
    /// not found.
    Find(PointInWindow),
    /// In which part of this control a point lies (TestControl), whatever lies over it: in none of one that is hidden or
    /// inactive.
    Test(PointAtControl),
    /// The mouse button was pressed at this point (TrackControl, its begin). Where `Test` answers a part there, its tracking
    /// begins, and it is highlighted, but for a thumb; else nothing begins.
    Track(PointAtControl),
    /// The mouse is at this point of the window, while a part is tracked (TrackControl, a step): that part is highlighted while
    /// `Test` answers it there, and else no part. Of a thumb nothing is highlighted; it is answered while the point lies no
    /// further than 16 pixels outside the control's rectangle.
    Step(Point),
    /// The mouse button was released at this point of the window (TrackControl, its end): no part is highlighted then, and the
    /// one that is tracked is answered where the point lies in it. A thumb is answered where a step would answer it; it stands
    /// then as far along as the mouse went, and the value is set by its place, while the highlighting stays as it was.
    End(Point),
}

/// A control to be made (NewControl: *Inside Macintosh* I, "The Control Manager").
#[derive(Drop)]
pub struct NewControl<'a> {
    /// The serial of its window.
    pub window: u64,
    /// The name of the kind, by which the stock finds a definition.
    pub kind: BytesRef<'a>,
    /// Where its top left corner lies in the window.
    pub place: Point,
    /// Its width and its height, each in 1..=1024.
    pub size: Size,
    pub shown: bool,
    /// In -32768..=32767, and at most the maximum.
    pub minimum: i32,
    /// In -32768..=32767.
    pub maximum: i32,
    /// In -32768..=32767. One outside minimum and maximum is moved to the nearer of them.
    pub value: i32,
    /// At most 255 bytes.
    pub title: BytesRef<'a>,
}

/// A control of a window.
#[derive(Clone, Copy, Debug, PartialEq, Eq)]
pub struct ControlOf {
    pub window: u64,
    pub control: u64,
}

/// A control that is to lie elsewhere.
#[derive(Clone, Copy, Debug, PartialEq, Eq)]
pub struct MoveControl {
    pub control: ControlOf,
    /// Where its top left corner is to lie in the window.
    pub place: Point,
}

/// A control that is to have another size.
#[derive(Clone, Copy, Debug, PartialEq, Eq)]
pub struct SizeControl {
    pub control: ControlOf,
    /// Its width and its height, each in 1..=1024.
    pub size: Size,
}

/// A control, and a number that it is to have.
#[derive(Clone, Copy, Debug, PartialEq, Eq)]
pub struct ControlNumber {
    pub control: ControlOf,
    pub number: i32,
}

/// A control that is to have another title.
#[derive(Drop)]
pub struct ControlTitle<'a> {
    pub control: ControlOf,
    /// At most 255 bytes.
    pub title: BytesRef<'a>,
}

/// A point of a window.
#[derive(Clone, Copy, Debug, PartialEq, Eq)]
pub struct PointInWindow {
    pub window: u64,
    /// In the window's own coordinates.
    pub point: Point,
}

/// A point at which a control is asked for.
#[derive(Clone, Copy, Debug, PartialEq, Eq)]
pub struct PointAtControl {
    pub control: ControlOf,
    /// In the coordinates of the control's window.
    pub point: Point,
}

/// What is told of a control.
#[derive(Clone, Copy, Debug, PartialEq, Eq)]
pub struct ControlInfo {
    /// Its value, its minimum and its maximum.
    pub values: ControlValues,
    pub highlight: Highlight,
    pub shown: bool,
}

/// What FindControl found at a point.
#[derive(Clone, Copy, Debug, PartialEq, Eq)]
pub struct FoundControl {
    pub part: ControlPart,
    /// The serial of the control.
    pub control: u64,
}

/// The value of a call about controls that was done.
#[derive(Clone, Copy, Debug, PartialEq, Eq)]
pub enum ControlReply {
    /// Nothing more than that it was done.
    Done,
    /// The serial of a new control, from 1.
    Made(u64),
    /// What is told of a control.
    Info(ControlInfo),
    /// What was found at a point, if something was.
    Found(Option<FoundControl>),
    /// The part in which a point lies, if it lies in one, or of a part that is tracked that the point is in it.
    Part(Option<ControlPart>),
}
