//! Forms that calls carry: judged, and made regions and bytes.
ghost use Rattle.std.specs.Prelude.{◌≡◌, ◌&&◌, true, false, IfOk, MatchResult};
ghost use Rattle.std.specs.List.{list_all};
ghost use Rattle.tb_geom.specs.declared.point.Point.{Point};
ghost use Rattle.tb_geom.specs.Pixels.{holds};
ghost use Rattle.tb_geom.specs.Rects.{is_in_range};
ghost use Rattle.shape_strips.specs.Rounds.{round_holds};
ghost use Rattle.shape_strips.specs.Frames.{frame_holds};
ghost use Rattle.shape_strips.specs.Lines.{line_holds, pen_fits};
ghost use Rattle.shape_region.specs.Polygons.{are_in_plane, frame_polygon_holds, polygon_holds};
ghost use Rattle.shape_arcs.specs.Wedges.{arc_holds, frame_arc_holds};
ghost use Rattle.pixel_rows.specs.Told.{AreRegionBytes, IsNotTold};
ghost use Rattle.lent_ops.specs.Forms.{are_angles, corner_of, form_holds, has_points, is_corner, is_form_in_range, is_form_long, is_line_in_range, is_pen, pen_of};
ghost use Rattle.lent_ops.specs.Points.{are_many, points_of};
ghost use Rattle.lent_ops.specs.Judged.{judged_holds};

use crate::form_ref::{AnglesRef, CornerRef, FormRef, PenRef};
use crate::points::{are_many, are_near, are_points, fits_at_all};
use crate::polygons::{FramedPolygon, Polygon};
use pixel_rows::pixel_bytes;
use region_inset::pixel_region;
use scan_region::Region;
use shape_arcs::{Arc, FrameArc};
use shape_region::{Frame, Solid, form_bytes, form_region};
use shape_strips::{Corner, LineStrip, Pen, RoundStrip};
use std::alloc::{AllocError, Global};
use tb_geom::{Point, Rect, Refusal};

/// The longest side that a corner may have.
const LONGEST_CORNER: i32 = 32767;

/// The longest side that a pen may have.
const LONGEST_PEN: i32 = 1024;

/// The least degree that an arc may start at or go over, and the greatest.
const FIRST_DEGREE: i32 = -32768;

const LAST_DEGREE: i32 = 32767;

/// A form whose numbers are judged.
#[derive(Clone, Copy)]
enum Judged<'a> {
    Painted(RoundStrip),
    Framed(Frame),
    Drawn(LineStrip),
    Filled(Polygon<'a>),
    Outlined(FramedPolygon<'a>),
    Wedge(Arc),
    FramedWedge(FrameArc),
}

impl<'a> FormRef<'a> {
    /// Whether the bytes of a polygon are four for each of its points; of another form, true.
    pub fn has_points(&self) -> bool
        ensures { result ≡ has_points self.now }
    {
        match self {
            FormRef::Polygon(bytes) | FormRef::FramePolygon(bytes, _) => {
                are_points(bytes.as_slice())
            }
            _ => true,
        }
    }

    /// Whether a polygon has more than 1024 points.
    pub fn is_long(&self) -> bool
        ensures { result ≡ is_form_long self.now }
    {
        match self {
            FormRef::Polygon(bytes) | FormRef::FramePolygon(bytes, _) => are_many(bytes.as_slice()),
            _ => false,
        }
    }

    /// Whether each number of the form lies in its range: the sides of the rectangle in -16384..=16383, those of the
    /// corner in 0..=32767, and those of the pen in 0..=1024; the degrees of an arc in -32768..=32767; the ends of a line in -16384..=16383, and its pixels in
    /// -16384..=16382; the points of a polygon as the ends of a line, without its pen where it is not framed.
    pub fn is_near(&self) -> bool
        ensures { result ≡ is_form_in_range self.now }
    {
        match self {
            FormRef::Rect(rect) | FormRef::Oval(rect) => rect.is_in_range(),
            FormRef::Round(rect, corner) => rect.is_in_range() && corner.is_near(),
            FormRef::FrameRect(rect, pen) | FormRef::FrameOval(rect, pen) => {
                rect.is_in_range() && pen.is_near()
            }
            FormRef::FrameRound(rect, corner, pen) => {
                rect.is_in_range() && (corner.is_near() && pen.is_near())
            }
            FormRef::Arc(rect, angles) => rect.is_in_range() && angles.are_near(),
            FormRef::FrameArc(rect, angles, pen) => {
                rect.is_in_range() && (angles.are_near() && pen.is_near())
            }
            FormRef::Line(from, to, pen) => is_line_near(*from, *to, *pen),
            FormRef::Polygon(bytes) => are_near(bytes.as_slice()),
            FormRef::FramePolygon(bytes, pen) => is_frame_near(bytes.as_slice(), *pen),
        }
    }

    /// The region of the form's pixels, in the coordinate space of its rectangle.
    pub fn to_region(&self, alloc: Global) -> Result<Region, AllocError>
        requires near { is_form_in_range self.now ≡ true }
        requires few { is_form_long self.now ≡ false }
        ensures { IfOk result (λ region. (p : Point) → holds region p ≡ form_holds self.now p) }
    {
        match self.judged() {
            Judged::Painted(strip) => form_region(alloc, &Solid { strip: &strip }),
            Judged::Framed(frame) => form_region(alloc, &frame),
            Judged::Drawn(line) => form_region(alloc, &Solid { strip: &line }),
            Judged::Filled(polygon) => polygon.region(alloc),
            Judged::Outlined(frame) => frame.region(alloc),
            Judged::Wedge(arc) => form_region(alloc, &arc),
            Judged::FramedWedge(frame) => pixel_region(alloc, &frame),
        }
    }

    /// The bytes of the region of the form's pixels (*Inside Macintosh* I, "QuickDraw": the type `Region`). TooLong
    /// where they would be more than 32766, else it refuses only for want of memory.
    pub fn to_bytes(&self, alloc: Global) -> Result<Vec<u8>, Refusal>
        requires near { is_form_in_range self.now ≡ true }
        requires few { is_form_long self.now ≡ false }
        ensures { MatchResult result (λ bytes. AreRegionBytes (form_holds self.now) bytes.items)
            (IsNotTold (form_holds self.now)) }
    {
        match self.judged() {
            Judged::Painted(strip) => form_bytes(alloc, &Solid { strip: &strip }),
            Judged::Framed(frame) => form_bytes(alloc, &frame),
            Judged::Drawn(line) => form_bytes(alloc, &Solid { strip: &line }),
            Judged::Filled(polygon) => polygon.told(alloc),
            Judged::Outlined(frame) => frame.told(alloc),
            Judged::Wedge(arc) => form_bytes(alloc, &arc),
            Judged::FramedWedge(frame) => pixel_bytes(alloc, &frame),
        }
    }

    /// The form with its numbers in range.
    fn judged(&self) -> Judged<'a>
        requires near { is_form_in_range self.now ≡ true }
        requires few { is_form_long self.now ≡ false }
        ensures { (p : Point) → judged_holds result p ≡ form_holds self.now p }
    {
        match self {
            FormRef::Rect(rect) => painted(*rect, Corner::none()),
            FormRef::Round(rect, corner) => painted(*rect, corner.to_corner()),
            FormRef::Oval(rect) => painted(*rect, Corner::of_oval(*rect)),
            FormRef::FrameRect(rect, pen) => framed(*rect, Corner::none(), *pen),
            FormRef::FrameRound(rect, corner, pen) => framed(*rect, corner.to_corner(), *pen),
            FormRef::FrameOval(rect, pen) => framed(*rect, Corner::of_oval(*rect), *pen),
            FormRef::Arc(rect, angles) => wedge(*rect, *angles),
            FormRef::FrameArc(rect, angles, pen) => framed_wedge(*rect, *angles, *pen),
            FormRef::Line(from, to, pen) => drawn(*from, *to, *pen),
            FormRef::Polygon(bytes) => filled(bytes.as_slice()),
            FormRef::FramePolygon(bytes, pen) => outlined(bytes.as_slice(), *pen),
        }
    }
}

/// Whether the sides of the pen lie in 0..=1024, and it fits at both ends of the line.
fn is_line_near(from: Point, to: Point, pen: PenRef) -> bool
    ensures { result ≡ is_line_in_range from to pen }
{
    if !pen.is_near() {
        return false;
    }
    let pen = pen.to_pen();
    pen.fits_at(from) && pen.fits_at(to)
}

/// Whether the sides of the pen lie in 0..=1024, and it fits at each point of the bytes.
fn is_frame_near(bytes: &[u8], pen: PenRef) -> bool
    ensures { result ≡ (is_pen pen && list_all (pen_fits (pen_of pen)) (points_of bytes.now)) }
{
    if !pen.is_near() {
        return false;
    }
    fits_at_all(bytes, pen.to_pen())
}

/// The form of a line.
fn drawn<'a>(from: Point, to: Point, pen: PenRef) -> Judged<'a>
    requires { is_line_in_range from to pen ≡ true }
    ensures { (p : Point) → judged_holds result p ≡ line_holds from to (pen_of pen) p }
{
    let pen = pen.to_pen();
    Judged::Drawn(LineStrip { from, to, pen })
}

/// The form of a polygon.
fn filled<'a>(bytes: &'a [u8]) -> Judged<'a>
    requires near { are_in_plane (points_of bytes.now) ≡ true }
    requires few { are_many bytes.now ≡ false }
    ensures { (p : Point) → judged_holds result p ≡ polygon_holds (points_of bytes.entry.now) p }
{
    Judged::Filled(Polygon { bytes })
}

/// The form of a polygon that a pen frames.
fn outlined<'a>(bytes: &'a [u8], pen: PenRef) -> Judged<'a>
    requires near { (is_pen pen && list_all (pen_fits (pen_of pen)) (points_of bytes.now)) ≡ true }
    requires few { are_many bytes.now ≡ false }
    ensures { (p : Point) → judged_holds result p ≡ frame_polygon_holds (points_of bytes.entry.now) (pen_of pen) p }
{
    let pen = pen.to_pen();
    Judged::Outlined(FramedPolygon { bytes, pen })
}

/// The form of a painted shape.
fn painted<'a>(rect: Rect, corner: Corner) -> Judged<'a>
    requires { is_in_range rect ≡ true }
    ensures { (p : Point) → judged_holds result p ≡ round_holds rect corner p }
{
    Judged::Painted(RoundStrip { rect, corner })
}

/// The form of a shape that a pen frames.
fn framed<'a>(rect: Rect, corner: Corner, pen: PenRef) -> Judged<'a>
    requires rect { is_in_range rect ≡ true }
    requires pen { is_pen pen ≡ true }
    ensures { (p : Point) → judged_holds result p ≡ frame_holds rect corner (pen_of pen) p }
{
    let pen = pen.to_pen();
    Judged::Framed(Frame { rect, corner, pen })
}

/// The form of an arc.
fn wedge<'a>(rect: Rect, angles: AnglesRef) -> Judged<'a>
    requires rect { is_in_range rect ≡ true }
    requires angles { are_angles angles ≡ true }
    ensures { (p : Point) → judged_holds result p ≡ arc_holds rect angles.start angles.angle p }
{
    let (start, angle) = angles.degrees();
    Judged::Wedge(Arc { rect, start, angle })
}

/// The form of an arc that a pen frames.
fn framed_wedge<'a>(rect: Rect, angles: AnglesRef, pen: PenRef) -> Judged<'a>
    requires rect { is_in_range rect ≡ true }
    requires angles { are_angles angles ≡ true }
    requires pen { is_pen pen ≡ true }
    ensures { (p : Point) → judged_holds result p ≡ frame_arc_holds rect angles.start angles.angle (pen_of pen) p }
{
    let (start, angle) = angles.degrees();
    let pen = pen.to_pen();
    Judged::FramedWedge(FrameArc {
        rect,
        start,
        angle,
        pen,
    })
}

impl AnglesRef {
    /// Whether both numbers lie in -32768..=32767.
    fn are_near(&self) -> bool
        ensures { result ≡ are_angles self.now }
    {
        (FIRST_DEGREE <= self.start && self.start <= LAST_DEGREE)
            && (FIRST_DEGREE <= self.angle && self.angle <= LAST_DEGREE)
    }

    /// The two numbers.
    fn degrees(&self) -> (i16, i16)
        requires { are_angles self.now ≡ true }
        ensures { result ≡ (self.now.start, self.now.angle) }
    {
        (self.start as i16, self.angle as i16)
    }
}

impl CornerRef {
    /// Whether each side lies in 0..=32767.
    fn is_near(&self) -> bool
        ensures { result ≡ is_corner self.now }
    {
        (0 <= self.width && self.width <= LONGEST_CORNER)
            && (0 <= self.height && self.height <= LONGEST_CORNER)
    }

    fn to_corner(&self) -> Corner
        requires { is_corner self.now ≡ true }
        ensures { result ≡ corner_of self.now }
    {
        let CornerRef { width, height } = *self;
        Corner {
            width: width as u16,
            height: height as u16,
        }
    }
}

impl PenRef {
    /// Whether each side lies in 0..=1024.
    pub(crate) fn is_near(&self) -> bool
        ensures { result ≡ is_pen self.now }
    {
        (0 <= self.width && self.width <= LONGEST_PEN)
            && (0 <= self.height && self.height <= LONGEST_PEN)
    }

    pub(crate) fn to_pen(&self) -> Pen
        requires { is_pen self.now ≡ true }
        ensures { result ≡ pen_of self.now }
    {
        Pen {
            width: self.width as u16,
            height: self.height as u16,
        }
    }
}
