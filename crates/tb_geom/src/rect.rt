//! Rectangles, each stated by the pixels that it encloses.
ghost use Rattle.std.specs.Prelude.{◌≡◌, ◌↔◌, false, true, ◌&&◌, ◌||◌, ◌+ℤ◌, IsTrue, IfOk, IfErr, is_ok};
ghost use Rattle.tb_geom.specs.Points.{minus};
ghost use Rattle.tb_geom.specs.declared.point.Point.{Point};
ghost use Rattle.tb_geom.specs.declared.rect.Rect.{Rect};
ghost use Rattle.tb_geom.specs.Rects.{IsBoxOf, between, rect_holds, in_plane, is_in_range, is_coordinate, moved_rect};
ghost use Rattle.tb_geom.specs.Rects.{is_empty_rect, empty_rect, shared_rect, rect_around};

use crate::{Point, Refusal};

/// The pixels with `left <= h < right` and `top <= v < bottom` (*Inside Macintosh* I, "QuickDraw",
/// "Rectangles"). It is empty where `right <= left` or `bottom <= top`.
#[derive(Clone, Copy, Debug, PartialEq, Eq)]
pub struct Rect {
    pub left: i32,
    pub top: i32,
    pub right: i32,
    pub bottom: i32,
}

/// Whether `low <= x < high`.
fn is_between(low: i32, x: i32, high: i32) -> bool
    ensures { result ≡ between low x high }
{
    low <= x && x < high
}

/// The least coordinate of a side that is kept.
pub const FIRST_SIDE: i32 = -16384;

/// The greatest coordinate of a side that is kept.
pub const LAST_SIDE: i32 = 16383;

/// Whether `x` lies in -16384..=16383.
pub(crate) fn is_coordinate(x: i32) -> bool
    ensures { result ≡ is_coordinate x }
{
    FIRST_SIDE <= x && x <= LAST_SIDE
}

/// Whether the coordinate `x`, moved by `d`, lies in -16384..=16383.
fn stays_in_range(x: i32, d: i32) -> bool
    ensures { result ≡ is_coordinate (x +ℤ d) }
{
    is_coordinate(x.saturating_add(d))
}

impl Rect {
    /// All pixels whose coordinates lie in -16384..=16383.
    pub fn plane() -> Rect
        ensures { (p : Point) → rect_holds result p ≡ in_plane p }
    {
        Rect {
            left: FIRST_SIDE,
            top: FIRST_SIDE,
            right: LAST_SIDE + 1,
            bottom: LAST_SIDE + 1,
        }
    }

    /// The rectangle moved `dh` columns to the right and `dv` rows down. OutOfRange exactly where
    /// a side of the moved rectangle leaves -16384..=16383.
    pub fn offset(self, dh: i32, dv: i32) -> Result<Rect, Refusal>
        ensures sides { IfOk result (λ r. r ≡ moved_rect self dh dv) }
        ensures pixels { IfOk result (λ r. (p : Point)
            → rect_holds r p ≡ rect_holds self (minus p (record { h = dh; v = dv }))) }
        ensures in_range { is_ok result ≡ is_in_range (moved_rect self dh dv) }
        ensures refused { IfErr result (λ e. e ≡ Refusal.OutOfRange) }
    {
        if self.stays_in_range(dh, dv) {
            Ok(self.moved(dh, dv))
        } else {
            Err(Refusal::OutOfRange)
        }
    }

    /// The rectangle moved `dh` columns and `dv` rows, which leaves all sides in range.
    fn moved(self, dh: i32, dv: i32) -> Rect
        requires { is_in_range (moved_rect self dh dv) ≡ true }
        ensures { result ≡ moved_rect self dh dv }
    {
        Rect {
            left: self.left + dh,
            top: self.top + dv,
            right: self.right + dh,
            bottom: self.bottom + dv,
        }
    }

    /// Whether the rectangle, moved `dh` columns and `dv` rows, has all sides in -16384..=16383.
    fn stays_in_range(self, dh: i32, dv: i32) -> bool
        ensures { result ≡ is_in_range (moved_rect self dh dv) }
    {
        stays_in_range(self.left, dh)
            && (stays_in_range(self.top, dv)
                && (stays_in_range(self.right, dh) && stays_in_range(self.bottom, dv)))
    }

    /// The pixels of both rectangles; the empty rectangle 0 0 0 0 where they share none.
    pub fn sect(self, other: Rect) -> Rect
        ensures pixels { (p : Point) → rect_holds result p ≡ (rect_holds self p && rect_holds other p) }
        ensures none { is_empty_rect result ≡ true → result ≡ empty_rect }
    {
        self.shared(other).or_zero()
    }

    /// The smallest rectangle that holds both; the empty rectangle 0 0 0 0 where both are empty. An
    /// empty one adds nothing.
    pub fn union(self, other: Rect) -> Rect
        ensures exact { IsBoxOf result (λ p. rect_holds self p || rect_holds other p) }
        ensures none { is_empty_rect result ≡ true → result ≡ empty_rect }
    {
        if self.is_empty() {
            other.or_zero()
        } else if other.is_empty() {
            self
        } else {
            self.around(other)
        }
    }

    /// The rectangle, 0 0 0 0 where it is empty.
    fn or_zero(self) -> Rect
        ensures pixels { (p : Point) → rect_holds result p ≡ rect_holds self p }
        ensures none { is_empty_rect result ≡ true → result ≡ empty_rect }
    {
        if self.is_empty() {
            Rect {
                left: 0,
                top: 0,
                right: 0,
                bottom: 0,
            }
        } else {
            self
        }
    }

    /// The rectangle of the greater first sides and the smaller last ones.
    fn shared(self, other: Rect) -> Rect
        ensures { result ≡ shared_rect self other }
    {
        Rect {
            left: self.left.max(other.left),
            top: self.top.max(other.top),
            right: self.right.min(other.right),
            bottom: self.bottom.min(other.bottom),
        }
    }

    /// The rectangle of the smaller first sides and the greater last ones.
    fn around(self, other: Rect) -> Rect
        ensures { result ≡ rect_around self other }
    {
        Rect {
            left: self.left.min(other.left),
            top: self.top.min(other.top),
            right: self.right.max(other.right),
            bottom: self.bottom.max(other.bottom),
        }
    }

    /// Whether the rectangle encloses the pixel at `point`.
    pub fn contains(self, point: Point) -> bool
        ensures { result ≡ rect_holds self point }
    {
        is_between(self.left, point.h, self.right) && is_between(self.top, point.v, self.bottom)
    }

    /// Whether the rectangle encloses no pixel.
    pub fn is_empty(self) -> bool
        ensures sides { result ≡ is_empty_rect self }
        ensures pixels { IsTrue result ↔ ((p : Point) → rect_holds self p ≡ false) }
    {
        self.right <= self.left || self.bottom <= self.top
    }

    /// Whether all four sides lie in -16384..=16383.
    pub fn is_in_range(self) -> bool
        ensures { result ≡ is_in_range self }
    {
        is_coordinate(self.left)
            && (is_coordinate(self.top)
                && (is_coordinate(self.right) && is_coordinate(self.bottom)))
    }
}
