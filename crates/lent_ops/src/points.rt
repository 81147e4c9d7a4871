//! The points of polygons, by their bytes.
ghost use Rattle.std.specs.Prelude.{◌≡◌, ◌≤◌, true, false, length, take, MatchOption};
ghost use Rattle.std.specs.List.{list_all};
ghost use Rattle.shape_strips.specs.Lines.{pen_fits};
ghost use Rattle.shape_region.specs.Polygons.{are_in_plane};
ghost use Rattle.lent_ops.specs.Points.{are_points, are_many, points_of, word_of, IsFirstPoint, IsNoPoint};

use shape_strips::Pen;
use tb_geom::Point;

/// The most bytes of a polygon, which has 1024 points at most.
const MOST_BYTES: usize = 4096;

/// The points of a polygon: the first so many of these.
#[derive(Clone, Copy)]
pub struct Points {
    room: [Point; 1024],
    count: usize,
    ghost size: { length room ≡ 1024 },
    ghost few: { count ≤ 1024 },
}

impl Points {
    /// The points of the bytes.
    pub fn new(bytes: &[u8]) -> Points
        requires { are_many bytes.now ≡ false }
        ensures { take result.count result.room ≡ points_of bytes.now }
    {
        let mut room = [Point { h: 0, v: 0 }; 1024];
        let mut count = 0;
        let mut rest = bytes;
        while let Some((point, next)) = first_point(rest) {
            room[count] = point;
            count += 1;
            rest = next;
        }
        Points { room, count }
    }

    /// The points.
    pub fn as_slice(&self) -> &[Point]
        ensures { result.now ≡ take self.now.count self.now.room }
    {
        &self.room[..self.count]
    }
}

/// Whether bytes are four for each of some points.
pub fn are_points(bytes: &[u8]) -> bool
    ensures { result ≡ are_points bytes.now }
{
    let mut rest = bytes;
    while let Some((_, next)) = first_point(rest) {
        rest = next;
    }
    rest.is_empty()
}

/// Whether bytes are more than 1024 points have.
pub fn are_many(bytes: &[u8]) -> bool
    ensures { result ≡ are_many bytes.now }
{
    MOST_BYTES < bytes.len()
}

/// Whether a pen fits at each point.
pub fn fits_at_all(bytes: &[u8], pen: Pen) -> bool
    ensures { result ≡ list_all (pen_fits pen) (points_of bytes.now) }
{
    let mut rest = bytes;
    while let Some((point, next)) = first_point(rest) {
        if !pen.fits_at(point) {
            return false;
        }
        rest = next;
    }
    true
}

/// Whether each point lies in -16384..=16383.
pub fn are_near(bytes: &[u8]) -> bool
    ensures { result ≡ are_in_plane (points_of bytes.now) }
{
    let mut rest = bytes;
    while let Some((point, next)) = first_point(rest) {
        if !point.is_in_range() {
            return false;
        }
        rest = next;
    }
    true
}

/// The first point of bytes, and the bytes behind it.
fn first_point<'a>(bytes: &'a [u8]) -> Option<(Point, &'a [u8])>
    ensures { MatchOption result (IsNoPoint bytes.entry.now) (λ r. IsFirstPoint bytes.entry.now r.0 r.1.now) }
{
    match bytes {
        [v_high, v_low, h_high, h_low, rest @ ..] => {
            let h = word_of(*h_high, *h_low);
            let v = word_of(*v_high, *v_low);
            Some((Point { h, v }, rest))
        }
        _ => None,
    }
}

/// The number that two bytes say, the high one first.
fn word_of(high: u8, low: u8) -> i32
    ensures { result ≡ word_of high low }
{
    i32::from(i16::from_be_bytes([high, low]))
}
