//! What operations make of a pixel.
ghost use Rattle.std.specs.Prelude.{◌≡◌, ◌+ℤ◌, pos, cond, true, false, not};
ghost use Rattle.tb_geom.specs.Points.{minus};
ghost use Rattle.tb_geom.specs.Rects.{between, rect_holds};
ghost use Rattle.bit_map.specs.Images.{image_holds, image_bit};
ghost use Rattle.bit_map.specs.Modes.{mode_bit};
ghost use Rattle.draw_port.specs.Ops.{is_end, frame_holds, row_holds, column_holds, run_holds, image_of, text_mode};
ghost use Rattle.draw_port.specs.Ops.{shade_value, shape_holds, shape_value, clip_holds, op_value};

use crate::shapes::{Line, Op, RowsOfBits, Shade, Shape, TextMode, TextRun};
use bit_blit::{Copied, Rule};
use bit_map::{BitImage, Mode};
use scan_region::Region;
use strike_font::Font;
use tb_geom::{Point, Rect};

/// Whether `x` is the first or the last number of `low..high`.
#[tactic(auto, unfolding(crate::specs::Ops::is_end))]
fn is_end(low: i32, x: i32, high: i32) -> bool
    ensures { result ≡ is_end low x high }
{
    x == low || i64::from(x) + 1 == i64::from(high)
}

/// Whether the point is one of the outermost pixels of the rectangle.
fn frame_holds(rect: Rect, point: Point) -> bool
    ensures { result ≡ frame_holds rect point }
{
    rect.contains(point)
        && (is_end(rect.left, point.h, rect.right) || is_end(rect.top, point.v, rect.bottom))
}

/// Whether `x` is one of the `count` numbers from `start` on.
fn in_run(start: i32, count: u16, x: i32) -> bool
    ensures { result ≡ between start x (start +ℤ pos count) }
{
    start <= x && i64::from(x) < i64::from(start) + i64::from(count)
}

impl Line {
    /// Whether the line, drawn to the right, has the point.
    fn row_holds(self, point: Point) -> bool
        ensures { result ≡ row_holds self point }
    {
        in_run(self.start.h, self.count, point.h) && point.v == self.start.v
    }

    /// Whether the line, drawn down, has the point.
    fn column_holds(self, point: Point) -> bool
        ensures { result ≡ column_holds self point }
    {
        point.h == self.start.h && in_run(self.start.v, self.count, point.v)
    }
}

impl Rule for Shade {
    ghost value = { shade_value };

    fn value(&self, point: Point, old: bool) -> bool {
        self.mode.apply(self.pattern.bit(point), old)
    }

    fn word(&self, start: Point, _count: usize, old: u64) -> u64 {
        self.pattern.effects(self.mode, start).of(old)
    }

    fn words(&self, start: Point, run: &mut [u64]) {
        self.pattern.effects(self.mode, start).lay(run);
    }
}

impl Shade {
    /// The new bit where `held`, and the old one elsewhere.
    fn value_where(&self, held: bool, point: Point, old: bool) -> bool
        ensures { result ≡ cond held (shade_value self.now point old) old }
    {
        if held { self.value(point, old) } else { old }
    }
}

impl TextMode {
    /// The mode of its name.
    pub fn mode(self) -> Mode
        ensures { result ≡ text_mode self }
    {
        match self {
            TextMode::Or => Mode::Or,
            TextMode::Xor => Mode::Xor,
            TextMode::Bic => Mode::Bic,
        }
    }
}

impl TextRun {
    /// Whether the text has the point.
    fn contains(&self, font: &Font, point: Point) -> bool
        ensures { result ≡ run_holds font.now self.now point }
    {
        font.text_pixel(self.text.as_slice(), self.pen, point)
    }

    /// The new bit at a point, of the old one.
    fn value(&self, font: &Font, point: Point, old: bool) -> bool
        ensures { result ≡ cond (run_holds font.now self.now point) (mode_bit (text_mode self.now.mode) true old) old }
    {
        if self.contains(font, point) {
            self.mode.mode().apply(true, old)
        } else {
            old
        }
    }
}

impl RowsOfBits {
    /// The new bit at a point, of the old one.
    fn value(&self, point: Point, old: bool) -> bool
        ensures { result ≡ cond (image_holds (image_of self.now) (minus point self.now.place))
            (mode_bit self.now.mode (image_bit (image_of self.now) (minus point self.now.place)) old) old }
    {
        let image = BitImage::new(self.width, self.height, self.rows.as_slice());
        let copied = Copied {
            source: &image,
            origin: self.place,
            mode: self.mode,
        };
        copied.value(point, old)
    }
}

/// White where the rectangle has the point.
fn erased(rect: Rect, point: Point, old: bool) -> bool
    ensures { result ≡ cond (rect_holds rect point) false old }
{
    old && !rect.contains(point)
}

/// The other bit where the rectangle has the point.
fn inverted(rect: Rect, point: Point, old: bool) -> bool
    ensures { result ≡ cond (rect_holds rect point) (not old) old }
{
    if rect.contains(point) { !old } else { old }
}

impl Shape {
    /// The new bit at a point, of the old one.
    fn value(&self, font: &Font, point: Point, old: bool) -> bool
        ensures { result ≡ cond (shape_holds font.now self.now point) (shape_value self.now point old) old }
    {
        match self {
            Shape::Erase(rect) => erased(*rect, point, old),
            Shape::Invert(rect) => inverted(*rect, point, old),
            Shape::Fill(rect, shade) => shade.value_where(rect.contains(point), point, old),
            Shape::Frame(rect, shade) => shade.value_where(frame_holds(*rect, point), point, old),
            Shape::HLine(line, shade) => shade.value_where(line.row_holds(point), point, old),
            Shape::VLine(line, shade) => shade.value_where(line.column_holds(point), point, old),
            Shape::Text(run) => run.value(font, point, old),
            Shape::Bits(rows) => rows.value(point, old),
            Shape::FillRgn(region, shade) => shade.value_where(region.contains(point), point, old),
        }
    }
}

/// Whether a clip has the pixel; without a clip every pixel counts.
pub fn clip_holds(clip: &Option<Region>, point: Point) -> bool
    ensures { result ≡ clip_holds clip.now point }
{
    match clip {
        None => true,
        Some(region) => region.contains(point),
    }
}

impl Op {
    /// What the operation makes of the bit at a point.
    #[tactic(auto, unfolding(crate::specs::Ops::op_holds, crate::specs::Ops::op_value))]
    pub fn value(&self, font: &Font, point: Point, old: bool) -> bool
        ensures { result ≡ op_value font.now self.now point old }
    {
        if clip_holds(&self.clip, point) {
            self.shape.value(font, point, old)
        } else {
            old
        }
    }
}
