//! Drawing on a canvas.
ghost use Rattle.std.specs.Prelude.{◌≡◌, ◌≤◌, true, false, not, ◌&&◌, length, if◌then◌else◌};
ghost use Rattle.tb_geom.specs.declared.point.Point.{Point};
ghost use Rattle.tb_geom.specs.Points.{minus};
ghost use Rattle.tb_geom.specs.Rects.{rect_holds};
ghost use Rattle.bit_map.specs.Images.{Image, image_holds, image_bit};
ghost use Rattle.bit_map.specs.Modes.{mode_bit};
ghost use Rattle.bit_map.specs.Patterns.{pattern_bit};
ghost use Rattle.bit_blit.specs.Draws.{Draws};
ghost use Rattle.strike_font.specs.Text.{text_holds};
ghost use Rattle.scan_region.specs.Cuts.{cut_holds};
ghost use Rattle.tb_geom.specs.Pixels.{holds};
ghost use Rattle.draw_port.specs.Ops.{image_of, shade_value, clip_holds};
ghost use Rattle.draw_port.specs.Canvases.{canvas_holds, canvas_point, painted_by, painted_all, pictured, SameFrame};

use crate::bounds::{column_bounds, rect_from, row_bounds};
use crate::canvas::Canvas;
use crate::picture::Picture;
use crate::placed::placed_within;
use crate::rules::{Seen, White};
use crate::shapes::{Op, RowsOfBits, Shade, Shape};
use bit_blit::{Copied, Inverse, Rule, draw_cut};
use bit_map::{BitImage, Mode, Pattern};
use scan_region::{Cut, Region};
use tb_geom::{Point, Rect};

impl Canvas<'_> {
    /// Puts the pattern, whose origin is the canvas's own, down by the mode on the rectangle.
    pub fn fill(&mut self, rect: Rect, pattern: Pattern, mode: Mode)
        ensures same_map { self.new.map.ghost_name ≡ self.old.map.ghost_name }
        ensures same_frame { SameFrame self.old self.new }
        ensures drawn { Draws (λ p. canvas_holds self.old p && rect_holds rect (canvas_point self.old p))
            (λ p old. mode_bit mode (pattern_bit pattern (canvas_point self.old p)) old)
            self.old.map.now self.new.map.now }
    {
        self.draw(rect, &Shade { pattern, mode });
    }

    /// Puts the pattern, whose origin is the canvas's own, down by the mode on every pixel of the
    /// canvas.
    pub fn fill_all(&mut self, pattern: Pattern, mode: Mode)
        ensures same_map { self.new.map.ghost_name ≡ self.old.map.ghost_name }
        ensures same_frame { SameFrame self.old self.new }
        ensures drawn { Draws (canvas_holds self.old)
            (λ p old. mode_bit mode (pattern_bit pattern (canvas_point self.old p)) old)
            self.old.map.now self.new.map.now }
    {
        self.draw_within(self.clip, &Shade { pattern, mode });
    }

    /// Inverts the rectangle.
    pub fn invert(&mut self, rect: Rect)
        ensures same_map { self.new.map.ghost_name ≡ self.old.map.ghost_name }
        ensures same_frame { SameFrame self.old self.new }
        ensures drawn { Draws (λ p. canvas_holds self.old p && rect_holds rect (canvas_point self.old p))
            (λ _ old. not old)
            self.old.map.now self.new.map.now }
    {
        self.draw(rect, &Inverse);
    }

    /// Puts an image of so many columns and rows, whose top left pixel comes to lie at `place`, down by
    /// the mode. Each of its rows takes `(width + 7) / 8` of the bytes, the high bit left; a bit for
    /// which there are too few bytes is white.
    pub fn bits(&mut self, place: Point, width: u16, height: u16, rows: &[u8], mode: Mode)
        ensures same_map { self.new.map.ghost_name ≡ self.old.map.ghost_name }
        ensures same_frame { SameFrame self.old self.new }
        ensures drawn { let image : Image = record { width = width; height = height; rows = rows.now } in
            Draws (λ p. canvas_holds self.old p && image_holds image (minus (canvas_point self.old p) place))
            (λ p old. mode_bit mode (image_bit image (minus (canvas_point self.old p) place)) old)
            self.old.map.now self.new.map.now }
    {
        let image = BitImage::new(width, height, rows);
        let copied = Copied {
            source: &image,
            origin: place,
            mode,
        };
        self.draw(rect_from(place, width, height), &copied);
    }

    /// Puts a text of at most 65535 characters down by the mode, with its pen from a point of the
    /// baseline on. A pixel that several glyphs have is drawn once.
    pub fn text(&mut self, text: &[u8], pen: Point, mode: Mode)
        requires { length text.now ≤ 65535 }
        ensures same_map { self.new.map.ghost_name ≡ self.old.map.ghost_name }
        ensures same_frame { SameFrame self.old self.new }
        ensures drawn { Draws (λ p. canvas_holds self.old p && text_holds self.old.font.now text.now pen
            (canvas_point self.old p))
            (λ p old. mode_bit mode true old)
            self.old.map.now self.new.map.now }
    {
        self.clipped_text(&None, text, pen, mode);
    }

    /// Draws an operation: each pixel of the canvas gets what the operation makes of it. Only pixels that
    /// its clip leaves are looked at; a text is drawn tile by tile, and a frame side by side.
    pub fn paint(&mut self, op: &Op)
        ensures same_map { self.new.map.ghost_name ≡ self.old.map.ghost_name }
        ensures same_frame { SameFrame self.old self.new }
        ensures drawn { Draws (canvas_holds self.old) (painted_by self.old op.now) self.old.map.now self.new.map.now }
    {
        let clip = &op.clip;
        match &op.shape {
            Shape::Erase(rect) => self.draw_clipped(clip, *rect, &White),
            Shape::Invert(rect) => self.draw_clipped(clip, *rect, &Inverse),
            Shape::Fill(rect, shade) => self.draw_clipped(clip, *rect, shade),
            Shape::Frame(rect, shade) => self.draw_frame(clip, *rect, shade),
            Shape::HLine(line, shade) => self.draw_clipped(clip, row_bounds(*line), shade),
            Shape::VLine(line, shade) => self.draw_clipped(clip, column_bounds(*line), shade),
            Shape::Text(run) => {
                self.clipped_text(clip, run.text.as_slice(), run.pen, run.mode.mode());
            }
            Shape::Bits(rows) => self.draw_rows(clip, rows),
            Shape::FillRgn(region, shade) => self.draw_region(clip, region, shade),
        }
    }

    /// Draws the operations of a picture, one after another, over what stands there.
    pub fn paint_all(&mut self, picture: &Picture)
        ensures same_map { self.new.map.ghost_name ≡ self.old.map.ghost_name }
        ensures same_frame { SameFrame self.old self.new }
        ensures drawn { Draws (canvas_holds self.old) (painted_all self.old picture.now) self.old.map.now
            self.new.map.now }
    {
        for op in picture.ops() {
            self.paint(op);
        }
    }

    /// Draws a picture: each pixel of the canvas gets the picture's value, whatever stood there.
    pub fn paint_picture(&mut self, picture: &Picture)
        ensures same_map { self.new.map.ghost_name ≡ self.old.map.ghost_name }
        ensures same_frame { SameFrame self.old self.new }
        ensures drawn { Draws (canvas_holds self.old) (pictured self.old picture.now) self.old.map.now
            self.new.map.now }
    {
        self.draw_within(self.clip, &White);
        self.paint_all(picture);
    }

    /// Puts rows of bits down where the clip leaves them.
    fn draw_rows(&mut self, clip: &Option<Region>, rows: &RowsOfBits)
        ensures same_map { self.new.map.ghost_name ≡ self.old.map.ghost_name }
        ensures same_frame { SameFrame self.old self.new }
        ensures drawn { Draws
            (λ p. canvas_holds self.old p && (clip_holds clip.now (canvas_point self.old p)
            && image_holds (image_of rows.now) (minus (canvas_point self.old p) rows.now.place)))
            (λ p old. mode_bit rows.now.mode (image_bit (image_of rows.now)
            (minus (canvas_point self.old p) rows.now.place)) old)
            self.old.map.now self.new.map.now }
    {
        let image = BitImage::new(rows.width, rows.height, rows.rows.as_slice());
        let copied = Copied {
            source: &image,
            origin: rows.place,
            mode: rows.mode,
        };
        let rect = rect_from(rows.place, rows.width, rows.height);
        self.draw_clipped(clip, rect, &copied);
    }

    /// Fills what the clip leaves of a region.
    fn draw_region<'r>(&mut self, clip: &'r Option<Region>, region: &'r Region, shade: &Shade)
        ensures same_map { self.new.map.ghost_name ≡ self.old.map.ghost_name }
        ensures same_frame { SameFrame self.old self.new }
        ensures drawn { Draws
            (λ p. canvas_holds self.old p && (clip_holds clip.now (canvas_point self.old p)
            && holds region.now (canvas_point self.old p)))
            (λ p old. shade_value shade.now (canvas_point self.old p) old)
            self.old.map.now self.new.map.now }
    {
        let shared = Cut {
            inside: [Some(region), clip.as_ref(), None],
            outside: None,
        };
        self.draw_in(&shared, region.bbox(), shade);
    }

    /// Gives each pixel of the canvas in the rectangle the value of the rule. Both are in the
    /// coordinates of the canvas.
    pub(crate) fn draw<R: Rule>(&mut self, rect: Rect, rule: &R)
        ensures same_map { self.new.map.ghost_name ≡ self.old.map.ghost_name }
        ensures same_frame { SameFrame self.old self.new }
        ensures limits { (self.old.map.now.width ≤ 32767) × (self.old.map.now.height ≤ 32767) }
        ensures drawn { Draws (λ p. canvas_holds self.old p && rect_holds rect (canvas_point self.old p))
            (λ p old. R.value rule.now (canvas_point self.old p) old)
            self.old.map.now self.new.map.now }
    {
        self.draw_within(placed_within(self.clip, rect, self.origin), rule);
    }

    /// Gives each pixel of a rectangle that the cut leaves the value of the rule. The rectangle is a part of
    /// the clip, in the coordinates of the map, and the rule is in those of the canvas.
    fn draw_within<R: Rule>(&mut self, area: Rect, rule: &R)
        requires { (p : Point) → rect_holds area p ≡ true → rect_holds self.old.clip p ≡ true }
        ensures same_map { self.new.map.ghost_name ≡ self.old.map.ghost_name }
        ensures same_frame { SameFrame self.old self.new }
        ensures limits { (self.old.map.now.width ≤ 32767) × (self.old.map.now.height ≤ 32767) }
        ensures drawn { Draws (λ p. rect_holds area p && cut_holds self.old.cut.now p)
            (λ p old. R.value rule.now (canvas_point self.old p) old)
            self.old.map.now self.new.map.now }
    {
        let _bounds = self.map.bounds();
        if area.is_empty() {
            return;
        }
        let seen = Seen {
            rule,
            origin: self.origin,
        };
        draw_cut(self.map, self.cut, area, &seen);
    }
}
