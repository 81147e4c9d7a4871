//! The steps of a look.
ghost use Rattle.std.specs.Prelude.{◌≡◌, false};
ghost use Rattle.looks.specs.Marks.{black_fill, white_fill, black_frame, white_plate, black_text, when, cut_to};
ghost use Rattle.looks.specs.Marks.{placed_text, text_at, centred_text, grayed, inverted, light_gray_fill, black_cross};
ghost use Rattle.looks.specs.Marks.{black_round, white_inside, inverted_inside};

use crate::pen::{Baseline, Pen, Place, Plate};
use crate::rects::sides;
use crate::rounded::Rounded;
use bit_map::{Mode, Pattern};
use draw_port::Shade;
use shape_strips::Corner;
use tb_geom::Rect;

/// What a step draws.
#[derive(Clone, Copy)]
pub enum Mark {
    /// All of a rectangle.
    Fill(Rect, Shade),
    /// The outermost pixels of a rectangle.
    Frame(Rect, Shade),
    /// White behind the text.
    Behind(Plate),
    /// The text in black.
    Text(Place),
    /// Both diagonals of a square in black: of any rectangle, those from its two upper corners on, as far
    /// as they lie in it.
    Cross(Rect),
    /// A rectangle with rounded corners, or what its frame leaves.
    Round(Rounded, Shade),
}

/// A step of a look. It draws nothing where it is off.
#[derive(Clone, Copy)]
pub struct Step {
    pub on: bool,
    /// Pixels outside stay as they are.
    pub cut: Rect,
    pub mark: Mark,
}

/// All black.
const BLACK: Shade = Shade {
    pattern: Pattern::BLACK,
    mode: Mode::Copy,
};

/// All white.
const WHITE: Shade = Shade {
    pattern: Pattern::WHITE,
    mode: Mode::Copy,
};

/// Every other pixel white.
const GRAY_AWAY: Shade = Shade {
    pattern: Pattern::GRAY,
    mode: Mode::Bic,
};

/// The other color of each pixel.
const TURNED: Shade = Shade {
    pattern: Pattern::BLACK,
    mode: Mode::Xor,
};

/// One pixel in four black.
const LIGHT_GRAY: Shade = Shade {
    pattern: Pattern::LIGHT_GRAY,
    mode: Mode::Copy,
};

impl Step {
    /// Black on all of a rectangle.
    pub fn black_fill(rect: Rect) -> Step
        ensures { result ≡ black_fill rect }
    {
        Step {
            on: true,
            cut: rect,
            mark: Mark::Fill(rect, BLACK),
        }
    }

    /// White on all of a rectangle.
    pub fn white_fill(rect: Rect) -> Step
        ensures { result ≡ white_fill rect }
    {
        Step {
            on: true,
            cut: rect,
            mark: Mark::Fill(rect, WHITE),
        }
    }

    /// The outermost pixels of a rectangle in black.
    pub fn black_frame(rect: Rect) -> Step
        ensures { result ≡ black_frame rect }
    {
        Step {
            on: true,
            cut: rect,
            mark: Mark::Frame(rect, BLACK),
        }
    }

    /// White behind the text, within a cut.
    pub fn white_plate(cut: Rect, plate: Plate) -> Step
        ensures { result ≡ white_plate cut plate }
    {
        Step {
            on: true,
            cut,
            mark: Mark::Behind(plate),
        }
    }

    /// The text in the middle of a width, on a baseline, within a cut.
    pub fn black_text(cut: Rect, width: u16, baseline: i32) -> Step
        ensures { result ≡ black_text cut width baseline }
    {
        Step {
            on: true,
            cut,
            mark: Mark::Text(Place {
                pen: Pen::Middle(width),
                baseline: Baseline::At(baseline),
            }),
        }
    }

    /// Light gray on all of a rectangle, in place of what stands there.
    pub fn light_gray_fill(rect: Rect) -> Step
        ensures { result ≡ light_gray_fill rect }
    {
        Step {
            on: true,
            cut: rect,
            mark: Mark::Fill(rect, LIGHT_GRAY),
        }
    }

    /// Every other pixel of a rectangle white, as what cannot be used is shown.
    pub fn grayed(rect: Rect) -> Step
        ensures { result ≡ grayed rect }
    {
        Step {
            on: true,
            cut: rect,
            mark: Mark::Fill(rect, GRAY_AWAY),
        }
    }

    /// Each pixel of a rectangle in its other color.
    pub fn inverted(rect: Rect) -> Step
        ensures { result ≡ inverted rect }
    {
        Step {
            on: true,
            cut: rect,
            mark: Mark::Fill(rect, TURNED),
        }
    }

    /// Both diagonals of a square in black.
    pub fn black_cross(rect: Rect) -> Step
        ensures { result ≡ black_cross rect }
    {
        Step {
            on: true,
            cut: rect,
            mark: Mark::Cross(rect),
        }
    }

    /// Black on a rectangle with rounded corners.
    pub fn black_round(rect: Rect, corner: Corner) -> Step
        ensures { result ≡ black_round rect corner }
    {
        Step {
            on: true,
            cut: rect,
            mark: Mark::Round(Rounded::whole(rect, corner), BLACK),
        }
    }

    /// White on what a frame of one pixel leaves of it.
    pub fn white_inside(rect: Rect, corner: Corner) -> Step
        ensures { result ≡ white_inside rect corner }
    {
        Step {
            on: true,
            cut: rect,
            mark: Mark::Round(Rounded::inside_of(rect, corner), WHITE),
        }
    }

    /// Each pixel of that in its other color.
    pub fn inverted_inside(rect: Rect, corner: Corner) -> Step
        ensures { result ≡ inverted_inside rect corner }
    {
        Step {
            on: true,
            cut: rect,
            mark: Mark::Round(Rounded::inside_of(rect, corner), TURNED),
        }
    }

    /// The text at a place, within a cut.
    pub fn placed_text(cut: Rect, place: Place) -> Step
        ensures { result ≡ placed_text cut place }
    {
        Step {
            on: true,
            cut,
            mark: Mark::Text(place),
        }
    }

    /// The text from a column on, on a baseline, within a cut.
    pub fn text_at(cut: Rect, column: i32, baseline: Baseline) -> Step
        ensures { result ≡ text_at cut column baseline }
    {
        let pen = Pen::At(column);
        Step::placed_text(cut, Place { pen, baseline })
    }

    /// The text in the middle of a width, on a baseline that may depend on the font, within a cut.
    pub fn centred_text(cut: Rect, width: u16, baseline: Baseline) -> Step
        ensures { result ≡ centred_text cut width baseline }
    {
        let pen = Pen::Middle(width);
        Step::placed_text(cut, Place { pen, baseline })
    }

    /// The step, where the test holds, and off where it does not.
    pub fn when(self, test: bool) -> Step
        ensures { result ≡ when test self }
    {
        Step { on: test, ..self }
    }

    /// The step within another cut.
    pub fn cut_to(self, cut: Rect) -> Step
        ensures { result ≡ cut_to cut self }
    {
        Step { cut, ..self }
    }
}

/// A step that draws nothing.
impl Default for Step {
    ghost is_default = { λ s. s.on ≡ false };

    fn default() -> Step {
        let rect = sides(0, 0, 0, 0);
        Step {
            on: false,
            cut: rect,
            mark: Mark::Fill(rect, WHITE),
        }
    }
}
