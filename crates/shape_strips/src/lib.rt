//! Shapes as exact sets of pixels, row by row: rectangles whose corners are quarters of an oval, ovals among them,
//! what their frames leave inside, lines that a pen draws, and what the edges of polygons turn.
//!
//! A pixel is in a round shape where its centre is: in the oval of a corner, or between the corners. Distances are
//! counted in half pixels from the middle of that oval, so that centres are at whole numbers and nothing is rounded
//! (`specs::Ovals`, `specs::Rounds`). A `Corner` is the size of the oval. It counts as no wider and no higher than
//! the shape; one that is as wide and as high makes an oval (`Corner::of_oval`), and one without width or height a
//! rectangle (`laws`).
//!
//! A frame is a round shape less its inside. A pixel is inside where the shape that is smaller by the pen on each
//! side has it, and the whole shape has it and the four pixels beside it (`specs::Frames`). The second condition
//! closes the frames of flat ovals, which would have gaps without it.
//!
//! A thin line has the nearest pixel of each column, or of each row where it is steep; of two that are as near the lower
//! one, or the right one. A line is what a pen covers that hangs below and right of the thin line (`specs::Lines`).
//!
//! An edge of a polygon turns the pixels of its rows from out to in, or back: those at whose centre, or left of it, it
//! passes the middle of the row (`specs::Bands`). What it turns, up to a column on the right, is its band. A polygon
//! is the odd sum of the bands of its edges.
//!
//! A `Strip` is a set of pixels with at most one `Run` in each row. `Strip::run` answers the run of any row by
//! itself, and takes no memory. Round shapes (`RoundStrip`), insides (`InsideStrip`), lines (`LineStrip`) and bands
//! (`BandStrip`) are strips; a frame is none, and is made of two.
//!
//! In a row the pixels of a corner are out from the side on, and in from some column on: what is nearer to the middle
//! stays in. So `Oval::lacking` finds how many are out by halving, with a test of squares below 2^61. The right end
//! of a run is the mirror image of the left one. The run of an inside is what four runs share: that of the smaller
//! shape, the shape's own less one column on either side, and those of the rows above and below.
//!
//! A band begins at the first column whose distance from the upper end of its edge, so many times, is not below another
//! number. `Slope::first_column` finds it by one division, with numbers below 2^62.
//!
//! In the rows from one to another of a thin line the pixels follow each other without a gap. So those of the rows that a
//! pen has above its last one are one run, which the pen makes wider. Its ends are found in the same way: how far a row
//! reaches past its middle is half the longer side of the line's rectangle (`specs::Lines::IsReach`).
//!
//! All rectangles lie in one coordinate space, with sides in -16384..=16383.
#![tactic(auto)]

mod band;
mod columns;
mod corner;
mod count;
mod inside;
pub mod laws;
mod line;
mod oval;
mod pen;
mod round;
mod run;
mod strip;

pub use band::BandStrip;
pub use corner::Corner;
pub use inside::InsideStrip;
pub use line::LineStrip;
pub use pen::Pen;
pub use round::RoundStrip;
pub use run::Run;
pub use strip::Strip;
