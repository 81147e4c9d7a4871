//! Which pixels of two regions are meant.
ghost use Rattle.std.specs.Prelude.{◌≡◌};
ghost use Rattle.pixel_rows.specs.Combined.{means};

/// Which pixels of two regions are meant.
#[derive(Clone, Copy, Debug, PartialEq, Eq)]
pub enum Combination {
    /// Those of either (*Inside Macintosh* I, "QuickDraw": `UnionRgn`).
    Union,
    /// Those of both (`SectRgn`).
    Sect,
    /// Those of the first that the second lacks (`DiffRgn`).
    Diff,
    /// Those of one alone (`XorRgn`).
    Xor,
}

impl Combination {
    /// Whether a pixel is meant, by whether each region has it.
    pub fn means(self, first: bool, second: bool) -> bool
        ensures { result ≡ means self first second }
    {
        match self {
            Combination::Union => first || second,
            Combination::Sect => first && second,
            Combination::Diff => first && !second,
            Combination::Xor => first != second,
        }
    }
}
