//! How two regions are combined.
ghost use Rattle.std.specs.Prelude.{◌≡◌};
ghost use Rattle.region_rows.specs.Edges.{by_first, by_second};

use crate::kernel::Kept;

/// How two sets of pixels are combined.
#[derive(Clone, Copy)]
pub enum Operator {
    Union,
    Intersection,
    Difference,
    SymmetricDifference,
}

impl Operator {
    /// In a row in which the first side turns, what turns of the combination: the kept pixels of those
    /// that turn, and of the second side.
    pub fn by_first(self) -> Kept
        ensures { result ≡ by_first self }
    {
        match self {
            Operator::Union | Operator::Difference => Kept::Alone,
            Operator::Intersection => Kept::Shared,
            Operator::SymmetricDifference => Kept::All,
        }
    }

    /// The same in a row in which the second side turns, of the pixels that turn and of the first side.
    pub fn by_second(self) -> Kept
        ensures { result ≡ by_second self }
    {
        match self {
            Operator::Union => Kept::Alone,
            Operator::Intersection | Operator::Difference => Kept::Shared,
            Operator::SymmetricDifference => Kept::All,
        }
    }
}
