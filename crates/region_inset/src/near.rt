//! Distances.
ghost use Rattle.std.specs.Prelude.{◌≡◌};
ghost use Rattle.region_inset.specs.Near.{IsDistance, narrows, reach, widening};
ghost use Rattle.region_inset.specs.Insets.{joining};

use pixel_rows::Combination;

/// Whether all pixels within the distance have to be in a set, and not just one.
pub fn narrows(d: i32) -> bool
    ensures { result ≡ narrows d }
{
    0 <= d
}

/// How far the pixels lie that are asked.
pub fn reach(d: i32) -> i32
    requires { IsDistance d }
    ensures { result ≡ reach d }
{
    if d < 0 { -d } else { d }
}

/// How far a set is widened.
pub fn widening(d: i32) -> i32
    requires { IsDistance d }
    ensures { result ≡ widening d }
{
    if d < 0 { -d } else { 0 }
}

/// How rows are joined, of which all have to have a pixel, or one.
pub fn joining(all: bool) -> Combination
    ensures { result ≡ joining all }
{
    if all {
        Combination::Sect
    } else {
        Combination::Union
    }
}
