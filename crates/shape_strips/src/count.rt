//! How many columns or rows there are.
ghost use Rattle.std.specs.Prelude.{◌≡◌, ◌<◌, true};
ghost use Rattle.tb_geom.specs.Rects.{is_coordinate};
ghost use Rattle.region_rows.specs.Counts.{count_to};

/// How many columns or rows there are from `low` up to `high`.
pub fn count(low: i32, high: i32) -> u64
    requires low { is_coordinate low ≡ true }
    requires high { is_coordinate high ≡ true }
    ensures value { result ≡ count_to low high }
    ensures most { result < 32768 }
{
    if low < high { (high - low) as u64 } else { 0 }
}
