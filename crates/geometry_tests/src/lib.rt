//! What no clause says of the ground, by tests: that calls succeed where memory is not refused, and that the words of
//! the contracts are QuickDraw's. Expected values are tables and pictures written by hand, or come from slow programs
//! over single pixels, and never from the libraries.
//!
//! `geometry` tests `tb_geom`, `regions` tests `scan_region`, and `maps` tests `bit_map`. The crate `test_pixels` has what
//! they compare with.
#![tactic(auto)]

#[cfg(test)]
mod geometry;
#[cfg(test)]
mod maps;
#[cfg(test)]
mod regions;
