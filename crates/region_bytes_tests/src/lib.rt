//! What no clause says of the bytes of regions, by tests: that calls succeed where memory is not refused, and that the words of
//! the contracts are those of QuickDraw's regions. Expected values are pictures and tables written by hand, or come from slow
//! readers that count inversion points, and never from the libraries.
//!
//! `bytes` tests `region_bytes`, and `written` tests the bytes that `scan_region` reads and writes. The crate `test_pixels`
//! has what they compare with.
#![tactic(auto)]

#[cfg(test)]
mod bytes;
#[cfg(test)]
mod written;
