//! What no clause says of round shapes, by tests: that regions are made where memory is not refused, and that the
//! words of the contracts are what is meant. Expected values are pictures drawn by hand, or come from a slow program
//! over single pixels (`slow`, `slow_lines`), and never from the libraries.
//!
//! `strips` tests `shape_strips`, `regions`, `bytes`, `combined` and `polygon_bytes` test `shape_region`, `lines` and
//! `polygons` test both, and `forms` tests the forms of `lent_ops`. `sizes` has the shapes that they try.
#![tactic(auto)]

#[cfg(test)]
mod bytes;
#[cfg(test)]
mod combined;
#[cfg(test)]
mod forms;
#[cfg(test)]
mod lines;
#[cfg(test)]
mod polygon_bytes;
#[cfg(test)]
mod polygons;
#[cfg(test)]
mod regions;
#[cfg(test)]
mod sizes;
#[cfg(test)]
mod slow;
#[cfg(test)]
mod slow_lines;
#[cfg(test)]
mod strips;
