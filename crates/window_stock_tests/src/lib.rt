//! What no clause says of `def_iface`, by tests: that calls succeed where memory is not refused, and that the words of the
//! contracts are the Window Manager's. Expected values are tables and pictures written by hand, and never come from the library.
#![tactic(auto)]

#[cfg(test)]
mod stocks;
