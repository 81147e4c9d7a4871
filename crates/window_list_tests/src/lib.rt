//! What no clause says of `window_list`, by tests: that calls succeed where memory is not refused, and that the words of the
//! contracts are the Window Manager's. Expected values are tables written by hand, and never come from the library.
#![tactic(auto)]

#[cfg(test)]
mod windows;
