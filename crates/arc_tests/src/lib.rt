//! What no clause says of arcs, by tests: that regions and bytes are made where memory is not refused, and that the
//! words of the contracts are what is meant. Expected values are pictures drawn by hand, bytes written by hand, or come
//! from a slow program over single pixels (`slow`), and never from the libraries.
#![tactic(auto)]

#[cfg(test)]
mod drawn;
#[cfg(test)]
mod made;
#[cfg(test)]
mod slow;
