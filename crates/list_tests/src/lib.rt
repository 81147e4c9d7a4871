//! Lists of texts, drawn as `list_view` draws them and as a slow model does, and selected where they stand: in more sizes, places
//! and clips than scripts have.
//!
//! The model draws each cell of a list by itself, on a map of its own, and puts its pixels one by one where they lie in the
//! view (`plain_list`); it uses neither `list_view` nor a walk over the cells that show. `listed` makes the lists, draws them
//! and turns their selection by the library, and `shown` has the tests.
#![tactic(auto)]

#[cfg(test)]
mod listed;
#[cfg(test)]
mod plain_list;
#[cfg(test)]
mod shown;
