//! The words of forms, which `draw` and `region` of version 3 have both: shapes by their numbers, and lines.
//!
//! The name of a form is a `FormWord`: `drawn_form_of` finds it in the one table of those that are drawn. Its method `form`
//! reads the numbers and bytes that follow, and gives what is left of the line, since other words come behind. A pen, which
//! frames of regions have too, is read by `pen`. Which words these are, `specs/Forms.antt` states, and
//! `proofs/FormLemmas.antt` shows that a form with what follows it is read as one shape.
//!
//! The form of the words is judged here, and that the bytes of points are whole points; no range of a number.
#![tactic(auto)]

mod forms;

pub use forms::{FormWord, drawn_form_of, pen};
