//! Controls, lists and text records that nobody keeps, so that tests can change the layers of a window without a Toolbox. What they
//! show is as plain as a slow model needs it: black columns, black rows, or every other pixel.
//!
//! `stripes` says what they show, `relaying` puts layers into a window, changes them and takes them out, and `updating` updates
//! a window, layer by layer.
#![tactic(auto)]

pub mod relaying;
pub mod stripes;
pub mod updating;
