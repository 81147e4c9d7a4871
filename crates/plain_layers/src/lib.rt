//! A slow model of windows with layers, for tests: it goes by single pixels and uses no region.
//!
//! `desk` says whose a pixel of a screen is and what it shows, `steps` what a call changes of the desk, and `pixels` what each
//! pixel shows after it, and whether it is to be redrawn.
#![tactic(auto)]

pub mod desk;
pub mod pixels;
pub mod steps;
