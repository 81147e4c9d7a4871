//! Calls on windows with layers, carried out by `window_mgr` and `window_update` and by a slow model, for tests.
//!
//! `steps` has a desk and its model, `plain_layers`, and says after each step whether each pixel of the screen and each
//! region that is kept is what the model has. The controls and lists come from `striped_layers`, and the stock of windows from
//! the tests: a library makes no boxed definitions.
#![tactic(auto)]

pub mod steps;
