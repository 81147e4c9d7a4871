//! The layers of a window's content, followed on the screen: a window with a picture, controls and a list, and one that covers
//! a part of it, are changed by calls of `window_mgr` and `window_update`, and after each call every pixel of the screen and
//! every region that is kept is what a slow model says. A script makes such layers too, and tells less of them: here what they
//! show is as plain as the model needs it.
//!
//! The model, the crate `plain_layers`, goes by single pixels and uses no region. The crate `layer_steps` carries out each call by
//! the library and by the model and compares them, and `followed` has the tests. The crate `striped_layers` has the controls and
//! lists of these tests, and changes the layers of a window.
#![tactic(auto)]

#[cfg(test)]
mod followed;
