//! The laws: what holds of every desk, call and run of calls, as the crates below define them.
//!
//! Each law is a function with no body whose contract is the law. `headline` has the one law that is the guarantee, and
//! the one on what each call changes of pixels. `laws` has those on steps and runs: painting from nothing gives each
//! pixel its owner's value, steps and runs keep a right state right, the screen shows it, a point is found by its
//! topmost owner, refusals come in the written order, and events alternate. `update_laws` says what serving an update
//! does, and what the regions of windows are; `class_laws`, what holds of windows that float; `text_laws`, of text records and
//! the scrap. `desk_after` alone has a body: it begins a desk and makes calls, and the headline holds of that.
//!
//! What a step is, `desk_toolbox` says (`IsStep`), and so what a run is (`IsRunOfCalls`); its `call` and `run` promise
//! them. Nothing stands on this crate: a law that a call needs stands below.
#![tactic(auto)]

pub mod class_laws;
pub mod desk_after;
pub mod headline;
pub mod laws;
pub mod text_laws;
pub mod update_laws;
