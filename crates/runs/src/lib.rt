// Steps, runs, and the run to a steady state.
#![tactic(auto)]

mod passes;
mod snapshot;
mod steady;
mod steps;

pub use steady::{Steady, run_to_steady_state};
pub use steps::{run, step};
