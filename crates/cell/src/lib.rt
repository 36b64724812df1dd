// The arithmetic of one cell, in the order of the Rust: every operation rounded once, zero products kept, sums over i = 0..8 from
// +0.0.
//
// It is straight-line code over literal directions: a loop over nine, or a table read at a variable place, would keep what it works
// on in memory. All of it is inlined into the loop over the cells of a pass, so that no call hands over an array.
#![tactic(auto)]

mod bgk;
mod equilibrium;
mod guo;
mod kinds;
mod macroscopic;
mod mrt;
mod trt;

pub use bgk::BgkRates;
pub use equilibrium::equilibria;
pub use guo::Force;
pub use kinds::{Collide, cell, collided};
pub use macroscopic::{density, read_moments};
pub use mrt::MrtRates;
pub use trt::TrtRates;

// A cell's density and velocity.
#[derive(Clone, Copy, Debug, PartialEq)]
pub struct Moments {
    pub density: f64,
    pub ux: f64,
    pub uy: f64,
}

// The kinds. Trt carries its minus rate.
#[derive(Clone, Copy, Debug, PartialEq)]
pub enum Collision {
    Bgk,
    Mrt,
    Trt(f64),
}
