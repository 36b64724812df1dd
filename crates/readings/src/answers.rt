// What a reading answers.

#[derive(Clone, Copy, Debug, PartialEq)]
pub struct Velocity {
    pub ux: f64,
    pub uy: f64,
}
