// The lattice D2Q9: nine directions, their weights and opposites, and the moments' basis.
//
//   6   2   5
//     \ | /
//   3 - 0 - 1
//     / | \
//   7   4   8
#![tactic(auto)]

ghost use Rattle.std.specs.Prelude.{◌≡◌};
ghost use Rattle.std.specs.Float.{binary64};
ghost use Rattle.std.specs.Float.Ieee.{of_int};
ghost use Rattle.number.specs.Number.{◌⊕◌, ◌⊗◌};
ghost use Rattle.lattice.specs.Lattice.{basis_floats, norm_floats};
ghost use Rattle.lattice.specs.Sides as Sides;
ghost use Rattle.lattice.specs.Sides.{normal, tangent, frame_of};

mod directions;
mod rule;

pub use directions::Direction;
pub use rule::nine;

// The axes of a grid, and the two sides of each, on which its faces are.
#[derive(Clone, Copy, Debug, PartialEq, Eq)]
pub enum Axis {
    X,
    Y,
}

#[derive(Clone, Copy, Debug, PartialEq, Eq)]
pub enum Side {
    Min,
    Max,
}

// The directions' components along x and y.
pub const E: [[i32; 2]; 9] = [
    [0, 0],
    [1, 0],
    [0, 1],
    [-1, 0],
    [0, -1],
    [1, 1],
    [-1, 1],
    [-1, -1],
    [1, -1],
];

// The directions by their components: the picture above as one number, a hexadecimal digit a direction. A shift reads it, where
// an array would be built anew at every read.
const PICTURE: usize = 0x625_301_748;

// The weights, each one division.
pub const W: [f64; 9] = [
    4.0 / 9.0,
    1.0 / 9.0,
    1.0 / 9.0,
    1.0 / 9.0,
    1.0 / 9.0,
    1.0 / 36.0,
    1.0 / 36.0,
    1.0 / 36.0,
    1.0 / 36.0,
];

// The opposite directions.
pub const OPP: [usize; 9] = [0, 3, 4, 1, 2, 7, 8, 5, 6];

// The moments' basis; its rows are orthogonal.
pub const M: [[f64; 9]; 9] = [
    [1.0, 1.0, 1.0, 1.0, 1.0, 1.0, 1.0, 1.0, 1.0],
    [-4.0, -1.0, -1.0, -1.0, -1.0, 2.0, 2.0, 2.0, 2.0],
    [4.0, -2.0, -2.0, -2.0, -2.0, 1.0, 1.0, 1.0, 1.0],
    [0.0, 1.0, 0.0, -1.0, 0.0, 1.0, -1.0, -1.0, 1.0],
    [0.0, -2.0, 0.0, 2.0, 0.0, 1.0, -1.0, -1.0, 1.0],
    [0.0, 0.0, 1.0, 0.0, -1.0, 1.0, 1.0, -1.0, -1.0],
    [0.0, 0.0, -2.0, 0.0, 2.0, 1.0, 1.0, -1.0, -1.0],
    [0.0, 1.0, -1.0, 1.0, -1.0, 0.0, 0.0, 0.0, 0.0],
    [0.0, 0.0, 0.0, 0.0, 0.0, 1.0, -1.0, 1.0, -1.0],
];

// Each row of M with itself.
pub const M_NORM: [f64; 9] = [9.0, 36.0, 36.0, 6.0, 12.0, 6.0, 12.0, 4.0, 4.0];

// The basis and its norms, whole: a caller that loops over them copies them once.
pub fn basis() -> [[f64; 9]; 9]
    ensures { result ≡ basis_floats }
{
    M
}

pub fn norms() -> [f64; 9]
    ensures { result ≡ norm_floats }
{
    M_NORM
}

// ---- the faces, by axis and side

// The inward normal and the tangent of a face.
#[derive(Clone, Copy, Debug, PartialEq, Eq)]
pub struct Frame {
    pub n0: i32,
    pub n1: i32,
    pub t0: i32,
    pub t1: i32,
}

// The component of the inward normal across the face.
fn sign(side: Side) -> i32
    ensures { result ≡ Sides.sign side }
{
    match side {
        Side::Min => 1,
        Side::Max => -1,
    }
}

pub fn frame_of(axis: Axis, side: Side) -> Frame
    ensures { result ≡ frame_of axis side }
{
    let s = sign(side);
    match axis {
        Axis::X => Frame {
            n0: s,
            n1: 0,
            t0: 0,
            t1: 1,
        },
        Axis::Y => Frame {
            n0: 0,
            n1: s,
            t0: 1,
            t1: 0,
        },
    }
}

// (u, v) along the vector (a, b).
fn along(u: f64, v: f64, a: i32, b: i32) -> f64
    ensures { result ≡ u ⊗ of_int binary64 a ⊕ v ⊗ of_int binary64 b }
{
    u * a as f64 + v * b as f64
}

// (u, v) along the normal of a face, and along its tangent.
#[tactic(auto, using(crate::proofs::Frames::by_normal))]
pub fn along_normal(axis: Axis, side: Side, u: f64, v: f64) -> f64
    ensures { result ≡ Sides.along u v (normal axis side) }
{
    let g = frame_of(axis, side);
    along(u, v, g.n0, g.n1)
}

#[tactic(auto, using(crate::proofs::Frames::by_tangent))]
pub fn along_tangent(axis: Axis, side: Side, u: f64, v: f64) -> f64
    ensures { result ≡ Sides.along u v (tangent axis) }
{
    let g = frame_of(axis, side);
    along(u, v, g.t0, g.t1)
}
