// The tests of what an operation is given: each tells whether it is at fault.
ghost use Rattle.std.specs.Prelude.{◌≡◌, ◌≤◌};
ghost use Rattle.settings.specs.Tests.{side_bad, sides_bad, length_bad, bytes_bad, tau_bad, rate_bad, not_positive, face_bad, count_bad, tally_count_bad, sums_bad};

use crate::{Face, Head, TALLY_FILE};
use cell::Collision;
use lattice::{Axis, Side};

fn side_bad(n: usize) -> bool
    ensures { result ≡ side_bad n }
{
    (n < 1) | (grid::MOST_SIDE < n)
}

#[tactic(auto, using(crate::proofs::Laws::sides_fit), unfolding(crate::specs::Tests::sides_bad))]
pub fn sides_bad(nx: usize, ny: usize) -> bool
    ensures { result ≡ sides_bad nx ny }
{
    // the sides first, since the product of any two need not fit
    if side_bad(nx) | side_bad(ny) {
        return true;
    }
    grid::MOST_CELLS < nx * ny
}

// Whether `len` is not per·nx·ny. It divides, since the product of any two sides need not fit.
pub fn length_bad(nx: usize, ny: usize, per: usize, len: usize) -> bool
    requires { 1 ≤ per }
    ensures { result ≡ length_bad nx ny per len }
{
    if nx == 0 {
        return len != 0;
    }
    let cells = len / per;
    (len % per != 0) | (cells % nx != 0) | (cells / nx != ny)
}

// Whether `len` is not that of `head` bytes and the nine entries, of eight bytes each, of every cell.
#[tactic(auto, using(crate::proofs::Laws::behind), unfolding(crate::specs::Tests::bytes_bad, crate::specs::Tests::length_bad))]
pub fn bytes_bad(nx: usize, ny: usize, head: usize, len: usize) -> bool
    ensures { result ≡ bytes_bad nx ny head len }
{
    if len < head {
        return true;
    }
    length_bad(nx, ny, 72, len - head)
}

#[tactic(auto, unfolding(crate::specs::Tests::tau_bad))]
pub fn tau_bad(tau: f64) -> bool
    ensures { result ≡ tau_bad tau }
{
    number::not_finite(tau) | (tau < 0.5)
}

#[tactic(auto, unfolding(crate::specs::Tests::rate_bad))]
pub fn rate_bad(collision: Collision) -> bool
    ensures { result ≡ rate_bad collision }
{
    match collision {
        Collision::Bgk | Collision::Mrt => false,
        Collision::Trt(rate) => number::not_finite(rate) | (rate < 0.0) | (2.0 < rate),
    }
}

// Whether a number is not finite, or not above 0.
#[tactic(auto, unfolding(crate::specs::Tests::not_positive))]
pub fn not_positive(x: f64) -> bool
    ensures { result ≡ not_positive x }
{
    number::not_finite(x) | !(0.0 < x)
}

// Whether a face's own numbers are bad.
#[tactic(auto, unfolding(crate::specs::Tests::face_bad))]
pub fn face_bad(axis: Axis, side: Side, face: Face) -> bool
    ensures { result ≡ face_bad axis side face }
{
    match face {
        Face::Periodic | Face::NoSlip | Face::Symmetry => false,
        Face::MovingWall(u0, u1) => number::not_finite(u0) | number::not_finite(u1),
        Face::Velocity(u0, u1) => {
            let un = lattice::along_normal(axis, side, u0, u1);
            number::not_finite(u0) | number::not_finite(u1) | (1.0 - un == 0.0)
        }
        Face::Pressure(density) => not_positive(density),
    }
}

#[tactic(auto, unfolding(crate::specs::Tests::count_bad))]
pub fn count_bad(h: Head) -> bool
    ensures { result ≡ count_bad h }
{
    bytes_bad(h.nx, h.ny, 9, h.count) | bytes_bad(h.nx, h.ny, 13, h.length)
}

#[tactic(auto, unfolding(crate::specs::Tests::tally_count_bad, crate::specs::Tests::size_bad))]
pub fn tally_count_bad(length: usize, count: usize) -> bool
    ensures { result ≡ tally_count_bad length count }
{
    (count != 81) | (length != TALLY_FILE)
}

// Whether the nine numbers of a tally do not wrap to the first.
#[tactic(auto, unfolding(crate::specs::Tests::sums_bad))]
pub fn sums_bad(t: &[u64; 10]) -> bool
    ensures { result ≡ sums_bad t.now }
{
    sums::stretch(&t[1..]) != t[0]
}
