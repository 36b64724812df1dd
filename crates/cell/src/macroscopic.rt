// Density and momentum, and the two readings of a cell, each with half of the force in the momentum.
ghost use Rattle.std.specs.Prelude.{◌≡◌};
ghost use Rattle.cell.specs.Cell.{density_of, sum_of_products, momentum, read_moments, inverse_of, collision_moments};

use crate::Moments;
use crate::guo::Force;
use lattice::Axis;

#[tactic(auto, unfolding(crate::specs::Cell::density_of, number::specs::Nine::sum_to))]
pub fn density(f: [f64; 9]) -> f64
    ensures { result ≡ density_of f }
{
    0.0 + f[0] + f[1] + f[2] + f[3] + f[4] + f[5] + f[6] + f[7] + f[8]
}

#[tactic(auto, unfolding(crate::specs::Cell::sum_of_products, number::specs::Nine::sum_to))]
pub fn sum_of_products(a: [f64; 9], b: [f64; 9]) -> f64
    ensures { result ≡ sum_of_products a b }
{
    0.0 + a[0] * b[0]
        + a[1] * b[1]
        + a[2] * b[2]
        + a[3] * b[3]
        + a[4] * b[4]
        + a[5] * b[5]
        + a[6] * b[6]
        + a[7] * b[7]
        + a[8] * b[8]
}

fn momentum(f: [f64; 9], axis: Axis) -> f64
    ensures { result ≡ momentum f axis }
{
    sum_of_products(f, lattice::nine(|i| i.e(axis)))
}

// What is read of a cell: at rest where the density is below the floor, negative densities included. Collision has a test of its own.
#[tactic(auto, unfolding(crate::specs::Cell::read_moments))]
pub fn read_moments(f: [f64; 9], force: Force, floor: f64) -> Moments
    ensures { result ≡ read_moments f force.x force.y floor }
{
    let rho = density(f);
    if rho < floor {
        return Moments {
            density: rho,
            ux: 0.0,
            uy: 0.0,
        };
    }
    Moments {
        density: rho,
        ux: (momentum(f, Axis::X) + 0.5 * force.x) / rho,
        uy: (momentum(f, Axis::Y) + 0.5 * force.y) / rho,
    }
}

// Collision's inverse of the density: 0 only where the magnitude is below the floor.
#[tactic(auto, unfolding(crate::specs::Cell::inverse_of))]
fn inverse(rho: f64, floor: f64) -> f64
    ensures { result ≡ inverse_of rho floor }
{
    if number::magnitude(rho) < floor {
        0.0
    } else {
        1.0 / rho
    }
}

// What collision works with.
#[tactic(auto, unfolding(crate::specs::Cell::collision_moments))]
pub fn collision_moments(f: [f64; 9], force: Force, floor: f64) -> Moments
    ensures { result ≡ collision_moments f force.x force.y floor }
{
    let rho = density(f);
    let inv_rho = inverse(rho, floor);
    Moments {
        density: rho,
        ux: (momentum(f, Axis::X) + 0.5 * force.x) * inv_rho,
        uy: (momentum(f, Axis::Y) + 0.5 * force.y) * inv_rho,
    }
}
