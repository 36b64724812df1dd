// The equilibrium of a density and a velocity.
ghost use Rattle.std.specs.Prelude.{◌≡◌};
ghost use Rattle.cell.specs.Cell.{along_at, equilibrium_at, equilibria_of};

use crate::Moments;
use lattice::{Axis, Direction};

// e_i·(a, b).
#[tactic(auto, unfolding(crate::specs::Cell::along_at))]
pub fn along(i: Direction, a: f64, b: f64) -> f64
    ensures { result ≡ along_at i.index a b }
{
    i.e(Axis::X) * a + i.e(Axis::Y) * b
}

#[tactic(auto, unfolding(crate::specs::Cell::equilibrium_at))]
fn equilibrium(i: Direction, m: Moments) -> f64
    ensures { result ≡ equilibrium_at i.index m }
{
    let eu = along(i, m.ux, m.uy);
    let uu = m.ux * m.ux + m.uy * m.uy;
    i.weight() * m.density * (1.0 + 3.0 * eu + 4.5 * eu * eu - 1.5 * uu)
}

#[inline(always)]
pub fn equilibria(m: Moments) -> [f64; 9]
    ensures { result ≡ equilibria_of m }
{
    lattice::nine(|i| equilibrium(i, m))
}
