// The collision of one cell, by any of the kinds.
ghost use Rattle.std.specs.Prelude.{◌≡◌, List, Float};
ghost use Rattle.cell.specs.Cell.{forced_by, cell_by};

use crate::equilibrium::equilibria;
use crate::guo::{Force, sources};
use crate::macroscopic::collision_moments;

// The rates of a kind, worked out once for a pass, and its rule: the populations after collision, by those before, their equilibria
// and their sources.
pub trait Collide: Copy {
    ghost rule: { Self → List Float → List Float → List Float → List Float };

    fn collide(self, f: [f64; 9], feq: [f64; 9], src: [f64; 9]) -> [f64; 9]
        ensures { result ≡ rule self f feq src };
}

#[inline(always)]
#[tactic(auto, using(crate::proofs::Cells::cell_either))]
pub fn cell<K: Collide, const FORCED: bool>(
    rates: K,
    f: [f64; 9],
    force: Force,
    floor: f64,
) -> [f64; 9]
    requires { forced_by force.x force.y ≡ FORCED }
    ensures { result ≡ cell_by (K.rule rates) f force.x force.y floor }
{
    let m = collision_moments(f, force, floor);
    rates.collide(f, equilibria(m), sources::<FORCED>(m, force))
}

// The same where it is not known whether a force acts.
pub fn collided<K: Collide>(rates: K, f: [f64; 9], force: Force, floor: f64) -> [f64; 9]
    ensures { result ≡ cell_by (K.rule rates) f force.x force.y floor }
{
    if force.acts() {
        cell::<K, true>(rates, f, force, floor)
    } else {
        cell::<K, false>(rates, f, force, floor)
    }
}
