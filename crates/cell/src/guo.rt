// The force on every cell of a study, and Guo's source.
ghost use Rattle.std.specs.Prelude.{◌≡◌};
ghost use Rattle.cell.specs.Cell.{guo_at, forced_by, sources_of};

use crate::Moments;
use crate::equilibrium::along;
use lattice::{Axis, Direction};

#[derive(Clone, Copy, Debug, PartialEq)]
pub struct Force {
    pub x: f64,
    pub y: f64,
}

impl Force {
    // Whether a component differs from 0.
    #[tactic(auto, unfolding(crate::specs::Cell::forced_by))]
    pub fn acts(self) -> bool
        ensures { result ≡ forced_by self.x self.y }
    {
        (self.x != 0.0) | (self.y != 0.0)
    }
}

// Guo's source, before its factor.
#[tactic(auto, unfolding(crate::specs::Cell::guo_at))]
fn guo_source(i: Direction, m: Moments, force: Force) -> f64
    ensures { result ≡ guo_at i.index m force.x force.y }
{
    let eu = along(i, m.ux, m.uy);
    let ef = along(i, force.x, force.y);
    i.weight()
        * (3.0 * ((i.e(Axis::X) - m.ux) * force.x + (i.e(Axis::Y) - m.uy) * force.y)
            + 9.0 * eu * ef)
}

// Nine zeros where no force acts. Whether one does is known before the loop over the cells.
#[inline(always)]
#[tactic(auto, unfolding(crate::specs::Cell::sources_of, crate::specs::Cell::no_source))]
pub fn sources<const FORCED: bool>(m: Moments, force: Force) -> [f64; 9]
    requires { forced_by force.x force.y ≡ FORCED }
    ensures { result ≡ sources_of m force.x force.y }
{
    if FORCED {
        lattice::nine(|i| guo_source(i, m, force))
    } else {
        [0.0; 9]
    }
}
