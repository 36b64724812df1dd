// One of the nine directions.
ghost use Rattle.std.specs.Prelude.{◌≡◌, ◌<◌};
ghost use Rattle.lattice.specs.Lattice as Lattice;
ghost use Rattle.lattice.specs.Lattice.{e};
ghost use Rattle.lattice.specs.Lookup.{Row, dir_index_of, mirror};

use crate::{Axis, E, OPP, PICTURE, W};

#[derive(Clone, Copy, Debug, PartialEq, Eq)]
pub struct Direction {
    pub index: usize,
    pub ghost inside: { index < 9 },
}

impl Direction {
    // The direction whose components are (ex, ey). Nothing else is ever looked up, so there is no other answer.
    pub fn along(ex: i32, ey: i32) -> Direction
        requires { Row ex ey }
        ensures { result.index ≡ dir_index_of ex ey }
    {
        // Digits count from the last one on, and so places from the picture's lower right corner.
        let row = (ey + 1) as usize;
        let column = (1 - ex) as usize;
        let place = 3 * row + column;
        Direction {
            index: (PICTURE >> (4 * place)) & 15,
        }
    }

    // The component along an axis, whole and as f64.
    pub fn component(self, axis: Axis) -> i32
        ensures { result ≡ Lattice.E self.index axis }
    {
        match axis {
            Axis::X => E[self.index][0],
            Axis::Y => E[self.index][1],
        }
    }

    pub fn e(self, axis: Axis) -> f64
        ensures { result ≡ e self.index axis }
    {
        self.component(axis) as f64
    }

    pub fn weight(self) -> f64
        ensures { result ≡ Lattice.W self.index }
    {
        W[self.index]
    }

    #[tactic(auto, unfolding(crate::specs::Lattice::opposites))]
    pub fn opposite(self) -> Direction
        ensures { result.index ≡ Lattice.OPP self.index }
    {
        Direction {
            index: OPP[self.index],
        }
    }

    // The direction with the component along the axis negated.
    pub fn mirrored(self, axis: Axis) -> Direction
        ensures { result.index ≡ mirror axis self.index }
    {
        let ex = self.component(Axis::X);
        let ey = self.component(Axis::Y);
        match axis {
            Axis::X => Direction::along(-ex, ey),
            Axis::Y => Direction::along(ex, -ey),
        }
    }
}
