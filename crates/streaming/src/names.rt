// The directions of a face.
ghost use Rattle.std.specs.Prelude.{◌≡◌};
ghost use Rattle.streaming.specs.Faces.{names};
ghost use Rattle.streaming.specs.Three.{indices, Apart};

use crate::three::Three;
use lattice::{Axis, Direction, Side};

// t, -t, and n, n + t and n - t, with n the inward normal and t the tangent. The last three, which come in, are different ones.
#[derive(Clone, Copy)]
pub struct Names {
    pub t: Direction,
    pub tm: Direction,
    pub incoming: Three<Direction>,
    pub ghost apart: { Apart (indices incoming) },
}

impl Names {
    ghost use Rattle.streaming.specs.Read.{names_in};

    pub fn of(axis: Axis, side: Side) -> Names
        ensures { names_in result ≡ names axis side }
    {
        let g = lattice::frame_of(axis, side);
        let t = Direction::along(g.t0, g.t1);
        Names {
            t,
            tm: t.opposite(),
            incoming: Three {
                n: Direction::along(g.n0, g.n1),
                np: Direction::along(g.n0 + g.t0, g.n1 + g.t1),
                nm: Direction::along(g.n0 - g.t0, g.n1 - g.t1),
            },
        }
    }
}
