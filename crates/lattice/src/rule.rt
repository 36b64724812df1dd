// Nine numbers, one a direction.
ghost use Rattle.lattice.specs.Rule.{Gives};

use crate::directions::Direction;

// What a rule gives for each direction, in order. It is straight-line, so that a loop over cells keeps no table of directions.
#[inline(always)]
pub fn nine<F: Fn(Direction) -> f64>(of: F) -> [f64; 9]
    requires { F.IsAlwaysCallable of }
    ensures { Gives (F.post of) result }
{
    [
        of(Direction { index: 0 }),
        of(Direction { index: 1 }),
        of(Direction { index: 2 }),
        of(Direction { index: 3 }),
        of(Direction { index: 4 }),
        of(Direction { index: 5 }),
        of(Direction { index: 6 }),
        of(Direction { index: 7 }),
        of(Direction { index: 8 }),
    ]
}
