// Which way populations travel.
ghost use Rattle.std.specs.Prelude.{◌≡◌, true, false};
ghost use Rattle.settings.specs.Tests.{driven};
ghost use Rattle.streaming.specs.Turned as Turned;

use lattice::Direction;
use settings::Settings;

// Under the settings s: forward for each step of a run, or turned round, `back`, for the reverse. Then opposite directions change
// places, in what is read and in what is written. Only faces that drive nothing have a way back.
#[derive(Clone, Copy)]
pub struct Way {
    pub s: Settings,
    pub back: bool,
    pub ghost calm: { back ≡ true → driven s ≡ false },
}

// The direction that stands in i's place: i itself, or where the travel is turned round, its opposite.
pub fn facing(back: bool, i: Direction) -> Direction
    ensures { result.index ≡ Turned.facing back i.index }
{
    if back { i.opposite() } else { i }
}
