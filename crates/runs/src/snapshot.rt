// Snapshots of the velocity: whether one is bad, and its residual against the last.
ghost use Rattle.std.specs.Prelude.{◌≡◌, ◌+◌, ◌*◌, ◌<◌, length};
ghost use Rattle.grid.specs.Grid.{Grid, Holds};
ghost use Rattle.readings.specs.Readings.{velocity_buffer};
ghost use Rattle.runs.specs.Passes.{Seen, taken_in, taken, cell_taken};
ghost use Rattle.runs.specs.Steady as Rules;
ghost use Rattle.runs.specs.Steady.{bad_cell, bad_snapshot, residual_of};

use cell::Moments;
use settings::Settings;

// The two maxima of a residual: of |Δu| and of |u|.
#[derive(Clone, Copy, Debug, PartialEq)]
struct Maxima {
    du: f64,
    umax: f64,
}

// What makes a cell's reading bad stands here alone.
#[tactic(auto, unfolding(crate::specs::Steady::bad_cell))]
fn bad_cell(s: Settings, f: &[u64], c: usize) -> bool
    requires { Holds f.now (s.nx * s.ny) c }
    ensures { result ≡ bad_cell s f.now c }
{
    let m = readings::read_velocity(s, f, c);
    number::not_finite(m.density) | number::not_finite(m.ux) | number::not_finite(m.uy)
}

#[tactic(auto, using(crate::proofs::Snapshots::judged_all))]
pub fn bad_snapshot(s: Settings, f: &[u64]) -> bool
    requires { Grid s.nx s.ny × (length f.now ≡ 9 * (s.nx * s.ny)) }
    ensures { result ≡ bad_snapshot s f.now }
{
    let mut bad = false;
    for c in 0..s.nx * s.ny {
        bad |= bad_cell(s, f, c);
    }
    bad
}

fn take_in(max: Maxima, new: f64, last: f64) -> Maxima
    ensures { result ≡ taken_in max new last }
{
    Maxima {
        du: number::larger(max.du, number::magnitude(new - last)),
        umax: number::larger(max.umax, number::magnitude(new)),
    }
}

// Takes in both components of cell c, and writes them over the last snapshot's.
fn take_cell(max: Maxima, m: Moments, c: usize, u: &mut [u64]) -> Maxima
    requires { 2 * c + 1 < length u.old }
    ensures { taken result u.new ≡ cell_taken max m c u.old }
{
    let at = 2 * c;
    let max = take_in(max, m.ux, number::value(u[at]));
    let max = take_in(max, m.uy, number::value(u[at + 1]));
    u[at] = number::pattern(m.ux);
    u[at + 1] = number::pattern(m.uy);
    max
}

fn ratio(max: Maxima) -> f64
    ensures { result ≡ Rules.ratio max.du max.umax }
{
    if 0.0 < max.umax {
        max.du / max.umax
    } else {
        max.du
    }
}

// Makes u the snapshot of f, and answers its residual against what u held: one pass does both.
pub fn take_snapshot(s: Settings, f: &[u64], u: &mut [u64]) -> f64
    requires { Seen s f.now u.old }
    ensures taken { u.new ≡ velocity_buffer s f.now }
    ensures residual { result ≡ residual_of s f.now u.old }
{
    let mut max = Maxima { du: 0.0, umax: 0.0 };
    for c in 0..s.nx * s.ny {
        let m = readings::read_velocity(s, f, c);
        max = take_cell(max, m, c, u);
    }
    ratio(max)
}
