// Obstacles inside the grid: each cell that a lent list names has its populations swapped with their opposites.
#![tactic(auto)]

ghost use Rattle.std.specs.Prelude.{◌≡◌, [], ◌∷◌, cond, ltb, ◌+◌, ◌*◌, ◌^◌, ◌<◌, length, get_or, IfOk};
ghost use Rattle.lattice.specs.Lattice.{OPP};
ghost use Rattle.grid.specs.Grid.{Grid, Holds};
ghost use Rattle.grid.specs.Writes.{Put};
ghost use Rattle.settings.specs.Tests.{place_of};
ghost use Rattle.settings.specs.Refused.{number_of};
ghost use Rattle.settings.specs.Outcome.{outcome};
ghost use Rattle.obstacles.specs.Obstacles.{bounced_buffer, no_slip_set};

use settings::{Obstacle, Refusal, Settings};

// ---- one obstacle

// The populations of cell c of n are swapped with their opposites.
#[tactic(auto, using(crate::proofs::Cell::swapped))]
fn swap(f: &mut [u64], n: usize, c: usize)
    requires { Holds f.old n c }
    ensures { Put f.old f.new n c (λ i. get_or f.old (c + OPP i * n) 0) }
{
    f.swap(c + n, c + 3 * n);
    f.swap(c + 2 * n, c + 4 * n);
    f.swap(c + 5 * n, c + 7 * n);
    f.swap(c + 6 * n, c + 8 * n);
}

// The lowest cell at which the next obstacle may stand, where this one stands at `next` or above.
#[tactic(auto, unfolding(settings::specs::Refused::number))]
fn ascend(nx: usize, o: Obstacle, next: usize) -> Result<usize, Refusal>
    requires { place_of nx o + 1 < 2 ^ 64 }
    ensures order { number_of result ≡ cond (ltb (place_of nx o) next) 16 0 }
    ensures next { IfOk result (λ after. after ≡ place_of nx o + 1) }
{
    let c = o.x + o.y * nx;
    if c < next {
        return Err(Refusal::Order);
    }
    Ok(c + 1)
}

// The populations of an obstacle's cell are swapped with their opposites.
#[tactic(auto, using(grid::proofs::Radix::within, crate::proofs::Bounced::bounced_put))]
fn bounce(nx: usize, ny: usize, o: Obstacle, f: &mut [u64])
    requires grid { Grid nx ny }
    requires f_len { length f.old ≡ 9 * (nx * ny) }
    requires inside { (o.x < nx) × (o.y < ny) }
    ensures { f.new ≡ bounced_buffer nx ny (o ∷ []) f.old }
{
    swap(f, nx * ny, o.x + o.y * nx);
}

// ---- the operation

// Swaps the populations of each cell that the list names with their opposites. The whole list is tested before anything is
// written: a place outside counts before the order, wherever it stands. This thin function alone reads the list.
#[tactic(auto, using(crate::proofs::Lists::outside_from, crate::proofs::Lists::none_left, crate::proofs::Lists::order, crate::proofs::Writing::turned_more, crate::proofs::Writing::turned_done, crate::proofs::Outcome::tested))]
pub fn set_no_slip_bc(s: Settings, list: &[Obstacle], f: &mut [u64]) -> Result<(), Refusal>
    ensures { outcome (number_of result) f.new ≡ no_slip_set s list.now f.old }
{
    settings::check_populations(s, f.len())?;
    for o in list {
        settings::check_place(s, o.x, o.y)?;
    }
    let mut next = 0;
    for o in list {
        next = ascend(s.nx, *o, next)?;
    }
    for o in list {
        bounce(s.nx, s.ny, *o, f);
    }
    Ok(())
}
