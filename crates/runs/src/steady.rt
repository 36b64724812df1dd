// The run to a steady state: steps, and checks of the velocity between them.
ghost use Rattle.std.specs.Prelude.{◌≡◌};
ghost use Rattle.runs.specs.Passes.{AllReady, Seen};
ghost use Rattle.runs.specs.Steps.{state};
ghost use Rattle.runs.specs.Steady.{checked, found, check_of, ending, ending_of, ended, started, settling, steady_of};

use crate::snapshot::{bad_snapshot, take_snapshot};
use crate::steps::advance;
use settings::{Refusal, Settings};

// How a steady run ends: settled or ran out, with the number of steps and the residual; ruined by a bad snapshot, with the
// number of steps.
#[derive(Clone, Copy, Debug, PartialEq)]
pub enum Steady {
    Settled(u64, f64),
    RanOut(u64, f64),
    Ruined(u64),
}

// What is asked of a steady run: the tolerance below which it is settled, the most steps, and how many of them to a check.
#[derive(Clone, Copy, Debug, PartialEq)]
struct Checks {
    tolerance: f64,
    max_steps: u64,
    check_every: u64,
}

// What a check finds: a bad snapshot, or the residual, below the tolerance or not.
#[derive(Clone, Copy, Debug, PartialEq)]
enum Check {
    Bad,
    Settles(f64),
    GoesOn(f64),
}

fn is_checked(every: u64, k: u64) -> bool
    ensures { result ≡ checked every k }
{
    let every = if every == 0 { 1 } else { every };
    k % every == 0
}

// The check after step k, if there is one: the new snapshot is judged before any of it is written.
#[tactic(auto, using(crate::proofs::Settling::not_due, crate::proofs::Settling::is_bad, crate::proofs::Settling::settles, crate::proofs::Settling::goes_on))]
fn check_after(
    s: Settings,
    checks: Checks,
    k: u64,
    residual: f64,
    f: &[u64],
    u: &mut [u64],
) -> Check
    requires { Seen s f.now u.old }
    ensures { found result u.new ≡ check_of s checks k residual f.now u.old }
{
    if !is_checked(checks.check_every, k) {
        return Check::GoesOn(residual);
    }
    if bad_snapshot(s, f) {
        return Check::Bad;
    }
    let residual = take_snapshot(s, f, u);
    if residual < checks.tolerance {
        Check::Settles(residual)
    } else {
        Check::GoesOn(residual)
    }
}

// The run once its first snapshot stands in u.
#[tactic(auto, using(crate::proofs::Settling::ran_out))]
fn steady_steps(
    s: Settings,
    checks: Checks,
    f: &mut [u64],
    post: &mut [u64],
    u: &mut [u64],
) -> Steady
    requires { AllReady s f.old post.old u.old }
    ensures { ended (ending result) (state f.new post.new) u.new
        ≡ started s checks (state f.old post.old) u.old }
{
    let most = checks.max_steps;
    let mut residual = f64::INFINITY;
    let mut finite = number::clear(grid::joined(f));
    for taken in 0..most {
        let k = taken + 1;
        finite = advance(s, finite, f, post);
        match check_after(s, checks, k, residual, f, u) {
            Check::Bad => return Steady::Ruined(k),
            Check::Settles(r) => return Steady::Settled(k, r),
            Check::GoesOn(r) => residual = r,
        }
    }
    Steady::RanOut(most, residual)
}

// The run where nothing is refused. A bad first snapshot is not written.
#[tactic(auto, using(crate::proofs::Settling::ruined_first, crate::proofs::Settling::ran_on))]
fn settle(s: Settings, checks: Checks, f: &mut [u64], post: &mut [u64], u: &mut [u64]) -> Steady
    requires { AllReady s f.old post.old u.old }
    ensures { ended (ending result) (state f.new post.new) u.new
        ≡ settling s checks (state f.old post.old) u.old }
{
    if bad_snapshot(s, f) {
        return Steady::Ruined(0);
    }
    readings::velocity_cells(s, f, u);
    steady_steps(s, checks, f, post, u)
}

// Steps until the velocity hardly changes, at most `max_steps` steps. u then holds the last good snapshot.
#[tactic(auto, using(crate::proofs::Settling::settle_ready, crate::proofs::Settling::is_run))]
pub fn run_to_steady_state(
    s: Settings,
    tolerance: f64,
    max_steps: u64,
    check_every: u64,
    f: &mut [u64],
    post: &mut [u64],
    u: &mut [u64],
) -> Result<Steady, Refusal>
    ensures { ended (ending_of result) (state f.new post.new) u.new
        ≡ steady_of s tolerance max_steps check_every f.old post.old u.old }
{
    settings::check_run_to_steady_state(s, tolerance, max_steps, f.len(), post.len(), u.len())?;
    let checks = Checks {
        tolerance,
        max_steps,
        check_every,
    };
    Ok(settle(s, checks, f, post, u))
}
