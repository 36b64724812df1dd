// One step, n steps, and the two operations on them.
ghost use Rattle.std.specs.Prelude.{◌≡◌};
ghost use Rattle.runs.specs.Passes.{Ready, Vouched, clear_after};
ghost use Rattle.settings.specs.Refused.{number_of};
ghost use Rattle.runs.specs.Steps as Steps;
ghost use Rattle.runs.specs.Steps.{state, one_step, left, step_of, run_of};

use crate::passes::collide;
use settings::{Refusal, Settings};
use streaming::Way;

// One step: afterwards post holds the post-collision state. `finite` where every entry of f is known to be finite; the answer is
// true only where every entry of the new f is.
pub fn advance(s: Settings, finite: bool, f: &mut [u64], post: &mut [u64]) -> bool
    requires { Ready s f.old post.old × Vouched finite f.old }
    ensures stepped { state f.new post.new ≡ one_step s f.old }
    ensures told { result ≡ clear_after s f.old }
{
    collide(s, finite, f, post);
    let bits = Way { s, back: false }.carry(post, f);
    number::clear(bits)
}

#[tactic(auto, using(crate::proofs::Stepwise::going_done))]
fn advance_by(s: Settings, steps: u64, f: &mut [u64], post: &mut [u64])
    requires { Ready s f.old post.old }
    ensures { state f.new post.new
        ≡ Steps.steps s steps (state f.old post.old) }
{
    let mut finite = number::clear(grid::joined(f));
    for _ in 0..steps {
        finite = advance(s, finite, f, post);
    }
}

// One step of the study.
#[tactic(auto, using(crate::proofs::Stepwise::may_step))]
pub fn step(s: Settings, f: &mut [u64], post: &mut [u64]) -> Result<(), Refusal>
    ensures { left (number_of result) f.new post.new ≡ step_of s f.old post.old }
{
    settings::check_step(s, f.len(), post.len())?;
    advance_by(s, 1, f, post);
    Ok(())
}

// As many steps as are asked for.
#[tactic(auto, using(crate::proofs::Stepwise::may_run))]
pub fn run(s: Settings, steps: u64, f: &mut [u64], post: &mut [u64]) -> Result<(), Refusal>
    ensures { left (number_of result) f.new post.new ≡ run_of s steps f.old post.old }
{
    settings::check_run(s, steps, f.len(), post.len())?;
    advance_by(s, steps, f, post);
    Ok(())
}
