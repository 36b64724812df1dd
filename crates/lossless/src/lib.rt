// Which faces lose nothing, and the reverse of streaming with faces.
#![tactic(auto)]

ghost use Rattle.std.specs.Prelude.{◌≡◌, ◌<◌};
ghost use Rattle.lossless.specs.Lossless as Lossless;
ghost use Rattle.lossless.specs.Lossless.{reply, answer_of, lossy_at, lossless_of, reversed_of};
ghost use Rattle.settings.specs.Outcome.{outcome};
ghost use Rattle.settings.specs.Refused.{number_of};

use settings::{Face, Refusal, Settings};
use streaming::Way;

// What the lossless question answers. A lossy answer names the lowest entry that is lost, by x, y and direction.
#[derive(Clone, Copy, Debug, PartialEq, Eq)]
pub enum Answer {
    Lossless,
    Lossy(usize, usize, usize),
}

// Whether what goes out through the periodic face b comes in through a, which is not periodic.
fn strays(a: Face, b: Face) -> bool
    ensures { result ≡ Lossless.strays a b }
{
    !a.is_periodic() && b.is_periodic()
}

// The lowest entry that lossy faces lose. Closed, so that it costs the same on every grid.
#[tactic(auto, unfolding(crate::specs::Lossless::lowest))]
fn lowest(s: Settings) -> Answer
    requires { (0 < s.nx) × (0 < s.ny) }
    ensures { answer_of (Ok result) ≡ lossy_at (Lossless.lowest s) }
{
    if strays(s.x_min, s.x_max) {
        Answer::Lossy(s.nx - 1, 0, 1)
    } else if strays(s.y_min, s.y_max) {
        Answer::Lossy(0, s.ny - 1, 2)
    } else if strays(s.x_max, s.x_min) {
        Answer::Lossy(0, 0, 3)
    } else if strays(s.y_max, s.y_min) {
        Answer::Lossy(0, 0, 4)
    } else if s.x_max.is_symmetry() {
        Answer::Lossy(s.nx - 1, 0, 5)
    } else {
        Answer::Lossy(0, 0, 6)
    }
}

// Whether no two different post-collision buffers give the same next buffer; and where they do, the lowest entry that is lost.
#[tactic(auto, using(crate::proofs::Outcomes::answering), unfolding(crate::specs::Lossless::lossless_of, settings::specs::Outcome::answer))]
pub fn lossless(s: Settings) -> Result<Answer, Refusal>
    ensures { reply (answer_of result) ≡ reply (lossless_of s) }
{
    settings::check_lossless(s)?;
    if s.lossy() {
        return Ok(lowest(s));
    }
    Ok(Answer::Lossless)
}

// Leaves in post the one post-collision buffer from which streaming with these faces gives f.
#[tactic(auto, using(crate::proofs::Outcomes::reversing), unfolding(settings::specs::Outcome::answer))]
pub fn reverse(s: Settings, f: &[u64], post: &mut [u64]) -> Result<(), Refusal>
    ensures { outcome (number_of result) post.new ≡ reversed_of s f.now post.old }
{
    settings::check_reverse(s, f.len(), post.len())?;
    // the same carrying, with the travel turned round
    Way { s, back: true }.carry(f, post);
    Ok(())
}
