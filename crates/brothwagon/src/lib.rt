// The library for hosts in other languages: each function asks one operation, and takes settings as twenty words.
// include/brothwagon.h is its face in C. What a host lends for a small answer is always written, with zeros on a refusal.
#![tactic(auto)]

ghost use Rattle.std.specs.Prelude.{◌≡◌};
ghost use Rattle.settings.specs.Outcome.{outcome};
ghost use Rattle.streaming.specs.Streaming.{streamed_with_faces};
ghost use Rattle.lossless.specs.Lossless.{reply, answer_of, lossless_of, reversed_of};
ghost use Rattle.readings.specs.Readings.{initialized, reading_of, velocity_reading_of, density_read, velocity_read, velocity_field_read, total_mass_read, kinetic_energy_read};
ghost use Rattle.runs.specs.Steps.{left, step_of, run_of};
ghost use Rattle.runs.specs.Steady.{steady_of};
ghost use Rattle.obstacles.specs.Obstacles.{no_slip_set};
ghost use Rattle.checkpoint.specs.Checkpoint.{told_by, checkpoint_written, checkpoint_sides, checkpoint_read};
ghost use Rattle.tally.specs.Tally.{tallied, entered, entry_written};
ghost use Rattle.tally.specs.File.{tally_written, tally_read};
ghost use Rattle.host.specs.Host.{settings_of};
ghost use Rattle.host.specs.Told.{told};
ghost use Rattle.brothwagon.specs.Exported.{reading_told, velocity_told, plane_told, lossless_told, steady_left, steady_told, stored_told, read_left, read_told, tally_told};

use checkpoint::Stored;
use lossless::Answer;
use readings::Velocity;
use runs::Steady;
use settings::{Obstacle, Refusal, Settings, number_of};

// ---- answers as words

#[tactic(auto, using(crate::proofs::Words::zero_pattern))]
fn number_words(answer: Result<f64, Refusal>) -> Result<[u64; 1], Refusal>
    ensures { told 1 result ≡ reading_told (reading_of answer) }
{
    Ok([number::pattern(answer?)])
}

#[tactic(auto, using(crate::proofs::Words::zero_pattern))]
fn velocity_words(answer: Result<Velocity, Refusal>) -> Result<[u64; 2], Refusal>
    ensures { told 2 result ≡ velocity_told (velocity_reading_of answer) }
{
    let u = answer?;
    Ok([number::pattern(u.ux), number::pattern(u.uy)])
}

// A part of f cannot cross: where it starts and how many entries it has stand for it.
fn plane_words(s: Settings, f: &[u64], direction: usize) -> Result<[u64; 2], Refusal>
    ensures { told 2 result ≡ plane_told s f.now direction }
{
    readings::plane_refusal(s, f, direction)?;
    let count = readings::plane(s, f, direction).len();
    Ok([(direction * count) as u64, count as u64])
}

fn lossless_words(answer: Result<Answer, Refusal>) -> Result<[u64; 4], Refusal>
    ensures { told 4 result ≡ lossless_told (reply (answer_of answer)) }
{
    match answer? {
        Answer::Lossless => Ok([1, 0, 0, 0]),
        Answer::Lossy(x, y, i) => Ok([0, x as u64, y as u64, i as u64]),
    }
}

fn stored_words(answer: Result<Stored, Refusal>) -> Result<[u64; 3], Refusal>
    ensures { told 3 result ≡ stored_told (told_by answer) }
{
    let a = answer?;
    Ok([a.nx as u64, a.ny as u64, a.step])
}

// ---- the start and the readings

#[unsafe(no_mangle)]
pub extern "C" fn brothwagon_initialize(w: &[u64; 20], table: &[u64], f: &mut [u64]) -> u32
    ensures { outcome result f.new
        ≡ initialized (settings_of w.now) table.now f.old }
{
    number_of(readings::initialize(host::settings_of(w), table, f))
}

#[unsafe(no_mangle)]
pub extern "C" fn brothwagon_density(
    w: &[u64; 20],
    f: &[u64],
    x: usize,
    y: usize,
    rho: &mut [u64; 1],
) -> u32
    ensures { outcome result rho.new
        ≡ reading_told (density_read (settings_of w.now) f.now x y) }
{
    let density = readings::density(host::settings_of(w), f, x, y);
    host::tell(number_words(density), rho)
}

#[unsafe(no_mangle)]
pub extern "C" fn brothwagon_velocity(
    w: &[u64; 20],
    f: &[u64],
    x: usize,
    y: usize,
    u: &mut [u64; 2],
) -> u32
    ensures { outcome result u.new
        ≡ velocity_told (velocity_read (settings_of w.now) f.now x y) }
{
    let velocity = readings::velocity(host::settings_of(w), f, x, y);
    host::tell(velocity_words(velocity), u)
}

#[unsafe(no_mangle)]
pub extern "C" fn brothwagon_velocity_field(w: &[u64; 20], f: &[u64], u: &mut [u64]) -> u32
    ensures { outcome result u.new
        ≡ velocity_field_read (settings_of w.now) f.now u.old }
{
    number_of(readings::velocity_field(host::settings_of(w), f, u))
}

#[unsafe(no_mangle)]
pub extern "C" fn brothwagon_total_mass(w: &[u64; 20], f: &[u64], mass: &mut [u64; 1]) -> u32
    ensures { outcome result mass.new
        ≡ reading_told (total_mass_read (settings_of w.now) f.now) }
{
    let total = readings::total_mass(host::settings_of(w), f);
    host::tell(number_words(total), mass)
}

#[unsafe(no_mangle)]
pub extern "C" fn brothwagon_kinetic_energy(w: &[u64; 20], f: &[u64], energy: &mut [u64; 1]) -> u32
    ensures { outcome result energy.new
        ≡ reading_told (kinetic_energy_read (settings_of w.now) f.now) }
{
    let kinetic = readings::kinetic_energy(host::settings_of(w), f);
    host::tell(number_words(kinetic), energy)
}

#[unsafe(no_mangle)]
pub extern "C" fn brothwagon_plane(
    w: &[u64; 20],
    f: &[u64],
    direction: usize,
    part: &mut [u64; 2],
) -> u32
    ensures { outcome result part.new
        ≡ plane_told (settings_of w.now) f.now direction }
{
    host::tell(plane_words(host::settings_of(w), f, direction), part)
}

// ---- streaming, the lossless question and the reverse

#[unsafe(no_mangle)]
pub extern "C" fn brothwagon_stream_with_faces(w: &[u64; 20], post: &[u64], f: &mut [u64]) -> u32
    ensures { outcome result f.new
        ≡ streamed_with_faces (settings_of w.now) post.now f.old }
{
    number_of(streaming::stream_with_faces(host::settings_of(w), post, f))
}

#[unsafe(no_mangle)]
pub extern "C" fn brothwagon_lossless(w: &[u64; 20], answer: &mut [u64; 4]) -> u32
    ensures { outcome result answer.new
        ≡ lossless_told (reply (lossless_of (settings_of w.now))) }
{
    let lossless = lossless::lossless(host::settings_of(w));
    host::tell(lossless_words(lossless), answer)
}

#[unsafe(no_mangle)]
pub extern "C" fn brothwagon_reverse(w: &[u64; 20], f: &[u64], post: &mut [u64]) -> u32
    ensures { outcome result post.new
        ≡ reversed_of (settings_of w.now) f.now post.old }
{
    number_of(lossless::reverse(host::settings_of(w), f, post))
}

// ---- steps and runs

#[unsafe(no_mangle)]
pub extern "C" fn brothwagon_step(w: &[u64; 20], f: &mut [u64], post: &mut [u64]) -> u32
    ensures { left result f.new post.new
        ≡ step_of (settings_of w.now) f.old post.old }
{
    number_of(runs::step(host::settings_of(w), f, post))
}

#[unsafe(no_mangle)]
pub extern "C" fn brothwagon_run(w: &[u64; 20], steps: u64, f: &mut [u64], post: &mut [u64]) -> u32
    ensures { left result f.new post.new
        ≡ run_of (settings_of w.now) steps f.old post.old }
{
    number_of(runs::run(host::settings_of(w), steps, f, post))
}

#[tactic(auto, using(crate::proofs::Words::zero_pattern))]
#[unsafe(no_mangle)]
pub extern "C" fn brothwagon_run_to_steady_state(
    w: &[u64; 20],
    tolerance: f64,
    max_steps: u64,
    check_every: u64,
    f: &mut [u64],
    post: &mut [u64],
    u: &mut [u64],
    answer: &mut [u64; 3],
) -> u32
    ensures { steady_left result answer.new f.new post.new u.new
        ≡ steady_told (steady_of (settings_of w.now) tolerance max_steps check_every f.old
        post.old u.old) }
{
    let s = host::settings_of(w);
    let a = runs::run_to_steady_state(s, tolerance, max_steps, check_every, f, post, u);
    match a {
        Ok(Steady::Settled(steps, residual)) => {
            *answer = [1, steps, number::pattern(residual)];
            0
        }
        Ok(Steady::RanOut(steps, residual)) => {
            *answer = [0, steps, number::pattern(residual)];
            0
        }
        // it has written, and so is no refusal
        Ok(Steady::Ruined(steps)) => {
            *answer = [0, steps, 0];
            9
        }
        Err(why) => {
            *answer = [0, 0, 0];
            why.number()
        }
    }
}

// ---- obstacles

// It hands the list on: a library has only what its own crate gives out.
#[unsafe(no_mangle)]
pub extern "C" fn brothwagon_set_no_slip_bc(w: &[u64; 20], list: &[Obstacle], f: &mut [u64]) -> u32
    ensures { outcome result f.new
        ≡ no_slip_set (settings_of w.now) list.now f.old }
{
    number_of(obstacles::set_no_slip_bc(host::settings_of(w), list, f))
}

// ---- the checkpoint file

#[unsafe(no_mangle)]
pub extern "C" fn brothwagon_write_checkpoint(
    w: &[u64; 20],
    step: u32,
    f: &[u64],
    file: &mut [u8],
) -> u32
    ensures { outcome result file.new
        ≡ checkpoint_written (settings_of w.now) step f.now file.old }
{
    number_of(checkpoint::write_checkpoint(host::settings_of(w), step, f, file))
}

#[unsafe(no_mangle)]
pub extern "C" fn brothwagon_checkpoint_sides(file: &[u8], answer: &mut [u64; 3]) -> u32
    ensures { outcome result answer.new ≡ stored_told (checkpoint_sides file.now) }
{
    host::tell(stored_words(checkpoint::checkpoint_sides(file)), answer)
}

#[unsafe(no_mangle)]
pub extern "C" fn brothwagon_read_checkpoint(
    file: &[u8],
    f: &mut [u64],
    answer: &mut [u64; 3],
) -> u32
    ensures { read_left result answer.new f.new
        ≡ read_told (checkpoint_read file.now f.old) }
{
    host::tell(stored_words(checkpoint::read_checkpoint(file, f)), answer)
}

// ---- the tally: an answer where it is worked out, and a lent buffer where it is moved or read

#[unsafe(no_mangle)]
pub extern "C" fn brothwagon_tally(w: &[u64; 20], f: &[u64], t: &mut [u64; 10]) -> u32
    ensures { outcome result t.new
        ≡ tally_told (tallied (settings_of w.now) f.now) }
{
    host::tell(tally::tally(host::settings_of(w), f), t)
}

#[unsafe(no_mangle)]
pub extern "C" fn brothwagon_write_entry(
    w: &[u64; 20],
    x: usize,
    y: usize,
    direction: usize,
    pattern: u64,
    f: &mut [u64],
    t: &mut [u64; 10],
) -> u32
    ensures { entered result f.new t.new
        ≡ entry_written (settings_of w.now) x y direction pattern f.old t.old }
{
    number_of(tally::write_entry(host::settings_of(w), x, y, direction, pattern, f, t))
}

#[unsafe(no_mangle)]
pub extern "C" fn brothwagon_write_tally(t: &[u64; 10], file: &mut [u8]) -> u32
    ensures { outcome result file.new ≡ tally_written t.now file.old }
{
    number_of(tally::write_tally(t, file))
}

#[unsafe(no_mangle)]
pub extern "C" fn brothwagon_read_tally(file: &[u8], t: &mut [u64]) -> u32
    ensures { outcome result t.new ≡ tally_read file.now t.old }
{
    number_of(tally::read_tally(file, t))
}
