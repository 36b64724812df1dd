// What each operation refuses, over the lengths of its lent buffers: its tests in its own order.
#![tactic(auto, using(crate::proofs::Numbers::some_number))]

ghost use Rattle.std.specs.Prelude.{◌≡◌};
ghost use Rattle.settings.specs.Refused.{number_of};
ghost use Rattle.settings.specs.Refusals as Refusals;
ghost use Rattle.settings.specs.Refusals.{refusal};

use crate::checks::{
    both_populations, check_place, check_populations, direction, faces, file, kinds, lengths, lent,
    losses, moments, numbers, sides, stepping, steps, tally_counted, tolerance, versioned,
    whole_file,
};
use crate::refused::Refusal;
use crate::{Head, Settings, TALLY_FILE};

pub fn check_initialize(s: Settings, table: usize, f: usize) -> Result<(), Refusal>
    ensures { number_of result ≡ refusal (Refusals.initialize s table f) }
{
    check_populations(s, f)?;
    lengths(s, 3, table)
}

pub fn check_density(s: Settings, f: usize, x: usize, y: usize) -> Result<(), Refusal>
    ensures { number_of result ≡ refusal (Refusals.density s f x y) }
{
    check_populations(s, f)?;
    // a density divides by nothing, so no floor is asked for
    check_place(s, x, y)
}

pub fn check_velocity(s: Settings, f: usize, x: usize, y: usize) -> Result<(), Refusal>
    ensures { number_of result ≡ refusal (Refusals.velocity s f x y) }
{
    check_populations(s, f)?;
    moments(s)?;
    check_place(s, x, y)
}

pub fn check_velocity_field(s: Settings, f: usize, u: usize) -> Result<(), Refusal>
    ensures { number_of result ≡ refusal (Refusals.velocity_field s f u) }
{
    check_populations(s, f)?;
    lengths(s, 2, u)?;
    moments(s)
}

pub fn check_total_mass(s: Settings, f: usize) -> Result<(), Refusal>
    ensures { number_of result ≡ refusal (Refusals.total_mass s f) }
{
    check_populations(s, f)
}

pub fn check_kinetic_energy(s: Settings, f: usize) -> Result<(), Refusal>
    ensures { number_of result ≡ refusal (Refusals.kinetic_energy s f) }
{
    check_populations(s, f)?;
    moments(s)
}

pub fn check_plane(s: Settings, f: usize, i: usize) -> Result<(), Refusal>
    ensures { number_of result ≡ refusal (Refusals.plane s f i) }
{
    check_populations(s, f)?;
    direction(i)
}

pub fn check_stream_with_faces(s: Settings, post: usize, f: usize) -> Result<(), Refusal>
    ensures { number_of result ≡ refusal (Refusals.stream_with_faces s post f) }
{
    both_populations(s, f, post)?;
    faces(s)
}

pub fn check_lossless(s: Settings) -> Result<(), Refusal>
    ensures { number_of result ≡ refusal (Refusals.lossless s) }
{
    sides(s)?;
    faces(s)?;
    kinds(s)
}

pub fn check_reverse(s: Settings, f: usize, post: usize) -> Result<(), Refusal>
    ensures { number_of result ≡ refusal (Refusals.reverse s f post) }
{
    check_stream_with_faces(s, post, f)?;
    kinds(s)?;
    losses(s)
}

pub fn check_step(s: Settings, f: usize, post: usize) -> Result<(), Refusal>
    ensures { number_of result ≡ refusal (Refusals.step s f post) }
{
    both_populations(s, f, post)?;
    stepping(s)
}

// n is the number of steps.
pub fn check_run(s: Settings, n: u64, f: usize, post: usize) -> Result<(), Refusal>
    ensures { number_of result ≡ refusal (Refusals.run s n f post) }
{
    check_step(s, f, post)?;
    steps(n)
}

// t is the tolerance, n the most steps.
pub fn check_run_to_steady_state(
    s: Settings,
    t: f64,
    n: u64,
    f: usize,
    post: usize,
    u: usize,
) -> Result<(), Refusal>
    ensures { number_of result ≡ refusal (Refusals.run_to_steady_state s t n f post u) }
{
    both_populations(s, f, post)?;
    lengths(s, 2, u)?;
    stepping(s)?;
    tolerance(t)?;
    steps(n)
}

// f and bytes are the lengths of the populations and of the file.
pub fn check_write_checkpoint(s: Settings, f: usize, bytes: usize) -> Result<(), Refusal>
    ensures { number_of result ≡ refusal (Refusals.write_checkpoint s f bytes) }
{
    check_populations(s, f)?;
    whole_file(s, bytes)
}

pub fn check_checkpoint_sides(h: Head) -> Result<(), Refusal>
    ensures { number_of result ≡ refusal (Refusals.checkpoint_sides h) }
{
    file(h)
}

pub fn check_read_checkpoint(h: Head, f: usize) -> Result<(), Refusal>
    ensures { number_of result ≡ refusal (Refusals.read_checkpoint h f) }
{
    file(h)?;
    lent(h, f)
}

pub fn check_tally(s: Settings, f: usize) -> Result<(), Refusal>
    ensures { number_of result ≡ refusal (Refusals.tally s f) }
{
    check_populations(s, f)
}

pub fn check_write_entry(s: Settings, f: usize, x: usize, y: usize, i: usize) -> Result<(), Refusal>
    ensures { number_of result ≡ refusal (Refusals.write_entry s f x y i) }
{
    check_populations(s, f)?;
    check_place(s, x, y)?;
    direction(i)
}

// bytes is the length of the file.
pub fn check_write_tally(t: &[u64; 10], bytes: usize) -> Result<(), Refusal>
    ensures { number_of result ≡ refusal (Refusals.write_tally t.now bytes) }
{
    numbers(t, TALLY_FILE, bytes)
}

// The length of a file, the count, the version and the ten numbers in it; tally is the length of the lent one.
pub fn check_read_tally(
    length: usize,
    count: usize,
    version: usize,
    ten: &[u64; 10],
    tally: usize,
) -> Result<(), Refusal>
    ensures { number_of result ≡ refusal (Refusals.read_tally length count version ten.now tally) }
{
    versioned(length, version)?;
    tally_counted(length, count)?;
    numbers(ten, 10, tally)
}
