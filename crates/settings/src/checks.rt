// The tests, each with what it refuses for, and those that several operations make one after the other.
#![tactic(auto, using(crate::proofs::Numbers::some_number), unfolding(crate::specs::Refused::number))]

ghost use Rattle.std.specs.Prelude.{◌≡◌, [], ◌∷◌, ◌≤◌};
ghost use Rattle.settings.specs.Refused.{number_of};
ghost use Rattle.settings.specs.Refusals as Refusals;
ghost use Rattle.settings.specs.Refusals.{first};

use crate::faults::{
    bytes_bad, count_bad, face_bad, length_bad, not_positive, rate_bad, sides_bad, sums_bad,
    tally_count_bad, tau_bad,
};
use crate::refused::{Refusal, unless};
use crate::{Head, MOST_STEPS, Settings};
use lattice::{Axis, Side};

// ---- one test

pub fn sides(s: Settings) -> Result<(), Refusal>
    ensures { number_of result ≡ first (Refusals.sides s ∷ []) 0 }
{
    unless(sides_bad(s.nx, s.ny), Refusal::Sides)
}

pub fn lengths(s: Settings, per: usize, len: usize) -> Result<(), Refusal>
    requires { 1 ≤ per }
    ensures { number_of result ≡ first (Refusals.lengths s per len ∷ []) 0 }
{
    unless(length_bad(s.nx, s.ny, per, len), Refusal::Length)
}

#[tactic(auto, unfolding(crate::specs::Refused::number, crate::specs::Tests::rates_bad))]
pub fn rates(s: Settings) -> Result<(), Refusal>
    ensures { number_of result ≡ first (Refusals.rates s ∷ []) 0 }
{
    unless(tau_bad(s.tau()) | rate_bad(s.collision), Refusal::Rate)
}

pub fn floor(s: Settings) -> Result<(), Refusal>
    ensures { number_of result ≡ first (Refusals.floor s ∷ []) 0 }
{
    unless(not_positive(s.floor), Refusal::Rate)
}

#[tactic(auto, unfolding(crate::specs::Refused::number, crate::specs::Tests::force_bad))]
pub fn force(s: Settings) -> Result<(), Refusal>
    ensures { number_of result ≡ first (Refusals.force s ∷ []) 0 }
{
    unless(
        number::not_finite(s.fx) | number::not_finite(s.fy),
        Refusal::Force,
    )
}

#[tactic(auto, unfolding(crate::specs::Refused::number, crate::specs::Tests::faces_bad))]
pub fn faces(s: Settings) -> Result<(), Refusal>
    ensures { number_of result ≡ first (Refusals.faces s ∷ []) 0 }
{
    let bad = face_bad(Axis::X, Side::Min, s.x_min)
        | face_bad(Axis::X, Side::Max, s.x_max)
        | face_bad(Axis::Y, Side::Min, s.y_min)
        | face_bad(Axis::Y, Side::Max, s.y_max);
    unless(bad, Refusal::Face)
}

pub fn tolerance(t: f64) -> Result<(), Refusal>
    ensures { number_of result ≡ first (Refusals.tolerance t ∷ []) 0 }
{
    unless(t.is_nan(), Refusal::Run)
}

pub fn steps(n: u64) -> Result<(), Refusal>
    ensures { number_of result ≡ first (Refusals.steps n ∷ []) 0 }
{
    unless(MOST_STEPS < n, Refusal::Run)
}

pub fn check_place(s: Settings, x: usize, y: usize) -> Result<(), Refusal>
    ensures { number_of result ≡ first (Refusals.place s x y ∷ []) 0 }
{
    unless((s.nx <= x) | (s.ny <= y), Refusal::Place)
}

pub fn direction(i: usize) -> Result<(), Refusal>
    ensures { number_of result ≡ first (Refusals.direction i ∷ []) 0 }
{
    unless(9 <= i, Refusal::Place)
}

#[tactic(auto, unfolding(crate::specs::Refused::number, crate::specs::Tests::driven))]
pub fn kinds(s: Settings) -> Result<(), Refusal>
    ensures { number_of result ≡ first (Refusals.kinds s ∷ []) 0 }
{
    let driven = s.x_min.drives() | s.x_max.drives() | s.y_min.drives() | s.y_max.drives();
    unless(driven, Refusal::NotCopying)
}

pub fn losses(s: Settings) -> Result<(), Refusal>
    ensures { number_of result ≡ first (Refusals.losses s ∷ []) 0 }
{
    unless(s.lossy(), Refusal::Lossy)
}

// bytes is the length of a checkpoint file that is to be written.
pub fn whole_file(s: Settings, bytes: usize) -> Result<(), Refusal>
    ensures { number_of result ≡ first (Refusals.bytes s bytes ∷ []) 0 }
{
    unless(bytes_bad(s.nx, s.ny, 13, bytes), Refusal::Length)
}

// f is the length of the populations that are lent for those of a file.
pub fn lent(h: Head, f: usize) -> Result<(), Refusal>
    ensures { number_of result ≡ first (Refusals.lent h 9 f ∷ []) 0 }
{
    unless(length_bad(h.nx, h.ny, 9, f), Refusal::Length)
}

pub fn tally_counted(length: usize, count: usize) -> Result<(), Refusal>
    ensures { number_of result ≡ first (Refusals.tally_counted length count ∷ []) 0 }
{
    unless(tally_count_bad(length, count), Refusal::FileLength)
}

// ---- several

// What every operation on populations tests first; f is their length.
pub fn check_populations(s: Settings, f: usize) -> Result<(), Refusal>
    ensures { number_of result ≡ first (Refusals.sides s ∷ Refusals.lengths s 9 f ∷ []) 0 }
{
    sides(s)?;
    lengths(s, 9, f)
}

// The same where populations are turned into post-collision ones, or back; post is the length of these.
pub fn both_populations(s: Settings, f: usize, post: usize) -> Result<(), Refusal>
    ensures { number_of result
        ≡ first (Refusals.sides s ∷ Refusals.lengths s 9 f ∷ Refusals.lengths s 9 post ∷ []) 0 }
{
    check_populations(s, f)?;
    lengths(s, 9, post)
}

// What every operation that works out a velocity tests of the settings.
pub fn moments(s: Settings) -> Result<(), Refusal>
    ensures { number_of result ≡ first (Refusals.floor s ∷ Refusals.force s ∷ []) 0 }
{
    floor(s)?;
    force(s)
}

// What every operation that steps tests of the settings.
pub fn stepping(s: Settings) -> Result<(), Refusal>
    ensures { number_of result
        ≡ first (Refusals.rates s ∷ Refusals.floor s ∷ Refusals.force s ∷ Refusals.faces s ∷ []) 0 }
{
    rates(s)?;
    moments(s)?;
    faces(s)
}

// What every file is tested for first.
pub fn versioned(length: usize, version: usize) -> Result<(), Refusal>
    ensures { number_of result ≡ first (Refusals.short length ∷ Refusals.version version ∷ []) 0 }
{
    unless(length < 5, Refusal::FileShort)?;
    unless(version != 1, Refusal::FileVersion)
}

// The tests of a checkpoint file by itself.
pub fn file(h: Head) -> Result<(), Refusal>
    ensures { number_of result ≡ first (Refusals.short h.length ∷ Refusals.version h.version ∷ Refusals.cut h
        ∷ Refusals.stored h ∷ Refusals.counted h ∷ []) 0 }
{
    versioned(h.length, h.version)?;
    unless(h.length < 9, Refusal::FileSides)?;
    unless(sides_bad(h.nx, h.ny), Refusal::Sides)?;
    unless(count_bad(h), Refusal::FileLength)
}

// The tests of ten numbers that are written or read, where `size` entries are to be lent for them.
#[tactic(auto, using(crate::proofs::Numbers::some_number), unfolding(crate::specs::Refused::number, crate::specs::Tests::size_bad))]
pub fn numbers(t: &[u64; 10], size: usize, len: usize) -> Result<(), Refusal>
    ensures { number_of result ≡ first (Refusals.sums t.now ∷ Refusals.sized size len ∷ []) 0 }
{
    unless(sums_bad(t), Refusal::Tally)?;
    unless(len != size, Refusal::Length)
}
