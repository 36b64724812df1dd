// What crosses to a host in another language, as words of 64 bits: the settings of a study, which are twenty, and a small answer.
#![tactic(auto)]

ghost use Rattle.std.specs.Prelude.{◌≡◌, ◌<◌};
ghost use Rattle.settings.specs.Outcome.{outcome};
ghost use Rattle.host.specs.Host.{face_of_kind, collision_of_kind, word_at, number_at, face_at, settings_of};
ghost use Rattle.host.specs.Told.{told};

use cell::Collision;
use settings::{Face, Refusal, Settings};

// ---- the settings, from the words of the C struct

#[tactic(auto, using(number::proofs::Nan::zero_by_zero), unfolding(crate::specs::Host::face_of_kind))]
fn face_of_kind(kind: u64, a: f64, b: f64) -> Face
    ensures { result ≡ face_of_kind kind a b }
{
    match kind {
        0 => Face::Periodic,
        1 => Face::NoSlip,
        2 => Face::MovingWall(a, b),
        3 => Face::Symmetry,
        4 => Face::Velocity(a, b),
        5 => Face::Pressure(a),
        // no kind: a density that number 5 refuses
        _ => Face::Pressure(0.0 / 0.0),
    }
}

#[tactic(auto, using(number::proofs::Nan::zero_by_zero), unfolding(crate::specs::Host::collision_of_kind))]
fn collision_of_kind(kind: u64, rate: f64) -> Collision
    ensures { result ≡ collision_of_kind kind rate }
{
    match kind {
        0 => Collision::Bgk,
        1 => Collision::Mrt,
        2 => Collision::Trt(rate),
        // no kind: a rate that number 3 refuses
        _ => Collision::Trt(0.0 / 0.0),
    }
}

// The face of the three words from k on.
fn face_at(w: &[u64; 20], k: usize) -> Face
    requires { k < 17 }
    ensures { result ≡ face_at w.now k }
{
    face_of_kind(w[k], number::value(w[k + 1]), number::value(w[k + 2]))
}

fn collision_at(w: &[u64; 20]) -> Collision
    ensures { result ≡ collision_of_kind (word_at w.now 5) (number_at w.now 6) }
{
    collision_of_kind(w[5], number::value(w[6]))
}

#[tactic(auto, unfolding(crate::specs::Host::settings_of))]
pub fn settings_of(w: &[u64; 20]) -> Settings
    ensures { result ≡ settings_of w.now }
{
    let collision = collision_at(w);
    let x_min = face_at(w, 7);
    let x_max = face_at(w, 10);
    let y_min = face_at(w, 13);
    let y_max = face_at(w, 16);
    Settings {
        nx: w[0] as usize,
        ny: w[1] as usize,
        nu: number::value(w[2]),
        fx: number::value(w[3]),
        fy: number::value(w[4]),
        collision,
        x_min,
        x_max,
        y_min,
        y_max,
        floor: number::value(w[19]),
    }
}

// ---- an answer

// Writes the words of an answer, zeros where the call is refused, and answers its number.
pub fn tell<const N: usize>(answer: Result<[u64; N], Refusal>, out: &mut [u64; N]) -> u32
    ensures { outcome result out.new ≡ told N answer.entry }
{
    match answer {
        Ok(words) => {
            *out = words;
            0
        }
        Err(why) => {
            out.fill(0);
            why.number()
        }
    }
}
