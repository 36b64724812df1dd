// The settings of a study, the tests of what an operation is given, and the refusal that the first of them to hold gives.
#![tactic(auto)]

ghost use Rattle.std.specs.Prelude.{◌≡◌};
ghost use Rattle.settings.specs.Tests as Tests;
ghost use Rattle.settings.specs.Tests.{tau_of, is_periodic, is_symmetry, drives, face_of};

use cell::{Collision, Force};
use lattice::{Axis, Side};

mod checks;
mod faults;
mod operations;
mod refused;

pub use checks::{check_place, check_populations};
pub use faults::sides_bad;
pub use operations::{
    check_checkpoint_sides, check_density, check_initialize, check_kinetic_energy, check_lossless,
    check_plane, check_read_checkpoint, check_read_tally, check_reverse, check_run,
    check_run_to_steady_state, check_step, check_stream_with_faces, check_tally, check_total_mass,
    check_velocity, check_velocity_field, check_write_checkpoint, check_write_entry,
    check_write_tally,
};
pub use refused::{Refusal, number_of};

pub const MOST_STEPS: u64 = 1_000_000;

// The bytes of a tally's file: a count, a version, and ten numbers.
pub const TALLY_FILE: usize = 85;

// What stands at one end of an axis. A moving wall and a velocity face carry two speeds, a pressure face one density.
#[derive(Clone, Copy, Debug, PartialEq)]
pub enum Face {
    Periodic,
    NoSlip,
    MovingWall(f64, f64),
    Symmetry,
    Velocity(f64, f64),
    Pressure(f64),
}

impl Face {
    pub fn is_periodic(self) -> bool
        ensures { result ≡ is_periodic self }
    {
        matches!(self, Face::Periodic)
    }

    pub fn is_symmetry(self) -> bool
        ensures { result ≡ is_symmetry self }
    {
        matches!(self, Face::Symmetry)
    }

    // Whether the face puts in numbers of its own.
    fn drives(self) -> bool
        ensures { result ≡ drives self }
    {
        matches!(
            self,
            Face::MovingWall(_, _) | Face::Velocity(_, _) | Face::Pressure(_)
        )
    }
}

#[derive(Clone, Copy, Debug, PartialEq)]
pub struct Settings {
    pub nx: usize,
    pub ny: usize,
    pub nu: f64,
    pub fx: f64,
    pub fy: f64,
    pub collision: Collision,
    pub x_min: Face,
    pub x_max: Face,
    pub y_min: Face,
    pub y_max: Face,
    pub floor: f64,
}

impl Settings {
    pub fn tau(self) -> f64
        ensures { result ≡ tau_of self.nu }
    {
        3.0 * self.nu + 0.5
    }

    pub fn force(self) -> Force
        ensures { (result.x ≡ self.fx) × (result.y ≡ self.fy) }
    {
        Force {
            x: self.fx,
            y: self.fy,
        }
    }

    pub fn face(self, axis: Axis, side: Side) -> Face
        ensures { result ≡ face_of self axis side }
    {
        match (axis, side) {
            (Axis::X, Side::Min) => self.x_min,
            (Axis::X, Side::Max) => self.x_max,
            (Axis::Y, Side::Min) => self.y_min,
            (Axis::Y, Side::Max) => self.y_max,
        }
    }

    #[tactic(auto, unfolding(crate::specs::Tests::lossy))]
    pub fn lossy(self) -> bool
        ensures { result ≡ Tests.lossy self }
    {
        // an x mirror beside a y face that is not periodic copies one corner entry twice
        unpaired(self.x_min, self.x_max)
            | unpaired(self.y_min, self.y_max)
            | ((self.x_min.is_symmetry() | self.x_max.is_symmetry())
                & !self.y_min.is_periodic()
                & (2 <= self.ny))
    }
}

// Whether one face of an axis is periodic and the other is not.
fn unpaired(low: Face, high: Face) -> bool
    ensures { result ≡ Tests.unpaired low high }
{
    low.is_periodic() ^ high.is_periodic()
}

// A cell that an obstacle fills. C reads it as two words.
#[repr(C)]
#[derive(Clone, Copy, Debug, PartialEq, Eq)]
pub struct Obstacle {
    pub x: usize,
    pub y: usize,
}

// The length of a checkpoint file, and what stands at its head: 0 for a part that the file does not have whole.
#[derive(Clone, Copy, Debug, PartialEq, Eq)]
pub struct Head {
    pub length: usize,
    pub count: usize,
    pub version: usize,
    pub nx: usize,
    pub ny: usize,
    pub step: u64,
}
