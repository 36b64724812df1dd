// What is read of a grid's populations, and their initialisation from a table. Cell c = x + y·nx is the one at (x, y).
#![tactic(auto)]

ghost use Rattle.std.specs.Prelude.{◌≡◌, ◌+◌, ◌*◌, ◌≤◌, length};
ghost use Rattle.grid.specs.Grid.{Grid, Holds, buffer_of};
ghost use Rattle.settings.specs.Refusals as Call;
ghost use Rattle.settings.specs.Refusals.{refusal};
ghost use Rattle.settings.specs.Outcome.{outcome};
ghost use Rattle.settings.specs.Refused.{number_of};
ghost use Rattle.readings.specs.Readings.{initial_moments, initial_field, initialized, reading_of, density_at, velocity_at, density_read, velocity_reading_of, velocity_read, velocity_buffer, velocity_field_read, mass_of, total_mass_read, energy_of, kinetic_energy_read, PartOf, plane_start, plane_length};

use cell::Moments;
use settings::{Refusal, Settings};

mod answers;

pub use answers::Velocity;

// ---- initialize

// What the table has of cell c.
#[tactic(auto, unfolding(crate::specs::Readings::initial_moments))]
fn initial_moments(table: &[u64], c: usize) -> Moments
    requires { 3 * c + 3 ≤ length table.now }
    ensures { result ≡ initial_moments table.now c }
{
    let at = 3 * c;
    Moments {
        density: number::value(table[at]),
        ux: number::value(table[at + 1]),
        uy: number::value(table[at + 2]),
    }
}

#[tactic(auto, using(crate::proofs::Fills::initial_fill))]
fn initialize_cells(s: Settings, table: &[u64], f: &mut [u64])
    requires grid { Grid s.nx s.ny }
    requires table_len { (length table.now ≡ 3 * (s.nx * s.ny)) × (length f.old ≡ 9 * (s.nx * s.ny)) }
    ensures { f.new ≡ buffer_of s.nx s.ny (initial_field s table.now) }
{
    let n = s.nx * s.ny;
    for c in 0..n {
        let m = initial_moments(table, c);
        grid::put_back(f, n, c, cell::equilibria(m));
    }
}

// Makes every population the equilibrium of what the table has of its cell.
#[tactic(auto, using(crate::proofs::Answered::wrote, crate::proofs::Answered::table_known))]
pub fn initialize(s: Settings, table: &[u64], f: &mut [u64]) -> Result<(), Refusal>
    ensures { outcome (number_of result) f.new ≡ initialized s table.now f.old }
{
    settings::check_initialize(s, table.len(), f.len())?;
    initialize_cells(s, table, f);
    Ok(())
}

// ---- density and velocity of a cell

// The density of cell c.
fn read_density(s: Settings, f: &[u64], c: usize) -> f64
    requires { Holds f.now (s.nx * s.ny) c }
    ensures { result ≡ density_at s f.now c }
{
    cell::density(grid::gather(f, s.nx * s.ny, c))
}

// The same cell's velocity beside its density, with half of the force in it, and at rest below the floor.
pub fn read_velocity(s: Settings, f: &[u64], c: usize) -> Moments
    requires { Holds f.now (s.nx * s.ny) c }
    ensures { result ≡ velocity_at s f.now c }
{
    cell::read_moments(grid::gather(f, s.nx * s.ny, c), s.force(), s.floor)
}

#[tactic(auto, using(crate::proofs::Answered::read, crate::proofs::Answered::density_holds))]
pub fn density(s: Settings, f: &[u64], x: usize, y: usize) -> Result<f64, Refusal>
    ensures { reading_of result ≡ density_read s f.now x y }
{
    settings::check_density(s, f.len(), x, y)?;
    Ok(read_density(s, f, x + y * s.nx))
}

#[tactic(auto, using(crate::proofs::Answered::velocity_read, crate::proofs::Answered::velocity_holds))]
pub fn velocity(s: Settings, f: &[u64], x: usize, y: usize) -> Result<Velocity, Refusal>
    ensures { velocity_reading_of result ≡ velocity_read s f.now x y }
{
    settings::check_velocity(s, f.len(), x, y)?;
    let m = read_velocity(s, f, x + y * s.nx);
    Ok(Velocity { ux: m.ux, uy: m.uy })
}

// ---- the velocity field

// Fills u with the velocity of every cell: the snapshot of a steady run.
#[tactic(auto, using(crate::proofs::Fills::velocity_fill))]
pub fn velocity_cells(s: Settings, f: &[u64], u: &mut [u64])
    requires grid { Grid s.nx s.ny }
    requires f_len { (length f.now ≡ 9 * (s.nx * s.ny)) × (length u.old ≡ 2 * (s.nx * s.ny)) }
    ensures { u.new ≡ velocity_buffer s f.now }
{
    for c in 0..s.nx * s.ny {
        let m = read_velocity(s, f, c);
        u[2 * c] = number::pattern(m.ux);
        u[2 * c + 1] = number::pattern(m.uy);
    }
}

// Fills u with the velocity of every cell, two entries a cell.
#[tactic(auto, using(crate::proofs::Answered::wrote, crate::proofs::Answered::field_known))]
pub fn velocity_field(s: Settings, f: &[u64], u: &mut [u64]) -> Result<(), Refusal>
    ensures { outcome (number_of result) u.new ≡ velocity_field_read s f.now u.old }
{
    settings::check_velocity_field(s, f.len(), u.len())?;
    velocity_cells(s, f, u);
    Ok(())
}

// ---- sums over the cells, y outer and x inner

#[tactic(auto, using(crate::proofs::Fills::sum_none, crate::proofs::Fills::sum_more), unfolding(crate::specs::Readings::mass_of))]
fn mass(s: Settings, f: &[u64]) -> f64
    requires grid { Grid s.nx s.ny }
    requires f_len { length f.now ≡ 9 * (s.nx * s.ny) }
    ensures { result ≡ mass_of s f.now }
{
    let mut sum = 0.0;
    for c in 0..s.nx * s.ny {
        sum += read_density(s, f, c);
    }
    sum
}

#[tactic(auto, using(crate::proofs::Answered::read, crate::proofs::Answered::sides_known))]
pub fn total_mass(s: Settings, f: &[u64]) -> Result<f64, Refusal>
    ensures { reading_of result ≡ total_mass_read s f.now }
{
    settings::check_total_mass(s, f.len())?;
    Ok(mass(s, f))
}

#[tactic(auto, using(crate::proofs::Fills::sum_none, crate::proofs::Fills::sum_more), unfolding(crate::specs::Readings::energy_of))]
fn energy(s: Settings, f: &[u64]) -> f64
    requires grid { Grid s.nx s.ny }
    requires f_len { length f.now ≡ 9 * (s.nx * s.ny) }
    ensures { result ≡ energy_of s f.now }
{
    let mut ke = 0.0;
    for c in 0..s.nx * s.ny {
        let m = read_velocity(s, f, c);
        ke += 0.5 * m.density * (m.ux * m.ux + m.uy * m.uy);
    }
    ke
}

#[tactic(auto, using(crate::proofs::Answered::read, crate::proofs::Answered::energy_known))]
pub fn kinetic_energy(s: Settings, f: &[u64]) -> Result<f64, Refusal>
    ensures { reading_of result ≡ kinetic_energy_read s f.now }
{
    settings::check_kinetic_energy(s, f.len())?;
    Ok(energy(s, f))
}

// ---- a direction's plane

// Why a plane is refused: `plane` itself can only answer with an empty part.
pub fn plane_refusal(s: Settings, f: &[u64], i: usize) -> Result<(), Refusal>
    ensures { number_of result ≡ refusal (Call.plane s (length f.now) i) }
{
    settings::check_plane(s, f.len(), i)
}

// All entries of direction i, as a part of f; an empty part where it is refused.
#[tactic(auto, using(crate::proofs::Answered::plane_inside))]
pub fn plane(s: Settings, f: &[u64], i: usize) -> &[u64]
    ensures { PartOf result f.entry (plane_start s f.now i) (plane_length s f.now i) }
{
    match plane_refusal(s, f, i) {
        Ok(()) => {
            let n = s.nx * s.ny;
            let start = i * n;
            let end = start + n;
            &f[start..end]
        }
        Err(_) => &f[0..0],
    }
}
