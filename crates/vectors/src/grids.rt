// The readings of a grid: each cell's density and velocity, the velocity field, mass and energy; and the initial populations.
use crate::made::{self, Mode};
use crate::{show, studies};
use cell::Collision;
use readings::Velocity;
use settings::Settings;
use std::io;

// What is written where a reading is refused, which none here is.
pub const AT_REST: Velocity = Velocity { ux: 0.0, uy: 0.0 };

fn show_cell(rt: &impl Print, s: Settings, f: &[u64], x: usize, y: usize) -> io::Result<()> {
    let rho = readings::density(s, f, x, y).unwrap_or(0.0);
    let u = readings::velocity(s, f, x, y).unwrap_or(AT_REST);
    show::numbers(rt, &[rho, u.ux, u.uy])
}

fn show_row(rt: &impl Print, s: Settings, f: &[u64], y: usize) -> io::Result<()> {
    for x in 0..s.nx {
        show_cell(rt, s, f, x, y)?;
    }
    Ok(())
}

fn show_cells(rt: &impl Print, s: Settings, f: &[u64]) -> io::Result<()> {
    for y in 0..s.ny {
        show_row(rt, s, f, y)?;
    }
    Ok(())
}

fn show_planes(rt: &impl Print, s: Settings, f: &[u64]) -> io::Result<()> {
    for i in 0..9 {
        show::words(rt, readings::plane(s, f, i))?;
    }
    Ok(())
}

fn show_sums(rt: &impl Print, s: Settings, f: &[u64], u: &mut [u64]) -> io::Result<()> {
    readings::velocity_field(s, f, u).unwrap_or(());
    show::words(rt, &[show::mixed(u)])?;
    let mass = readings::total_mass(s, f).unwrap_or(0.0);
    let energy = readings::kinetic_energy(s, f).unwrap_or(0.0);
    show::numbers(rt, &[mass, energy])
}

// A grid in a mode, from the number x on; answers the number after it.
fn one(
    rt: &impl Print,
    nx: usize,
    ny: usize,
    mode: Mode,
    x: u64,
    f: &mut [u64],
    table: &mut [u64],
    u: &mut [u64],
) -> io::Result<u64> {
    let x1 = made::shifted(x);
    let x2 = made::shifted(x1);
    let fx = made::number(Mode::Plain, x1);
    let fy = made::number(Mode::Plain, x2);
    let s = studies::periodic(nx, ny, 0.1, fx, fy, Collision::Bgk);
    let x3 = made::fill(f, mode, x2);
    show_cells(rt, s, f)?;
    show_sums(rt, s, f, u)?;
    let x4 = made::fill(table, mode, x3);
    readings::initialize(s, table, f).unwrap_or(());
    show_planes(rt, s, f)?;
    Ok(x4)
}

// A grid in each mode.
pub fn all(
    rt: &impl Print,
    nx: usize,
    ny: usize,
    x: u64,
    f: &mut [u64],
    table: &mut [u64],
    u: &mut [u64],
) -> io::Result<u64> {
    let x = one(rt, nx, ny, Mode::Plain, x, f, table, u)?;
    let x = one(rt, nx, ny, Mode::Any, x, f, table, u)?;
    one(rt, nx, ny, Mode::Mixed, x, f, table, u)
}
