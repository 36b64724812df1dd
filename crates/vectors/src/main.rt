// Asks the port what the Rust was asked, and writes the answers as patterns in hexadecimal: they must be those that the Rust wrote.
#![tactic(auto)]

mod cells;
mod floors;
mod grids;
mod made;
mod replays;
mod show;
mod steadies;
mod streams;
mod studies;

use std::io;

// The collision of cells.
fn all_cells(rt: &impl Print, x: u64) -> io::Result<u64> {
    let mut x = x;
    for k in 0..108 {
        x = cells::one(rt, k, x)?;
    }
    Ok(x)
}

// The readings of grids of three sizes, in each mode.
fn all_readings(rt: &impl Print, x: u64) -> io::Result<u64> {
    let x = grids::all(rt, 1, 1, x, &mut [0; 9], &mut [0; 3], &mut [0; 2])?;
    let x = grids::all(rt, 3, 2, x, &mut [0; 54], &mut [0; 18], &mut [0; 12])?;
    grids::all(rt, 2, 5, x, &mut [0; 90], &mut [0; 30], &mut [0; 20])
}

// Streaming with every pair of kinds of faces, on grids of six sizes.
fn all_streams(rt: &impl Print, x: u64) -> io::Result<u64> {
    let x = streams::all(rt, 1, 1, x, &mut [0; 9], &mut [0; 9])?;
    let x = streams::all(rt, 2, 1, x, &mut [0; 18], &mut [0; 18])?;
    let x = streams::all(rt, 1, 3, x, &mut [0; 27], &mut [0; 27])?;
    let x = streams::all(rt, 2, 2, x, &mut [0; 36], &mut [0; 36])?;
    let x = streams::all(rt, 3, 5, x, &mut [0; 135], &mut [0; 135])?;
    streams::all(rt, 5, 2, x, &mut [0; 90], &mut [0; 90])
}

// Runs with every pair of kinds of faces and every kind of collision, on grids of five sizes.
fn all_runs(rt: &impl Print, x: u64) -> io::Result<u64> {
    let x = replays::all(rt, 1, 1, x, &mut [0; 9], &mut [0; 9])?;
    let x = replays::all(rt, 2, 1, x, &mut [0; 18], &mut [0; 18])?;
    let x = replays::all(rt, 4, 4, x, &mut [0; 144], &mut [0; 144])?;
    let x = replays::all(rt, 3, 5, x, &mut [0; 135], &mut [0; 135])?;
    replays::all(rt, 5, 2, x, &mut [0; 90], &mut [0; 90])
}

// The same to a steady state, on grids of three sizes, and those ruined ones that the Rust calls settled.
fn all_steadies(rt: &impl Print, x: u64) -> io::Result<()> {
    let x = steadies::all(rt, 1, 1, x, &mut [0; 9], &mut [0; 9], &mut [0; 2])?;
    let x = steadies::all(rt, 2, 3, x, &mut [0; 54], &mut [0; 54], &mut [0; 12])?;
    steadies::all(rt, 4, 4, x, &mut [0; 144], &mut [0; 144], &mut [0; 32])?;
    steadies::all_ruined(rt)
}

fn main(rt: HostRuntime) -> io::Result<()> {
    let x = all_cells(&rt, 88172645463325252)?;
    let x = all_readings(&rt, x)?;
    let x = all_streams(&rt, x)?;
    let x = all_runs(&rt, x)?;
    all_steadies(&rt, x)?;
    floors::all(&rt)
}
