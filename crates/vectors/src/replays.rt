// Runs of the studies of a grid: a single step, or as many steps as are drawn.
use crate::{made, show, studies};
use settings::{Refusal, Settings};
use std::io;

const STEPS: [u64; 4] = [0, 1, 2, 7];

// A choice beyond the table is the single step.
fn go(s: Settings, choice: usize, f: &mut [u64], post: &mut [u64]) -> Result<(), Refusal> {
    match STEPS.get(choice) {
        Some(steps) => runs::run(s, *steps, f, post),
        None => runs::step(s, f, post),
    }
}

// Study q, from the number x on; answers the number after it.
fn one(
    rt: &impl Print,
    nx: usize,
    ny: usize,
    q: u64,
    x: u64,
    f: &mut [u64],
    post: &mut [u64],
) -> io::Result<u64> {
    let s = studies::drawn(nx, ny, q, x);
    let c = made::shifted(studies::fill(x, f, post));
    let number = settings::number_of(go(s, (c % 5) as usize, f, post));
    show::words(rt, &[number as u64, show::mixed(f), show::mixed(post)])?;
    Ok(c)
}

pub fn all(
    rt: &impl Print,
    nx: usize,
    ny: usize,
    x: u64,
    f: &mut [u64],
    post: &mut [u64],
) -> io::Result<u64> {
    let mut x = x;
    for q in 0..108 {
        x = one(rt, nx, ny, q, x, f, post)?;
    }
    Ok(x)
}
