// Steady runs of the studies of a grid, with a tolerance, most steps and steps between checks that are drawn.
use crate::{made, show, studies};
use cell::Collision;
use runs::Steady;
use settings::Refusal;
use std::io;

// Infinity, -1.0, 0.0, 0.1, 0.01 and 0.001.
const TOLERANCES: [u64; 6] = [
    0x7ff0_0000_0000_0000,
    0xbff0_0000_0000_0000,
    0x0000_0000_0000_0000,
    0x3fb9_9999_9999_999a,
    0x3f84_7ae1_47ae_147b,
    0x3f50_624d_d2f1_a9fc,
];

const EVERY: [u64; 4] = [0, 1, 3, 50];

// What a velocity buffer holds before a run that may leave it as it was.
const HALF: u64 = 0x3fe0_0000_0000_0000;

// Twice this number is no f64.
const HUGE: u64 = 0x7fe0_0000_0000_0000;

// What a line says of an answer.
#[derive(Clone, Copy)]
struct Values {
    number: u32,
    settled: u64,
    steps: u64,
    residual: f64,
}

fn values_of(answer: Result<Steady, Refusal>) -> Values {
    match answer {
        Err(why) => Values {
            number: why.number(),
            settled: 0,
            steps: 0,
            residual: 0.0,
        },
        Ok(Steady::Settled(steps, residual)) => Values {
            number: 0,
            settled: 1,
            steps,
            residual,
        },
        Ok(Steady::RanOut(steps, residual)) => Values {
            number: 0,
            settled: 0,
            steps,
            residual,
        },
        Ok(Steady::Ruined(steps)) => Values {
            number: 9,
            settled: 0,
            steps,
            residual: 0.0,
        },
    }
}

// The answer, and what the three buffers then hold.
fn show_answer(
    rt: &impl Print,
    answer: Result<Steady, Refusal>,
    f: &[u64],
    post: &[u64],
    u: &[u64],
) -> io::Result<()> {
    let v = values_of(answer);
    show::words(
        rt,
        &[
            v.number as u64,
            v.settled,
            v.steps,
            number::pattern(v.residual),
            show::mixed(f),
            show::mixed(post),
            show::mixed(u),
        ],
    )
}

// Study q, from the number x on; answers the number after it.
fn one(
    rt: &impl Print,
    nx: usize,
    ny: usize,
    q: u64,
    x: u64,
    f: &mut [u64],
    post: &mut [u64],
    u: &mut [u64],
) -> io::Result<u64> {
    let s = studies::drawn(nx, ny, q, x);
    let c = made::shifted(studies::fill(x, f, post));
    let next = made::fill(u, made::Mode::Any, c);
    let tolerance = number::value(TOLERANCES[(c % 6) as usize]);
    let most = (c >> 8) % 8 * 20;
    let every = EVERY[((c >> 16) % 4) as usize];
    let answer = runs::run_to_steady_state(s, tolerance, most, every, f, post, u);
    show_answer(rt, answer, f, post, u)?;
    Ok(next)
}

pub fn all(
    rt: &impl Print,
    nx: usize,
    ny: usize,
    x: u64,
    f: &mut [u64],
    post: &mut [u64],
    u: &mut [u64],
) -> io::Result<u64> {
    let mut x = x;
    for q in 0..108 {
        x = one(rt, nx, ny, q, x, f, post, u)?;
    }
    Ok(x)
}

// A steady run that the Rust calls settled after one step, on cells in a row.
fn ruined(
    rt: &impl Print,
    nx: usize,
    f: &mut [u64],
    post: &mut [u64],
    u: &mut [u64],
) -> io::Result<()> {
    let s = studies::periodic(nx, 1, 100.0, 0.0, 0.0, Collision::Bgk);
    let answer = runs::run_to_steady_state(s, 1e-9, 10, 1, f, post, u);
    show_answer(rt, answer, f, post, u)
}

// One cell whose first snapshot is bad.
fn at_once(rt: &impl Print, f: &mut [u64]) -> io::Result<()> {
    ruined(rt, 1, f, &mut [0; 9], &mut [HALF; 2])
}

// Two cells at rest. After a step directions 1 and 3 of the first are at the second, whose density then overflows.
fn later(rt: &impl Print, moving: u64, resting: u64) -> io::Result<()> {
    let mut f = [0; 18];
    f[2] = moving;
    f[6] = moving;
    f[1] = resting;
    ruined(rt, 2, &mut f, &mut [0; 18], &mut [HALF; 4])
}

// The recorded differences from the Rust: a NaN, a density of minus infinity, and densities that overflow.
pub fn all_ruined(rt: &impl Print) -> io::Result<()> {
    at_once(rt, &mut [0x7ff8_0000_0000_0000, 0, 0, 0, 0, 0, 0, 0, 0])?;
    at_once(rt, &mut [0xfff0_0000_0000_0000, 0, 0, 0, 0, 0, 0, 0, 0])?;
    at_once(rt, &mut [0, HUGE, 0, HUGE, 0, 0, 0, 0, 0])?;
    later(rt, 0xffd0_0000_0000_0000, 0xffe8_0000_0000_0000)?;
    later(rt, 0x7fd0_0000_0000_0000, 0x7fe8_0000_0000_0000)
}
