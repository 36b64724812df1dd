// Number 9: what a steady run leaves where a snapshot is bad.
use crate::calls::steady_number;
use runs::Steady;
use settings::Refusal;
use show::{CANARY, kept, sized};
use std::io;

const MINUS_INFINITY: u64 = 0xfff0_0000_0000_0000;

// Twice this number is no f64.
const HUGE: u64 = 0x7fe0_0000_0000_0000;

const A_THIRD: u64 = 0x3fd5_5555_5555_5555;

fn steps_taken(answer: Result<Steady, Refusal>) -> u64 {
    match answer {
        Ok(Steady::Settled(steps, _)) => steps,
        Ok(Steady::RanOut(steps, _)) => steps,
        Ok(Steady::Ruined(steps)) => steps,
        Err(_) => 0,
    }
}

fn gives(rt: &impl Print, case: &str, answer: Result<Steady, Refusal>) -> io::Result<()> {
    show::gives(rt, "run_to_steady_state", case, steady_number(answer))?;
    show::value(rt, ", steps ", steps_taken(answer))
}

// One cell whose first snapshot is bad: all is left as it was.
fn at_once(rt: &impl Print, case: &str, f: [u64; 9]) -> io::Result<()> {
    let mut now = f;
    let mut post = [CANARY; 9];
    let mut u = [CANARY; 2];
    let a = runs::run_to_steady_state(sized(1, 1), 1e-9, 5, 1, &mut now, &mut post, &mut u);
    gives(rt, case, a)?;
    show::holds(rt, (now == f) & kept(&post) & kept(&u), ", left")?;
    show::newline(rt)
}

// Two cells, the second at rest. After a step directions 1 and 3 of the first are there, and its density overflows, while every
// velocity is finite. In the first snapshot the first cell has (ux, 0).
fn later(
    rt: &impl Print,
    case: &str,
    right: u64,
    left: u64,
    resting: u64,
    ux: u64,
) -> io::Result<()> {
    let mut s = sized(2, 1);
    s.nu = 100.0;
    let mut f = [0; 18];
    f[2] = right;
    f[6] = left;
    f[1] = resting;
    let mut g = f;
    let mut post = [CANARY; 18];
    let mut collided = [CANARY; 18];
    let mut u = [CANARY; 4];
    let a = runs::run_to_steady_state(s, 1e-9, 5, 1, &mut f, &mut post, &mut u);
    let stepped = runs::step(s, &mut g, &mut collided).is_ok();
    gives(rt, case, a)?;
    show::holds(
        rt,
        stepped & (f == g) & (post == collided),
        ", stepped once",
    )?;
    show::holds(rt, u == [ux, 0, 0, 0], ", first snapshot kept")?;
    show::newline(rt)
}

pub fn all(rt: &impl Print) -> io::Result<()> {
    at_once(rt, "populations NaN", [CANARY; 9])?;
    at_once(
        rt,
        "population 0 minus infinity",
        [MINUS_INFINITY, 0, 0, 0, 0, 0, 0, 0, 0],
    )?;
    at_once(rt, "density overflows", [0, HUGE, 0, HUGE, 0, 0, 0, 0, 0])?;
    later(
        rt,
        "density overflows to minus infinity after a step",
        0xffd0_0000_0000_0000,
        0xffd0_0000_0000_0000,
        0xffe8_0000_0000_0000,
        0,
    )?;
    later(
        rt,
        "density overflows after a step",
        0x7fd0_0000_0000_0000,
        0x7fc0_0000_0000_0000,
        0x7fe8_0000_0000_0000,
        A_THIRD,
    )
}
