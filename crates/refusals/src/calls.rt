// Each operation, called on lent buffers full of canaries. What is lent as `&` cannot be written; the rest is looked at.
use runs::Steady;
use settings::{Refusal, Settings, number_of};
use show::{CANARY, full_of, kept};
use std::io;

// An answer of words, as hosts are given it: what a refused call tells is looked at.
fn answered<const N: usize>(
    rt: &impl Print,
    operation: &str,
    case: &str,
    answer: Result<[u64; N], Refusal>,
) -> io::Result<()> {
    let mut words = [CANARY; N];
    let number = host::tell(answer, &mut words);
    show::refused(rt, operation, case, number, full_of(&words, &0), ", zero")
}

// The one word of a number.
fn word(answer: Result<f64, Refusal>) -> Result<[u64; 1], Refusal> {
    Ok([number::pattern(answer?)])
}

pub fn initialize(
    rt: &impl Print,
    case: &str,
    s: Settings,
    table: &[u64],
    f: &mut [u64],
) -> io::Result<()> {
    let number = number_of(readings::initialize(s, table, f));
    show::refused(rt, "initialize", case, number, kept(f), ", left")
}

pub fn density(
    rt: &impl Print,
    case: &str,
    s: Settings,
    f: &[u64],
    x: usize,
    y: usize,
) -> io::Result<()> {
    answered(rt, "density", case, word(readings::density(s, f, x, y)))
}

pub fn velocity(
    rt: &impl Print,
    case: &str,
    s: Settings,
    f: &[u64],
    x: usize,
    y: usize,
) -> io::Result<()> {
    let words = readings::velocity(s, f, x, y).map(|u| [
        number::pattern(u.ux),
        number::pattern(u.uy),
    ]);
    answered(rt, "velocity", case, words)
}

pub fn velocity_field(
    rt: &impl Print,
    case: &str,
    s: Settings,
    f: &[u64],
    u: &mut [u64],
) -> io::Result<()> {
    let number = number_of(readings::velocity_field(s, f, u));
    show::refused(rt, "velocity_field", case, number, kept(u), ", left")
}

pub fn total_mass(rt: &impl Print, case: &str, s: Settings, f: &[u64]) -> io::Result<()> {
    answered(rt, "total_mass", case, word(readings::total_mass(s, f)))
}

pub fn kinetic_energy(rt: &impl Print, case: &str, s: Settings, f: &[u64]) -> io::Result<()> {
    answered(
        rt,
        "kinetic_energy",
        case,
        word(readings::kinetic_energy(s, f)),
    )
}

pub fn plane(rt: &impl Print, case: &str, s: Settings, f: &[u64], i: usize) -> io::Result<()> {
    let number = number_of(readings::plane_refusal(s, f, i));
    let part = readings::plane(s, f, i);
    show::refused(rt, "plane", case, number, part.is_empty(), ", empty")
}

pub fn stream_with_faces(
    rt: &impl Print,
    case: &str,
    s: Settings,
    post: &[u64],
    f: &mut [u64],
) -> io::Result<()> {
    let number = number_of(streaming::stream_with_faces(s, post, f));
    show::refused(rt, "stream_with_faces", case, number, kept(f), ", left")
}

pub fn lossless(rt: &impl Print, case: &str, s: Settings) -> io::Result<()> {
    show::number(rt, "lossless", case, number_of(lossless::lossless(s)))
}

pub fn reverse(
    rt: &impl Print,
    case: &str,
    s: Settings,
    f: &[u64],
    post: &mut [u64],
) -> io::Result<()> {
    let number = number_of(lossless::reverse(s, f, post));
    show::refused(rt, "reverse", case, number, kept(post), ", left")
}

pub fn step(
    rt: &impl Print,
    case: &str,
    s: Settings,
    f: &mut [u64],
    post: &mut [u64],
) -> io::Result<()> {
    let number = number_of(runs::step(s, f, post));
    show::refused(rt, "step", case, number, kept(f) & kept(post), ", left")
}

pub fn run(
    rt: &impl Print,
    case: &str,
    s: Settings,
    steps: u64,
    f: &mut [u64],
    post: &mut [u64],
) -> io::Result<()> {
    let number = number_of(runs::run(s, steps, f, post));
    show::refused(rt, "run", case, number, kept(f) & kept(post), ", left")
}

pub fn tally(rt: &impl Print, case: &str, s: Settings, f: &[u64]) -> io::Result<()> {
    answered(rt, "tally", case, tally::tally(s, f))
}

// Of an array that was lent, the prover knows the length by its type alone.
fn ten_kept(t: &[u64; 10]) -> bool {
    kept(t)
}

pub fn write_entry(
    rt: &impl Print,
    case: &str,
    s: Settings,
    x: usize,
    y: usize,
    i: usize,
    f: &mut [u64],
) -> io::Result<()> {
    let mut t = [CANARY; 10];
    let number = number_of(tally::write_entry(s, x, y, i, 1, f, &mut t));
    show::refused(
        rt,
        "write_entry",
        case,
        number,
        kept(f) & ten_kept(&t),
        ", left",
    )
}

pub fn steady_number(answer: Result<Steady, Refusal>) -> u32 {
    match answer {
        Ok(Steady::Ruined(_)) => 9,
        Ok(_) => 0,
        Err(why) => why.number(),
    }
}

pub fn steady(
    rt: &impl Print,
    case: &str,
    s: Settings,
    tolerance: f64,
    steps: u64,
    f: &mut [u64],
    post: &mut [u64],
    u: &mut [u64],
) -> io::Result<()> {
    let a = runs::run_to_steady_state(s, tolerance, steps, 1, f, post, u);
    let all = kept(f) & kept(post) & kept(u);
    show::refused(
        rt,
        "run_to_steady_state",
        case,
        steady_number(a),
        all,
        ", left",
    )
}
