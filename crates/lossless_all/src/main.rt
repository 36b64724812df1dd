// The lossless question against counting, and the reverse against streaming: all 81 settings of Periodic, NoSlip and Symmetry faces on all grids with sides from 1 to 5.
#![tactic(auto)]

ghost use Rattle.std.specs.Prelude.{◌≤◌};

use cell::Collision;
use lossless::Answer;
use settings::{Face, Refusal, Settings};
use std::io;

const SIDE: usize = 5;

const MOST: usize = 9 * SIDE * SIDE;

fn face(digit: u64) -> Face {
    match digit {
        0 => Face::Periodic,
        1 => Face::NoSlip,
        _ => Face::Symmetry,
    }
}

// The faces are the digits of q to the base 3.
fn settings_of(nx: usize, ny: usize, q: u64) -> Settings {
    let x_min = face(q % 3);
    let x_max = face(q / 3 % 3);
    let y_min = face(q / 9 % 3);
    let y_max = face(q / 27 % 3);
    Settings {
        nx,
        ny,
        nu: 0.0,
        fx: 0.0,
        fy: 0.0,
        collision: Collision::Bgk,
        x_min,
        x_max,
        y_min,
        y_max,
        floor: 1e-12,
    }
}

// Every entry tells its own index; every second one is a NaN with that payload.
fn numbered(k: usize) -> u64 {
    let low = (k % 4096) as u64;
    if k % 2 == 0 {
        0x7ff8_0000_0000_0000 + low
    } else {
        0x3ff0_0000_0000_0000 + low
    }
}

fn number_all(a: &mut [u64]) {
    for (k, v) in a.iter_mut().enumerate() {
        *v = numbered(k);
    }
}

fn all_numbered(a: &[u64]) -> bool {
    a.iter().enumerate().all(|(k, v)| *v == numbered(k))
}

// Marks the index of the post-collision entry that each entry of f is a copy of.
fn mark(f: &[u64], seen: &mut [bool]) {
    seen.fill(false);
    for v in f {
        if let Some(mark) = seen.get_mut((*v % 4096) as usize) {
            *mark = true;
        }
    }
}

// The lowest index that is not marked, or the length.
fn lowest_unseen(seen: &[bool]) -> usize {
    seen.iter().position(|mark| !*mark).unwrap_or(seen.len())
}

// Whether the index is that of (x, y, i).
fn is_entry(nx: usize, ny: usize, low: usize, x: usize, y: usize, i: usize) -> bool {
    if (nx == 0) | (ny == 0) {
        return false;
    }
    (low % nx == x) & (low / nx % ny == y) & (low / nx / ny == i)
}

// Whether the answer and the reverse are right, for what streaming made of the numbered buffer.
fn right(s: Settings, low: usize, f: &[u64], post: &mut [u64]) -> bool {
    let whole = low == f.len();
    post.fill(0);
    let reversed = lossless::reverse(s, f, post);
    match lossless::lossless(s) {
        Err(_) => false,
        Ok(Answer::Lossless) => whole & reversed.is_ok() & all_numbered(post),
        Ok(Answer::Lossy(x, y, i)) => {
            is_entry(s.nx, s.ny, low, x, y, i) & !whole & (reversed == Err(Refusal::Lossy))
        }
    }
}

// Whether the case is right.
fn one(s: Settings, post: &mut [u64], f: &mut [u64], seen: &mut [bool]) -> bool {
    number_all(post);
    let streamed = streaming::stream_with_faces(s, post, f).is_ok();
    mark(f, seen);
    let low = lowest_unseen(seen);
    streamed & right(s, low, f, post)
}

// How many of the 81 settings are wrong on a grid.
fn wrong_on(nx: usize, ny: usize, post: &mut [u64], f: &mut [u64], seen: &mut [bool]) -> u64 {
    f.fill(0);
    let mut wrong: u64 = 0;
    for q in 0..81 {
        if !one(settings_of(nx, ny, q), post, f, seen) {
            wrong += 1;
        }
    }
    wrong
}

// The grids of a width, on parts of buffers that have nine entries for each cell of the largest.
fn of_width(
    rt: &impl Print,
    nx: usize,
    post: &mut [u64; MOST],
    f: &mut [u64; MOST],
    seen: &mut [bool; MOST],
) -> io::Result<()>
    requires { nx ≤ 5 }
{
    for ny in 1..=SIDE {
        let n = 9 * nx * ny;
        let wrong = wrong_on(nx, ny, &mut post[..n], &mut f[..n], &mut seen[..n]);
        println!(rt; "{nx} by {ny}: {wrong} of 81 wrong")?;
    }
    Ok(())
}

fn main(rt: HostRuntime) -> io::Result<()> {
    let mut post = [0; MOST];
    let mut f = [0; MOST];
    let mut seen = [false; MOST];
    for nx in 1..=SIDE {
        of_width(&rt, nx, &mut post, &mut f, &mut seen)?;
    }
    Ok(())
}
