// Streaming: every plane goes on by one step of its direction. A copy copies patterns, so it keeps every bit.
ghost use Rattle.std.specs.Prelude.{◌≡◌, ◌+◌, ◌*◌, ◌%◌, ◌≤◌, ◌<◌, length};
ghost use Rattle.number.specs.Joined.{joined_to};
ghost use Rattle.grid.specs.Writes.{Wrote};
ghost use Rattle.grid.specs.Finite.{joined_buffer};
ghost use Rattle.streaming.specs.Travel.{part, against, far};
ghost use Rattle.streaming.specs.Rows.{Lent, Streamed, Reaches, turned_row, turned_plane, PlaneCopied};

use crate::way::facing;
use lattice::{Axis, Direction};

// Copies a row of n entries, turned by s: entry k is the source's entry (k + s) mod n, so that the row is two straight
// copies. Answers their raised patterns joined, as all that copies here does.
fn row(src: &[u64], from: usize, dst: &mut [u64], to: usize, n: usize, s: usize) -> u64
    requires { (s ≤ n) × (from + n ≤ length src.now) × (to + n ≤ length dst.old) }
    ensures wrote { Wrote dst.old dst.new to n (turned_row n s from src.now) }
    ensures joined { result ≡ joined_to (turned_row n s from src.now) n }
{
    let seam = to + (n - s);
    let first = grid::copy(&src[from + s..from + n], &mut dst[to..seam]);
    let second = grid::copy(&src[from..from + s], &mut dst[seam..to + n]);
    first | second
}

// A number below two turns around a side of n, as a place of the side.
fn wrap(n: usize, k: usize) -> usize
    requires { k < n + n }
    ensures { (result ≡ k % n) × (result < n) }
{
    if k < n { k } else { k - n }
}

// A plane of ny rows of nx entries, to be turned by sx along the rows and by sy across them.
#[derive(Clone, Copy)]
pub struct Shift {
    pub nx: usize,
    pub ny: usize,
    pub sx: usize,
    pub sy: usize,
}

// Copies a plane, which starts at base in both buffers, so turned.
fn plane(t: Shift, base: usize, src: &[u64], dst: &mut [u64]) -> u64
    requires { Reaches t base src.now dst.old }
    ensures wrote { PlaneCopied t base src.now dst.old dst.new }
    ensures joined { result ≡ joined_to (turned_plane t base src.now) (t.nx * t.ny) }
{
    let mut bits = 0;
    for y in 0..t.ny {
        let from = wrap(t.ny, y + t.sy);
        bits |= row(src, base + from * t.nx, dst, base + y * t.nx, t.nx, t.sx);
    }
    bits
}

// One step of direction i back along an axis, as places on around the side of n.
fn step_back(i: Direction, axis: Axis, n: usize) -> usize
    requires { 1 ≤ n }
    ensures { (result ≡ far (against (part axis i.index)) n) × (result ≤ n) }
{
    let e = i.component(axis);
    if e == 0 {
        0
    } else if e > 0 {
        n - 1
    } else {
        1
    }
}

// Streaming: the plane of each direction goes on by one step of it, wrapped on both axes. Turned round, it goes by its
// opposite's.
pub fn stream(back: bool, nx: usize, ny: usize, src: &[u64], dst: &mut [u64]) -> u64
    requires { Lent nx ny src.now dst.old }
    ensures became { Streamed back nx ny src.now dst.old dst.new }
    ensures joined { result ≡ joined_buffer dst.new }
{
    let n = nx * ny;
    let mut bits = 0;
    for j in 0..9 {
        let i = facing(back, Direction { index: j });
        let sx = step_back(i, Axis::X, nx);
        let sy = step_back(i, Axis::Y, ny);
        bits |= plane(Shift { nx, ny, sx, sy }, j * n, src, dst);
    }
    bits
}
