// A cell's entries in the three planes that come in, read and written as patterns, so that every bit is kept.
ghost use Rattle.std.specs.Prelude.{◌≡◌, ◌+◌, ◌*◌, length, get_or, set};
ghost use Rattle.grid.specs.Grid.{Holds};
ghost use Rattle.streaming.specs.Three.{each, indices, Apart};
ghost use Rattle.streaming.specs.Lines.{entry_at, Changed};
ghost use Rattle.streaming.specs.Read.{stretch};
ghost use Rattle.streaming.specs.Carried.{line_join};

use crate::line::Line;
use crate::three::Three;
use lattice::Direction;

// Entry i of cell c of n.
pub fn entry(b: &[u64], n: usize, c: usize, i: Direction) -> u64
    requires { Holds b.now n c }
    ensures { result ≡ entry_at b.now n c i.index }
{
    b[c + i.index * n]
}

// Makes v entry i of cell c of n.
fn set_entry(f: &mut [u64], n: usize, c: usize, i: Direction, v: u64)
    requires { Holds f.old n c }
    ensures stored { f.new ≡ set f.old (c + i.index * n) v }
    ensures holds { Holds f.new n c }
{
    f[c + i.index * n] = v;
}

// The entries of cell c of n in three planes.
pub fn entries_at(b: &[u64], n: usize, c: usize, p: Three<Direction>) -> Three<u64>
    requires { Holds b.now n c }
    ensures { result ≡ each (entry_at b.now n c) (indices p) }
{
    p.map(|i| entry(b, n, c, i))
}

// Makes v the entries of cell c of n in three planes.
pub fn put(f: &mut [u64], n: usize, c: usize, p: Three<Direction>, v: Three<u64>)
    requires { Holds f.old n c × Apart (indices p) }
    ensures { Changed f.old f.new n c (indices p) v }
{
    set_entry(f, n, c, p.n, v.n);
    set_entry(f, n, c, p.np, v.np);
    set_entry(f, n, c, p.nm, v.nm);
}

// The raised patterns of plane i along a line, joined.
#[tactic(auto, unfolding(number::specs::Joined::joined_to))]
pub fn line_joined(b: &[u64], line: Line, i: Direction) -> u64
    requires { length b.now ≡ 9 * line.cells }
    ensures { result ≡ line_join b.now line.cells (stretch line) i.index }
{
    let mut bits = 0;
    for k in 0..line.count {
        bits |= number::raised(entry(b, line.cells, line.cell(k), i));
    }
    bits
}
