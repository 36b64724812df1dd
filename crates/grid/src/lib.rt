// A grid's cells in a lent buffer: entry i of cell c of n stands at c + i·n, where c = x + y·nx and n = nx·ny.
#![tactic(auto)]

ghost use Rattle.std.specs.Prelude.{◌≡◌, ℕ, ◌+◌, ◌*◌, ◌≤◌, ◌<◌, length, get_or, set, Float};
ghost use Rattle.number.specs.Number.{value_of, pattern_of};
ghost use Rattle.number.specs.Nine.{at};
ghost use Rattle.grid.specs.Grid.{most_cells, cell_of, Holds};
ghost use Rattle.grid.specs.Writes.{Put};
ghost use Rattle.grid.specs.Finite.{AllFinite, joined_buffer};

// The largest side and the most cells of a grid: `most_side` and `most_cells`.
pub const MOST_SIDE: usize = 4096;

pub const MOST_CELLS: usize = 1_048_576;

// Where entry i of cell c of n stands.
#[tactic(auto, using(crate::proofs::Radix::cell_in))]
fn place(n: usize, c: usize, i: usize) -> usize
    requires { (n ≤ most_cells) × (c < n) × (i < 9) }
    ensures entry { result ≡ c + i * n }
    ensures inside { result < 9 * n }
{
    c + i * n
}

// The nine populations of cell c, each as `read` reads its pattern. Straight-line with literal directions, so that each place is one
// addition.
fn gathered<F: Fn(u64) -> f64>(f: &[u64], n: usize, c: usize, read: F) -> [f64; 9]
    requires holds { Holds f.now n c }
    requires readable { (i : ℕ) → i < 9 → F.pre read (get_or f.now (c + i * n) 0) }
    requires reads { (b : ℕ) (x : Float) → F.post read b x → x ≡ value_of b }
    ensures { result ≡ cell_of f.now n c }
{
    [
        read(f[place(n, c, 0)]),
        read(f[place(n, c, 1)]),
        read(f[place(n, c, 2)]),
        read(f[place(n, c, 3)]),
        read(f[place(n, c, 4)]),
        read(f[place(n, c, 5)]),
        read(f[place(n, c, 6)]),
        read(f[place(n, c, 7)]),
        read(f[place(n, c, 8)]),
    ]
}

// The nine populations of cell c.
pub fn gather(f: &[u64], n: usize, c: usize) -> [f64; 9]
    requires { Holds f.now n c }
    ensures { result ≡ cell_of f.now n c }
{
    gathered(f, n, c, number::value)
}

// The nine populations of cell c of a buffer whose entries are all finite: nine tests fewer than `gather` has.
pub fn gather_finite(f: &[u64], n: usize, c: usize) -> [f64; 9]
    requires { Holds f.now n c × AllFinite f.now }
    ensures { result ≡ cell_of f.now n c }
{
    gathered(f, n, c, number::finite_value)
}

// Makes x entry i of cell c.
fn set_f(f: &mut [u64], n: usize, c: usize, i: usize, x: f64)
    requires { Holds f.old n c × (i < 9) }
    ensures stored { f.new ≡ set f.old (c + i * n) (pattern_of x) }
    ensures holds { Holds f.new n c }
{
    f[place(n, c, i)] = number::pattern(x);
}

// Makes v the nine populations of cell c.
pub fn put_back(f: &mut [u64], n: usize, c: usize, v: [f64; 9])
    requires { Holds f.old n c }
    ensures { Put f.old f.new n c (λ i. pattern_of (at v i)) }
{
    set_f(f, n, c, 0, v[0]);
    set_f(f, n, c, 1, v[1]);
    set_f(f, n, c, 2, v[2]);
    set_f(f, n, c, 3, v[3]);
    set_f(f, n, c, 4, v[4]);
    set_f(f, n, c, 5, v[5]);
    set_f(f, n, c, 6, v[6]);
    set_f(f, n, c, 7, v[7]);
    set_f(f, n, c, 8, v[8]);
}

// The raised patterns of all entries, joined: clear exactly where every entry is finite.
pub fn joined(b: &[u64]) -> u64
    ensures { result ≡ joined_buffer b.now }
{
    b.iter()
        .fold(0, |bits, entry| bits | number::raised(*entry))
}

// Copies src to dst, every bit of it, and answers the raised patterns of its entries joined.
pub fn copy(src: &[u64], dst: &mut [u64]) -> u64
    requires { length src.now ≡ length dst.old }
    ensures copied { dst.new ≡ src.now }
    ensures joined { result ≡ joined_buffer src.now }
{
    let mut bits = 0;
    for (k, &entry) in src.iter().enumerate() {
        dst[k] = entry;
        bits |= number::raised(entry);
    }
    bits
}
