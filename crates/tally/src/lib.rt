// The tally of a buffer: ten wrapping sums of its entries' patterns, worked out afresh, moved by one changed entry, and kept as
// a file.
#![tactic(auto)]

ghost use Rattle.std.specs.Prelude.{◌≡◌, ◌*◌, ◌≤◌, ◌<◌, length};
ghost use Rattle.grid.specs.Grid.{Grid, most_cells, index};
ghost use Rattle.settings.specs.Outcome.{outcome};
ghost use Rattle.settings.specs.Refused.{number_of};
ghost use Rattle.tally.specs.Tally.{tally_of, moved, tallied, tallied_by, entered, entry_written};
ghost use Rattle.tally.specs.File.{file_of, ten_of, tally_written, tally_read};

use settings::{Refusal, Settings};

// ---- the tally afresh

// One pass over the n cells' planes; the first number is the sum of theirs.
fn fresh(n: usize, f: &[u64]) -> [u64; 10]
    requires { (n ≤ most_cells) × (length f.now ≡ 9 * n) }
    ensures { result ≡ tally_of n f.now }
{
    let mut t = [0; 10];
    for i in 0..9 {
        t[i + 1] = sums::stretch(&f[i * n..i * n + n]);
    }
    t[0] = sums::stretch(&t[1..]);
    t
}

// The tally of the populations.
pub fn tally(s: Settings, f: &[u64]) -> Result<[u64; 10], Refusal>
    ensures { tallied_by result ≡ tallied s f.now }
{
    settings::check_tally(s, f.len())?;
    Ok(fresh(s.nx * s.ny, f))
}

// ---- one changed entry

// Where entry (x, y, i) stands.
fn place(nx: usize, ny: usize, x: usize, y: usize, i: usize) -> usize
    requires { Grid nx ny × (x < nx) × (y < ny) × (i < 9) }
    ensures entry { result ≡ index nx ny x y i }
    ensures inside { result < 9 * (nx * ny) }
{
    x + y * nx + i * (nx * ny)
}

// Moves two of any ten numbers by the new pattern less the old.
fn shift(i: usize, old: u64, new: u64, t: &mut [u64; 10])
    requires { i < 9 }
    ensures { t.new ≡ moved i old new t.old }
{
    t[0] = sums::moved_by(old, new, t[0]);
    t[i + 1] = sums::moved_by(old, new, t[i + 1]);
}

// Writes v as entry (x, y, i) of f, and moves t by it, whatever ten numbers it holds.
pub fn write_entry(
    s: Settings,
    x: usize,
    y: usize,
    i: usize,
    v: u64,
    f: &mut [u64],
    t: &mut [u64; 10],
) -> Result<(), Refusal>
    ensures { entered (number_of result) f.new t.new
        ≡ entry_written s x y i v f.old t.old }
{
    settings::check_write_entry(s, f.len(), x, y, i)?;
    let old = std::mem::replace(&mut f[place(s.nx, s.ny, x, y, i)], v);
    shift(i, old, v, t);
    Ok(())
}

// ---- the file

// The whole file: count, version and the ten numbers.
fn write_file(t: &[u64; 10], file: &mut [u8])
    requires { length file.old ≡ 85 }
    ensures { file.new ≡ file_of t.now }
{
    words::put_number(81, &mut file[0..4]);
    words::put_number(1, &mut file[4..5]);
    words::write_words(t, &mut file[5..]);
}

// Writes the file of these ten numbers.
pub fn write_tally(t: &[u64; 10], file: &mut [u8]) -> Result<(), Refusal>
    ensures { outcome (number_of result) file.new ≡ tally_written t.now file.old }
{
    settings::check_write_tally(t, file.len())?;
    write_file(t, file);
    Ok(())
}

// The ten numbers of a file; zeros where it has not the length of one.
fn ten(file: &[u8]) -> [u64; 10]
    ensures { result ≡ ten_of file.now }
{
    let mut t = [0; 10];
    if file.len() == settings::TALLY_FILE {
        words::read_words(&file[5..], &mut t);
    }
    t
}

// Reads a file into t.
pub fn read_tally(file: &[u8], t: &mut [u64]) -> Result<(), Refusal>
    ensures { outcome (number_of result) t.new ≡ tally_read file.now t.old }
{
    let count = words::part(4, file, 0) as usize;
    let version = words::part(1, file, 4) as usize;
    let numbers = ten(file);
    settings::check_read_tally(file.len(), count, version, &numbers, t.len())?;
    t.copy_from_slice(&numbers);
    Ok(())
}
