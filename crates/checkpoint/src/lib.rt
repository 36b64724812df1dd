// The checkpoint file of a state: written, asked for its sides, and read.
#![tactic(auto)]

ghost use Rattle.std.specs.Prelude.{◌≡◌, ◌+◌, ◌*◌, ◌≤◌, length};
ghost use Rattle.words.specs.Words.{numbers_at};
ghost use Rattle.grid.specs.Grid.{Grid};
ghost use Rattle.settings.specs.Outcome.{outcome};
ghost use Rattle.settings.specs.Refused.{number_of};
ghost use Rattle.checkpoint.specs.Checkpoint.{head_bytes, checkpoint_of, head_of, stored_of, told_by, read, checkpoint_written, checkpoint_sides, checkpoint_read};

use settings::{Head, Refusal, Settings};

// The bytes before the entries.
const HEAD: usize = 13;

// The sides and the step number of a file.
#[derive(Clone, Copy, Debug, PartialEq, Eq)]
pub struct Stored {
    pub nx: usize,
    pub ny: usize,
    pub step: u64,
}

impl From<Head> for Stored {
    ghost from_gives = { λ h stored. stored ≡ stored_of h };

    fn from(h: Head) -> Stored {
        Stored {
            nx: h.nx,
            ny: h.ny,
            step: h.step,
        }
    }
}

// ---- writing

// The head of a file: count, version, sides and step number.
fn write_head(nx: usize, ny: usize, step: u32, head: &mut [u8])
    requires { Grid nx ny × (length head.old ≡ 13) }
    ensures { head.new ≡ head_bytes nx ny step }
{
    words::put_number((9 + 72 * (nx * ny)) as u64, &mut head[0..4]);
    words::put_number(1, &mut head[4..5]);
    words::put_number(nx as u64, &mut head[5..7]);
    words::put_number(ny as u64, &mut head[7..9]);
    words::put_number(u64::from(step), &mut head[9..13]);
}

// The whole file: head and entries.
fn write_file(nx: usize, ny: usize, step: u32, f: &[u64], file: &mut [u8])
    requires { Grid nx ny × (length f.now ≡ 9 * (nx * ny)) × (length file.old ≡ 13 + 72 * (nx * ny)) }
    ensures { file.new ≡ checkpoint_of nx ny step f.now }
{
    write_head(nx, ny, step, &mut file[..HEAD]);
    words::write_words(f, &mut file[HEAD..]);
}

// Writes the file of these populations after so many steps.
pub fn write_checkpoint(s: Settings, step: u32, f: &[u64], file: &mut [u8]) -> Result<(), Refusal>
    ensures { outcome (number_of result) file.new
        ≡ checkpoint_written s step f.now file.old }
{
    settings::check_write_checkpoint(s, f.len(), file.len())?;
    write_file(s.nx, s.ny, step, f, file);
    Ok(())
}

// ---- reading

fn head(file: &[u8]) -> Head
    ensures { result ≡ head_of file.now }
{
    Head {
        length: file.len(),
        count: words::part(4, file, 0) as usize,
        version: words::part(1, file, 4) as usize,
        nx: words::part(2, file, 5) as usize,
        ny: words::part(2, file, 7) as usize,
        step: words::part(4, file, 9),
    }
}

// Reads the entries of a file.
fn read_entries(file: &[u8], f: &mut [u64])
    requires { 13 + 8 * length f.old ≤ length file.now }
    ensures { f.new ≡ numbers_at 8 (length f.old) file.now 13 }
{
    words::read_words(&file[HEAD..], f);
}

// The sides and the step number of a file.
pub fn checkpoint_sides(file: &[u8]) -> Result<Stored, Refusal>
    ensures { told_by result ≡ checkpoint_sides file.now }
{
    let h = head(file);
    settings::check_checkpoint_sides(h)?;
    Ok(Stored::from(h))
}

// Reads a file into f.
pub fn read_checkpoint(file: &[u8], f: &mut [u64]) -> Result<Stored, Refusal>
    ensures { read (told_by result) f.new ≡ checkpoint_read file.now f.old }
{
    let h = head(file);
    settings::check_read_checkpoint(h, f.len())?;
    read_entries(file, f);
    Ok(Stored::from(h))
}
