// Every number of every operation on a file, and their order: zeros are answered, and lent buffers stay as they were.
use crate::given::{F, changed};
use crate::{given, lines};
use checkpoint::Stored;
use settings::{Refusal, Settings, number_of};
use show::{CANARY, full_of, kept, sized};
use std::io;

// ---- reading: a good file of 85 bytes, and one more behind it, with byte k turned to another, and cut to a length

// The sides and the step number as hosts are given them: what a refused call tells is looked at.
fn told(answer: Result<Stored, Refusal>, words: &mut [u64; 3]) -> u32 {
    host::tell(answer.map(|a| [a.nx as u64, a.ny as u64, a.step]), words)
}

fn asked(rt: &impl Print, k: usize, byte: u8, file: &[u8]) -> io::Result<()> {
    let mut words = [CANARY; 3];
    let number = told(checkpoint::checkpoint_sides(file), &mut words);
    lines::changed(rt, "checkpoint_sides", k, byte, file.len(), number)?;
    show::holds(rt, full_of(&words, &0), ", zeros")?;
    show::newline(rt)
}

fn read(rt: &impl Print, k: usize, byte: u8, file: &[u8], f: &mut [u64]) -> io::Result<()> {
    let mut words = [CANARY; 3];
    let number = told(checkpoint::read_checkpoint(file, f), &mut words);
    lines::changed(rt, "read_checkpoint", k, byte, file.len(), number)?;
    show::holds(rt, full_of(&words, &0), ", zeros")?;
    show::value(rt, ", ", f.len() as u64)?;
    show::holds(rt, kept(f), " left")?;
    show::newline(rt)
}

fn both(rt: &impl Print, k: usize, byte: u8, length: usize) -> io::Result<()> {
    let file = changed(k, byte);
    if length <= 86 {
        let mut f = [CANARY; 9];
        asked(rt, k, byte, &file[0..length])?;
        read(rt, k, byte, &file[0..length], &mut f)?;
    }
    Ok(())
}

fn cut(rt: &impl Print) -> io::Result<()> {
    both(rt, 4, 1, 0)?;
    both(rt, 4, 1, 4)?;
    both(rt, 4, 1, 5)?;
    both(rt, 4, 1, 8)?;
    both(rt, 4, 1, 9)?;
    both(rt, 4, 1, 12)?;
    both(rt, 4, 1, 84)?;
    both(rt, 4, 1, 86)
}

// Versions 0 and 2, and 2 where the sides are cut short too.
fn versions(rt: &impl Print) -> io::Result<()> {
    both(rt, 4, 0, 85)?;
    both(rt, 4, 2, 85)?;
    both(rt, 4, 2, 5)
}

fn counts(rt: &impl Print) -> io::Result<()> {
    both(rt, 3, 80, 85)?;
    both(rt, 3, 82, 85)?;
    both(rt, 3, 82, 86)?;
    both(rt, 0, 1, 85)
}

// 0 by 1; 1 by 0, cut short too; 4097 by 1 and 1 by 4097, whose count is wrong too; 1 by 2.
fn sides(rt: &impl Print) -> io::Result<()> {
    both(rt, 6, 0, 85)?;
    both(rt, 8, 0, 9)?;
    both(rt, 5, 16, 85)?;
    both(rt, 7, 16, 12)?;
    both(rt, 8, 2, 85)
}

// A buffer that does not fit, which is told last.
fn lent(rt: &impl Print) -> io::Result<()> {
    let file = given::file();
    let mut short = [CANARY; 8];
    let mut long = [CANARY; 10];
    read(rt, 4, 1, &file[0..85], &mut short)?;
    read(rt, 4, 1, &file[0..85], &mut long)?;
    read(rt, 4, 1, &file[0..84], &mut short)
}

// ---- writing

// A byte that no file here has throughout.
pub const BYTE: u8 = 0xa5;

pub fn bytes_kept(file: &[u8]) -> bool {
    full_of(file, &BYTE)
}

fn write(rt: &impl Print, case: &str, s: Settings, f: &[u64], file: &mut [u8]) -> io::Result<()> {
    let number = number_of(checkpoint::write_checkpoint(s, 1, f, file));
    show::refused(
        rt,
        "write_checkpoint",
        case,
        number,
        bytes_kept(file),
        ", left",
    )
}

// On a file of the right length for one cell.
fn write_one(rt: &impl Print, case: &str, s: Settings, f: &[u64]) -> io::Result<()> {
    let mut file = [BYTE; 85];
    write(rt, case, s, f, &mut file)
}

fn writing(rt: &impl Print) -> io::Result<()> {
    write_one(rt, "0 by 1", sized(0, 1), &F)?;
    write_one(rt, "1 by 4097", sized(1, 4097), &F)?;
    write_one(rt, "4096 by 257", sized(4096, 257), &F)?;
    write_one(rt, "populations 8", sized(1, 1), &[CANARY; 8])?;
    write_one(rt, "populations 10", sized(1, 1), &[CANARY; 10])
}

fn rooms(rt: &impl Print) -> io::Result<()> {
    let mut short = [BYTE; 84];
    let mut long = [BYTE; 86];
    write(rt, "file 84", sized(1, 1), &F, &mut short)?;
    write(rt, "file 86", sized(1, 1), &F, &mut long)?;
    write(rt, "0 by 1, file 84", sized(0, 1), &F, &mut short)
}

// Sides whose product, and whose file's length, would wrap to those of no cell.
fn wrapping(rt: &impl Print) -> io::Result<()> {
    let mut head = [BYTE; 13];
    let s = sized(4294967296, 4294967296);
    write(rt, "4294967296 by 4294967296", s, &[0; 0], &mut head)
}

pub fn all(rt: &impl Print) -> io::Result<()> {
    cut(rt)?;
    versions(rt)?;
    counts(rt)?;
    sides(rt)?;
    lent(rt)?;
    writing(rt)?;
    rooms(rt)?;
    wrapping(rt)
}
