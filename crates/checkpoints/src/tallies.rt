// The tally of the state of one cell, its file, and every number that refuses a file or its writing, in their order.
use crate::given::F;
use crate::lines;
use crate::refused::{BYTE, bytes_kept};
use settings::number_of;
use show::{CANARY, kept, sized};
use std::io;

fn own() -> [u64; 10] {
    tally::tally(sized(1, 1), &F).unwrap_or([0; 10])
}

// ---- what is written, and read back

fn written(rt: &impl Print) -> io::Result<()> {
    let t = own();
    let mut file = [0; 85];
    let number = number_of(tally::write_tally(&t, &mut file));
    show::gives(rt, "write_tally", "1 by 1", number)?;
    show::newline(rt)?;
    lines::bytes(rt, &file)?;
    let mut u = [CANARY; 10];
    let number = number_of(tally::read_tally(&file, &mut u));
    show::gives(rt, "read_tally", "what was written", number)?;
    show::holds(rt, u == t, ", every bit")?;
    show::newline(rt)
}

// The entry of direction 8 becomes 1.
fn moved(rt: &impl Print) -> io::Result<()> {
    let mut f = F;
    let mut t = own();
    let number = number_of(tally::write_entry(sized(1, 1), 0, 0, 8, 1, &mut f, &mut t));
    show::gives(rt, "write_entry", "1 by 1", number)?;
    show::newline(rt)?;
    let mut file = [0; 85];
    tally::write_tally(&t, &mut file).unwrap_or(());
    lines::bytes(rt, &file)
}

// ---- reading: the file of 85 bytes, and one more behind it, with byte k turned to another, and cut to a length

fn changed(k: usize, byte: u8) -> [u8; 86] {
    let mut file = [0; 86];
    tally::write_tally(&own(), &mut file[0..85]).unwrap_or(());
    if let Some(there) = file.get_mut(k) {
        *there = byte;
    }
    file
}

fn read(rt: &impl Print, k: usize, byte: u8, length: usize, t: &mut [u64]) -> io::Result<()> {
    let file = changed(k, byte);
    if length <= 86 {
        let number = number_of(tally::read_tally(&file[0..length], t));
        lines::changed(rt, "read_tally", k, byte, length, number)?;
        show::value(rt, ", ", t.len() as u64)?;
        show::holds(rt, kept(t), " left")?;
        show::newline(rt)?;
    }
    Ok(())
}

fn read_ten(rt: &impl Print, k: usize, byte: u8, length: usize) -> io::Result<()> {
    read(rt, k, byte, length, &mut [CANARY; 10])
}

// 12, 13 and 15; the version is told before the length.
fn heads(rt: &impl Print) -> io::Result<()> {
    read_ten(rt, 4, 1, 4)?;
    read_ten(rt, 4, 1, 5)?;
    read_ten(rt, 4, 1, 84)?;
    read_ten(rt, 4, 1, 86)?;
    read_ten(rt, 4, 2, 85)?;
    read_ten(rt, 4, 0, 5)?;
    read_ten(rt, 3, 80, 85)?;
    read_ten(rt, 0, 1, 85)
}

// 17, of the first number and of the last; and 2, which is told last.
fn sums(rt: &impl Print) -> io::Result<()> {
    let mut short = [CANARY; 9];
    let mut long = [CANARY; 11];
    read_ten(rt, 5, 255, 85)?;
    read_ten(rt, 84, 254, 85)?;
    read(rt, 84, 254, 85, &mut short)?;
    read(rt, 4, 1, 85, &mut short)?;
    read(rt, 4, 1, 85, &mut long)
}

// ---- writing

fn write(rt: &impl Print, case: &str, t: &[u64; 10], file: &mut [u8]) -> io::Result<()> {
    let number = number_of(tally::write_tally(t, file));
    show::refused(rt, "write_tally", case, number, bytes_kept(file), ", left")
}

fn writing(rt: &impl Print) -> io::Result<()> {
    let mut file = [BYTE; 85];
    let mut short = [BYTE; 84];
    let mut long = [BYTE; 86];
    write(rt, "ten canaries", &[CANARY; 10], &mut file)?;
    write(rt, "ten canaries, file 84", &[CANARY; 10], &mut short)?;
    write(rt, "file 84", &own(), &mut short)?;
    write(rt, "file 86", &own(), &mut long)
}

pub fn all(rt: &impl Print) -> io::Result<()> {
    written(rt)?;
    moved(rt)?;
    heads(rt)?;
    sums(rt)?;
    writing(rt)
}
