// The bytes of files, which `stdout` has as the document spells them, and what is read of them.
use crate::given::{F, NOTHING, STEP};
use crate::{given, lines};
use settings::number_of;
use show::CANARY;
use std::io;

fn read_back(rt: &impl Print, file: &[u8]) -> io::Result<()> {
    let mut f = [CANARY; 9];
    let read = checkpoint::read_checkpoint(file, &mut f);
    show::gives(rt, "read_checkpoint", "what was written", number_of(read))?;
    lines::stored(rt, read.unwrap_or(NOTHING))?;
    show::holds(rt, f == F, ", every bit")?;
    show::newline(rt)
}

fn one_by_one(rt: &impl Print) -> io::Result<()> {
    let mut file = [0; 85];
    let written = checkpoint::write_checkpoint(show::sized(1, 1), STEP, &F, &mut file);
    show::gives(rt, "write_checkpoint", "1 by 1", number_of(written))?;
    show::newline(rt)?;
    lines::bytes(rt, &file)?;
    read_back(rt, &file)
}

// Sides that differ, and a count of two bytes.
fn three_by_two(rt: &impl Print) -> io::Result<()> {
    let mut file = [0; 445];
    let written = checkpoint::write_checkpoint(show::sized(3, 2), 0, &[CANARY; 54], &mut file);
    show::gives(rt, "write_checkpoint", "3 by 2", number_of(written))?;
    show::newline(rt)?;
    lines::bytes(rt, &file[0..13])?;
    let sides = checkpoint::checkpoint_sides(&file);
    show::gives(rt, "checkpoint_sides", "3 by 2", number_of(sides))?;
    lines::stored(rt, sides.unwrap_or(NOTHING))?;
    show::newline(rt)
}

pub fn all(rt: &impl Print) -> io::Result<()> {
    one_by_one(rt)?;
    three_by_two(rt)
}
