// A line for each case of a program of the gate: its operation and name, the number that it gives, values of its answer, and whether
// what it leaves is as it must be.
#![tactic(auto)]

use cell::Collision;
use settings::{Face, Settings};
use std::convert::AsSlice;
use std::io;

// A NaN with a payload, so that a copy of it is told from any number.
pub const CANARY: u64 = 0x7ff8_dead_beef_cafe;

// Whether each of a is this one.
pub fn full_of<T: PartialEq>(a: &[T], x: &T) -> bool {
    a.iter().all(|y| y == x)
}

pub fn kept(a: &[u64]) -> bool {
    full_of(a, &CANARY)
}

// A word is text or bytes.
pub fn gives<O: AsSlice<u8> + Drop, C: AsSlice<u8> + Drop>(
    rt: &impl Print,
    operation: O,
    case: C,
    number: u32,
) -> io::Result<()> {
    rt.write_all(operation.as_slice())?;
    rt.write_all(b": ")?;
    rt.write_all(case.as_slice())?;
    print!(rt; " gives {number}")
}

pub fn value<N: AsSlice<u8> + Drop>(rt: &impl Print, name: N, v: u64) -> io::Result<()> {
    rt.write_all(name.as_slice())?;
    print!(rt; "{v}")
}

pub fn newline(rt: &impl Print) -> io::Result<()> {
    println!(rt; "")
}

// The word stands for what must hold.
pub fn holds<W: AsSlice<u8> + Drop>(rt: &impl Print, it: bool, word: W) -> io::Result<()> {
    if it {
        rt.write_all(word.as_slice())
    } else {
        rt.write_all(b", WRONG")
    }
}

pub fn number<O: AsSlice<u8> + Drop, C: AsSlice<u8> + Drop>(
    rt: &impl Print,
    operation: O,
    case: C,
    number: u32,
) -> io::Result<()> {
    gives(rt, operation, case, number)?;
    newline(rt)
}

// What must hold of a refused call, beside its number.
pub fn refused<O: AsSlice<u8> + Drop, C: AsSlice<u8> + Drop, W: AsSlice<u8> + Drop>(
    rt: &impl Print,
    operation: O,
    case: C,
    number: u32,
    it: bool,
    word: W,
) -> io::Result<()> {
    gives(rt, operation, case, number)?;
    holds(rt, it, word)?;
    newline(rt)
}

// Harmless settings of a grid of these sides.
pub fn sized(nx: usize, ny: usize) -> Settings {
    Settings {
        nx,
        ny,
        nu: 0.1,
        fx: 0.0,
        fy: 0.0,
        collision: Collision::Bgk,
        x_min: Face::Periodic,
        x_max: Face::Periodic,
        y_min: Face::Periodic,
        y_max: Face::Periodic,
        floor: 1e-12,
    }
}
