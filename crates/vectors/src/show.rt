// Writes patterns in hexadecimal, a space between two and a newline at the end of a line.
use crate::made;
use std::io;

// The patterns of a list, as a line.
fn line<T: Copy, F: Fn(T) -> u64>(rt: &impl Print, list: &[T], pattern: F) -> io::Result<()>
    requires { F.IsAlwaysCallable pattern }
{
    for (k, x) in list.iter().enumerate() {
        let space = if k == 0 { "" } else { " " };
        let word = pattern(*x);
        print!(rt; "{space}{word:016x}")?;
    }
    println!(rt; "")
}

// The patterns of numbers, as a line.
pub fn numbers(rt: &impl Print, list: &[f64]) -> io::Result<()> {
    line(rt, list, number::pattern)
}

// Patterns, as a line.
pub fn words(rt: &impl Print, list: &[u64]) -> io::Result<()> {
    line(rt, list, |b| b)
}

// One number for a long list of patterns.
pub fn mixed(a: &[u64]) -> u64 {
    a.iter().fold(1, |s, b| made::shifted(s.wrapping_add(*b)))
}
