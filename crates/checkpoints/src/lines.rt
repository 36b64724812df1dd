// Lines about files: what one holds, how one was changed, and its bytes.
use checkpoint::Stored;
use std::io;

// A file of so many bytes, of which byte k is this one.
pub fn changed(
    rt: &impl Print,
    operation: &str,
    k: usize,
    byte: u8,
    length: usize,
    number: u32,
) -> io::Result<()> {
    print!(rt; "{operation}: {length} bytes, byte {k} is {byte}, gives {number}")
}

pub fn stored(rt: &impl Print, r: Stored) -> io::Result<()> {
    print!(rt; ", nx {}, ny {}, step {}", r.nx, r.ny, r.step)
}

// The bytes of a file, or of its head, in hexadecimal. A line ends with the version, with the step number, and with each entry.
pub fn bytes(rt: &impl Print, file: &[u8]) -> io::Result<()> {
    for (k, b) in file.iter().enumerate() {
        let after = if k % 8 == 4 { "\n" } else { " " };
        print!(rt; "{b:02x}{after}")?;
    }
    Ok(())
}
