// Reads one line from standard input and writes what it asks: `lossless`, `lossy X Y I`, `refused 1` or `unreadable`.
#![tactic(auto)]

use arrayvec::ArrayVec;
use std::io;
use std::io::Read;

// One byte more than the longest readable line: an input that fills it without a newline is too long, whatever follows.
const ENOUGH: usize = line::MOST_BYTES + 1;

// Reads until the input ends, a newline was read or there is enough. It reads byte by byte, so that it does not wait for what stands
// after the newline. A read that fails counts as the end of the input.
fn read(input: &mut impl Read) -> ArrayVec<u8, ENOUGH> {
    let mut bytes = ArrayVec::new();
    let mut one = [0u8; 1];
    for _ in 0..ENOUGH {
        if input.read(&mut one).unwrap_or(0) < 1 {
            break;
        }
        bytes.push(one[0]);
        if one[0] == b'\n' {
            break;
        }
    }
    bytes
}

fn main(rt: HostRuntime) -> io::Result<()> {
    let bytes = read(&mut rt.stdin());
    let text = line::reply(bytes.as_slice());
    rt.write_all(text.as_slice())
}
