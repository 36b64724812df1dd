// The bytes of small checkpoint files and of a tally's; and what is refused, with which number, on lent buffers full of canaries.
#![tactic(auto)]

mod given;
mod lines;
mod refused;
mod tallies;
mod written;

use std::io;

fn main(rt: HostRuntime) -> io::Result<()> {
    written::all(&rt)?;
    refused::all(&rt)?;
    tallies::all(&rt)
}
