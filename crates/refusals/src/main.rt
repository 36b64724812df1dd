// What is refused, and with which number: every operation but those on files and obstacles, on lent buffers full of canaries, and the questions beside them.
#![tactic(auto)]

mod asked;
mod calls;
mod given;
mod lengths;
mod refused;
mod ruined;

use std::io;

fn main(rt: HostRuntime) -> io::Result<()> {
    refused::all(&rt)?;
    lengths::all(&rt)?;
    ruined::all(&rt)?;
    asked::all(&rt)
}
