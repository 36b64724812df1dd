// Runs lines through what `lossless_line` decides. Each is written between bars, and after it what is written for it.
#![tactic(auto)]

use std::io;

fn ask(rt: &impl Print, line: &[u8]) -> io::Result<()> {
    rt.write_all(b"|")?;
    rt.write_all(line)?;
    rt.write_all(b"| ")?;
    rt.write_all(line::reply(line).as_slice())
}

fn lossless(rt: &impl Print) -> io::Result<()> {
    // C1, C2, C3, C5 and C6 of the rules
    ask(rt, b"PPPP 3 2")?;
    ask(rt, b"NNNN 3 2")?;
    ask(rt, b"SSPP 3 2")?;
    ask(rt, b"NNSS 3 2")?;
    ask(rt, b"SSNN 3 1")?;
    // as C6 with y Symmetry, and a single cell
    ask(rt, b"SSSS 3 1")?;
    ask(rt, b"NNNS 1 1")?;
    ask(rt, b"PPPP 1 1")?;
    // sides and cell counts at the upper ends of their ranges
    ask(rt, b"PPPP 4096 1")?;
    ask(rt, b"PPPP 1 4096")?;
    ask(rt, b"PPPP 4096 256")?;
    ask(rt, b"PPPP 256 4096")?;
    ask(rt, b"PPPP 1024 1024")
}

fn lossy(rt: &impl Print) -> io::Result<()> {
    // C4 and C7 of the rules
    ask(rt, b"SSNN 3 2")?;
    ask(rt, b"NPPP 3 2")?;
    // one face of an axis is periodic, on the one axis and on both
    ask(rt, b"SPPP 3 2")?;
    ask(rt, b"PNPP 3 2")?;
    ask(rt, b"PSPP 3 2")?;
    ask(rt, b"PPNP 3 2")?;
    ask(rt, b"PPPN 3 2")?;
    ask(rt, b"NPNP 3 2")?;
    ask(rt, b"PNNP 3 2")?;
    ask(rt, b"PNPN 3 2")?;
    // an x face is Symmetry and y is not periodic
    ask(rt, b"SNNN 3 2")?;
    ask(rt, b"NSNN 3 2")?;
    ask(rt, b"SSSS 3 2")?;
    ask(rt, b"SNSS 1 2")?;
    // sides from one digit to four, and with zeros in front
    ask(rt, b"NPPP 1 1")?;
    ask(rt, b"PPNP 1 1")?;
    ask(rt, b"NPPN 12 34")?;
    ask(rt, b"PPSP 123 4096")?;
    ask(rt, b"SSSN 4096 256")?;
    ask(rt, b"SSNN 00003 00002")?;
    ask(rt, b"NPPP 04096 00256")?;
    ask(rt, b"PPNP 00012 00345")
}

fn refused(rt: &impl Print) -> io::Result<()> {
    // a side is outside its range, whatever the faces
    ask(rt, b"PPPP 0 1")?;
    ask(rt, b"PPPP 1 0")?;
    ask(rt, b"PPPP 00000 00001")?;
    ask(rt, b"PPPP 4097 1")?;
    ask(rt, b"PPPP 1 4097")?;
    ask(rt, b"PPPP 99999 99999")?;
    ask(rt, b"NPPP 0 0")?;
    ask(rt, b"PPPN 12 34567")?;
    // the cell count is outside its range
    ask(rt, b"PPPP 4096 257")?;
    ask(rt, b"PPPP 257 4096")?;
    ask(rt, b"PPPP 1025 1024")
}

// Another form in the letters and spaces.
fn unreadable_letters(rt: &impl Print) -> io::Result<()> {
    ask(rt, b"")?;
    ask(rt, b" ")?;
    ask(rt, b"SSNN")?;
    ask(rt, b"SSNN ")?;
    ask(rt, b"3 2")?;
    ask(rt, b" 3 2")?;
    ask(rt, b"SSN 3 2")?;
    ask(rt, b"SSNNP 3 2")?;
    ask(rt, b"ssnn 3 2")?;
    ask(rt, b"SSNn 3 2")?;
    ask(rt, b"SSNM 3 2")?;
    ask(rt, b"SS NN 3 2")?;
    ask(rt, b"SSNN3 2")?;
    ask(rt, b"SSNN  3 2")?;
    ask(rt, b"SSNN 3  2")?;
    ask(rt, b" SSNN 3 2")?;
    ask(rt, b"SSNN 3 2 ")?;
    ask(rt, b"SSNN\t3 2")?;
    ask(rt, b"SSNN 3 2\r")?;
    ask(rt, b"\rSSNN 3 2")
}

// Another form in the sides.
fn unreadable_sides(rt: &impl Print) -> io::Result<()> {
    ask(rt, b"SSNN 3")?;
    ask(rt, b"SSNN 3 ")?;
    ask(rt, b"SSNN  2")?;
    ask(rt, b"SSNN 3 2 1")?;
    ask(rt, b"SSNN +3 2")?;
    ask(rt, b"SSNN -3 2")?;
    ask(rt, b"SSNN 3 +2")?;
    ask(rt, b"SSNN 3.0 2")?;
    ask(rt, b"SSNN 3,2")?;
    ask(rt, b"SSNN 0x3 2")?;
    ask(rt, b"SSNN 3 2a")?;
    ask(rt, b"SSNN 3/ 2")?;
    ask(rt, b"SSNN 3 :")?;
    ask(rt, b"SSNN 000003 2")?;
    ask(rt, b"SSNN 3 000002")?;
    ask(rt, b"SSNN 3 123456")?;
    ask(rt, b"SSNN 18446744073709551619 2")
}

// Of 64 bytes and of 65.
fn unreadable_long(rt: &impl Print) -> io::Result<()> {
    ask(
        rt,
        b"SSNN 3 000000000000000000000000000000000000000000000000000000002",
    )?;
    ask(
        rt,
        b"SSNN 3 0000000000000000000000000000000000000000000000000000000002",
    )?;
    ask(
        rt,
        b"SSNN 3 2                                                        ",
    )?;
    ask(
        rt,
        b"SSNN 3 2                                                         ",
    )
}

fn main(rt: HostRuntime) -> io::Result<()> {
    lossless(&rt)?;
    lossy(&rt)?;
    refused(&rt)?;
    unreadable_letters(&rt)?;
    unreadable_sides(&rt)?;
    unreadable_long(&rt)
}
