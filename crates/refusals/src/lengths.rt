// Number 2 on 3 by 2: each lent buffer in turn one entry short or long. Right are 54, a table of 18 and velocities of 12.
use crate::calls;
use show::{CANARY, sized};
use std::io;

const F: [u64; 54] = [CANARY; 54];

const SHORT: [u64; 53] = [CANARY; 53];

const LONG: [u64; 55] = [CANARY; 55];

fn readings(rt: &impl Print) -> io::Result<()> {
    let s = sized(3, 2);
    let mut f = F;
    calls::initialize(rt, "table 17", s, &[CANARY; 17], &mut f)?;
    let mut f = SHORT;
    calls::initialize(rt, "populations 53", s, &[CANARY; 18], &mut f)?;
    calls::density(rt, "populations 55", s, &LONG, 0, 0)?;
    calls::velocity(rt, "populations 53", s, &SHORT, 0, 0)
}

fn fields(rt: &impl Print) -> io::Result<()> {
    let s = sized(3, 2);
    let mut u = [CANARY; 12];
    calls::velocity_field(rt, "populations 53", s, &SHORT, &mut u)?;
    let mut u = [CANARY; 11];
    calls::velocity_field(rt, "velocities 11", s, &F, &mut u)?;
    calls::total_mass(rt, "populations 53", s, &SHORT)?;
    calls::kinetic_energy(rt, "populations 55", s, &LONG)?;
    calls::plane(rt, "populations 53", s, &SHORT, 0)
}

fn tallying(rt: &impl Print) -> io::Result<()> {
    let s = sized(3, 2);
    let mut short = SHORT;
    let mut long = LONG;
    calls::tally(rt, "populations 53", s, &SHORT)?;
    calls::tally(rt, "populations 55", s, &LONG)?;
    calls::write_entry(rt, "populations 53", s, 0, 0, 0, &mut short)?;
    calls::write_entry(rt, "populations 55", s, 0, 0, 0, &mut long)
}

fn carrying(rt: &impl Print) -> io::Result<()> {
    let s = sized(3, 2);
    let mut right = F;
    let mut long = LONG;
    calls::stream_with_faces(rt, "populations 55", s, &F, &mut long)?;
    calls::stream_with_faces(rt, "post 53", s, &SHORT, &mut right)?;
    calls::reverse(rt, "populations 53", s, &SHORT, &mut right)?;
    calls::reverse(rt, "post 55", s, &F, &mut long)
}

fn stepping(rt: &impl Print) -> io::Result<()> {
    let s = sized(3, 2);
    let mut right = F;
    let mut short = SHORT;
    let mut long = LONG;
    calls::step(rt, "populations 53", s, &mut short, &mut right)?;
    calls::step(rt, "post 55", s, &mut right, &mut long)?;
    calls::run(rt, "populations 55", s, 1, &mut long, &mut right)?;
    calls::run(rt, "post 53", s, 1, &mut right, &mut short)
}

fn settling(rt: &impl Print) -> io::Result<()> {
    let s = sized(3, 2);
    let mut f = F;
    let mut post = F;
    let mut u = [CANARY; 12];
    let mut short = SHORT;
    let mut long = LONG;
    let mut u_long = [CANARY; 13];
    calls::steady(
        rt,
        "populations 53",
        s,
        0.0,
        1,
        &mut short,
        &mut post,
        &mut u,
    )?;
    calls::steady(rt, "post 55", s, 0.0, 1, &mut f, &mut long, &mut u)?;
    calls::steady(
        rt,
        "velocities 13",
        s,
        0.0,
        1,
        &mut f,
        &mut post,
        &mut u_long,
    )
}

pub fn all(rt: &impl Print) -> io::Result<()> {
    readings(rt)?;
    fields(rt)?;
    tallying(rt)?;
    carrying(rt)?;
    stepping(rt)?;
    settling(rt)
}
