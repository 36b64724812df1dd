// Each number that each operation gives but 2 and 9, and the order where several apply. Buffers of the right length for 3 by 2.
use crate::calls;
use crate::given::{colliding, faced, floored, forced, viscous, x_max, x_min, y_max, y_min};
use cell::Collision;
use settings::{Face, Settings};
use show::{CANARY, sized};
use std::io;

const F: [u64; 54] = [CANARY; 54];

fn initialize(rt: &impl Print, case: &str, s: Settings) -> io::Result<()> {
    calls::initialize(rt, case, s, &[CANARY; 18], &mut [CANARY; 54])
}

fn velocity_field(rt: &impl Print, case: &str, s: Settings) -> io::Result<()> {
    calls::velocity_field(rt, case, s, &F, &mut [CANARY; 12])
}

fn stream_with_faces(rt: &impl Print, case: &str, s: Settings) -> io::Result<()> {
    calls::stream_with_faces(rt, case, s, &F, &mut [CANARY; 54])
}

fn reverse(rt: &impl Print, case: &str, s: Settings) -> io::Result<()> {
    calls::reverse(rt, case, s, &F, &mut [CANARY; 54])
}

fn step(rt: &impl Print, case: &str, s: Settings) -> io::Result<()> {
    calls::step(rt, case, s, &mut [CANARY; 54], &mut [CANARY; 54])
}

fn run(rt: &impl Print, case: &str, s: Settings, steps: u64) -> io::Result<()> {
    calls::run(rt, case, s, steps, &mut [CANARY; 54], &mut [CANARY; 54])
}

fn write_entry(
    rt: &impl Print,
    case: &str,
    s: Settings,
    x: usize,
    y: usize,
    i: usize,
) -> io::Result<()> {
    calls::write_entry(rt, case, s, x, y, i, &mut [CANARY; 54])
}

fn steady(rt: &impl Print, case: &str, s: Settings, tolerance: f64, steps: u64) -> io::Result<()> {
    let mut f = F;
    let mut post = F;
    let mut u = [CANARY; 12];
    calls::steady(rt, case, s, tolerance, steps, &mut f, &mut post, &mut u)
}

// Number 1.
fn sides_read(rt: &impl Print) -> io::Result<()> {
    initialize(rt, "0 by 2", sized(0, 2))?;
    calls::density(rt, "4097 by 1", sized(4097, 1), &F, 0, 0)?;
    calls::velocity(rt, "1 by 0", sized(1, 0), &F, 0, 0)?;
    velocity_field(rt, "1 by 4097", sized(1, 4097))
}

fn sides_summed(rt: &impl Print) -> io::Result<()> {
    calls::total_mass(rt, "4096 by 257", sized(4096, 257), &F)?;
    calls::kinetic_energy(rt, "0 by 0", sized(0, 0), &F)?;
    calls::plane(rt, "0 by 2", sized(0, 2), &F, 0)?;
    calls::tally(rt, "1 by 4097", sized(1, 4097), &F)?;
    write_entry(rt, "0 by 2", sized(0, 2), 0, 0, 0)
}

fn sides_carried(rt: &impl Print) -> io::Result<()> {
    stream_with_faces(rt, "4096 by 257", sized(4096, 257))?;
    calls::lossless(rt, "4097 by 1", sized(4097, 1))?;
    reverse(rt, "0 by 2", sized(0, 2))
}

fn sides_stepped(rt: &impl Print) -> io::Result<()> {
    step(rt, "1 by 4097", sized(1, 4097))?;
    run(rt, "3 by 0", sized(3, 0), 1)?;
    steady(rt, "4096 by 257", sized(4096, 257), 0.0, 1)
}

// Number 3.
fn rates(rt: &impl Print) -> io::Result<()> {
    step(rt, "viscosity NaN", viscous(f64::NAN))?;
    step(rt, "minus rate -1", colliding(Collision::Trt(-1.0)))?;
    run(rt, "viscosity -1", viscous(-1.0), 1)?;
    run(rt, "minus rate NaN", colliding(Collision::Trt(f64::NAN)), 1)?;
    steady(rt, "viscosity infinite", viscous(f64::INFINITY), 0.0, 1)?;
    steady(rt, "minus rate 3", colliding(Collision::Trt(3.0)), 0.0, 1)
}

// Number 3 of the floor, which readings test too.
fn floors(rt: &impl Print) -> io::Result<()> {
    calls::velocity(rt, "floor NaN", floored(f64::NAN), &F, 0, 0)?;
    velocity_field(rt, "floor 0", floored(0.0))?;
    calls::kinetic_energy(rt, "floor infinite", floored(f64::INFINITY), &F)?;
    step(rt, "floor -1", floored(-1.0))?;
    run(rt, "floor -0", floored(-0.0), 1)?;
    steady(rt, "floor -infinite", floored(-f64::INFINITY), 0.0, 1)
}

// Number 4.
fn forces(rt: &impl Print) -> io::Result<()> {
    calls::velocity(rt, "fx infinite", forced(f64::INFINITY, 0.0), &F, 0, 0)?;
    velocity_field(rt, "fy NaN", forced(0.0, f64::NAN))?;
    calls::kinetic_energy(rt, "fx -infinite", forced(-f64::INFINITY, 0.0), &F)?;
    step(rt, "fx NaN", forced(f64::NAN, 0.0))?;
    run(rt, "fy infinite", forced(0.0, f64::INFINITY), 1)?;
    steady(rt, "fx NaN", forced(f64::NAN, 0.0), 0.0, 1)
}

// Number 5.
fn faces_streamed(rt: &impl Print) -> io::Result<()> {
    let inwards = x_min(Face::Velocity(1.0, 0.0));
    let empty = x_max(Face::Pressure(0.0));
    let unknown = y_min(Face::MovingWall(f64::NAN, 0.0));
    let endless = y_max(Face::Velocity(f64::INFINITY, 0.0));
    stream_with_faces(rt, "x min Velocity 1, 0", inwards)?;
    stream_with_faces(rt, "x max Pressure 0", empty)?;
    stream_with_faces(rt, "y min MovingWall NaN, 0", unknown)?;
    stream_with_faces(rt, "y max Velocity infinite, 0", endless)
}

fn faces_elsewhere(rt: &impl Print) -> io::Result<()> {
    let empty = x_max(Face::Pressure(0.0));
    let unknown = y_min(Face::MovingWall(f64::NAN, 0.0));
    calls::lossless(rt, "y min MovingWall NaN, 0", unknown)?;
    reverse(rt, "x max Pressure 0", empty)?;
    step(
        rt,
        "y max Velocity infinite, 0",
        y_max(Face::Velocity(f64::INFINITY, 0.0)),
    )?;
    run(
        rt,
        "x min Velocity 1, 0",
        x_min(Face::Velocity(1.0, 0.0)),
        1,
    )?;
    steady(rt, "x max Pressure 0", empty, 0.0, 1)
}

// Number 10.
fn limits(rt: &impl Print) -> io::Result<()> {
    run(rt, "1000001 steps", sized(3, 2), 1000001)?;
    steady(rt, "1000001 steps", sized(3, 2), 0.0, 1000001)?;
    steady(rt, "tolerance NaN", sized(3, 2), f64::NAN, 1)
}

// Number 6.
fn places(rt: &impl Print) -> io::Result<()> {
    let s = sized(3, 2);
    calls::density(rt, "at 3, 0", s, &F, 3, 0)?;
    calls::density(rt, "at 0, 2", s, &F, 0, 2)?;
    calls::velocity(rt, "at 3, 0", s, &F, 3, 0)?;
    calls::velocity(rt, "at 0, 2", s, &F, 0, 2)?;
    calls::plane(rt, "direction 9", s, &F, 9)?;
    write_entry(rt, "at 3, 0", s, 3, 0, 0)?;
    write_entry(rt, "at 0, 2", s, 0, 2, 0)?;
    write_entry(rt, "direction 9", s, 0, 0, 9)
}

// Numbers 7 and 8.
fn losses(rt: &impl Print) -> io::Result<()> {
    let driven = x_min(Face::Pressure(1.0));
    let unpaired = faced(Face::NoSlip, Face::Periodic, Face::Periodic, Face::Periodic);
    calls::lossless(rt, "x min Pressure 1", driven)?;
    reverse(rt, "x min Pressure 1", driven)?;
    reverse(rt, "x min NoSlip, x max Periodic", unpaired)
}

// Where several apply, the first in the order 1, 2, 3, 4, 5, 10, 6.
fn order(rt: &impl Print) -> io::Result<()> {
    let inwards = x_min(Face::Velocity(1.0, 0.0));
    let short = [CANARY; 53];
    calls::density(
        rt,
        "0 by 1, populations 53, at 2, 0",
        sized(0, 1),
        &short,
        2,
        0,
    )?;
    calls::plane(rt, "populations 53, direction 9", sized(3, 2), &short, 9)?;
    calls::velocity(rt, "fx NaN, at 3, 0", forced(f64::NAN, 0.0), &F, 3, 0)?;
    let mut s = floored(f64::NAN);
    calls::velocity(rt, "populations 53, floor NaN", s, &short, 0, 0)?;
    s.fx = f64::NAN;
    calls::velocity(rt, "floor NaN, fx NaN, at 3, 0", s, &F, 3, 0)?;
    calls::tally(rt, "0 by 1, populations 53", sized(0, 1), &short)?;
    let mut f = short;
    calls::write_entry(rt, "populations 53, at 3, 0", sized(3, 2), 3, 0, 0, &mut f)?;
    run(
        rt,
        "viscosity NaN, 1000001 steps",
        viscous(f64::NAN),
        1000001,
    )?;
    steady(
        rt,
        "x min Velocity 1, 0, tolerance NaN",
        inwards,
        f64::NAN,
        1,
    )
}

pub fn all(rt: &impl Print) -> io::Result<()> {
    sides_read(rt)?;
    sides_summed(rt)?;
    sides_carried(rt)?;
    sides_stepped(rt)?;
    rates(rt)?;
    floors(rt)?;
    forces(rt)?;
    faces_streamed(rt)?;
    faces_elsewhere(rt)?;
    limits(rt)?;
    places(rt)?;
    losses(rt)?;
    order(rt)
}
