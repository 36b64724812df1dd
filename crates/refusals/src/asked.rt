// The questions beside the operations, which take lengths and no buffers: bounds from both sides, and the order of the numbers.
use crate::given::{colliding, faced, floored, forced, viscous, x_max, x_min, y_max, y_min};
use cell::Collision;
use settings::{Face, Settings, number_of};
use show::sized;
use std::io;

// ---- questions on 3 by 2, each buffer of the right length

fn step(rt: &impl Print, case: &str, s: Settings) -> io::Result<()> {
    show::number(
        rt,
        "step_refusal",
        case,
        number_of(settings::check_step(s, 54, 54)),
    )
}

fn velocity(rt: &impl Print, case: &str, s: Settings) -> io::Result<()> {
    show::number(
        rt,
        "velocity_refusal",
        case,
        number_of(settings::check_velocity(s, 54, 0, 0)),
    )
}

fn density(rt: &impl Print, case: &str, s: Settings, x: usize, y: usize) -> io::Result<()> {
    show::number(
        rt,
        "density_refusal",
        case,
        number_of(settings::check_density(s, 54, x, y)),
    )
}

fn plane(rt: &impl Print, case: &str, i: usize) -> io::Result<()> {
    show::number(
        rt,
        "plane_refusal",
        case,
        number_of(settings::check_plane(sized(3, 2), 54, i)),
    )
}

fn stream(rt: &impl Print, case: &str, s: Settings) -> io::Result<()> {
    show::number(
        rt,
        "stream_with_faces_refusal",
        case,
        number_of(settings::check_stream_with_faces(s, 54, 54)),
    )
}

fn lossless(rt: &impl Print, case: &str, s: Settings) -> io::Result<()> {
    show::number(
        rt,
        "lossless_refusal",
        case,
        number_of(settings::check_lossless(s)),
    )
}

fn reverse(rt: &impl Print, case: &str, s: Settings) -> io::Result<()> {
    show::number(
        rt,
        "reverse_refusal",
        case,
        number_of(settings::check_reverse(s, 54, 54)),
    )
}

fn steady(rt: &impl Print, case: &str, tolerance: f64, steps: u64) -> io::Result<()> {
    let s = sized(3, 2);
    let number = number_of(settings::check_run_to_steady_state(s, tolerance, steps, 54, 54, 12));
    show::number(rt, "run_to_steady_state_refusal", case, number)
}

// ---- bounds

fn sides(rt: &impl Print) -> io::Result<()> {
    lossless(rt, "0 by 7", sized(0, 7))?;
    lossless(rt, "7 by 0", sized(7, 0))?;
    lossless(rt, "4097 by 1", sized(4097, 1))?;
    lossless(rt, "1 by 4097", sized(1, 4097))?;
    lossless(rt, "4096 by 256", sized(4096, 256))?;
    lossless(rt, "4096 by 257", sized(4096, 257))
}

fn lengths(rt: &impl Print) -> io::Result<()> {
    let s = sized(3, 2);
    show::number(
        rt,
        "step_refusal",
        "lengths 54 and 54",
        number_of(settings::check_step(s, 54, 54)),
    )?;
    show::number(
        rt,
        "step_refusal",
        "lengths 53 and 54",
        number_of(settings::check_step(s, 53, 54)),
    )?;
    show::number(
        rt,
        "step_refusal",
        "lengths 54 and 55",
        number_of(settings::check_step(s, 54, 55)),
    )
}

fn viscosities(rt: &impl Print) -> io::Result<()> {
    step(rt, "viscosity 0", viscous(0.0))?;
    step(rt, "viscosity -1", viscous(-1.0))?;
    step(rt, "viscosity NaN", viscous(f64::NAN))?;
    step(rt, "viscosity infinite", viscous(f64::INFINITY))
}

fn rates(rt: &impl Print) -> io::Result<()> {
    step(rt, "minus rate 0", colliding(Collision::Trt(0.0)))?;
    step(rt, "minus rate 2", colliding(Collision::Trt(2.0)))?;
    step(
        rt,
        "minus rate just above 2",
        colliding(Collision::Trt(2.0000000000000004)),
    )?;
    step(rt, "minus rate -1", colliding(Collision::Trt(-1.0)))?;
    step(rt, "minus rate NaN", colliding(Collision::Trt(f64::NAN)))
}

fn floors(rt: &impl Print) -> io::Result<()> {
    velocity(rt, "floor 5e-324", floored(5e-324))?;
    velocity(
        rt,
        "floor 1.7976931348623157e308",
        floored(1.7976931348623157e308),
    )?;
    velocity(rt, "floor 0", floored(0.0))?;
    velocity(rt, "floor -5e-324", floored(-5e-324))?;
    step(rt, "floor 5e-324", floored(5e-324))?;
    step(rt, "floor infinite", floored(f64::INFINITY))
}

// Of number 3 a reading tests the floor alone.
fn rates_unread(rt: &impl Print) -> io::Result<()> {
    velocity(rt, "viscosity NaN", viscous(f64::NAN))?;
    velocity(rt, "minus rate NaN", colliding(Collision::Trt(f64::NAN)))
}

fn floors_unread(rt: &impl Print) -> io::Result<()> {
    let s = floored(f64::NAN);
    let initialize = number_of(settings::check_initialize(s, 18, 54));
    show::number(rt, "initialize_refusal", "floor NaN", initialize)?;
    density(rt, "floor NaN", s, 0, 0)?;
    let total_mass = number_of(settings::check_total_mass(s, 54));
    show::number(rt, "total_mass_refusal", "floor NaN", total_mass)?;
    let plane = number_of(settings::check_plane(s, 54, 0));
    show::number(rt, "plane_refusal", "floor NaN", plane)?;
    stream(rt, "floor NaN", s)?;
    lossless(rt, "floor NaN", s)?;
    reverse(rt, "floor NaN", s)?;
    let tally = number_of(settings::check_tally(s, 54));
    show::number(rt, "tally_refusal", "floor NaN", tally)?;
    let write_entry = number_of(settings::check_write_entry(s, 54, 0, 0, 0));
    show::number(rt, "write_entry_refusal", "floor NaN", write_entry)?;
    let write_checkpoint = number_of(settings::check_write_checkpoint(s, 54, 445));
    show::number(
        rt,
        "write_checkpoint_refusal",
        "floor NaN",
        write_checkpoint,
    )
}

fn forces(rt: &impl Print) -> io::Result<()> {
    velocity(rt, "force NaN", forced(f64::NAN, 0.0))?;
    velocity(rt, "force minus infinity", forced(-f64::INFINITY, 0.0))?;
    density(rt, "force NaN", forced(f64::NAN, 0.0), 0, 0)
}

fn x_speeds(rt: &impl Print) -> io::Result<()> {
    stream(rt, "x min Velocity 1, 0", x_min(Face::Velocity(1.0, 0.0)))?;
    stream(rt, "x min Velocity -1, 0", x_min(Face::Velocity(-1.0, 0.0)))?;
    stream(rt, "x max Velocity 1, 0", x_max(Face::Velocity(1.0, 0.0)))?;
    stream(rt, "x max Velocity -1, 0", x_max(Face::Velocity(-1.0, 0.0)))
}

fn y_speeds(rt: &impl Print) -> io::Result<()> {
    stream(rt, "y min Velocity 0, 1", y_min(Face::Velocity(0.0, 1.0)))?;
    stream(rt, "y min Velocity 0, -1", y_min(Face::Velocity(0.0, -1.0)))?;
    stream(rt, "y max Velocity 0, 1", y_max(Face::Velocity(0.0, 1.0)))?;
    stream(rt, "y max Velocity 0, -1", y_max(Face::Velocity(0.0, -1.0)))
}

fn densities(rt: &impl Print) -> io::Result<()> {
    stream(rt, "Pressure 1", x_min(Face::Pressure(1.0)))?;
    stream(rt, "Pressure 0", x_min(Face::Pressure(0.0)))?;
    stream(rt, "Pressure -1", x_min(Face::Pressure(-1.0)))?;
    stream(rt, "Pressure NaN", x_min(Face::Pressure(f64::NAN)))?;
    stream(
        rt,
        "Pressure infinite",
        x_min(Face::Pressure(f64::INFINITY)),
    )?;
    stream(
        rt,
        "MovingWall 0, NaN",
        x_min(Face::MovingWall(0.0, f64::NAN)),
    )
}

fn limits(rt: &impl Print) -> io::Result<()> {
    steady(rt, "tolerance 0, 1000000 steps", 0.0, 1000000)?;
    steady(rt, "tolerance 0, 1000001 steps", 0.0, 1000001)?;
    steady(rt, "tolerance NaN, 0 steps", f64::NAN, 0)?;
    steady(rt, "tolerance infinite, 0 steps", f64::INFINITY, 0)?;
    steady(rt, "tolerance -1, 0 steps", -1.0, 0)
}

fn places(rt: &impl Print) -> io::Result<()> {
    density(rt, "at 2, 1", sized(3, 2), 2, 1)?;
    density(rt, "at 3, 1", sized(3, 2), 3, 1)?;
    density(rt, "at 2, 2", sized(3, 2), 2, 2)?;
    plane(rt, "direction 8", 8)?;
    plane(rt, "direction 9", 9)
}

fn losses(rt: &impl Print) -> io::Result<()> {
    let mirrored = faced(Face::Symmetry, Face::Symmetry, Face::NoSlip, Face::NoSlip);
    let turned = faced(Face::NoSlip, Face::NoSlip, Face::Symmetry, Face::Symmetry);
    lossless(rt, "Pressure 1", x_min(Face::Pressure(1.0)))?;
    reverse(rt, "x Symmetry, y NoSlip", mirrored)?;
    reverse(rt, "x NoSlip, y Symmetry", turned)
}

// ---- the order: all that can be refused at once, then less and less

fn settling(
    rt: &impl Print,
    case: &str,
    s: Settings,
    tolerance: f64,
    steps: u64,
    u: usize,
) -> io::Result<()> {
    let number = number_of(settings::check_run_to_steady_state(s, tolerance, steps, 54, 54, u));
    show::number(rt, "run_to_steady_state_refusal", case, number)
}

fn steady_order(rt: &impl Print) -> io::Result<()> {
    let mut s = x_min(Face::Pressure(0.0));
    s.nx = 0;
    s.nu = f64::NAN;
    s.fx = f64::NAN;
    settling(rt, "all wrong", s, f64::NAN, 1000001, 11)?;
    s.nx = 3;
    settling(rt, "all wrong but sides", s, f64::NAN, 1000001, 11)?;
    settling(rt, "but sides and lengths", s, f64::NAN, 1000001, 12)?;
    s.nu = 0.1;
    settling(rt, "but sides to rates", s, f64::NAN, 1000001, 12)?;
    s.fx = 0.0;
    settling(rt, "but sides to force", s, f64::NAN, 1000001, 12)?;
    steady(rt, "but sides to faces", f64::NAN, 1000001)?;
    steady(rt, "only steps wrong", 0.0, 1000001)?;
    steady(rt, "nothing wrong", 0.0, 1000000)
}

fn reversing(rt: &impl Print, case: &str, s: Settings, post: usize) -> io::Result<()> {
    show::number(
        rt,
        "reverse_refusal",
        case,
        number_of(settings::check_reverse(s, 54, post)),
    )
}

fn reverse_order(rt: &impl Print) -> io::Result<()> {
    let mut s = faced(
        Face::Pressure(0.0),
        Face::Periodic,
        Face::NoSlip,
        Face::NoSlip,
    );
    s.nx = 0;
    reversing(rt, "all wrong", s, 53)?;
    s.nx = 3;
    reversing(rt, "all wrong but sides", s, 53)?;
    reversing(rt, "but sides and lengths", s, 54)?;
    let driven = faced(
        Face::Pressure(1.0),
        Face::Periodic,
        Face::NoSlip,
        Face::NoSlip,
    );
    reversing(rt, "but sides to face numbers", driven, 54)?;
    let unpaired = faced(Face::NoSlip, Face::Periodic, Face::NoSlip, Face::NoSlip);
    reversing(rt, "only losses wrong", unpaired, 54)?;
    reversing(rt, "nothing wrong", sized(3, 2), 54)
}

pub fn all(rt: &impl Print) -> io::Result<()> {
    sides(rt)?;
    lengths(rt)?;
    viscosities(rt)?;
    rates(rt)?;
    floors(rt)?;
    rates_unread(rt)?;
    floors_unread(rt)?;
    forces(rt)?;
    x_speeds(rt)?;
    y_speeds(rt)?;
    densities(rt)?;
    limits(rt)?;
    places(rt)?;
    losses(rt)?;
    steady_order(rt)?;
    reverse_order(rt)
}
