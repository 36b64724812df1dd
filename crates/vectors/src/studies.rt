// Made-up studies: their settings, and what their buffers hold at the start.
use crate::made::{self, Mode};
use cell::Collision;
use settings::{Face, Settings};

// The Rust's floor, of every study but those of floors.
pub const FLOOR: f64 = 1e-12;

// A collision of the kind 0 to 2.
pub fn collision(kind: u64, rate: f64) -> Collision {
    match kind {
        0 => Collision::Bgk,
        1 => Collision::Trt(rate),
        _ => Collision::Mrt,
    }
}

// The number where it is wanted, and else 0.0.
pub fn wanted(on: bool, x: f64) -> f64 {
    if on { x } else { 0.0 }
}

// All faces periodic.
pub fn periodic(nx: usize, ny: usize, nu: f64, fx: f64, fy: f64, collision: Collision) -> Settings {
    Settings {
        nx,
        ny,
        nu,
        fx,
        fy,
        collision,
        x_min: Face::Periodic,
        x_max: Face::Periodic,
        y_min: Face::Periodic,
        y_max: Face::Periodic,
        floor: FLOOR,
    }
}

// A face of the kind 0 to 5, with speeds from 0.05 to 0.1 and a density from 0.5 to 1, made from the three numbers after x.
fn face(kind: u64, x: u64) -> Face {
    let a = made::number(Mode::Plain, made::past(1, x)) / 10.0;
    let b = made::number(Mode::Plain, made::past(2, x)) / 10.0;
    let d = made::number(Mode::Plain, made::past(3, x));
    match kind {
        0 => Face::Periodic,
        1 => Face::NoSlip,
        2 => Face::MovingWall(a, b),
        3 => Face::Symmetry,
        4 => Face::Velocity(a, b),
        _ => Face::Pressure(d),
    }
}

// The settings s with the kinds k and l at x min and y min, and those `shift` further on at x max and y max, made from the
// twelve numbers after x.
pub fn bounded(s: Settings, k: u64, l: u64, shift: u64, x: u64) -> Settings {
    Settings {
        x_min: face(k, x),
        x_max: face((k % 6 + shift % 6) % 6, made::past(3, x)),
        y_min: face(l, made::past(6, x)),
        y_max: face((l % 6 + shift % 6) % 6, made::past(9, x)),
        ..s
    }
}

// Study q of 108: each pair of kinds at x min and y min with each kind of collision. The rest is drawn, from the number x on.
pub fn drawn(nx: usize, ny: usize, q: u64, x: u64) -> Settings {
    let c = made::past(1, x);
    let nu = made::number(Mode::Plain, made::past(2, x)) / 10.0;
    let rate = made::number(Mode::Plain, made::past(3, x));
    let force = (c >> 8) % 4;
    let fx = wanted(
        force % 2 == 1,
        made::number(Mode::Plain, made::past(4, x)) / 100.0,
    );
    let fy = wanted(
        2 <= force,
        made::number(Mode::Plain, made::past(5, x)) / 100.0,
    );
    let s = periodic(nx, ny, nu, fx, fy, collision(q % 3, rate));
    bounded(s, q / 3 % 6, q / 18, c % 6, made::past(5, x))
}

// Fills the two buffers of the study drawn from the number x on; answers the number after them.
pub fn fill(x: u64, f: &mut [u64], post: &mut [u64]) -> u64 {
    let mode = Mode::of((made::past(1, x) >> 16) % 4);
    let next = made::fill(f, mode, made::past(17, x));
    made::fill(post, mode, next)
}
