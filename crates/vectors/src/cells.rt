// One cell's collision: each kind, without force, with a force in x, in y and in both, in each mode.
use crate::studies::FLOOR;
use crate::{made, show, studies};
use cell::{BgkRates, Force, MrtRates, TrtRates};
use std::io;

// Case k, from the number x on; answers the number after it.
pub fn one(rt: &impl Print, k: u64, x: u64) -> io::Result<u64> {
    let force = k / 9 % 4;
    let mode = made::Mode::of(k / 3 % 3);
    let (f, x) = made::nine(mode, x);
    let x1 = made::shifted(x);
    let x2 = made::shifted(x1);
    let x3 = made::shifted(x2);
    let x4 = made::shifted(x3);
    let tau = made::number(mode, x1);
    let rate = made::number(mode, x2);
    let force = Force {
        x: studies::wanted(force % 2 == 1, made::number(mode, x3)),
        y: studies::wanted(2 <= force, made::number(mode, x4)),
    };
    let after = match k / 36 {
        0 => cell::collided(BgkRates::new(tau), f, force, FLOOR),
        1 => cell::collided(TrtRates::new(tau, rate), f, force, FLOOR),
        _ => cell::collided(MrtRates::new(tau), f, force, FLOOR),
    };
    show::numbers(rt, &after)?;
    Ok(x4)
}
