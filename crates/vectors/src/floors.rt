// One cell about its floor: what is read of it, and what it is after collision.
use crate::grids::AT_REST;
use crate::{show, studies};
use settings::Settings;
use std::io;

// The numbers before the floors 5e-324, 1e-300, 1e-20, 0.5, 1.0 and 1e300.
const BEFORE: [u64; 6] = [
    0x0000_0000_0000_0000,
    0x01a5_6e1f_c2f8_f358,
    0x3bc7_9ca1_0c92_4222,
    0x3fdf_ffff_ffff_ffff,
    0x3fef_ffff_ffff_ffff,
    0x7e37_e43c_8800_759b,
];

// The velocity, then the nine post-collision entries.
fn show_cell(rt: &impl Print, s: Settings, f: &mut [u64], post: &mut [u64]) -> io::Result<()> {
    let u = readings::velocity(s, f, 0, 0).unwrap_or(AT_REST);
    show::numbers(rt, &[u.ux, u.uy])?;
    runs::step(s, f, post).unwrap_or(());
    show::words(rt, post)
}

// Case k of 108. All of the density moves in one direction: it is the number before the floor, the floor, or the number after it, of
// either sign.
fn one(rt: &impl Print, k: u64) -> io::Result<()> {
    let before = BEFORE[(k / 6 % 6) as usize];
    let beside = before.wrapping_add(k % 3);
    let sign = k / 3 % 2 * 0x8000_0000_0000_0000;
    let fx = studies::wanted(k % 5 < 2, 0.01);
    let collision = studies::collision(k / 36, 1.25);
    let mut s = studies::periodic(1, 1, 0.1, fx, 0.0, collision);
    s.floor = number::value(before.wrapping_add(1));
    let mut f = [0; 9];
    f[(1 + k % 8) as usize] = sign | beside;
    show_cell(rt, s, &mut f, &mut [0; 9])
}

// Each kind of collision at each floor.
pub fn all(rt: &impl Print) -> io::Result<()> {
    for k in 0..108 {
        one(rt, k)?;
    }
    Ok(())
}
