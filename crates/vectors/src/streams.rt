// Streaming with faces: every pair of kinds on the x and the y faces, in each mode.
use crate::{made, show, studies};
use cell::Collision;
use settings::Settings;
use std::io;

fn settings_of(nx: usize, ny: usize, q: u64, x: u64) -> Settings {
    let s = studies::periodic(nx, ny, 0.1, 0.0, 0.0, Collision::Bgk);
    studies::bounded(s, q / 3 % 6, q / 18, q % 3, x)
}

// Case q, from the number x on; answers the number after it.
fn one(
    rt: &impl Print,
    nx: usize,
    ny: usize,
    q: u64,
    x: u64,
    post: &mut [u64],
    f: &mut [u64],
) -> io::Result<u64> {
    let s = settings_of(nx, ny, q, x);
    let next = made::fill(post, made::Mode::of(q % 3), made::past(12, x));
    streaming::stream_with_faces(s, post, f).unwrap_or(());
    show::words(rt, &[show::mixed(f)])?;
    Ok(next)
}

pub fn all(
    rt: &impl Print,
    nx: usize,
    ny: usize,
    x: u64,
    post: &mut [u64],
    f: &mut [u64],
) -> io::Result<u64> {
    let mut x = x;
    for q in 0..108 {
        x = one(rt, nx, ny, q, x, post, f)?;
    }
    Ok(x)
}
