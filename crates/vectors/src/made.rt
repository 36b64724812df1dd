// The made-up inputs: each is made from the number before it, by Marsaglia's xorshift.

pub fn shifted(x: u64) -> u64 {
    let a = x ^ (x << 13);
    let b = a ^ (a >> 7);
    b ^ (b << 17)
}

// The number n after x.
pub fn past(n: u64, x: u64) -> u64 {
    (0..n).fold(x, |x, _| shifted(x))
}

// NaNs with payloads, infinities, zeros, subnormals, huge and tiny numbers, and some plain ones.
const SPECIAL: [u64; 16] = [
    0x7ff8_0000_0000_0000,
    0xfff8_0000_dead_beef,
    0x7ff0_0000_0000_0001,
    0x7ff0_0000_0000_0000,
    0xfff0_0000_0000_0000,
    0x0000_0000_0000_0000,
    0x8000_0000_0000_0000,
    0x0000_0000_0000_0001,
    0x800f_ffff_ffff_ffff,
    0x7fef_ffff_ffff_ffff,
    0x3d71_9799_812d_ea11,
    0x3ff0_0000_0000_0000,
    0xbff0_0000_0000_0000,
    0x3fb9_9999_9999_999a,
    0x4008_0000_0000_0000,
    0xbfe5_5555_5555_5555,
];

// What a made-up pattern is drawn from.
#[derive(Clone, Copy, Debug, PartialEq, Eq)]
pub enum Mode {
    // from 0.5 to 1
    Plain,
    // any pattern
    Any,
    // one in four special, the rest from 0.5 to 1
    Mixed,
    // from 1/16 to 1/8, so that nine are near the density 1
    Thin,
}

impl Mode {
    // The mode of a number below 4.
    pub fn of(k: u64) -> Mode {
        match k {
            0 => Mode::Plain,
            1 => Mode::Any,
            2 => Mode::Mixed,
            _ => Mode::Thin,
        }
    }
}

fn plain(x: u64) -> u64 {
    0x3fe0_0000_0000_0000 | (x >> 12)
}

pub fn pattern(mode: Mode, x: u64) -> u64 {
    match mode {
        Mode::Plain => plain(x),
        Mode::Any => x,
        Mode::Mixed => {
            if x % 4 == 0 {
                SPECIAL[((x >> 8) % 16) as usize]
            } else {
                plain(x)
            }
        }
        Mode::Thin => 0x3fb0_0000_0000_0000 | (x >> 12),
    }
}

pub fn number(mode: Mode, x: u64) -> f64 {
    number::value(pattern(mode, x))
}

// Nine numbers from x on, and the number after them.
pub fn nine(mode: Mode, x: u64) -> ([f64; 9], u64) {
    let mut f = [0.0; 9];
    let mut x = x;
    for v in &mut f {
        x = shifted(x);
        *v = number(mode, x);
    }
    (f, x)
}

// Fills a with patterns from x on; answers the number after them.
pub fn fill(a: &mut [u64], mode: Mode, x: u64) -> u64 {
    let mut x = x;
    for b in a {
        x = shifted(x);
        *b = pattern(mode, x);
    }
    x
}
