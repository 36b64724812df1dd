// Numbers of 64 bits. A lent buffer holds patterns (u64), so that a copy keeps every bit; only arithmetic goes to f64 and back.
#![tactic(auto)]

ghost use Rattle.std.specs.Prelude.{◌≡◌, true};
ghost use Rattle.std.specs.Float.{binary64};
ghost use Rattle.std.specs.Float.Ieee.{of_bits, to_bits};
ghost use Rattle.number.specs.Number.{not_finite, magnitude_of, larger_of};
ghost use Rattle.number.specs.Joined.{finite_of, raised_of, clear_of};

use std::num::{f64_from_bits_with_nan, f64_to_bits_with_nan};

// The number that a pattern stands for. Every NaN's pattern is the one NaN.
pub fn value(b: u64) -> f64
    ensures { result ≡ of_bits binary64 b }
{
    f64_from_bits_with_nan(b)
}

// The number that a finite number's pattern stands for, with no test for a NaN.
#[tactic(auto, using(crate::proofs::Joined::finite_no_nan))]
pub fn finite_value(b: u64) -> f64
    requires { finite_of b ≡ true }
    ensures { result ≡ of_bits binary64 b }
{
    f64::from_bits(b)
}

// A pattern with its sign cleared and 2^52 added. The top bit is then set exactly where the pattern is an infinity's or a NaN's, and
// many raised patterns joined have it clear exactly where every one is finite: a loop over them needs no branch.
pub fn raised(b: u64) -> u64
    ensures { result ≡ raised_of b }
{
    b % 0x8000_0000_0000_0000 + 0x0010_0000_0000_0000
}

// Whether the top bit is clear.
pub fn clear(bits: u64) -> bool
    ensures { result ≡ clear_of bits }
{
    bits < 0x8000_0000_0000_0000
}

// The pattern of a number. A NaN's is always the same, whichever operation made it.
pub fn pattern(x: f64) -> u64
    ensures { result ≡ to_bits binary64 x }
{
    f64_to_bits_with_nan(x)
}

// Whether x is a NaN or an infinity. Two comparisons, which a loop over snapshots takes faster than the subtraction of `is_finite`.
#[tactic(auto, using(crate::proofs::ByKind::not_finite_is))]
pub fn not_finite(x: f64) -> bool
    ensures { result ≡ not_finite x }
{
    !((f64::NEG_INFINITY < x) & (x < f64::INFINITY))
}

// The sign cleared; a NaN stays a NaN.
#[tactic(auto, using(crate::proofs::ByKind::magnitude_is))]
pub fn magnitude(x: f64) -> f64
    ensures { result ≡ magnitude_of x }
{
    x.abs()
}

// The larger of two. Where either is a NaN it is the NaN, which Rust's `f64::max` drops.
#[tactic(auto, unfolding(crate::specs::Number::larger_of))]
pub fn larger(a: f64, b: f64) -> f64
    ensures { result ≡ larger_of a b }
{
    if b.is_nan() || a < b { b } else { a }
}
