// TRT: the even and the odd part about the opposite direction, each at its own rate.
ghost use Rattle.std.specs.Prelude.{◌≡◌};
ghost use Rattle.cell.specs.Cell.{trt_omega_minus, trt_rates, trt_relaxed_at, trt_relaxed, trt_sourced_at, trt_sourced, trt};

use crate::kinds::Collide;
use lattice::Direction;

#[derive(Clone, Copy, Debug, PartialEq)]
pub struct TrtRates {
    pub omega_p: f64,
    pub omega_m: f64,
    pub pref_p: f64,
    pub pref_m: f64,
}

// The minus rate that a magic number gives. Where lambda_plus is 0, as at viscosity 0, the rate is meant to be 0.
#[tactic(auto, unfolding(crate::specs::Cell::trt_omega_minus))]
pub fn trt_omega_minus(omega_plus: f64, magic: f64) -> f64
    ensures { result ≡ trt_omega_minus omega_plus magic }
{
    let lambda_plus = 1.0 / omega_plus - 0.5;
    1.0 / (magic / lambda_plus + 0.5)
}

impl TrtRates {
    #[tactic(auto, unfolding(crate::specs::Cell::trt_rates))]
    pub fn new(tau: f64, rate: f64) -> TrtRates
        ensures { result ≡ trt_rates tau rate }
    {
        let omega_p = 1.0 / tau;
        TrtRates {
            omega_p,
            omega_m: rate,
            pref_p: 1.0 - 0.5 * omega_p,
            pref_m: 1.0 - 0.5 * rate,
        }
    }

    // First the even and the odd part about the opposite direction are relaxed, each at its own rate.
    #[tactic(auto, unfolding(crate::specs::Cell::trt_relaxed_at))]
    fn relaxed_entry(self, i: Direction, f: [f64; 9], feq: [f64; 9]) -> f64
        ensures { result ≡ trt_relaxed_at self f feq i.index }
    {
        let o = i.opposite().index;
        let i = i.index;
        let here = f[i] - feq[i];
        let there = f[o] - feq[o];
        let neq_p = 0.5 * (here + there);
        let neq_m = 0.5 * (here - there);
        f[i] - self.omega_p * neq_p - self.omega_m * neq_m
    }

    fn relaxed(self, f: [f64; 9], feq: [f64; 9]) -> [f64; 9]
        ensures { result ≡ trt_relaxed self f feq }
    {
        lattice::nine(|i| self.relaxed_entry(i, f, feq))
    }

    // Then the even and the odd part of the source are added, each with its own factor.
    #[tactic(auto, unfolding(crate::specs::Cell::trt_sourced_at))]
    fn sourced_entry(self, i: Direction, kept: [f64; 9], src: [f64; 9]) -> f64
        ensures { result ≡ trt_sourced_at self kept src i.index }
    {
        let o = i.opposite().index;
        let i = i.index;
        let src_p = 0.5 * (src[i] + src[o]);
        let src_m = 0.5 * (src[i] - src[o]);
        kept[i] + self.pref_p * src_p + self.pref_m * src_m
    }

    fn sourced(self, kept: [f64; 9], src: [f64; 9]) -> [f64; 9]
        ensures { result ≡ trt_sourced self kept src }
    {
        lattice::nine(|i| self.sourced_entry(i, kept, src))
    }
}

impl Collide for TrtRates {
    ghost rule = { trt };

    #[inline(always)]
    #[tactic(auto, unfolding(crate::specs::Cell::trt))]
    fn collide(self, f: [f64; 9], feq: [f64; 9], src: [f64; 9]) -> [f64; 9] {
        self.sourced(self.relaxed(f, feq), src)
    }
}
