// BGK: one rate for all.
ghost use Rattle.std.specs.Prelude.{◌≡◌};
ghost use Rattle.cell.specs.Cell.{bgk_rates, bgk_at, bgk};

use crate::kinds::Collide;
use lattice::Direction;

#[derive(Clone, Copy, Debug, PartialEq)]
pub struct BgkRates {
    pub omega: f64,
    pub pref: f64,
}

impl BgkRates {
    #[tactic(auto, unfolding(crate::specs::Cell::bgk_rates))]
    pub fn new(tau: f64) -> BgkRates
        ensures { result ≡ bgk_rates tau }
    {
        let omega = 1.0 / tau;
        BgkRates {
            omega,
            pref: 1.0 - 0.5 * omega,
        }
    }

    #[tactic(auto, unfolding(crate::specs::Cell::bgk_at))]
    fn entry(self, i: Direction, f: [f64; 9], feq: [f64; 9], src: [f64; 9]) -> f64
        ensures { result ≡ bgk_at self f feq src i.index }
    {
        let i = i.index;
        f[i] - self.omega * (f[i] - feq[i]) + self.pref * src[i]
    }
}

impl Collide for BgkRates {
    ghost rule = { bgk };

    #[inline(always)]
    fn collide(self, f: [f64; 9], feq: [f64; 9], src: [f64; 9]) -> [f64; 9] {
        lattice::nine(|i| self.entry(i, f, feq, src))
    }
}
