// MRT: nine moments, each at its own rate.
ghost use Rattle.std.specs.Prelude.{◌≡◌};
ghost use Rattle.cell.specs.Cell.{mrt_rates, relaxed_by, relaxed_moments, back_at, mrt};

use crate::kinds::Collide;
use crate::macroscopic::sum_of_products;
use lattice::Direction;

#[derive(Clone, Copy, Debug, PartialEq)]
pub struct MrtRates {
    pub s_nu: f64,
    pub s_q: f64,
}

// A moment after collision: a row of M with the populations, relaxed.
#[tactic(auto, unfolding(crate::specs::Cell::relaxed_by))]
fn relaxed(rate: f64, row: [f64; 9], f: [f64; 9], feq: [f64; 9], src: [f64; 9]) -> f64
    ensures { result ≡ relaxed_by rate row f feq src }
{
    let m = sum_of_products(row, f);
    let m_eq = sum_of_products(row, feq);
    let m_src = sum_of_products(row, src);
    m - rate * (m - m_eq) + (1.0 - 0.5 * rate) * m_src
}

// Entry i of nine moments taken back. The tables are passed, since a table that is named here would be built anew for each entry.
#[tactic(auto, unfolding(crate::specs::Cell::back_at, number::specs::Nine::sum_to))]
fn back(i: Direction, m: [[f64; 9]; 9], norms: [f64; 9], post_m: [f64; 9]) -> f64
    ensures { result ≡ back_at m norms post_m i.index }
{
    let i = i.index;
    0.0 + m[0][i] * post_m[0] / norms[0]
        + m[1][i] * post_m[1] / norms[1]
        + m[2][i] * post_m[2] / norms[2]
        + m[3][i] * post_m[3] / norms[3]
        + m[4][i] * post_m[4] / norms[4]
        + m[5][i] * post_m[5] / norms[5]
        + m[6][i] * post_m[6] / norms[6]
        + m[7][i] * post_m[7] / norms[7]
        + m[8][i] * post_m[8] / norms[8]
}

impl MrtRates {
    #[tactic(auto, unfolding(crate::specs::Cell::mrt_rates))]
    pub fn new(tau: f64) -> MrtRates
        ensures { result ≡ mrt_rates tau }
    {
        let s_nu = 1.0 / tau;
        MrtRates {
            s_nu,
            s_q: 8.0 * (2.0 - s_nu) / (8.0 - s_nu),
        }
    }

    fn relaxed_moments(self, f: [f64; 9], feq: [f64; 9], src: [f64; 9]) -> [f64; 9]
        ensures { result ≡ relaxed_moments self f feq src }
    {
        let m = lattice::basis();
        [
            relaxed(0.0, m[0], f, feq, src),
            relaxed(1.64, m[1], f, feq, src),
            relaxed(1.54, m[2], f, feq, src),
            relaxed(0.0, m[3], f, feq, src),
            relaxed(self.s_q, m[4], f, feq, src),
            relaxed(0.0, m[5], f, feq, src),
            relaxed(self.s_q, m[6], f, feq, src),
            relaxed(self.s_nu, m[7], f, feq, src),
            relaxed(self.s_nu, m[8], f, feq, src),
        ]
    }
}

impl Collide for MrtRates {
    ghost rule = { mrt };

    #[inline(always)]
    fn collide(self, f: [f64; 9], feq: [f64; 9], src: [f64; 9]) -> [f64; 9] {
        let post_m = self.relaxed_moments(f, feq, src);
        let m = lattice::basis();
        let norms = lattice::norms();
        lattice::nine(|i| back(i, m, norms, post_m))
    }
}
