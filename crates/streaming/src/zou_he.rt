// Zou-He velocity or pressure at one cell: the entries that come in, from the cell as it stands.
ghost use Rattle.std.specs.Prelude.{◌≡◌};
ghost use Rattle.number.specs.Number.{pattern_of};
ghost use Rattle.streaming.specs.Faces as Faces;
ghost use Rattle.streaming.specs.Faces.{known_sum, by_velocity, by_pressure};
ghost use Rattle.streaming.specs.Three.{each};
ghost use Rattle.streaming.specs.Lines.{incoming_of};
ghost use Rattle.streaming.specs.Read.{names_in};

use crate::names::Names;
use crate::three::Three;

// What a face prescribes: the density, and the velocity along n and t.
#[derive(Clone, Copy)]
pub struct Prescribed {
    pub rho: f64,
    pub un: f64,
    pub ut: f64,
}

impl Prescribed {
    // `sum` is the entries along the face plus twice the outgoing ones.
    #[tactic(auto, unfolding(crate::specs::Faces::by_velocity))]
    pub fn by_velocity(un: f64, ut: f64, sum: f64) -> Prescribed
        ensures { result ≡ by_velocity un ut sum }
    {
        Prescribed {
            rho: sum / (1.0 - un),
            un,
            ut,
        }
    }

    #[tactic(auto, unfolding(crate::specs::Faces::by_pressure))]
    pub fn by_pressure(rho: f64, sum: f64) -> Prescribed
        ensures { result ≡ by_pressure rho sum }
    {
        Prescribed {
            rho,
            un: 1.0 - sum / rho,
            ut: 0.0,
        }
    }
}

// The three entries that come in at a cell, from its nine as they stand.
pub fn zou_he<P: Fn(f64) -> Prescribed>(d: Names, prescribe: P, f: [f64; 9]) -> Three<u64>
    requires { P.IsAlwaysCallable prescribe }
    ensures { (w : _) × P.post prescribe (known_sum (names_in d) f) w
        × (result ≡ each (λ i. pattern_of (Faces.zou_he (names_in d) w f i)) (incoming_of (names_in d))) }
{
    let f_t = f[d.t.index];
    let f_tm = f[d.tm.index];
    let out = d.incoming.map(|i| f[i.opposite().index]);
    let sum_parallel = f[0] + f_t + f_tm;
    let sum_outgoing = out.n + out.np + out.nm;
    let w = prescribe(sum_parallel + 2.0 * sum_outgoing);
    // the transverse momentum that the entries along the face carry
    let nt = 0.5 * (f_t - f_tm);
    let come = Three {
        n: out.n + 2.0 / 3.0 * w.rho * w.un,
        np: out.np + w.rho * w.un / 6.0 + 0.5 * w.rho * w.ut - nt,
        nm: out.nm + w.rho * w.un / 6.0 - 0.5 * w.rho * w.ut + nt,
    };
    come.map(number::pattern)
}
