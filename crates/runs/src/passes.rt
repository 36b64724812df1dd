// Collision: one pass over the n cells. A buffer whose entries are all finite is read with no test for a NaN.
ghost use Rattle.std.specs.Prelude.{◌≡◌, ◌*◌, ◌≤◌, ◌<◌};
ghost use Rattle.grid.specs.Grid.{Holds, cell_of};
ghost use Rattle.cell.specs.Cell.{forced_by};
ghost use Rattle.runs.specs.Passes.{Paired, Ready, Vouched, passed};
ghost use Rattle.runs.specs.Steps.{collided_buffer};

use cell::{BgkRates, Collide, Collision, Force, MrtRates, TrtRates};
use settings::Settings;

fn gathered<const FINITE: bool>(f: &[u64], n: usize, c: usize) -> [f64; 9]
    requires { Holds f.now n c × Vouched FINITE f.now }
    ensures { result ≡ cell_of f.now n c }
{
    if FINITE {
        grid::gather_finite(f, n, c)
    } else {
        grid::gather(f, n, c)
    }
}

fn pass<K: Collide, const FORCED: bool, const FINITE: bool>(
    rates: K,
    force: Force,
    floor: f64,
    n: usize,
    f: &[u64],
    post: &mut [u64],
)
    requires { Paired n f.now post.old × (forced_by force.x force.y ≡ FORCED) × Vouched FINITE f.now }
    ensures { post.new ≡ passed (K.rule rates) force.x force.y floor n f.now }
{
    for c in 0..n {
        let v = cell::cell::<K, FORCED>(rates, gathered::<FINITE>(f, n, c), force, floor);
        grid::put_back(post, n, c, v);
    }
}

fn collide_by<K: Collide>(rates: K, s: Settings, finite: bool, f: &[u64], post: &mut [u64])
    requires { Ready s f.now post.old × Vouched finite f.now }
    ensures { post.new ≡ passed (K.rule rates) s.fx s.fy s.floor (s.nx * s.ny) f.now }
{
    let n = s.nx * s.ny;
    let force = s.force();
    match (force.acts(), finite) {
        (true, true) => pass::<K, true, true>(rates, force, s.floor, n, f, post),
        (true, false) => pass::<K, true, false>(rates, force, s.floor, n, f, post),
        (false, true) => pass::<K, false, true>(rates, force, s.floor, n, f, post),
        (false, false) => pass::<K, false, false>(rates, force, s.floor, n, f, post),
    }
}

// Collides every cell of f into post; `finite` where every entry of f is known to be finite.
pub fn collide(s: Settings, finite: bool, f: &[u64], post: &mut [u64])
    requires { Ready s f.now post.old × Vouched finite f.now }
    ensures { post.new ≡ collided_buffer s f.now }
{
    let tau = s.tau();
    let kind = s.collision;
    match kind {
        Collision::Bgk => collide_by(BgkRates::new(tau), s, finite, f, post),
        Collision::Mrt => collide_by(MrtRates::new(tau), s, finite, f, post),
        Collision::Trt(rate) => collide_by(TrtRates::new(tau, rate), s, finite, f, post),
    }
}
