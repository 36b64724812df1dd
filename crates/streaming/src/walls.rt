// Halfway bounce-back at one cell of a wall.
ghost use Rattle.std.specs.Prelude.{◌≡◌, true, false};
ghost use Rattle.number.specs.Number.{value_of, pattern_of, c6, ◌⊕◌, ◌⊗◌};
ghost use Rattle.lattice.specs.Lattice.{W};
ghost use Rattle.grid.specs.Grid.{Holds};
ghost use Rattle.cell.specs.Cell.{along_at};
ghost use Rattle.settings.specs.Tests.{is_symmetry};
ghost use Rattle.streaming.specs.Faces.{names, moving, pushed, walled};
ghost use Rattle.streaming.specs.Three.{each};
ghost use Rattle.streaming.specs.Lines.{incoming_of, alone};

use crate::edge::Edge;
use crate::entries;
use crate::three::Three;
use lattice::{Axis, Direction};

// The opposite entry b as direction i takes it from a wall that moves: 6·W·ρw·(e·u) more.
#[tactic(auto, unfolding(cell::specs::Cell::along_at))]
fn push(i: Direction, b: u64, rho: f64, u: f64, v: f64) -> u64
    ensures { result ≡ pattern_of (value_of b ⊕ c6 ⊗ W i.index ⊗ rho ⊗ along_at i.index u v) }
{
    let eu = i.e(Axis::X) * u + i.e(Axis::Y) * v;
    number::pattern(number::value(b) + 6.0 * i.weight() * rho * eu)
}

impl Edge {
    // The three entries from a wall that moves; ρw sums the cell's post-collision entries.
    fn push_entries(self, u: f64, v: f64, c: usize, post: &[u64]) -> Three<u64>
        requires forward { self.back ≡ false }
        requires holds { Holds post.now self.line.cells c }
        ensures { result ≡ each (pushed u v (alone false post.now self.line.cells c) 0 0) (incoming_of (names self.axis self.side)) }
    {
        let n = self.line.cells;
        let rho_w = cell::density(grid::gather(post, n, c));
        self.names.incoming.map(|i| push(i, entries::entry(post, n, c, i.opposite()), rho_w, u, v))
    }

    // The three entries from a wall, with its motion unless both speeds equal 0. Only a wall at rest has a way back.
    #[tactic(auto, unfolding(crate::specs::Faces::walled))]
    pub fn bounce_back(self, u: f64, v: f64, c: usize, post: &[u64]) -> Three<u64>
        requires wall { is_symmetry self.kind ≡ false }
        requires forward { self.back ≡ true → moving u v ≡ false }
        requires holds { Holds post.now self.line.cells c }
        ensures { result ≡ each (walled u v (alone self.back post.now self.line.cells c) 0 0) (incoming_of (names self.axis self.side)) }
    {
        if (u != 0.0) | (v != 0.0) {
            self.push_entries(u, v, c, post)
        } else {
            entries::entries_at(post, self.line.cells, c, self.from)
        }
    }
}
