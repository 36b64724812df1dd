// Streaming with six kinds of faces: `way` says which way it goes, `travel` streams, `line`, `names` and `edge` say where a face is,
// `entries` reads and writes what comes in there, `walls` and `zou_he` compute it, and here the kinds and the four faces are put
// together.
#![tactic(auto)]

mod edge;
mod entries;
mod line;
mod names;
mod three;
mod travel;
mod walls;
mod way;
mod zou_he;

ghost use Rattle.std.specs.Prelude.{◌≡◌, ◌*◌, length};
ghost use Rattle.grid.specs.Grid.{Grid, Holds};
ghost use Rattle.settings.specs.Refused.{number_of};
ghost use Rattle.settings.specs.Outcome.{outcome};
ghost use Rattle.streaming.specs.Turned.{carried};
ghost use Rattle.streaming.specs.Rows.{Lent};
ghost use Rattle.streaming.specs.Lines.{taken_at, Faced, Bounded};
ghost use Rattle.streaming.specs.Carried.{face_join, faces_join, carried_join};
ghost use Rattle.streaming.specs.Streaming.{streamed_with_faces};

use edge::{Edge, incoming};
use lattice::{Axis, Side};
use line::Line;
use settings::{Face, Refusal, Settings};
use three::Three;
pub use way::Way;
use zou_he::{Prescribed, zou_he};

// ---- one face

impl Edge {
    // What the three directions that come in at cell c take, kind by kind, from the post-collision buffer and from f before
    // the face.
    #[tactic(auto, unfolding(crate::specs::Faces::takes))]
    fn taken(self, c: usize, post: &[u64], f: &[u64]) -> Three<u64>
        requires { Holds post.now self.line.cells c × Holds f.now self.line.cells c }
        ensures { result ≡ taken_at self.axis self.side self.kind self.back self.line.cells post.now f.now c }
    {
        let n = self.line.cells;
        let kind = self.kind;
        match kind {
            Face::Periodic => entries::entries_at(f, n, c, self.into),
            Face::NoSlip => entries::entries_at(post, n, c, self.from),
            Face::MovingWall(u, v) => self.bounce_back(u, v, c, post),
            Face::Symmetry => entries::entries_at(post, n, c, self.from),
            Face::Velocity(u, v) => {
                let un = lattice::along_normal(self.axis, self.side, u, v);
                let ut = lattice::along_tangent(self.axis, self.side, u, v);
                let by = |sum| Prescribed::by_velocity(un, ut, sum);
                zou_he(self.names, by, grid::gather(f, n, c))
            }
            Face::Pressure(rho) => {
                let by = |sum| Prescribed::by_pressure(rho, sum);
                zou_he(self.names, by, grid::gather(f, n, c))
            }
        }
    }
}

impl Way {
    // Applies one face, whichever of the four, along its cells. A periodic face leaves what streaming brought.
    fn face(self, axis: Axis, side: Side, post: &[u64], f: &mut [u64])
        requires { Lent self.s.nx self.s.ny post.now f.old }
        ensures { Faced self.s axis side self.back post.now f.old f.new }
    {
        if self.s.face(axis, side).is_periodic() {
            return;
        }
        let e = Edge::of(self, axis, side);
        for k in 0..e.line.count {
            let c = e.line.cell(k);
            entries::put(f, e.line.cells, c, e.into, e.taken(c, post, f));
        }
    }

    // ---- all four

    // Applies the faces: x min, x max, y min, y max. A later face writes over an earlier one, so y settles corners.
    fn apply_boundaries(self, post: &[u64], f: &mut [u64])
        requires { Lent self.s.nx self.s.ny post.now f.old }
        ensures { Bounded self.s self.back post.now f.old f.new }
    {
        self.face(Axis::X, Side::Min, post, f);
        self.face(Axis::X, Side::Max, post, f);
        self.face(Axis::Y, Side::Min, post, f);
        self.face(Axis::Y, Side::Max, post, f);
    }

    // ---- what came in

    // What came in through a face: the raised patterns of its three planes along its cells, joined. A periodic face let
    // nothing in that streaming had not copied.
    #[tactic(auto, unfolding(crate::specs::Carried::face_join))]
    fn face_joined(self, axis: Axis, side: Side, f: &[u64]) -> u64
        requires { Grid self.s.nx self.s.ny × (length f.now ≡ 9 * (self.s.nx * self.s.ny)) }
        ensures { result ≡ face_join self.back self.s axis side f.now }
    {
        if self.s.face(axis, side).is_periodic() {
            return 0;
        }
        let line = Line::of(axis, side, self.s.nx, self.s.ny);
        let bits = incoming(axis, side, self.back).map(|i| entries::line_joined(f, line, i));
        bits.n | bits.np | bits.nm
    }

    // The same of all four faces, after the last of them.
    #[tactic(auto, unfolding(crate::specs::Carried::faces_join))]
    fn faces_joined(self, f: &[u64]) -> u64
        requires { Grid self.s.nx self.s.ny × (length f.now ≡ 9 * (self.s.nx * self.s.ny)) }
        ensures { result ≡ faces_join self.back self.s f.now }
    {
        let x_min = self.face_joined(Axis::X, Side::Min, f);
        let x_max = self.face_joined(Axis::X, Side::Max, f);
        let y_min = self.face_joined(Axis::Y, Side::Min, f);
        let y_max = self.face_joined(Axis::Y, Side::Max, f);
        x_min | x_max | y_min | y_max
    }

    // ---- streaming with faces

    // Streams post into f and applies the faces. Answers the raised patterns of what was streamed and of what came in, joined:
    // clear only where every entry of f is finite.
    #[tactic(auto, using(crate::proofs::Carried::carrying))]
    pub fn carry(self, post: &[u64], f: &mut [u64]) -> u64
        requires { Lent self.s.nx self.s.ny post.now f.old }
        ensures is { f.new ≡ carried self.back self.s post.now }
        ensures joined { result ≡ carried_join self.back self.s post.now }
    {
        let streamed = travel::stream(self.back, self.s.nx, self.s.ny, post, f);
        self.apply_boundaries(post, f);
        streamed | self.faces_joined(f)
    }
}

// Reads the post-collision buffer and makes f the next populations. A refused call leaves f as it was.
#[tactic(auto, using(crate::proofs::Carried::outcome), unfolding(settings::specs::Outcome::answer))]
pub fn stream_with_faces(s: Settings, post: &[u64], f: &mut [u64]) -> Result<(), Refusal>
    ensures { outcome (number_of result) f.new ≡ streamed_with_faces s post.now f.old }
{
    settings::check_stream_with_faces(s, post.len(), f.len())?;
    Way { s, back: false }.carry(post, f);
    Ok(())
}
