// A face as the work at its cells needs it.
ghost use Rattle.std.specs.Prelude.{◌≡◌, true, false};
ghost use Rattle.grid.specs.Grid.{Grid};
ghost use Rattle.settings.specs.Tests.{drives, face_of};
ghost use Rattle.streaming.specs.Turned as Turned;
ghost use Rattle.streaming.specs.Faces as Faces;
ghost use Rattle.streaming.specs.Source.{reflect};
ghost use Rattle.streaming.specs.Three.{each, indices};
ghost use Rattle.streaming.specs.Lines.{incoming_of, line_of};
ghost use Rattle.streaming.specs.Read.{names_in, stretch};

use crate::line::Line;
use crate::names::Names;
use crate::three::Three;
use crate::way::{Way, facing};
use lattice::{Axis, Direction, Side};
use settings::Face;

// Which face it is, its kind, which way the travel goes, its cells, its directions; the planes that come in, and those that they
// are reflected from.
#[derive(Clone, Copy)]
pub struct Edge {
    pub axis: Axis,
    pub side: Side,
    pub kind: Face,
    pub back: bool,
    pub line: Line,
    pub names: Names,
    pub into: Three<Direction>,
    pub from: Three<Direction>,
    pub ghost calm: { back ≡ true → drives kind ≡ false },
    pub ghost named: { names_in names ≡ Faces.names axis side },
    pub ghost into_is: { indices into ≡ each (Turned.facing back) (incoming_of (Faces.names axis side)) },
    pub ghost from_is: { indices from ≡ each (λ i. Turned.facing back (reflect axis kind i)) (incoming_of (Faces.names axis side)) },
}

// The direction that a kind turns i to: Symmetry mirrors it, and else it is turned around.
fn reflect(axis: Axis, kind: Face, i: Direction) -> Direction
    ensures { result.index ≡ reflect axis kind i.index }
{
    if kind.is_symmetry() {
        i.mirrored(axis)
    } else {
        i.opposite()
    }
}

// The planes that come in through a face.
pub fn incoming(axis: Axis, side: Side, back: bool) -> Three<Direction>
    ensures { indices result ≡ each (Turned.facing back) (incoming_of (Faces.names axis side)) }
{
    Names::of(axis, side).incoming.map(|i| facing(back, i))
}

impl Edge {
    ghost use Rattle.streaming.specs.Edges.{IsFace};

    #[tactic(auto, using(crate::proofs::Sides::undriven))]
    pub fn of(way: Way, axis: Axis, side: Side) -> Edge
        requires { Grid way.s.nx way.s.ny }
        ensures { IsFace way.s axis side way.back result }
    {
        let s = way.s;
        let back = way.back;
        let kind = s.face(axis, side);
        let names = Names::of(axis, side);
        Edge {
            axis,
            side,
            kind,
            back,
            line: Line::of(axis, side, s.nx, s.ny),
            names,
            into: incoming(axis, side, back),
            from: names.incoming.map(|i| facing(back, reflect(axis, kind, i))),
        }
    }
}
