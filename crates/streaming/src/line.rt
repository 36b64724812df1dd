// The cells of a face.
ghost use Rattle.std.specs.Prelude.{◌≡◌, ℕ, ◌+◌, ◌*◌, ◌≤◌, ◌<◌};
ghost use Rattle.grid.specs.Grid.{Grid, most_cells};
ghost use Rattle.streaming.specs.Lines.{line_of, spot};

use lattice::{Axis, Side};

// Different cells of a grid of `cells`: cell k of the line is start + k·stride.
#[derive(Clone, Copy)]
pub struct Line {
    pub cells: usize,
    pub start: usize,
    pub stride: usize,
    pub count: usize,
    pub ghost few: { cells ≤ most_cells },
    pub ghost apart: { 1 ≤ stride },
    pub ghost inside: { (k : ℕ) → k < count → start + k * stride < cells },
}

impl Line {
    ghost use Rattle.streaming.specs.Read.{stretch};

    pub fn of(axis: Axis, side: Side, nx: usize, ny: usize) -> Line
        requires { Grid nx ny }
        ensures { (stretch result ≡ line_of axis side nx ny) × (result.cells ≡ nx * ny) }
    {
        let (start, stride, count) = match (axis, side) {
            (Axis::X, Side::Min) => (0, nx, ny),
            (Axis::X, Side::Max) => (nx - 1, nx, ny),
            (Axis::Y, Side::Min) => (0, 1, nx),
            (Axis::Y, Side::Max) => ((ny - 1) * nx, 1, nx),
        };
        Line {
            cells: nx * ny,
            start,
            stride,
            count,
        }
    }

    pub fn cell(self, k: usize) -> usize
        requires { k < self.count }
        ensures { (result ≡ spot (stretch self) k) × (result < self.cells) }
    {
        self.start + k * self.stride
    }
}
