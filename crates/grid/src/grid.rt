// The grid's memory: the paper's first rows, and the rest of the screen beside them.
ghost use Rattle.std.specs.Prelude.{◌≡◌, ◌+◌, ◌*◌, ◌<◌, ◌≤◌, true, vec_len};
ghost use Rattle.grid.specs.Bounds.{bounded, behind};

use screen::cells::{Cell, Parser};
use terminal::size::Size;

// A screen: the first `depth` rows of its paper stand in the cells, one after the other, and the rest of the paper is blank.
// One vector and its depth, not a vector of rows: the cells are lent as one memory, and go back so.
#[derive(Drop)]
pub struct Grid<W> {
    pub(crate) cells: Vec<Cell>,
    pub(crate) depth: usize,
    pub(crate) size: Size,
    pub(crate) top: usize,
    pub(crate) row: usize,
    pub(crate) col: u16,
    pub(crate) join: Option<u16>,
    pub(crate) held: bool,
    pub(crate) parser: Parser,
    pub(crate) widths: W,
    ghost holds: { depth * size.cols ≡ vec_len cells },
    ghost within: { top + size.rows ≤ depth },
    ghost above: { top ≤ row },
    ghost below: { row < top + size.rows },
    ghost left: { col ≤ size.cols },
    ghost joined: { behind join col ≡ true },
    ghost begun: { bounded parser ≡ true },
}
