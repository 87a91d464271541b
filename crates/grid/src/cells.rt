// The cells of a grid's rows.
ghost use Rattle.std.specs.Prelude.{◌≡◌, ◌*◌, ◌<◌, ◌+◌, ◌≤◌, vec_len};
ghost use Rattle.grid.specs.Meaning.{shown};

use crate::grid::Grid;
use screen::cells::Cell;
use std::ops::Range;

impl<W> Grid<W> {
    // The paper's cell in a row and a column, blank outside the cells.
    pub fn cell(&self, row: usize, col: usize) -> Cell
        ensures { result ≡ (shown self.now).pen.paper row col }
    {
        let cols = usize::from(self.size.cols());
        if row < self.depth && col < cols {
            self.cells[row * cols + col]
        } else {
            Cell::Blank
        }
    }

    // Where the cells of the cursor's row stand.
    pub(crate) fn here(&self) -> Range<usize>
        ensures start { result.start ≡ self.now.row * self.now.size.cols }
        ensures end { result.end ≡ self.now.row * self.now.size.cols + self.now.size.cols }
        ensures within { result.end ≤ vec_len self.now.cells }
    {
        let cols = usize::from(self.size.cols());
        let start = self.row * cols;
        start..start + cols
    }
}
