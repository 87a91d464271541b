// A grid made of given cells.
ghost use Rattle.std.specs.Prelude.{◌≡◌, ◌*◌, ◌/◌, ◌<◌, length, replicate, vec_len, MatchResult};
ghost use Rattle.grid.specs.Meaning.{Opened};

use crate::grid::Grid;
use screen::cells::{Cell, Parser};
use terminal::size::Size;

impl<W: Drop> Grid<W> {
    // A blank screen in given cells, of which those that make no whole row are cut off; where they hold fewer rows than the window, they are given back.
    pub fn new(widths: W, mut cells: Vec<Cell>, size: Size) -> Result<Grid<W>, Vec<Cell>>
        ensures { MatchResult result (Opened widths (vec_len cells) size) (λ back. (back ≡ cells) × (vec_len cells < size.rows * size.cols)) }
    {
        let cols = usize::from(size.cols());
        let depth = cells.len() / cols;
        if depth < usize::from(size.rows()) {
            return Err(cells);
        }
        cells.truncate(depth * cols);
        cells.fill(Cell::Blank);
        Ok(Grid {
            cells,
            depth,
            size,
            top: 0,
            row: 0,
            col: 0,
            join: None,
            held: false,
            parser: Parser::Ground,
            widths,
        })
    }

    // Gives the cells back.
    pub fn into_cells(self) -> Vec<Cell>
        ensures { result ≡ self.cells }
    {
        let Grid { cells, .. } = self;
        cells
    }
}
