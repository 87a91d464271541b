// What a report reads of a terminal: a grid, faults over it, and pacers over them.
ghost use Rattle.std.specs.Prelude.{◌≡◌};
ghost use Rattle.grid.specs.Meaning.{shown};
ghost use Rattle.screen.specs.Screen.{Screen};

use faults::faulty::Faulty;
use grid::grid::Grid;
use screen::cells::Cell;
use terminal::pacer::Pacer;

// A terminal whose screen and log can be read.
pub trait Visible {
    // the screen
    ghost seen: { Self → Screen };

    // The bytes that have worked.
    fn log(&self) -> &[u8];

    // The paper's cell in a row and a column.
    fn cell(&self, row: usize, col: usize) -> Cell
        ensures { result ≡ (seen self.now).pen.paper row col };

    // The cursor's row of the paper.
    fn row(&self) -> usize
        ensures { result ≡ (seen self.now).pen.row };

    // The cursor's column.
    fn col(&self) -> u16
        ensures { result ≡ (seen self.now).pen.col };

    // The window's first row.
    fn top(&self) -> usize
        ensures { result ≡ (seen self.now).top };

    // Whether an update is held.
    fn held(&self) -> bool
        ensures { result ≡ (seen self.now).held };
}

impl<W> Visible for Faulty<Grid<W>> {
    ghost seen = { λ f. shown f.below };

    fn log(&self) -> &[u8] {
        self.log.as_slice()
    }

    fn cell(&self, row: usize, col: usize) -> Cell {
        self.below.cell(row, col)
    }

    fn row(&self) -> usize {
        self.below.row()
    }

    fn col(&self) -> u16 {
        self.below.col()
    }

    fn top(&self) -> usize {
        self.below.top()
    }

    fn held(&self) -> bool {
        self.below.held()
    }
}

impl<T: Visible> Visible for Pacer<T> {
    ghost seen = { λ p. T.Visible.seen p.below };

    fn log(&self) -> &[u8] {
        self.below.log()
    }

    fn cell(&self, row: usize, col: usize) -> Cell {
        self.below.cell(row, col)
    }

    fn row(&self) -> usize {
        self.below.row()
    }

    fn col(&self) -> u16 {
        self.below.col()
    }

    fn top(&self) -> usize {
        self.below.top()
    }

    fn held(&self) -> bool {
        self.below.held()
    }
}
