// What a grid can be asked.
ghost use Rattle.std.specs.Prelude.{◌≡◌};
ghost use Rattle.grid.specs.Meaning.{shown};

use crate::grid::Grid;

impl<W> Grid<W> {
    // How many rows of paper the cells hold.
    pub fn depth(&self) -> usize
        ensures { result ≡ self.now.depth }
    {
        self.depth
    }

    // The window's first row.
    pub fn top(&self) -> usize
        ensures { result ≡ (shown self.now).top }
    {
        self.top
    }

    // The cursor's row of the paper.
    pub fn row(&self) -> usize
        ensures { result ≡ (shown self.now).pen.row }
    {
        self.row
    }

    // The cursor's column, the number of columns in a full row.
    pub fn col(&self) -> u16
        ensures { result ≡ (shown self.now).pen.col }
    {
        self.col
    }

    // Whether an update is held.
    pub fn held(&self) -> bool
        ensures { result ≡ (shown self.now).held }
    {
        self.held
    }
}
