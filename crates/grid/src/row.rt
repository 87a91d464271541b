// Changes of one row's cells.
ghost use Rattle.std.specs.Prelude.{◌≡◌, ◌+◌, ◌≤◌, length};
ghost use Rattle.screen.specs.Screen.{split, placed, mark_at, wipe_from};
ghost use Rattle.grid.specs.Meaning.{row_of};

use screen::cells::Cell;

// A character that takes one cell or two.
#[derive(Clone, Copy)]
pub(crate) struct Spacing {
    pub(crate) c: char,
    pub(crate) width: u8,
    ghost some: { 1 ≤ width },
    ghost narrow: { width ≤ 2 },
}

// The cell at a column, blank behind the row's cells.
fn at(cells: &[Cell], col: usize) -> Cell
    ensures { result ≡ row_of cells.now col }
{
    cells.get(col).copied().unwrap_or(Cell::Blank)
}

// Blanks a wide character that lies across the left edge of a column.
fn split(cells: &mut [Cell], col: usize)
    ensures { row_of cells.new ≡ split col (row_of cells.old) }
{
    if let Cell::RightHalf = at(cells, col) {
        cells[col] = Cell::Blank;
        if col > 0 {
            cells[col - 1] = Cell::Blank;
        }
    }
}

// Puts a character at a column.
pub(crate) fn place(cells: &mut [Cell], col: usize, spacing: Spacing)
    requires { col + spacing.width ≤ length cells.old }
    ensures { row_of cells.new ≡ placed spacing.width spacing.c col (row_of cells.old) }
{
    split(cells, col);
    split(cells, col + usize::from(spacing.width));
    cells[col] = Cell::Glyph(spacing.c, None);
    if spacing.width == 2 {
        cells[col + 1] = Cell::RightHalf;
    }
}

// Puts a zero-width character on the character at a column.
pub(crate) fn mark(cells: &mut [Cell], col: usize, mark: char)
    ensures { row_of cells.new ≡ mark_at mark col (row_of cells.old) }
{
    if let Cell::Glyph(c, _) = at(cells, col) {
        cells[col] = Cell::Glyph(c, Some(mark));
    }
}

// Blanks the cells from a column on, and a wide character that this cuts.
pub(crate) fn wipe(cells: &mut [Cell], col: usize)
    requires { col ≤ length cells.old }
    ensures { row_of cells.new ≡ wipe_from col (row_of cells.old) }
{
    split(cells, col);
    cells[col..].fill(Cell::Blank);
}
