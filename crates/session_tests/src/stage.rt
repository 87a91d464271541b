// The terminal of a test, and what is expected of its acts.
use faults::faulty::Faulty;
use grid::grid::Grid;
use page::outcome::Rejection;
use screen::cells::Cell;
use std::alloc::Global;
use std::test::Fail;
use terminal::size::Size;
use text::refusal::Refusal;
use widths::tables::WidthTable;

// The end of an act that a rule refuses.
pub(crate) fn by(refusal: Refusal) -> Result<(), Rejection> {
    Err(Rejection::Refused(refusal))
}

// So many rows of paper a grid has beside those of its window.
const MORE_ROWS: usize = 16;

// A blank grid without faults.
pub(crate) fn grid<W: WidthTable + Copy>(
    heap: Global,
    widths: W,
    size: Size,
) -> Result<Faulty<Grid<W>>, Fail> {
    let rows = usize::from(size.rows()) + MORE_ROWS;
    let cells = vec![in heap; Cell::Blank; rows * usize::from(size.cols())]?;
    let grid = Grid::new(widths, cells, size).map_err(|_| Fail::new("the cells are too few"))?;
    Ok(Faulty::new(grid, Vec::new(heap), Vec::new(heap)))
}
