// A grid of 5 columns and 3 rows, with 4 rows of paper and the Eastern table, and what it shows after some bytes.
use grid::grid::Grid;
use screen::cells::Cell;
use std::alloc::{AllocError, Global};
use std::process::Abort;
use std::test::Fail;
use terminal::size::Size;
use terminal::writing::write_all;
use widths::tables::Eastern;

// Blank cells.
pub(crate) fn cells(heap: Global, count: usize) -> Result<Vec<Cell>, AllocError> {
    vec![in heap; Cell::Blank; count]
}

// A window of 5 columns and 3 rows.
pub(crate) fn window() -> Result<Size, Fail> {
    Size::new(5, 3).map_err(|_| Fail::new("a size is refused"))
}

// A grid with so many cells.
pub(crate) fn grid(heap: Global, count: usize) -> Result<Grid<Eastern>, Fail> {
    Grid::new(Eastern, cells(heap, count)?, window()?).map_err(|_| Fail::new(
        "the cells are too few",
    ))
}

// A blank cell is a dot, the right half of a wide character is `>`, and a mark follows its character.
fn show_cell(text: &mut String, cell: Cell) -> Result<(), AllocError> {
    match cell {
        Cell::Blank => text.push('.'),
        Cell::RightHalf => text.push('>'),
        Cell::Glyph(c, None) => text.push(c),
        Cell::Glyph(c, Some(mark)) => {
            text.push(c)?;
            text.push(mark)
        }
    }
}

// The cursor's row and column and the window's top, `held` if an update is held, and then the rows of paper, each behind a `|`.
pub(crate) fn picture(heap: Global, grid: &Grid<Eastern>) -> Result<String, AllocError> {
    let row = grid.row();
    let col = grid.col();
    let top = grid.top();
    let held = if grid.held() { " held" } else { "" };
    let mut text = format!(in heap; "{row},{col},{top}{held} ")?;
    for i in 0..grid.depth() {
        text.push('|')?;
        for j in 0..5 {
            show_cell(&mut text, grid.cell(i, j))?;
        }
    }
    Ok(text)
}

// What the bytes draw on a blank screen.
pub(crate) fn after(heap: Global, bytes: &[u8]) -> Result<String, Fail> {
    let mut grid = grid(heap, 20)?;
    write_all(&mut grid, bytes).map_err(|_| Fail::new("a write broke"))?;
    Ok(picture(heap, &grid)?)
}

// Bytes, and the picture that they draw.
pub type Case = (&'static [u8], &'static str);

// Whether each case draws what it should.
pub(crate) fn all_draw(rt: &impl Abort, heap: Global, cases: &[Case]) -> Result<(), Fail> {
    for (bytes, shown) in cases {
        let seen = after(heap, bytes)?;
        assert_eq!(rt; seen.as_str(), *shown);
    }
    Ok(())
}
