// What is printed of each caption.
ghost use Rattle.std.specs.Prelude.{◌≡◌, ◌+◌, ◌<◌, ◌^◌, max};

use crate::fault::Fault;
use crate::options::Options;
use grid::grid::Grid;
use preview::preview::{Preview, draw_caption};
use screen::cells::Cell;
use std::fmt;
use terminal::size::Size;
use text::lines::Lines;
use widths::tables::WidthTable;

// A row as it stands on the screen.
#[derive(Drop)]
struct Row<'a, T> {
    grid: &'a Grid<T>,
    row: usize,
    cols: usize,
}

impl<T> fmt::Display for Row<'_, T> {
    fn fmt<W: fmt::Write>(&self, f: &mut fmt::Formatter<W>) -> fmt::Result {
        for col in 0..self.cols {
            match self.grid.cell(self.row, col) {
                Cell::Blank => f.write_char(' ')?,
                Cell::Glyph(c, None) => f.write_char(c)?,
                Cell::Glyph(c, Some(mark)) => {
                    f.write_char(c)?;
                    f.write_char(mark)?;
                }
                Cell::RightHalf => {}
            }
        }
        Ok(())
    }
}

// Where a caption ends, and the bracket that lights, if it is asked for.
// The flag is the user's: it says nothing of the value beside it.
#[derive(Clone, Copy)]
struct Ending {
    told: Preview,
    brackets: bool,
}

impl fmt::Display for Ending {
    fn fmt<W: fmt::Write>(&self, f: &mut fmt::Formatter<W>) -> fmt::Result {
        let row = self.told.end.row;
        let col = self.told.end.col;
        let rows = u32::from(row) + 1;
        let unit = if rows == 1 { "row" } else { "rows" };
        write!(f, "{rows} {unit}, ends in row {row}, column {col}")?;
        match self.told.bracket {
            Some(bracket) if self.brackets => {
                let sign = char::from(bracket.byte);
                let at = bracket.at;
                write!(f, "; lights {sign} at byte {at}")
            }
            None if self.brackets => f.write_str("; lights nothing"),
            _ => Ok(()),
        }
    }
}

// How many captions stand, how many are refused, and the height of the highest; of how many rows, the report adds.
#[derive(Clone, Copy)]
struct Tally {
    stand: u64,
    refused: u64,
    highest: u16,
}

impl Tally {
    // What is told when one more stands, and ends in a row.
    fn with_end(self, row: u16) -> Tally
        ensures stand { self.stand + 1 < 2 ^ 64 → result.stand ≡ self.stand + 1 }
        ensures refused { result.refused ≡ self.refused }
        ensures highest { row + 1 < 2 ^ 16 → result.highest ≡ max self.highest (row + 1) }
    {
        Tally {
            stand: self.stand.saturating_add(1),
            refused: self.refused,
            highest: self.highest.max(row.saturating_add(1)),
        }
    }

    // What is told when one more is refused.
    fn with_refusal(self) -> Tally
        ensures stand { result.stand ≡ self.stand }
        ensures refused { self.refused + 1 < 2 ^ 64 → result.refused ≡ self.refused + 1 }
        ensures highest { result.highest ≡ self.highest }
    {
        Tally {
            stand: self.stand,
            refused: self.refused.saturating_add(1),
            highest: self.highest,
        }
    }
}

impl fmt::Display for Tally {
    fn fmt<W: fmt::Write>(&self, f: &mut fmt::Formatter<W>) -> fmt::Result {
        let all = self.stand.saturating_add(self.refused);
        let stand = self.stand;
        let refused = self.refused;
        let highest = self.highest;
        let captions = if all == 1 { "caption" } else { "captions" };
        write!(
            f,
            "{all} {captions}: {stand} stand, {refused} refused; the highest takes {highest}"
        )
    }
}

// A report that is being printed.
#[derive(Drop)]
struct Report<'a, T> {
    rt: &'a HostRuntime,
    widths: T,
    size: Size,
    options: &'a Options,
    tally: Tally,
}

impl<T: WidthTable + Copy> Report<'_, T> {
    // Prints the rows of a caption, up to the last.
    fn print_rows(&self, grid: &Grid<T>, last: u16) -> Result<(), Fault> {
        let cols = usize::from(self.size.cols());
        for row in 0..=usize::from(last) {
            let row = Row { grid, row, cols };
            println!(self.rt; "  |{row}|")?;
        }
        Ok(())
    }

    // Previews one caption on a blank grid in the given cells, and gives the cells back.
    fn preview_line(
        &mut self,
        number: u64,
        caption: &[u8],
        cells: Vec<Cell>,
    ) -> Result<Vec<Cell>, Fault> {
        let mut grid = Grid::new(self.widths, cells, self.size).map_err(|_| Fault::Memory)?;
        match draw_caption(&mut grid, self.options.prompt.as_bytes(), caption) {
            Ok(told) => {
                let brackets = self.options.brackets;
                let ending = Ending { told, brackets };
                println!(self.rt; "line {number}: {ending}")?;
                self.print_rows(&grid, told.end.row)?;
                self.tally = self.tally.with_end(told.end.row);
            }
            Err(rejection) => {
                println!(self.rt; "line {number}: refused {rejection}")?;
                self.tally = self.tally.with_refusal();
            }
        }
        Ok(grid.into_cells())
    }
}

// Previews every caption of a script.
pub(crate) fn preview_script<T: WidthTable + Copy>(
    rt: &HostRuntime,
    widths: T,
    size: Size,
    options: &Options,
    script: &[u8],
) -> Result<(), Fault> {
    let room = usize::from(size.cols()) * usize::from(size.rows());
    let mut cells = vec![in rt.alloc(); Cell::Blank; room]?;
    let tally = Tally {
        stand: 0,
        refused: 0,
        highest: 0,
    };
    let mut report = Report {
        rt,
        widths,
        size,
        options,
        tally,
    };
    for (number, caption) in (1..).zip(Lines::new(script)) {
        cells = report.preview_line(number, caption, cells)?;
    }
    let tally = report.tally;
    let rows = size.rows();
    println!(rt; "{tally} of {rows} rows")?;
    Ok(())
}
