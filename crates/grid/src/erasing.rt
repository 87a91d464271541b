// Erasing, and moves of the cursor.
ghost use Rattle.std.specs.Prelude.{◌≡◌, suc, ◌+◌, ◌-◌, ◌<◌, ◌≤◌};
ghost use Rattle.screen.specs.Screen.{rows_from};
ghost use Rattle.screen.specs.Bytes.{at, bottom, column, dropped, inked, move, wiped};
ghost use Rattle.grid.specs.Meaning.{shown, area};
ghost use Rattle.grid.specs.Steps.{Does, drawn};

use crate::grid::Grid;
use crate::row::wipe;
use screen::cells::{Cell, Parser};
use widths::tables::WidthTable;

impl<W> Grid<W> {
    // Blanks the rows from one on, up to another.
    fn clear_rows(&mut self, from: usize, to: usize)
        requires some { 1 ≤ from }
        requires forward { from ≤ to }
        requires within { to ≤ self.old.depth }
        ensures { Does (λ s. drawn (rows_from from (to - 1) s.pen.paper) s) self.old self.new }
    {
        let cols = usize::from(self.size.cols());
        self.cells[from * cols..to * cols].fill(Cell::Blank);
    }
}

impl<W: WidthTable> Grid<W> {
    // The cursor's column, a full row counting as its last.
    fn column(&self) -> u16
        ensures { result ≡ column (area W.WidthTable.columns self.now) (shown self.now) }
    {
        self.col.min(self.size.cols() - 1)
    }

    // Blanks the cursor's row from the cursor on.
    fn wipe(&mut self)
        ensures { Does (λ s. drawn (wiped (area W.WidthTable.columns self.old) s) s) self.old self.new }
    {
        let col = usize::from(self.column());
        let here = self.here();
        wipe(&mut self.cells[here], col);
    }

    // Blanks from the cursor to the row's end.
    pub(crate) fn erase_line(&mut self)
        ensures { Does (λ s. inked (wiped (area W.WidthTable.columns self.old) s) s) self.old self.new }
    {
        self.wipe();
        self.drop_unfinished();
    }

    // Blanks from the cursor to the window's end.
    pub(crate) fn erase_down(&mut self)
        ensures { Does (λ s. inked (rows_from (suc s.pen.row) (bottom (area W.WidthTable.columns self.old) s) (wiped (area W.WidthTable.columns self.old) s)) s) self.old self.new }
    {
        let from = self.row + 1;
        let to = self.top + usize::from(self.size.rows());
        self.wipe();
        self.clear_rows(from, to);
        self.drop_unfinished();
    }

    // Ends what is unfinished, and the joining.
    pub(crate) fn drop_unfinished(&mut self)
        ensures { Does dropped self.old self.new }
    {
        self.join = None;
        self.parser = Parser::Ground;
    }

    // Goes to a row of the window and a column.
    fn go(&mut self, row: usize, col: u16)
        requires above { self.old.top ≤ row }
        requires below { row < self.old.top + self.old.size.rows }
        requires left { col ≤ self.old.size.cols }
        ensures { Does (at row col) self.old self.new }
    {
        self.row = row;
        self.col = col;
        self.join = None;
        self.parser = Parser::Ground;
    }

    // Goes to the window's top left.
    pub(crate) fn home(&mut self)
        ensures { Does (λ s. at s.top 0 s) self.old self.new }
    {
        self.go(self.top, 0);
    }

    // Goes up, down, right or left by so many, by the final byte.
    pub(crate) fn move_by(&mut self, last: u8, count: u16)
        ensures { Does (move (area W.WidthTable.columns self.old) last count) self.old self.new }
    {
        let row = self.row;
        let col = self.column();
        let right = self.size.cols() - 1;
        let bottom = self.top + usize::from(self.size.rows()) - 1;
        match last {
            b'A' => self.go(row.saturating_sub(usize::from(count)).max(self.top), col),
            b'B' => self.go(row.saturating_add(usize::from(count)).min(bottom), col),
            b'C' => self.go(row, col.saturating_add(count).min(right)),
            b'D' => self.go(row, col.saturating_sub(count)),
            _ => self.drop_unfinished(),
        }
    }
}
