// Characters put on a grid, by the character rules.
ghost use Rattle.std.specs.Prelude.{◌≡◌, ◌+◌, ◌<◌, ◌≤◌, OnOk, nat_lt};
ghost use Rattle.screen.specs.Screen.{combine, control, follow, newline, put, room, takes};
ghost use Rattle.grid.specs.Meaning.{area};
ghost use Rattle.grid.specs.Steps.{Does, penned, shifted, Tries};

use crate::full::Full;
use crate::grid::Grid;
use crate::row::{Spacing, mark, place};
use screen::cells::Parser;
use text::decode::is_control;
use widths::tables::WidthTable;

impl<W: WidthTable> Grid<W> {
    // Goes to column 0 of the next row.
    fn next_row(&mut self) -> Result<(), Full>
        ensures { Tries (λ s. shifted (area W.WidthTable.columns self.old) (newline s.pen) s) self.old self.new result }
    {
        let end = self.top + usize::from(self.size.rows());
        if self.row + 1 == end {
            if end == self.depth {
                return Err(Full);
            }
            self.top += 1;
        }
        self.row += 1;
        self.col = 0;
        self.join = None;
        Ok(())
    }

    // Goes to the next row where a character does not fit this one.
    fn make_room(&mut self, spacing: Spacing) -> Result<(), Full>
        ensures tries { Tries (λ s. shifted (area W.WidthTable.columns self.old) (room (nat_lt self.old.size.cols (s.pen.col + spacing.width)) s.pen) s) self.old self.new result }
        ensures fits { OnOk result (self.new.col + spacing.width ≤ self.new.size.cols) }
    {
        if self.col + u16::from(spacing.width) > self.size.cols() {
            self.next_row()?;
        }
        Ok(())
    }

    // Puts a character at the cursor.
    fn take_cells(&mut self, spacing: Spacing)
        requires { self.old.col + spacing.width ≤ self.old.size.cols }
        ensures { Does (λ s. penned (takes spacing.width spacing.c s.pen) s) self.old self.new }
    {
        let here = self.here();
        place(&mut self.cells[here], usize::from(self.col), spacing);
        self.join = Some(self.col);
        self.col += u16::from(spacing.width);
    }

    // A zero-width character: it is put on the cell last taken.
    fn combine(&mut self, c: char)
        ensures { Does (λ s. follow (area W.WidthTable.columns self.old) (combine s.pen.join c s.pen) s) self.old self.new }
    {
        self.parser = Parser::Ground;
        if let Some(col) = self.join {
            let here = self.here();
            mark(&mut self.cells[here], usize::from(col), c);
        }
    }

    // A character of one or two columns.
    fn take(&mut self, spacing: Spacing) -> Result<(), Full>
        ensures { Tries (λ s. follow (area W.WidthTable.columns self.old) (takes spacing.width spacing.c (room (nat_lt self.old.size.cols (s.pen.col + spacing.width)) s.pen)) s) self.old self.new result }
    {
        self.make_room(spacing)?;
        self.take_cells(spacing);
        self.parser = Parser::Ground;
        Ok(())
    }

    // What a control does.
    fn control(&mut self, c: char) -> Result<(), Full>
        ensures { Tries (λ s. follow (area W.WidthTable.columns self.old) (control c s.pen) s) self.old self.new result }
    {
        match c {
            '\n' => {
                self.next_row()?;
                self.parser = Parser::Ground;
            }
            '\r' => {
                self.col = 0;
                self.join = None;
                self.parser = Parser::Ground;
            }
            _ => self.drop_unfinished(),
        }
        Ok(())
    }

    // A whole character.
    #[tactic(auto, unfolding(screen::specs::Screen::put_pen))]
    pub(crate) fn put(&mut self, c: char) -> Result<(), Full>
        ensures { Tries (put (area W.WidthTable.columns self.old) c) self.old self.new result }
    {
        if is_control(c) {
            return self.control(c);
        }
        let width = W::width(c);
        if width == 0 {
            self.combine(c);
            return Ok(());
        }
        self.take(Spacing { c, width })
    }
}
