// The screen as a report shows it.
ghost use Rattle.std.specs.Prelude.{◌≡◌, true};
ghost use Rattle.player.specs.Reports.{sign_of};
ghost use Rattle.player.specs.Rows.{BlankRow, LastRow};

use crate::fault::PlayFault;
use crate::visible::Visible;
use screen::cells::Cell;
use std::fmt;
use terminal::size::Size;

// The sign for a character: a middle dot for U+0020, which a blank is not to be taken for.
fn sign_of(c: char) -> char
    ensures { result ≡ sign_of c }
{
    if c == ' ' { '\u{b7}' } else { c }
}

// A row as it stands on the screen: a blank as a space, and the character U+0020 as a middle dot.
#[derive(Drop)]
struct Row<'a, S> {
    terminal: &'a S,
    row: usize,
    cols: usize,
}

impl<S: Visible> fmt::Display for Row<'_, S> {
    fn fmt<W: fmt::Write>(&self, f: &mut fmt::Formatter<W>) -> fmt::Result {
        for col in 0..self.cols {
            match self.terminal.cell(self.row, col) {
                Cell::Blank => f.write_char(' ')?,
                Cell::Glyph(c, mark) => {
                    f.write_char(sign_of(c))?;
                    if let Some(m) = mark {
                        f.write_char(m)?;
                    }
                }
                Cell::RightHalf => {}
            }
        }
        Ok(())
    }
}

// Whether every cell of a row is blank.
fn is_blank_row<S: Visible>(terminal: &S, row: usize, cols: usize) -> bool
    ensures { result ≡ true → BlankRow cols (S.Visible.seen terminal.now) row }
{
    for col in 0..cols {
        match terminal.cell(row, col) {
            Cell::Blank => {}
            Cell::Glyph(_, _) => return false,
            Cell::RightHalf => return false,
        }
    }
    true
}

// The last row that is not blank or holds the cursor; below the window all rows are blank.
fn last_row<S: Visible>(terminal: &S, rows: usize, cols: usize) -> usize
    ensures { LastRow rows cols (S.Visible.seen terminal.now) result }
{
    let end = terminal.top().saturating_add(rows);
    for row in (terminal.row()..end).rev() {
        if !is_blank_row(terminal, row, cols) {
            return row;
        }
    }
    terminal.row()
}

fn yes_or_no(fact: bool) -> &'static str {
    if fact { "yes" } else { "no" }
}

// The cursor, the window, the held mark, whether the session is torn, and the rows, each behind a character.
#[derive(Drop)]
pub struct Shown<'a, S> {
    pub terminal: &'a S,
    pub size: Size,
    pub torn: bool,
    pub before_row: char,
}

impl<S: Visible> fmt::Display for Shown<'_, S> {
    fn fmt<W: fmt::Write>(&self, f: &mut fmt::Formatter<W>) -> fmt::Result {
        let terminal = self.terminal;
        let row = terminal.row();
        let col = terminal.col();
        let top = terminal.top();
        let held = yes_or_no(terminal.held());
        let torn = yes_or_no(self.torn);
        write!(f, "cursor {row} {col} window {top} held {held} torn {torn}")?;
        let cols = usize::from(self.size.cols());
        let last = last_row(terminal, usize::from(self.size.rows()), cols);
        for row in 0..=last {
            let row = Row {
                terminal,
                row,
                cols,
            };
            f.write_char(self.before_row)?;
            write!(f, "|{row}|")?;
        }
        Ok(())
    }
}

// Prints the screen, each row in a line.
pub(crate) fn print_screen<S: Visible>(
    rt: &HostRuntime,
    terminal: &S,
    size: Size,
    torn: bool,
) -> Result<(), PlayFault> {
    let shown = Shown {
        terminal,
        size,
        torn,
        before_row: '\n',
    };
    println!(rt; "{shown}")?;
    Ok(())
}
