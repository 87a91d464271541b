// Places of the line that the layout tells, so that they are not measured again.
ghost use Rattle.std.specs.Prelude.{◌≡◌, true};
ghost use Rattle.session.specs.Locating.{JudgesHeight, JudgesPut, JudgesTyped, JudgesWalked, Knows, placed_at, text_end};
ghost use Rattle.session.specs.Typing.{in_row};

use crate::session::Session;
use crate::standing::Standing;
use crate::tables::Tables;
use judging::judging::{Placed, judge_insert, judge_line};
use layout::block::Layout;
use layout::layout::Position;
use measuring::measuring::{LineEnds, walk_repeated, walk_text};
use terminal::terminal::Terminal;
use text::refusal::Refusal;

// Where a block's text ends, a full row not counting as the next.
fn text_end(layout: Layout, cols: u16) -> Position
    ensures { result ≡ text_end cols layout }
{
    let end = layout.end();
    if layout.full() {
        Position {
            col: cols,
            row: end.row.saturating_sub(1),
        }
    } else {
        end
    }
}

impl Session {
    // The layout on the screen, with the places where the line ends.
    fn placed(&self, cursor: Position, end: Position) -> Placed
        ensures { result ≡ placed_at cursor end self.now }
    {
        Placed {
            ends: LineEnds { cursor, end },
            layout: self.layout,
        }
    }

    // The line on the screen as it was laid out: none where the screen is not known, a note stands behind the line, or the
    // edit position is in the first column and not at the end.
    pub(crate) fn known_line<T: Terminal>(&self, tables: &Tables) -> Option<Placed>
        ensures { Knows T.Widths.WidthTable.columns self.now tables.now result }
    {
        if self.standing != Standing::Open || tables.note.get().is_some() {
            return None;
        }
        let line = &tables.line;
        let end = text_end(self.layout, self.size.cols());
        if line.pos() == line.line().len() {
            return Some(self.placed(end, end));
        }
        let cursor = self.layout.cursor();
        if cursor.col == 0 {
            return None;
        }
        Some(self.placed(cursor, end))
    }

    // The line as it is, judged by its height: measured where the layout does not tell its places.
    pub(crate) fn judge_height<T: Terminal>(&self, tables: &Tables) -> Result<Placed, Refusal>
        ensures { JudgesHeight T.Widths.WidthTable.columns self.now tables.now result }
    {
        match self.known_line::<T>(tables) {
            Some(placed) => Ok(placed),
            None => judge_line::<T::Widths>(self.window(), &tables.line),
        }
    }

    // A character of so many columns put once at the end of the line, where it stays in the cursor's row: the layout is as it
    // was, but for its end.
    pub(crate) fn judge_typed<T: Terminal>(
        &self,
        tables: &Tables,
        text: &[u8],
        count: u16,
        width: u16,
    ) -> Result<Placed, Refusal>
        requires { in_row self.now tables.now count width ≡ true }
        ensures { JudgesTyped T.Widths.WidthTable.columns self.now tables.now text.now count width result }
    {
        tables.line.check_insert(text, count)?;
        let start = self.layout.cursor();
        let place = Position {
            col: start.col + width,
            ..start
        };
        Ok(Placed {
            ends: LineEnds {
                cursor: place,
                end: place,
            },
            layout: self.layout.ending_at(place).unwrap(),
        })
    }

    // A character put so many times before the edit position.
    pub(crate) fn judge_walked<T: Terminal>(
        &self,
        tables: &Tables,
        text: &[u8],
        count: u16,
    ) -> Result<Placed, Refusal>
        ensures { JudgesWalked T.Widths.WidthTable.columns self.now tables.now text.now count result }
    {
        match self.known_line::<T>(tables) {
            Some(placed) => self.judge_put::<T>(tables, placed.ends.cursor, text, count),
            None => judge_insert::<T::Widths>(self.window(), &tables.line, text, count),
        }
    }

    // A character put so many times before the edit position, where the place of that is known.
    pub(crate) fn judge_put<T: Terminal>(
        &self,
        tables: &Tables,
        front: Position,
        text: &[u8],
        count: u16,
    ) -> Result<Placed, Refusal>
        ensures { JudgesPut T.Widths.WidthTable.columns self.now tables.now front text.now count result }
    {
        let line = &tables.line;
        let cols = self.size.cols();
        line.check_insert(text, count)?;
        let cursor = walk_repeated::<T::Widths>(front, text, count, cols).ok_or(Refusal::Tall)?;
        let end = walk_text::<T::Widths>(cursor, line.rest(), cols).ok_or(Refusal::Tall)?;
        let ends = LineEnds { cursor, end };
        let layout = self
            .window()
            .line_layout::<T::Widths>(ends)
            .ok_or(Refusal::Tall)?;
        Ok(Placed { ends, layout })
    }
}
