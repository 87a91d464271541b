// Insert: a character typed, written by itself where that is enough.
ghost use Rattle.std.specs.Prelude.{◌≡◌, not, ◌&&◌, ◌||◌, is_some};
ghost use Rattle.lines.specs.Notes.{note_of};
ghost use Rattle.page.specs.Acts.{insert as inserting};
ghost use Rattle.session.specs.Acting.{Acted, state_of, world_of};
ghost use Rattle.session.specs.Typing.{ColumnsOf, Typed, in_row};

use crate::session::Session;
use crate::session::refreshing::outcome_of;
use crate::tables::Tables;
use highlight::highlight::Highlighter;
use hint::hint::Hinter;
use layout::block::Layout;
use page::outcome::{BrokenAct, Rejection};
use render::writing::write_and_flush;
use terminal::terminal::Terminal;
use text::decode::char_at;
use widths::tables::WidthTable;

// The columns that a character takes; 0 for other bytes.
fn columns_of<W: WidthTable>(text: &[u8]) -> u16
    ensures { ColumnsOf W.WidthTable.columns text.now result }
{
    match char_at(text, 0) {
        Some(found) => u16::from(W::width(found.code)),
        None => 0,
    }
}

impl Session {
    // Whether a character of so many columns, put in so many times, stays in the cursor's row at the end of the line,
    // with no note there.
    fn stays_in_row(&self, tables: &Tables, count: u16, width: u16) -> bool
        ensures { result ≡ in_row self.now tables.now count width }
    {
        let line = &tables.line;
        line.pos() == line.line().len()
            && count == 1
            && 0 < width
            && u32::from(self.layout.cursor().col) + u32::from(width) < u32::from(self.size.cols())
            && tables.note.get().is_none()
    }

    // Whether what stays in the row is written by itself: no note has come, and nothing is lit or was.
    fn writes_directly(&self, tables: &Tables, in_row: bool, was_lit: bool) -> bool
        ensures { result ≡ (in_row && (not (is_some (note_of tables.now.note)) && not (self.now.lit || was_lit))) }
    {
        in_row && tables.note.get().is_none() && !(self.lit || was_lit)
    }

    // Writes a text by itself, and has another layout from then on; a broken write tears it.
    fn type_text<T: Terminal>(
        &mut self,
        terminal: &mut T,
        text: &[u8],
        layout: Layout,
    ) -> Result<(), BrokenAct>
        ensures { Typed T.Terminal.answered text.now layout self.old terminal.old result self.new terminal.new }
    {
        let written = write_and_flush(terminal, text);
        self.settle(layout, written);
        written
    }

    // Puts a character so many times before the edit position.
    pub fn insert<T: Terminal, H: Highlighter, N: Hinter>(
        &mut self,
        tables: &mut Tables,
        terminal: &mut T,
        highlighter: &mut H,
        hinter: &N,
        text: &[u8],
        count: u16,
    ) -> Result<(), Rejection>
        ensures { Acted (world_of T.Terminal.screen T.Terminal.extent T.Terminal.answered T.Widths.WidthTable.columns H.Highlighter.lights H.Highlighter.lights_prompt H.Highlighter.lights_hint H.Highlighter.heeds (N.Hinter.hints hinter.now)) (state_of terminal.old highlighter.old self.old tables.old) (inserting text.now count) result (state_of terminal.new highlighter.new self.new tables.new) }
    {
        let width = columns_of::<T::Widths>(text);
        let in_row = self.stays_in_row(tables, count, width);
        let typed = in_row.then_some(width);
        let placed = self.judge_insert(tables, terminal, text, count, typed)?;
        let was_lit = self.lit;
        tables.line.insert(text, count)?;
        let layout = self.prepare::<T, H, N>(tables, highlighter, hinter, placed);
        if self.writes_directly(tables, in_row, was_lit) {
            outcome_of(self.type_text(terminal, text, layout))
        } else {
            outcome_of(self.paint(tables, terminal, highlighter, layout))
        }
    }
}
