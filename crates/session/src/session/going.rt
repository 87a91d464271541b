// The edit position moved.
ghost use Rattle.std.specs.Prelude.{ℕ, List, Option};
ghost use Rattle.page.specs.Acts.{go as going};
ghost use Rattle.session.specs.Acting.{Acted, state_of, world_of};
ghost use Rattle.session.specs.Going.{Bared, CursorAt, Follows, LaysBare, MovesCursor, Shifted};

use crate::session::Session;
use crate::session::refreshing::outcome_of;
use crate::tables::Tables;
use highlight::highlight::{CmdKind, Highlighter};
use judging::judging::judge_line;
use layout::block::Layout;
use layout::layout::Position;
use layout::measure::Walk;
use lines::line_buffer::LineBuffer;
use measuring::measuring::{Window, walk_text};
use page::outcome::{BrokenAct, Rejection};
use terminal::terminal::Terminal;
use widths::tables::WidthTable;

// Where the cursor belongs by the edit position, behind a prompt that ends at a place of the window.
fn cursor_place<W: WidthTable>(window: Window, line: &LineBuffer) -> Position
    ensures { CursorAt W.WidthTable.columns window.prompt window.size line.now result }
{
    let Some(end) = walk_text::<W>(window.prompt, line.front(), window.size.cols()) else {
        return window.prompt;
    };
    match Walk::start(end).place(window.size.cols()) {
        Some(place) => place,
        None => end,
    }
}

// The layout of a line without a note, behind a prompt that ends at a place of the window.
fn line_alone<W: WidthTable>(window: Window, line: &LineBuffer) -> Layout
    ensures { LaysBare W.WidthTable.columns window.prompt window.size line.now result }
{
    match judge_line::<W>(window, line) {
        Ok(placed) => placed.layout,
        Err(_) => Layout::origin(),
    }
}

// A layout with its cursor at another place, or as it is where the block does not hold that.
fn follow(layout: Layout, place: Position) -> Layout
    ensures { Follows layout place result }
{
    layout.with_cursor(place).unwrap_or(layout)
}

impl Session {
    // Drops the note and draws the line anew.
    fn draw_bare<T: Terminal, H: Highlighter>(
        &mut self,
        tables: &mut Tables,
        terminal: &mut T,
        highlighter: &H,
    ) -> Result<(), BrokenAct>
        ensures { Bared T.Terminal.answered T.Widths.WidthTable.columns (H.Highlighter.lights highlighter.now) (H.Highlighter.lights_prompt highlighter.now) (H.Highlighter.lights_hint highlighter.now) self.old tables.old terminal.old result self.new tables.new terminal.new }
    {
        tables.note.clear();
        let layout = line_alone::<T::Widths>(self.window(), &tables.line);
        self.paint(tables, terminal, highlighter, layout)
    }

    // Moves the cursor alone; a broken write tears the session.
    fn shift_cursor<T: Terminal>(
        &mut self,
        tables: &mut Tables,
        terminal: &mut T,
        place: Position,
    ) -> Result<(), BrokenAct>
        ensures { Shifted T.Terminal.answered place self.old tables.old terminal.old result self.new tables.new terminal.new }
    {
        let old = self.layout;
        let layout = follow(old, place);
        let moved = tables.renderer.move_cursor(terminal, old.cursor(), place);
        self.settle(layout, moved);
        moved
    }

    // Brings the cursor to another place: with the line drawn anew where the highlighter wants that, else alone.
    fn move_cursor<T: Terminal, H: Highlighter>(
        &mut self,
        tables: &mut Tables,
        terminal: &mut T,
        highlighter: &mut H,
        place: Position,
    ) -> Result<(), BrokenAct>
        ensures { (hints : List ℕ → ℕ → Option (List ℕ)) → MovesCursor (world_of T.Terminal.screen T.Terminal.extent T.Terminal.answered T.Widths.WidthTable.columns H.Highlighter.lights H.Highlighter.lights_prompt H.Highlighter.lights_hint H.Highlighter.heeds hints) place (state_of terminal.old highlighter.old self.old tables.old) result (state_of terminal.new highlighter.new self.new tables.new) }
    {
        if self.highlight_char(highlighter, &tables.line, CmdKind::MoveCursor) {
            self.draw_bare(tables, terminal, highlighter)
        } else {
            self.shift_cursor(tables, terminal, place)
        }
    }

    // Takes another edit position.
    pub fn go<T: Terminal, H: Highlighter>(
        &mut self,
        tables: &mut Tables,
        terminal: &mut T,
        highlighter: &mut H,
        pos: usize,
    ) -> Result<(), Rejection>
        ensures { (hints : List ℕ → ℕ → Option (List ℕ)) → Acted (world_of T.Terminal.screen T.Terminal.extent T.Terminal.answered T.Widths.WidthTable.columns H.Highlighter.lights H.Highlighter.lights_prompt H.Highlighter.lights_hint H.Highlighter.heeds hints) (state_of terminal.old highlighter.old self.old tables.old) (going pos) result (state_of terminal.new highlighter.new self.new tables.new) }
    {
        self.judge_go(tables, terminal, pos)?;
        tables.line.set_pos(pos)?;
        let place = cursor_place::<T::Widths>(self.window(), &tables.line);
        if place == self.layout.cursor() {
            return Ok(());
        }
        outcome_of(self.move_cursor(tables, terminal, highlighter, place))
    }
}
