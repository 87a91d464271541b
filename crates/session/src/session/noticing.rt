// Notices above the block.
ghost use Rattle.std.specs.Prelude.{ℕ, List, Option};
ghost use Rattle.lines.specs.Notes.{note_of};
ghost use Rattle.page.specs.Acts.{notice as noticing};
ghost use Rattle.session.specs.Acting.{Acted, state_of, world_of};
ghost use Rattle.session.specs.Noticing.{LaysNote, Noticed};

use crate::session::Session;
use crate::session::refreshing::outcome_of;
use crate::tables::Tables;
use highlight::highlight::Highlighter;
use judging::judging::Placed;
use layout::block::Layout;
use page::outcome::{BrokenAct, Rejection};
use render::block::Block;
use terminal::terminal::Terminal;

impl Session {
    // The layout of the line with the hint last answered.
    fn hinted_layout<T: Terminal>(&self, tables: &Tables, placed: Placed) -> Layout
        ensures { LaysNote T.Widths.WidthTable.columns self.now.prompt self.now.size placed (note_of tables.now.hint) result }
    {
        let Some(hint) = tables.hint.get() else {
            return placed.layout;
        };
        self.window()
            .compute_layout::<T::Widths>(placed.ends, Some(hint))
            .unwrap_or(Layout::origin())
    }

    // Writes a notice in the place of the block and draws that below it by another layout, with the hint last answered
    // for its note; a broken write tears the session, and leaves it no layout.
    fn print_notice<T: Terminal, H: Highlighter>(
        &mut self,
        tables: &mut Tables,
        terminal: &mut T,
        highlighter: &H,
        layout: Layout,
        text: &[u8],
    ) -> Result<(), BrokenAct>
        ensures { Noticed T.Terminal.answered (H.Highlighter.lights highlighter.now) (H.Highlighter.lights_prompt highlighter.now) (H.Highlighter.lights_hint highlighter.now) layout text.now self.old tables.old terminal.old result self.new tables.new terminal.new }
    {
        let hint = &tables.hint;
        let note = &mut tables.note;
        note.copy_from(hint);
        let block = Block {
            prompt: &tables.prompt,
            line: &tables.line,
            note: &tables.note,
            layout: &layout,
        };
        let renderer = &mut tables.renderer;
        let old = self.layout;
        self.layout = Layout::origin();
        let lit = self.colours.then_some(highlighter);
        let written = renderer.print_notice(terminal, text, &block, &old, lit, self.holds);
        self.settle(layout, written);
        written
    }

    // Prints a notice above the block.
    pub fn notice<T: Terminal, H: Highlighter>(
        &mut self,
        tables: &mut Tables,
        terminal: &mut T,
        highlighter: &H,
        text: &[u8],
    ) -> Result<(), Rejection>
        ensures { (hints : List ℕ → ℕ → Option (List ℕ)) → Acted (world_of T.Terminal.screen T.Terminal.extent T.Terminal.answered T.Widths.WidthTable.columns H.Highlighter.lights H.Highlighter.lights_prompt H.Highlighter.lights_hint H.Highlighter.heeds hints) (state_of terminal.old highlighter.now self.old tables.old) (noticing text.now) result (state_of terminal.new highlighter.now self.new tables.new) }
    {
        let placed = self.judge_notice(tables, terminal, text)?;
        let layout = self.hinted_layout::<T>(tables, placed);
        outcome_of(self.print_notice(tables, terminal, highlighter, layout, text))
    }
}
