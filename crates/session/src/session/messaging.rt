// A message below the line.
ghost use Rattle.std.specs.Prelude.{ℕ, List, Option};
ghost use Rattle.page.specs.Acts.{message as messaging};
ghost use Rattle.session.specs.Acting.{Acted, state_of, world_of};

use crate::session::Session;
use crate::session::refreshing::outcome_of;
use crate::tables::Tables;
use highlight::highlight::{CmdKind, Highlighter};
use page::outcome::Rejection;
use terminal::terminal::Terminal;

impl Session {
    // Draws the line anew with a message below it, and forgets the hint.
    pub fn message<T: Terminal, H: Highlighter>(
        &mut self,
        tables: &mut Tables,
        terminal: &mut T,
        highlighter: &mut H,
        text: &[u8],
    ) -> Result<(), Rejection>
        ensures { (hints : List ℕ → ℕ → Option (List ℕ)) → Acted (world_of T.Terminal.screen T.Terminal.extent T.Terminal.answered T.Widths.WidthTable.columns H.Highlighter.lights H.Highlighter.lights_prompt H.Highlighter.lights_hint H.Highlighter.heeds hints) (state_of terminal.old highlighter.old self.old tables.old) (messaging text.now) result (state_of terminal.new highlighter.new self.new tables.new) }
    {
        let layout = self.judge_message(tables, terminal, text)?;
        tables.note.set(text)?;
        tables.hint.clear();
        self.highlight_char(highlighter, &tables.line, CmdKind::Other);
        outcome_of(self.paint(tables, terminal, highlighter, layout))
    }
}
