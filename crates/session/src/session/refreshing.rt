// Acts that draw the line anew with a hint: refresh, set and insert.
ghost use Rattle.std.specs.Prelude.{◌≡◌, ◌+◌, ◌*◌};
ghost use Rattle.page.specs.Acts.{refresh as refreshing, set as setting};
ghost use Rattle.session.specs.Acting.{Acted, outcome_of, state_of, world_of};
ghost use Rattle.session.specs.Refreshing.{Refreshed};

use crate::session::Session;
use crate::tables::Tables;
use highlight::highlight::Highlighter;
use hint::hint::Hinter;
use judging::judging::Placed;
use page::outcome::{BrokenAct, Rejection};
use terminal::terminal::Terminal;

// The end of an act that no rule refuses.
pub(crate) fn outcome_of(written: Result<(), BrokenAct>) -> Result<(), Rejection>
    ensures { result ≡ outcome_of written }
{
    Ok(written?)
}

impl Session {
    // Asks hinter and highlighter, and draws the line anew with the hint.
    pub(crate) fn refresh_line<T: Terminal, H: Highlighter, N: Hinter>(
        &mut self,
        tables: &mut Tables,
        terminal: &mut T,
        highlighter: &mut H,
        hinter: &N,
        placed: Placed,
    ) -> Result<(), BrokenAct>
        ensures { Refreshed (world_of T.Terminal.screen T.Terminal.extent T.Terminal.answered T.Widths.WidthTable.columns H.Highlighter.lights H.Highlighter.lights_prompt H.Highlighter.lights_hint H.Highlighter.heeds (N.Hinter.hints hinter.now)) placed (state_of terminal.old highlighter.old self.old tables.old) result (state_of terminal.new highlighter.new self.new tables.new) }
    {
        let layout = self.prepare::<T, H, N>(tables, highlighter, hinter, placed);
        self.paint(tables, terminal, highlighter, layout)
    }

    // Draws the line anew.
    pub fn refresh<T: Terminal, H: Highlighter, N: Hinter>(
        &mut self,
        tables: &mut Tables,
        terminal: &mut T,
        highlighter: &mut H,
        hinter: &N,
    ) -> Result<(), Rejection>
        ensures { Acted (world_of T.Terminal.screen T.Terminal.extent T.Terminal.answered T.Widths.WidthTable.columns H.Highlighter.lights H.Highlighter.lights_prompt H.Highlighter.lights_hint H.Highlighter.heeds (N.Hinter.hints hinter.now)) (state_of terminal.old highlighter.old self.old tables.old) refreshing result (state_of terminal.new highlighter.new self.new tables.new) }
    {
        let placed = self.judge_refresh(tables, terminal)?;
        outcome_of(self.refresh_line(tables, terminal, highlighter, hinter, placed))
    }

    // Takes another line and position.
    pub fn set<T: Terminal, H: Highlighter, N: Hinter>(
        &mut self,
        tables: &mut Tables,
        terminal: &mut T,
        highlighter: &mut H,
        hinter: &N,
        line: &[u8],
        pos: usize,
    ) -> Result<(), Rejection>
        ensures { Acted (world_of T.Terminal.screen T.Terminal.extent T.Terminal.answered T.Widths.WidthTable.columns H.Highlighter.lights H.Highlighter.lights_prompt H.Highlighter.lights_hint H.Highlighter.heeds (N.Hinter.hints hinter.now)) (state_of terminal.old highlighter.old self.old tables.old) (setting line.now pos) result (state_of terminal.new highlighter.new self.new tables.new) }
    {
        let placed = self.judge_set(tables, terminal, line, pos)?;
        tables.line.update(line, pos)?;
        outcome_of(self.refresh_line(tables, terminal, highlighter, hinter, placed))
    }
}
