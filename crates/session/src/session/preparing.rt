// What is asked and laid out before the line is drawn.
ghost use Rattle.session.specs.Acting.{world_of};
ghost use Rattle.session.specs.Preparing.{Prepared};

use crate::session::Session;
use crate::tables::Tables;
use highlight::highlight::{CmdKind, Highlighter};
use hint::hint::Hinter;
use judging::hints::fit_hint;
use judging::judging::Placed;
use layout::block::Layout;
use terminal::terminal::Terminal;

impl Session {
    // Asks hinter and highlighter for the line as it is, stores the hint as the note if the window holds it, and gives
    // the layout to draw by.
    pub(crate) fn prepare<T: Terminal, H: Highlighter, N: Hinter>(
        &mut self,
        tables: &mut Tables,
        highlighter: &mut H,
        hinter: &N,
        placed: Placed,
    ) -> Layout
        ensures { Prepared (world_of T.Terminal.screen T.Terminal.extent T.Terminal.answered T.Widths.WidthTable.columns H.Highlighter.lights H.Highlighter.lights_prompt H.Highlighter.lights_hint H.Highlighter.heeds (N.Hinter.hints hinter.now)) placed highlighter.old self.old tables.old result self.new tables.new highlighter.new }
    {
        let line = &tables.line;
        let hint = &mut tables.hint;
        hint.fill(hinter, line.line(), line.pos());
        let layout = fit_hint::<T::Widths>(self.window(), placed, hint);
        let hint = &tables.hint;
        let note = &mut tables.note;
        note.copy_from(hint);
        self.highlight_char(highlighter, &tables.line, CmdKind::Other);
        layout
    }
}
