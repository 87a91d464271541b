// The end of a session.
ghost use Rattle.std.specs.Prelude.{ℕ, List, Option};
ghost use Rattle.session.specs.Acting.{state_of, world_of};
ghost use Rattle.session.specs.Finishing.{Finishes, Left};

use crate::session::Session;
use crate::standing::Standing;
use crate::tables::Tables;
use highlight::highlight::Highlighter;
use page::outcome::{BrokenAct, Rejection};
use render::writing::{write_and_flush, write_next};
use terminal::terminal::Terminal;

impl Session {
    // Brings the cursor to the block's end, if it is not there, and from there to the next row.
    fn leave_block<T: Terminal>(
        &self,
        tables: &mut Tables,
        terminal: &mut T,
    ) -> Result<(), BrokenAct>
        ensures { Left T.Terminal.answered self.now.layout tables.old terminal.old result tables.new terminal.new }
    {
        let cursor = self.layout.cursor();
        let end = self.layout.end();
        if cursor.row == end.row && cursor.col == end.col {
            return write_and_flush(terminal, b"\n");
        }
        tables.renderer.move_cursor(terminal, cursor, end)?;
        write_next(terminal, b"\n", 1)
    }

    // Leaves the block on the screen with the cursor below it, and uses the session up; not accepted, it is handed back.
    pub fn finish<T: Terminal, H: Highlighter>(
        self,
        tables: &mut Tables,
        terminal: &mut T,
        highlighter: &H,
    ) -> Result<(), (Session, Rejection)>
        ensures { (hints : List ℕ → ℕ → Option (List ℕ)) → Finishes (world_of T.Terminal.screen T.Terminal.extent T.Terminal.answered T.Widths.WidthTable.columns H.Highlighter.lights H.Highlighter.lights_prompt H.Highlighter.lights_hint H.Highlighter.heeds hints) (state_of terminal.old highlighter.now self tables.old) result terminal.new tables.new }
    {
        if let Err(refusal) = self.judge_finish(tables, terminal) {
            return Err((self, Rejection::Refused(refusal)));
        }
        let mut session = self;
        match session.leave_block(tables, terminal) {
            Ok(()) => Ok(()),
            Err(broken) => {
                session.standing = Standing::Torn;
                Err((session, Rejection::Broke(broken)))
            }
        }
    }
}
