// A create: a session of a setup, and its empty line drawn.
ghost use Rattle.session.specs.Acting.{state_of, world_of};
ghost use Rattle.session.specs.Buffering.{buffer_of};
ghost use Rattle.session.specs.Creating.{Created, Fresh, Starts};

use crate::session::Session;
use crate::session::refreshing::outcome_of;
use crate::setup::{Setup, prompt_end};
use crate::standing::Standing;
use crate::tables::Tables;
use highlight::highlight::Highlighter;
use hint::hint::Hinter;
use judging::judging::judge_line;
use layout::block::Layout;
use page::outcome::Rejection;
use terminal::terminal::Terminal;
use text::refusal::Refusal;

impl Session {
    // Makes a session of a setup and draws its empty line; it is made where that is refused too.
    pub fn create<T: Terminal, H: Highlighter, N: Hinter>(
        setup: &Setup,
        tables: &mut Tables,
        terminal: &mut T,
        highlighter: &mut H,
        hinter: &N,
    ) -> (Session, Result<(), Rejection>)
        ensures { Created (world_of T.Terminal.screen T.Terminal.extent T.Terminal.answered T.Widths.WidthTable.columns H.Highlighter.lights H.Highlighter.lights_prompt H.Highlighter.lights_hint H.Highlighter.heeds (N.Hinter.hints hinter.now)) setup.now terminal.old highlighter.old (buffer_of tables.old) result.1 (state_of terminal.new highlighter.new result.0 tables.new) }
    {
        tables.begin(&setup.prompt);
        let mut session = Session::fresh(setup, terminal);
        let ended = session.start(tables, terminal, highlighter, hinter);
        (session, ended)
    }

    // A session with nothing drawn yet.
    fn fresh<T: Terminal>(setup: &Setup, terminal: &T) -> Session
        ensures { Fresh T.Widths.WidthTable.columns setup.now (T.Terminal.extent terminal.now) result }
    {
        Session {
            size: setup.size,
            begun: terminal.size(),
            colours: setup.colours,
            holds: setup.holds,
            standing: Standing::Torn,
            lit: false,
            prompt: prompt_end::<T::Widths>(&setup.prompt, setup.size),
            layout: Layout::origin(),
        }
    }

    // Draws the line of a fresh session, unless the terminal is not of the checked size or the prompt is too high.
    fn start<T: Terminal, H: Highlighter, N: Hinter>(
        &mut self,
        tables: &mut Tables,
        terminal: &mut T,
        highlighter: &mut H,
        hinter: &N,
    ) -> Result<(), Rejection>
        ensures { Starts (world_of T.Terminal.screen T.Terminal.extent T.Terminal.answered T.Widths.WidthTable.columns H.Highlighter.lights H.Highlighter.lights_prompt H.Highlighter.lights_hint H.Highlighter.heeds (N.Hinter.hints hinter.now)) (state_of terminal.old highlighter.old self.old tables.old) result (state_of terminal.new highlighter.new self.new tables.new) }
    {
        let same = self.begun == self.size;
        if !same {
            self.standing = Standing::Open;
            return Err(Rejection::Refused(Refusal::Size));
        }
        match judge_line::<T::Widths>(self.window(), &tables.line) {
            Ok(placed) => outcome_of(self.refresh_line(
                tables,
                terminal,
                highlighter,
                hinter,
                placed,
            )),
            Err(refusal) => {
                self.standing = Standing::Tall;
                Err(Rejection::Refused(refusal))
            }
        }
    }
}
