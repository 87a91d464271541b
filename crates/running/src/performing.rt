// Any act of a session.
ghost use Rattle.std.specs.Prelude.{◌≡◌};
ghost use Rattle.running.specs.Deeds.{deed};
ghost use Rattle.running.specs.Running.{Performed};
ghost use Rattle.session.specs.Acting.{state_of, world_of};

use crate::act::Act;
use highlight::highlight::Highlighter;
use hint::hint::Hinter;
use page::outcome::Rejection;
use session::session::Session;
use session::tables::Tables;
use terminal::terminal::Terminal;

// Performs an act after which the session lives on; none where the act is a finish, with nothing done.
pub(crate) fn perform<T: Terminal, H: Highlighter, N: Hinter>(
    session: &mut Session,
    tables: &mut Tables,
    terminal: &mut T,
    highlighter: &mut H,
    hinter: &N,
    act: &Act<'_>,
) -> Option<Result<(), Rejection>>
    ensures { Performed (world_of T.Terminal.screen T.Terminal.extent T.Terminal.answered T.Widths.WidthTable.columns H.Highlighter.lights H.Highlighter.lights_prompt H.Highlighter.lights_hint H.Highlighter.heeds (N.Hinter.hints hinter.now)) (state_of terminal.old highlighter.old session.old tables.old) (deed act.now) result (state_of terminal.new highlighter.new session.new tables.new) }
{
    Some(match act {
        Act::Insert(text, count) => {
            session.insert(tables, terminal, highlighter, hinter, text, *count)
        }
        Act::Set(line, pos) => session.set(tables, terminal, highlighter, hinter, line, *pos),
        Act::Go(pos) => session.go(tables, terminal, highlighter, *pos),
        Act::Refresh => session.refresh(tables, terminal, highlighter, hinter),
        Act::Message(text) => session.message(tables, terminal, highlighter, text),
        Act::Notice(text) => session.notice(tables, terminal, highlighter, text),
        Act::Clear => session.clear(tables, terminal, highlighter, hinter),
        Act::Finish => return None,
    })
}
