// Runs: create, then acts one after the other.
ghost use Rattle.std.specs.Prelude.{◌≡◌, Bool, is_some};
ghost use Rattle.page.specs.Acts.{Act as Deed, create};
ghost use Rattle.page.specs.Rules.{Outcome};
ghost use Rattle.session.specs.Acting.{world_of};
ghost use Rattle.session.specs.Creating.{settled_by};
ghost use Rattle.running.specs.Deeds.{deed, deeds};
ghost use Rattle.running.specs.Observing.{Observed};
ghost use Rattle.running.specs.Running.{Kept};

use crate::act::Act;
use crate::performing::perform;
use highlight::highlight::Highlighter;
use hint::hint::Hinter;
use page::outcome::Rejection;
use session::session::Session;
use session::setup::Setup;
use session::tables::Tables;
use terminal::terminal::Terminal;

// Who is told after each act: the terminal as it is, the act, how it ended, and whether the session is torn.
pub trait Observer<T> {
    // what it then is
    ghost told: { Self → T → Deed → Outcome → Bool → Self → Type 0 };

    fn created(&mut self, terminal: &T, outcome: Result<(), Rejection>, torn: bool)
        ensures { told self.old terminal.now create outcome torn self.new };

    fn acted(&mut self, terminal: &T, act: &Act<'_>, outcome: Result<(), Rejection>, torn: bool)
        ensures { told self.old terminal.now (deed act.now) outcome torn self.new };
}

// Creates a session and performs acts, until they end or a finish is accepted; the session, if it lives on.
pub fn run<T: Terminal, H: Highlighter, N: Hinter, O: Observer<T>>(
    terminal: &mut T,
    highlighter: &mut H,
    hinter: &N,
    tables: &mut Tables,
    setup: &Setup,
    acts: &[Act<'_>],
    observer: &mut O,
) -> Option<Session>
    ensures ran { Observed O.Observer.told (world_of T.Terminal.screen T.Terminal.extent T.Terminal.answered T.Widths.WidthTable.columns H.Highlighter.lights H.Highlighter.lights_prompt H.Highlighter.lights_hint H.Highlighter.heeds (N.Hinter.hints hinter.now)) (settled_by setup.now (T.Terminal.extent terminal.old)) terminal.old highlighter.old (deeds acts.now) (is_some result) terminal.new highlighter.new observer.old observer.new result tables.new }
    ensures kept { Kept T.Widths.WidthTable.columns (settled_by setup.now (T.Terminal.extent terminal.old)) result tables.new }
{
    let (first, outcome) = Session::create(setup, tables, terminal, highlighter, hinter);
    observer.created(terminal, outcome, first.is_torn());
    let mut session = first;
    for act in acts {
        if let Some(outcome) = perform(&mut session, tables, terminal, highlighter, hinter, act) {
            observer.acted(terminal, act, outcome, session.is_torn());
            continue;
        }
        match session.finish(tables, terminal, highlighter) {
            Ok(()) => {
                observer.acted(terminal, act, Ok(()), false);
                return None;
            }
            Err((back, rejection)) => {
                observer.acted(terminal, act, Err(rejection), back.is_torn());
                session = back;
            }
        }
    }
    Some(session)
}
