// A script played on a grid.
ghost use Rattle.std.specs.Prelude.{◌≡◌};
ghost use Rattle.std.specs.Option.{option_map};
ghost use Rattle.running.specs.Deeds.{deed};
ghost use Rattle.player.specs.Asked.{asked};

use crate::act_report::{Reporter, act_name};
use crate::fault::PlayFault;
use crate::visible::Visible;
use crate::watcher::{Done, Watcher};
use faults::faulty::Faulty;
use grid::grid::Grid;
use highlight::highlight::Highlighter;
use highlight::matching::MatchingBracketHighlighter;
use highlight::plain::PlainHighlighter;
use hint::script::ScriptHinter;
use page::outcome::Rejection;
use running::act::Act;
use running::run::{Observer, run};
use screen::cells::Cell;
use script::act::{ScriptAct, ScriptLine};
use script::error::{ScriptError, Wrong};
use script::reading::{Script, read_script};
use script::settings::{Highlighting, Settings};
use session::setup::Setup;
use session::tables::Tables;
use std::alloc::Global;
use terminal::pacer::Pacer;
use terminal::size::Size;
use terminal::terminal::Terminal;
use text::refusal::Refusal;
use widths::tables::{Eastern, Latin, Table, WidthTable};

// Tells a watcher of each act when it is done.
#[derive(Drop)]
struct Teller<'a, L> {
    watcher: &'a mut L,
    // the terminal's window
    size: Size,
    // how many bytes of the log have been told
    seen: usize,
    // how many acts behind create have been done
    done: usize,
    // why nothing more is told
    fault: Option<PlayFault>,
}

impl<L: Watcher> Teller<'_, L> {
    // Tells of an act whose bytes are the newest of the log.
    fn tell<S: Visible>(
        &mut self,
        terminal: &S,
        name: &'static str,
        outcome: Result<(), Rejection>,
        torn: bool,
    ) {
        if self.fault.is_some() {
            return;
        }
        let log = terminal.log();
        let seen = self.seen.min(log.len());
        self.seen = log.len();
        let done = Done {
            name,
            outcome,
            worked: &log[seen..],
            size: self.size,
            torn,
        };
        self.fault = self.watcher.told(terminal, done).err();
    }

    // The fault that ended the telling, if one did.
    fn check(&mut self) -> Result<(), PlayFault> {
        match self.fault.take() {
            Some(fault) => Err(fault),
            None => Ok(()),
        }
    }
}

impl<S: Visible, L: Watcher> Observer<S> for Teller<'_, L> {
    // what is told is free
    ghost told = { λ before terminal act outcome torn after. Unit {0} };

    fn created(&mut self, terminal: &S, outcome: Result<(), Rejection>, torn: bool) {
        self.tell(terminal, "create", outcome, torn);
    }

    fn acted(&mut self, terminal: &S, act: &Act<'_>, outcome: Result<(), Rejection>, torn: bool) {
        self.done = self.done.saturating_add(1);
        self.tell(terminal, act_name(act), outcome, torn);
    }
}

fn wrong(line: usize, wrong: Wrong) -> PlayFault {
    PlayFault::Script(ScriptError { line, wrong })
}

// The act that a session is asked for; none for create.
fn act_of(act: &ScriptAct) -> Option<Act<'_>>
    ensures { option_map deed result ≡ asked act.now }
{
    match act {
        ScriptAct::Create => None,
        ScriptAct::Insert(text, count) => Some(Act::Insert(text.as_slice(), *count)),
        ScriptAct::Set(line, pos) => Some(Act::Set(line.as_slice(), *pos)),
        ScriptAct::Go(pos) => Some(Act::Go(*pos)),
        ScriptAct::Refresh => Some(Act::Refresh),
        ScriptAct::Message(text) => Some(Act::Message(text.as_slice())),
        ScriptAct::Notice(text) => Some(Act::Notice(text.as_slice())),
        ScriptAct::Clear => Some(Act::Clear),
        ScriptAct::Finish => Some(Act::Finish),
    }
}

// The acts up to the next create, or up to the end.
fn acts_of(heap: Global, lines: &[ScriptLine]) -> Result<Vec<Act<'_>>, PlayFault> {
    let mut acts = Vec::new(heap);
    for line in lines {
        let Some(act) = act_of(&line.act) else {
            break;
        };
        acts.push(act)?;
    }
    Ok(acts)
}

// Refuses an act that comes when so many lines are done, and the session has ended.
fn none_left(lines: &[ScriptLine], done: usize) -> Result<(), PlayFault> {
    match lines.get(done) {
        Some(line) if act_of(&line.act).is_some() => Err(wrong(line.line, Wrong::NoSession)),
        _ => Ok(()),
    }
}

// Plays one session: create, and the acts up to the next. Answers whether the session is then open.
fn play_session<S: Terminal + Visible, H: Highlighter, L: Watcher>(
    teller: &mut Teller<'_, L>,
    heap: Global,
    terminal: &mut S,
    highlighter: &mut H,
    hinter: &ScriptHinter<'_>,
    tables: &mut Tables,
    setup: &Setup,
    lines: &[ScriptLine],
) -> Result<bool, PlayFault> {
    let acts = acts_of(heap, lines)?;
    teller.done = 0;
    let session = run(
        terminal,
        highlighter,
        hinter,
        tables,
        setup,
        acts.as_slice(),
        teller,
    );
    teller.check()?;
    if session.is_some() {
        return Ok(true);
    }
    none_left(lines, teller.done)?;
    Ok(false)
}

// What the check says of a script's settings.
fn check_settings<S: Terminal>(settings: &Settings) -> Result<Setup, Refusal> {
    Setup::check::<S::Widths>(
        settings.cols,
        settings.rows,
        settings.raw.as_slice(),
        settings.styled.as_slice(),
        settings.colours,
        settings.holds,
    )
}

// Checks one session and plays it. Answers whether it is then open.
fn play_checked<S: Terminal + Visible, H: Highlighter + Copy, L: Watcher>(
    teller: &mut Teller<'_, L>,
    heap: Global,
    terminal: &mut S,
    mut highlighter: H,
    tables: &mut Tables,
    settings: &Settings,
    lines: &[ScriptLine],
) -> Result<bool, PlayFault> {
    let hinter = ScriptHinter::new(settings.captions.as_slice());
    match check_settings::<S>(settings) {
        Ok(setup) => play_session(
            teller,
            heap,
            terminal,
            &mut highlighter,
            &hinter,
            tables,
            &setup,
            lines,
        ),
        Err(refusal) => {
            teller.tell(terminal, "create", Err(Rejection::Refused(refusal)), false);
            teller.check()?;
            none_left(lines, 0)?;
            Ok(false)
        }
    }
}

// Plays every session of a script on one terminal, each with the highlighter as given.
fn play_sessions<S: Terminal + Visible, H: Highlighter + Copy, L: Watcher>(
    watcher: &mut L,
    heap: Global,
    terminal: &mut S,
    highlighter: H,
    script: &Script,
) -> Result<(), PlayFault> {
    let lines = script.acts.as_slice();
    let mut tables = Tables::new();
    let mut teller = Teller {
        watcher,
        size: terminal.size(),
        seen: 0,
        done: 0,
        fault: None,
    };
    let mut open = false;
    none_left(lines, 0)?;
    for (index, line) in lines.iter().enumerate() {
        if act_of(&line.act).is_some() {
            continue;
        }
        if open {
            return Err(wrong(line.line, Wrong::Open));
        }
        open = play_checked(
            &mut teller,
            heap,
            terminal,
            highlighter,
            &mut tables,
            &script.settings,
            &lines[index + 1..],
        )?;
    }
    Ok(())
}

// Plays a script with the highlighter of its settings.
fn play_on<S: Terminal + Visible + Drop, L: Watcher>(
    watcher: &mut L,
    heap: Global,
    mut terminal: S,
    script: &Script,
) -> Result<(), PlayFault> {
    match script.settings.highlighting {
        Highlighting::Plain => {
            play_sessions(watcher, heap, &mut terminal, PlainHighlighter, script)
        }
        Highlighting::Brackets => {
            let brackets = MatchingBracketHighlighter::new();
            play_sessions(watcher, heap, &mut terminal, brackets, script)
        }
    }
}

// The sessions of a script whose size no terminal has: each is refused.
fn play_nowhere<L: Watcher>(watcher: &mut L, lines: &[ScriptLine]) -> Result<(), PlayFault> {
    for line in lines {
        match act_of(&line.act) {
            Some(_) => return Err(wrong(line.line, Wrong::NoSession)),
            None => watcher.told_nowhere(Refusal::Size)?,
        }
    }
    Ok(())
}

// A blank grid of the script's size, with its rows of paper, at least those of the window, and its faults.
fn lowest_of<W: WidthTable + Copy>(
    heap: Global,
    widths: W,
    settings: &Settings,
    size: Size,
) -> Result<Faulty<Grid<W>>, PlayFault> {
    let rows = settings.paper.max(usize::from(size.rows()));
    let room = rows.saturating_mul(usize::from(size.cols()));
    let cells = vec![in heap; Cell::Blank; room]?;
    let grid = Grid::new(widths, cells, size).map_err(|_| PlayFault::Memory)?;
    let faults = Vec::from_slice(heap, settings.faults.as_slice())?;
    Ok(Faulty::new(grid, faults, Vec::new(heap)))
}

// Plays a script by a width table.
// More than three pacers do what three do, and three what one does: each passes on at most 32 bytes.
fn play_by<W: WidthTable + Copy, L: Watcher>(
    watcher: &mut L,
    heap: Global,
    widths: W,
    script: &Script,
) -> Result<(), PlayFault> {
    let settings = &script.settings;
    let Ok(size) = Size::new(settings.cols, settings.rows) else {
        return play_nowhere(watcher, script.acts.as_slice());
    };
    let lowest = lowest_of(heap, widths, settings, size)?;
    match settings.pace {
        0 => play_on(watcher, heap, lowest, script),
        1 => play_on(watcher, heap, Pacer::new(lowest), script),
        2 => play_on(watcher, heap, Pacer::new(Pacer::new(lowest)), script),
        _ => {
            let paced = Pacer::new(Pacer::new(Pacer::new(lowest)));
            play_on(watcher, heap, paced, script)
        }
    }
}

// Plays a script that was read, up to its end, to the first line that is wrong, or to a fault of the watcher.
pub fn play<L: Watcher>(watcher: &mut L, heap: Global, script: &Script) -> Result<(), PlayFault> {
    match script.settings.table {
        Table::Latin => play_by(watcher, heap, Latin, script),
        Table::Eastern => play_by(watcher, heap, Eastern, script),
    }
}

// Plays a script of acts and prints its report, and then says what is wrong in it, if anything is.
pub fn play_script(rt: &HostRuntime, bytes: &[u8]) -> Result<(), PlayFault> {
    let mut script = read_script(rt.alloc(), bytes).map_err(|_| PlayFault::Memory)?;
    let mut reporter = Reporter { rt: rt.clone()? };
    play(&mut reporter, rt.alloc(), &script)?;
    match script.error.take() {
        Some(error) => Err(PlayFault::Script(error)),
        None => Ok(()),
    }
}
