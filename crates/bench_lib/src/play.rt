// Acts played into memory.
use crate::deed::Deed;
use highlight::highlight::Highlighter;
use highlight::matching::MatchingBracketHighlighter;
use highlight::plain::PlainHighlighter;
use hint::hint::NoHinter;
use page::outcome::Rejection;
use running::act::Act;
use running::run::{Observer, run};
use session::setup::Setup;
use session::tables::Tables;
use std::alloc::Global;
use terminal::record::Record;
use terminal::size::Size;
use widths::tables::Latin;

// Counts the acts that are accepted.
#[derive(Drop)]
struct Counter {
    accepted: usize,
}

impl Counter {
    fn count(&mut self, outcome: Result<(), Rejection>) {
        if outcome.is_ok() {
            self.accepted = self.accepted.saturating_add(1);
        }
    }
}

impl<T> Observer<T> for Counter {
    ghost told = { λ _ _ _ _ _ _. Unit {0} };

    fn created(&mut self, _terminal: &T, outcome: Result<(), Rejection>, _torn: bool) {
        self.count(outcome);
    }

    fn acted(
        &mut self,
        _terminal: &T,
        _act: &Act<'_>,
        outcome: Result<(), Rejection>,
        _torn: bool,
    ) {
        self.count(outcome);
    }
}

// How many acts were accepted, create included, and how many bytes were written.
#[repr(C)]
#[derive(Clone, Copy)]
pub struct Played {
    pub accepted: usize,
    pub written: usize,
}

// The acts that are named by numbers.
fn acts_of<'a>(heap: Global, deeds: &[Deed], texts: &'a [u8]) -> Option<Vec<Act<'a>>> {
    let mut acts = Vec::new(heap);
    acts.reserve_exact(deeds.len()).ok()?;
    for deed in deeds {
        acts.push(deed.act(texts)).ok()?;
    }
    Some(acts)
}

// Plays acts on a terminal, with a highlighter.
fn play_lit<H: Highlighter + Drop>(
    terminal: &mut Record<Latin>,
    mut highlighter: H,
    setup: &Setup,
    acts: &[Act<'_>],
) -> usize {
    let mut tables = Tables::new();
    let mut counter = Counter { accepted: 0 };
    run(
        terminal,
        &mut highlighter,
        &NoHinter,
        &mut tables,
        setup,
        acts,
        &mut counter,
    );
    counter.accepted
}

// Plays acts on a terminal that keeps so many bytes, and copies those that `out` holds: no answer where memory fails.
fn play(
    heap: Global,
    size: Size,
    room: usize,
    colours: bool,
    deeds: &[Deed],
    texts: &[u8],
    out: &mut [u8],
) -> Option<Played> {
    let memory = Vec::from_elem(heap, 0u8, room).ok()?;
    let acts = acts_of(heap, deeds, texts)?;
    let setup = Setup::check::<Latin>(size.cols(), size.rows(), b"> ", b"> ", colours, false).ok()?;
    let mut terminal = Record::new(Latin, memory, size);
    let accepted = if colours {
        play_lit(
            &mut terminal,
            MatchingBracketHighlighter::new(),
            &setup,
            acts.as_slice(),
        )
    } else {
        play_lit(&mut terminal, PlainHighlighter, &setup, acts.as_slice())
    };
    let written = terminal.bytes().len();
    copy_front(terminal.bytes(), out);
    Some(Played { accepted, written })
}

// Copies bytes to the front of a memory, as many as it holds.
fn copy_front(bytes: &[u8], out: &mut [u8]) {
    let len = bytes.len().min(out.len());
    out[..len].copy_from_slice(&bytes[..len]);
}

// Plays acts on a terminal that keeps so many bytes, and copies those that `out` holds; nothing was accepted where the
// size is out of range or memory fails.
#[unsafe(no_mangle)]
pub extern "C" fn bench_lib_play(
    heap: Global,
    cols: u16,
    rows: u16,
    colours: bool,
    room: usize,
    deeds: &[Deed],
    texts: &[u8],
    out: &mut [u8],
) -> Played {
    let none = Played {
        accepted: 0,
        written: 0,
    };
    match Size::new(cols, rows) {
        Ok(size) => play(heap, size, room, colours, deeds, texts, out).unwrap_or(none),
        Err(_) => none,
    }
}
