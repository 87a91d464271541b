// Sessions on terminals that the check did not mean, and runs. What is expected follows from the rules (docs/SESSION.md).
use crate::stage::{by, grid};
use highlight::plain::PlainHighlighter;
use hint::hint::NoHinter;
use page::outcome::Rejection;
use running::act::Act;
use running::run::{Observer, run};
use session::session::Session;
use session::setup::Setup;
use session::tables::Tables;
use std::test::Fail;
use terminal::size::Size;
use text::refusal::Refusal;
use widths::tables::{Eastern, Latin};

// A session created on a terminal of another size refuses every act by 1, on any terminal, and nothing is written.
#[test]
fn created_elsewhere(rt: HostRuntime) -> Result<(), Fail> {
    let heap = rt.alloc();
    let setup = Setup::check::<Latin>(5, 24, b"> ", b"> ", false, false)?;
    let mut other = grid(heap, Latin, Size::new(6, 24)?)?;
    let mut right = grid(heap, Latin, Size::new(5, 24)?)?;
    let mut tables = Tables::new();
    let lit = &mut PlainHighlighter;
    let (mut session, created) = Session::create(&setup, &mut tables, &mut other, lit, &NoHinter);
    assert_eq!(rt; created, by(Refusal::Size));
    assert!(rt; !session.is_torn());
    let refreshed = session.refresh(&mut tables, &mut other, lit, &NoHinter);
    assert_eq!(rt; refreshed, by(Refusal::Size));
    let cleared = session.clear(&mut tables, &mut right, lit, &NoHinter);
    assert_eq!(rt; cleared, by(Refusal::Size));
    let gone = session.go(&mut tables, &mut right, lit, 0);
    assert_eq!(rt; gone, by(Refusal::Size));
    assert!(rt; other.log.is_empty() && right.log.is_empty());
    Ok(())
}

// A session refuses by 1 what comes on a terminal of another size, before its text is looked at, and goes on on its own.
#[test]
fn performed_elsewhere(rt: HostRuntime) -> Result<(), Fail> {
    let heap = rt.alloc();
    let setup = Setup::check::<Latin>(5, 24, b"> ", b"> ", false, false)?;
    let mut other = grid(heap, Latin, Size::new(5, 23)?)?;
    let mut right = grid(heap, Latin, Size::new(5, 24)?)?;
    let mut tables = Tables::new();
    let lit = &mut PlainHighlighter;
    let (mut session, created) = Session::create(&setup, &mut tables, &mut right, lit, &NoHinter);
    assert!(rt; created.is_ok());
    right.empty_log();
    let inserted = session.insert(&mut tables, &mut other, lit, &NoHinter, b"\t", 1);
    assert_eq!(rt; inserted, by(Refusal::Size));
    let finished = session.finish(&mut tables, &mut other, lit);
    let Err((mut session, rejection)) = finished else {
        return Err(Fail::new("a finish on another terminal is accepted"));
    };
    assert_eq!(rt; rejection, Rejection::Refused(Refusal::Size));
    assert!(rt; other.log.is_empty() && right.log.is_empty());
    let inserted = session.insert(&mut tables, &mut right, lit, &NoHinter, b"a", 1);
    assert!(rt; inserted.is_ok());
    assert_eq!(rt; right.log.as_slice(), b"a".as_slice());
    Ok(())
}

// By the table of the check the prompt fits, by that of the terminal it fills the row: every act is refused by 6, or by a
// smaller number but 2 before it.
#[test]
fn other_widths(rt: HostRuntime) -> Result<(), Fail> {
    let prompt: &[u8] = b"\xe4\xb8\xad";
    let setup = Setup::check::<Latin>(2, 1, prompt, prompt, false, false)?;
    let mut terminal = grid(rt.alloc(), Eastern, Size::new(2, 1)?)?;
    let mut tables = Tables::new();
    let lit = &mut PlainHighlighter;
    let (mut session, created) = Session::create(
        &setup,
        &mut tables,
        &mut terminal,
        lit,
        &NoHinter,
    );
    assert_eq!(rt; created, by(Refusal::Tall));
    assert!(rt; !session.is_torn());
    let refreshed = session.refresh(&mut tables, &mut terminal, lit, &NoHinter);
    assert_eq!(rt; refreshed, by(Refusal::Tall));
    let set = session.set(&mut tables, &mut terminal, lit, &NoHinter, b"\t", 0);
    assert_eq!(rt; set, by(Refusal::Text));
    let gone = session.go(&mut tables, &mut terminal, lit, 1);
    assert_eq!(rt; gone, by(Refusal::Place));
    let cleared = session.clear(&mut tables, &mut terminal, lit, &NoHinter);
    assert_eq!(rt; cleared, by(Refusal::Tall));
    let finished = session.finish(&mut tables, &mut terminal, lit);
    assert!(rt; finished.is_err_and(|left| left.1 == Rejection::Refused(Refusal::Tall)));
    assert!(rt; terminal.log.is_empty());
    Ok(())
}

// Counts what it is told: acts accepted, refused by 5, and others, and creates.
#[derive(Drop)]
struct Count {
    creates: u8,
    accepted: u8,
    places: u8,
    others: u8,
}

impl<T> Observer<T> for Count {
    ghost told = { λ _ _ _ _ _ _. Unit {0} };

    fn created(&mut self, _terminal: &T, _outcome: Result<(), Rejection>, _torn: bool) {
        self.creates = self.creates.saturating_add(1);
    }

    fn acted(
        &mut self,
        _terminal: &T,
        _act: &Act<'_>,
        outcome: Result<(), Rejection>,
        _torn: bool,
    ) {
        let kind = match outcome {
            Ok(()) => &mut self.accepted,
            Err(Rejection::Refused(Refusal::Place)) => &mut self.places,
            Err(_) => &mut self.others,
        };
        *kind = kind.saturating_add(1);
    }
}

// A run tells of its create and of each act, and ends with an accepted finish: the act behind it is not performed.
#[test]
fn runs(rt: HostRuntime) -> Result<(), Fail> {
    let setup = Setup::check::<Latin>(5, 24, b"> ", b"> ", false, false)?;
    let mut terminal = grid(rt.alloc(), Latin, Size::new(5, 24)?)?;
    let acts = [
        Act::Set(b"ab", 3),
        Act::Set(b"ab", 2),
        Act::Go(0),
        Act::Finish,
        Act::Refresh,
    ];
    let mut count = Count {
        creates: 0,
        accepted: 0,
        places: 0,
        others: 0,
    };
    let left = run(
        &mut terminal,
        &mut PlainHighlighter,
        &NoHinter,
        &mut Tables::new(),
        &setup,
        &acts,
        &mut count,
    );
    assert!(rt; left.is_none());
    assert_eq!(rt;
        (count.creates, count.accepted, count.places, count.others),
        (1, 3, 1, 0)
    );
    let written = b"\r\x1b[K> \r\x1b[2C\r\x1b[K> ab\r\x1b[4C\x1b[2D\x1b[2C\n";
    assert_eq!(rt; terminal.log.as_slice(), written.as_slice());
    Ok(())
}
