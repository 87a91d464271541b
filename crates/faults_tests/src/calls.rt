// What a faulty terminal answers call by call. What is expected follows from the rules (docs/ACTS.md, "Settings").
use faults::fault::{Fault, answer_at, course_of};
use faults::faulty::Faulty;
use std::alloc::Global;
use std::ops::ControlFlow;
use terminal::pacer::Pacer;
use terminal::record::Record;
use terminal::size::Size;
use terminal::terminal::{Terminal, WriteAnswer, WriteError};
use widths::tables::Latin;

const DOWN: WriteAnswer = Err(WriteError::Down);

const INTERRUPTED: WriteAnswer = Err(WriteError::Interrupted);

// A record of 100 bytes with some faults.
fn faulty(heap: Global, faults: &[Fault]) -> Option<Faulty<Record<Latin>>> {
    let log = Record::new(Latin, vec![in heap; 0; 100].ok()?, Size::new(5, 3).ok()?);
    let faults = Vec::from_slice(heap, faults).ok()?;
    Some(Faulty::new(log, faults, Vec::new(heap)))
}

// Of two faults of one call the first counts; a call without one passes all on.
const FAULTS: [Fault; 6] = [
    Fault {
        call: 1,
        answer: DOWN,
    },
    Fault {
        call: 5,
        answer: Ok(99),
    },
    Fault {
        call: 2,
        answer: INTERRUPTED,
    },
    Fault {
        call: 3,
        answer: Ok(2),
    },
    Fault {
        call: 3,
        answer: DOWN,
    },
    Fault {
        call: 4,
        answer: Ok(0),
    },
];

// What is done with a terminal.
enum Step {
    // nothing yet
    Begin,
    // the bytes offered, and the answer
    Write(&'static [u8], WriteAnswer),
    EmptyLog,
}

// A step; how many calls have come, the log and the bytes below then.
type Taken = (Step, usize, &'static [u8], &'static [u8]);

const CALLS: [Taken; 11] = [
    (Step::Begin, 0, b"", b""),
    (Step::Write(b"abc", Ok(3)), 1, b"abc", b"abc"),
    (Step::Write(b"def", DOWN), 2, b"abc", b"abc"),
    (Step::Write(b"def", INTERRUPTED), 3, b"abc", b"abc"),
    (Step::Write(b"def", Ok(2)), 4, b"abcde", b"abcde"),
    (Step::Write(b"fgh", Ok(0)), 5, b"abcde", b"abcde"),
    (Step::Write(b"fgh", Ok(3)), 6, b"abcdefgh", b"abcdefgh"),
    (Step::Write(b"", Ok(0)), 7, b"abcdefgh", b"abcdefgh"),
    (Step::Write(b"i", Ok(1)), 8, b"abcdefghi", b"abcdefghi"),
    (Step::EmptyLog, 8, b"", b"abcdefghi"),
    (Step::Write(b"j", Ok(1)), 9, b"j", b"abcdefghij"),
];

const MANY: [u8; 98] = [b'a'; 98];

// The 100 bytes that the record has room for.
const ALL: &[u8] =
    b"aaaaaaaaaaaaaaaaaaaaaaaaaaaaaaaaaaaaaaaaaaaaaaaaaaaaaaaaaaaaaaaaaaaaaaaaaaaaaaaaaaaaaaaaaaaaaaaaaabc";

// The terminal below may take fewer bytes, or be down: the log has what it took.
const FULL_BELOW: [Taken; 4] = [
    (Step::Write(&MANY, Ok(98)), 1, &MANY, &MANY),
    (Step::EmptyLog, 1, b"", &MANY),
    (Step::Write(b"bcd", Ok(2)), 2, b"bc", ALL),
    (Step::Write(b"d", DOWN), 3, b"bc", ALL),
];

fn same(bytes: &[u8], expected: &[u8]) -> bool {
    bytes == expected
}

// Does one step, and tells whether all is as it should be.
fn holds(terminal: &mut Faulty<Record<Latin>>, taken: &Taken) -> bool {
    let (step, calls, log, below) = taken;
    let answered = match step {
        Step::Begin => true,
        Step::Write(bytes, answer) => terminal.write(bytes) == *answer,
        Step::EmptyLog => {
            terminal.empty_log();
            true
        }
    };
    answered
        && terminal.calls() == *calls
        && same(terminal.log.as_slice(), log)
        && same(terminal.below.bytes(), below)
}

// Whether all steps go as they should on a terminal with some faults.
fn plays(heap: Global, faults: &[Fault], steps: &[Taken]) -> bool {
    let Some(mut terminal) = faulty(heap, faults) else {
        return false;
    };
    for taken in steps {
        if !holds(&mut terminal, taken) {
            return false;
        }
    }
    true
}

// Calls are counted under the pacers, which pass on 32 bytes at most.
fn paced(heap: Global) -> bool {
    let fault = Fault {
        call: 1,
        answer: Ok(5),
    };
    let Some(terminal) = faulty(heap, &[fault]) else {
        return false;
    };
    let mut pacer = Pacer::new(Pacer::new(terminal));
    pacer.write(&[b'a'; 40]) == Ok(32)
        && pacer.write(&[b'b'; 40]) == Ok(5)
        && pacer.write(&[b'c'; 40]) == Ok(32)
}

#[test]
fn calls(rt: HostRuntime) {
    assert!(rt; plays(rt.alloc(), &FAULTS, &CALLS));
    assert!(rt; plays(rt.alloc(), &[], &FULL_BELOW));
    assert!(rt; paced(rt.alloc()));
}

// What is asked, and what should come of it.
enum Asked {
    // what becomes of a call, by its fault, how many bytes are offered, and for how many there is room
    Course(Option<WriteAnswer>, usize, usize, Result<usize, WriteAnswer>),
    // the fault of a call
    Answer(usize, Option<WriteAnswer>),
}

const ASKED: [Asked; 10] = [
    Asked::Course(None, 3, 9, Ok(3)),
    Asked::Course(None, 3, 2, Ok(2)),
    Asked::Course(None, 3, 0, Err(DOWN)),
    Asked::Course(None, 0, 0, Err(Ok(0))),
    Asked::Course(Some(DOWN), 0, 9, Err(DOWN)),
    Asked::Course(Some(INTERRUPTED), 3, 9, Err(INTERRUPTED)),
    Asked::Course(Some(Ok(2)), 3, 9, Ok(2)),
    Asked::Course(Some(Ok(0)), 3, 9, Err(Ok(0))),
    Asked::Answer(3, Some(Ok(2))),
    Asked::Answer(0, None),
];

fn comes(asked: &Asked) -> bool {
    match *asked {
        Asked::Course(fault, offered, room, expected) => {
            match course_of(fault, offered, room) {
                ControlFlow::Continue(count) => expected == Ok(count),
                ControlFlow::Break(answer) => expected == Err(answer),
            }
        }
        Asked::Answer(call, expected) => answer_at(&FAULTS, call) == expected,
    }
}

#[test]
fn courses(rt: HostRuntime) {
    for (number, asked) in ASKED.iter().enumerate() {
        assert!(rt; comes(asked), "case {number}");
    }
}
