// Scripts that can be read.
use script::act::ScriptAct;
use script::reading::{Script, read_script};
use script::settings::{Highlighting, Settings};
use std::alloc::Global;
use terminal::terminal::{WriteAnswer, WriteError};
use widths::tables::Table;

// What the settings should be.
struct Set {
    cols: u16,
    rows: u16,
    table: Table,
    // the prompt, plain and styled
    prompt: &'static [u8],
    // colours, holds, brackets
    switches: (bool, bool, bool),
    captions: &'static [u8],
    // pace and paper
    pace: (usize, usize),
    faults: &'static [(usize, WriteAnswer)],
}

// An act: its line, its word, its string and its number.
type Told = (usize, &'static str, &'static [u8], usize);

// A script, and what it should be read as; the line in which something is wrong, or 0.
struct Case {
    bytes: &'static [u8],
    set: Set,
    acts: &'static [Told],
    wrong: usize,
}

const DEFAULTS: Set = Set {
    cols: 80,
    rows: 24,
    table: Table::Latin,
    prompt: b"> ",
    switches: (false, false, false),
    captions: b"",
    pace: (0, 10_000),
    faults: &[],
};

const CASES: [Case; 3] = [
    // A script that says no settings has the default ones.
    Case {
        bytes: b"",
        set: DEFAULTS,
        acts: &[],
        wrong: 0,
    },
    // Of a setting given twice the last counts, captions and faults add up; CR, tabs and spaces are blanks.
    Case {
        bytes: b"size 9 9\n\
size\t5 2\r\n\
table latin\ntable eastern\n\
prompt \"a\" \"b\"\n  prompt \"\\e[1m>\\e[0m \"\n\
colours off\ncolours on\nholds on\n\
highlighter brackets\n\
caption \"one\\ntwo\"\ncaption \"\"\ncaption \"three\"\n\
pace 3\npaper 7\npaper 0\n\
fault 4 down\nfault 2 interrupted\nfault 4 12\n",
        set: Set {
            cols: 5,
            rows: 2,
            table: Table::Eastern,
            prompt: b"\x1b[1m>\x1b[0m ",
            switches: (true, true, true),
            captions: b"one\ntwo\n\nthree\n",
            pace: (3, 0),
            faults: &[
                (4, Err(WriteError::Down)),
                (2, Err(WriteError::Interrupted)),
                (4, Ok(12)),
            ],
        },
        acts: &[],
        wrong: 0,
    },
    // Each act with its line and its fields; what is read stays where a later line is wrong.
    Case {
        bytes: b"# acts\ncreate\ninsert \"\\xC3\\xA9\" 2\nset \"a b\" 3\ngo 0\n\nrefresh\nmessage \"\"\nnotice \"n\\n\"\nclear\nfinish\ncreate\nwhat\nclear\n",
        set: DEFAULTS,
        acts: &[
            (2, "create", b"", 0),
            (3, "insert", b"\xc3\xa9", 2),
            (4, "set", b"a b", 3),
            (5, "go", b"", 0),
            (7, "refresh", b"", 0),
            (8, "message", b"", 0),
            (9, "notice", b"n\n", 0),
            (10, "clear", b"", 0),
            (11, "finish", b"", 0),
            (12, "create", b"", 0),
        ],
        wrong: 13,
    },
];

// The word, the string and the number of an act.
fn told(act: &ScriptAct) -> (&str, &[u8], usize) {
    match act {
        ScriptAct::Create => ("create", b"", 0),
        ScriptAct::Insert(bytes, count) => ("insert", bytes.as_slice(), usize::from(*count)),
        ScriptAct::Set(bytes, pos) => ("set", bytes.as_slice(), *pos),
        ScriptAct::Go(pos) => ("go", b"", *pos),
        ScriptAct::Refresh => ("refresh", b"", 0),
        ScriptAct::Message(bytes) => ("message", bytes.as_slice(), 0),
        ScriptAct::Notice(bytes) => ("notice", bytes.as_slice(), 0),
        ScriptAct::Clear => ("clear", b"", 0),
        ScriptAct::Finish => ("finish", b"", 0),
    }
}

fn acts_are(script: &Script, acts: &[Told]) -> bool {
    for (line, expected) in script.acts.iter().zip(acts) {
        let (word, bytes, number) = told(&line.act);
        if (line.line, word, bytes, number) != *expected {
            return false;
        }
    }
    script.acts.len() == acts.len()
}

fn faults_are(settings: &Settings, faults: &[(usize, WriteAnswer)]) -> bool {
    for (fault, expected) in settings.faults.iter().zip(faults) {
        if (fault.call, fault.answer) != *expected {
            return false;
        }
    }
    settings.faults.len() == faults.len()
}

fn settings_are(settings: &Settings, set: &Set) -> bool {
    let brackets = matches!(settings.highlighting, Highlighting::Brackets);
    (settings.cols, settings.rows) == (set.cols, set.rows)
        && settings.table == set.table
        && settings.raw.as_slice() == set.prompt
        && settings.styled.as_slice() == set.prompt
        && (settings.colours, settings.holds, brackets) == set.switches
        && settings.captions.as_slice() == set.captions
        && (settings.pace, settings.paper) == set.pace
        && faults_are(settings, set.faults)
}

fn holds(heap: Global, case: &Case) -> bool {
    let Ok(script) = read_script(heap, case.bytes) else {
        return false;
    };
    let wrong = match &script.error {
        Some(error) => error.line,
        None => 0,
    };
    wrong == case.wrong && settings_are(&script.settings, &case.set) && acts_are(&script, case.acts)
}

#[test]
fn scripts(rt: HostRuntime) {
    for (number, case) in CASES.iter().enumerate() {
        assert!(rt; holds(rt.alloc(), case), "case {number}");
    }
}
