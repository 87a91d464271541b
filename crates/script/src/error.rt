// What can be wrong in a script.
ghost use Rattle.std.specs.Prelude.{◌≡◌};
ghost use Rattle.script.specs.Wrongs.{wrong_number, wrong_string};
ghost use Rattle.script.specs.declared.error.Wrong.TheVariants.{BadWord, Memory};

use crate::escape::StringFault;
use crate::number::NumberFault;
use std::alloc::{AllocError, AllocFailed};
use std::fmt;
use std::str::Utf8Error;

#[derive(Drop)]
pub enum Wrong {
    UnknownWord(String),
    // a word that is not UTF-8
    BadWord,
    // a quoted string is expected
    NoString,
    // a quoted string without its closing mark
    Unclosed,
    // a backslash with something unknown behind it
    Escape,
    // a number is expected
    NoNumber,
    Range,
    // one of two words is expected
    Choice(&'static str, &'static str),
    // more on the line than belongs there
    More,
    LateSetting,
    // a session begins while another one is open
    Open,
    // an act while no session is open
    NoSession,
    Memory,
}

impl fmt::Display for Wrong {
    fn fmt<W: fmt::Write>(&self, f: &mut fmt::Formatter<W>) -> fmt::Result {
        match self {
            Wrong::UnknownWord(word) => write!(f, "unknown word `{word}`"),
            Wrong::BadWord => f.write_str("a word that is not UTF-8"),
            Wrong::NoString => f.write_str("a quoted string is expected"),
            Wrong::Unclosed => f.write_str("a string without its closing mark"),
            Wrong::Escape => f.write_str("an unknown escape in a string"),
            Wrong::NoNumber => f.write_str("a number is expected"),
            Wrong::Range => f.write_str("a number out of range"),
            Wrong::Choice(one, other) => write!(f, "`{one}` or `{other}` is expected"),
            Wrong::More => f.write_str("more than belongs on the line"),
            Wrong::LateSetting => f.write_str("a setting after the first `create`"),
            Wrong::Open => f.write_str("a session is already open"),
            Wrong::NoSession => f.write_str("no session is open"),
            Wrong::Memory => f.write_str("out of memory"),
        }
    }
}

// What is wrong, and in which line, from 1. Not one generic struct with `ScriptLine`: `wrong` and `act` would lose their names.
#[derive(Drop)]
pub struct ScriptError {
    pub line: usize,
    pub wrong: Wrong,
}

impl fmt::Display for ScriptError {
    fn fmt<W: fmt::Write>(&self, f: &mut fmt::Formatter<W>) -> fmt::Result {
        let line = self.line;
        let wrong = &self.wrong;
        write!(f, "line {line}: {wrong}")
    }
}

impl From<AllocError> for Wrong {
    ghost from_gives = { λ _ wrong. wrong ≡ Memory };

    fn from(_error: AllocError) -> Wrong {
        Wrong::Memory
    }
}

impl<T: Drop> From<AllocFailed<T>> for Wrong {
    ghost from_gives = { λ _ wrong. wrong ≡ Memory };

    fn from(_refused: AllocFailed<T>) -> Wrong {
        Wrong::Memory
    }
}

impl From<Utf8Error> for Wrong {
    ghost from_gives = { λ _ wrong. wrong ≡ BadWord };

    fn from(_error: Utf8Error) -> Wrong {
        Wrong::BadWord
    }
}

impl From<NumberFault> for Wrong {
    ghost from_gives = { λ fault wrong. wrong ≡ wrong_number fault };

    fn from(fault: NumberFault) -> Wrong {
        match fault {
            NumberFault::Digits => Wrong::NoNumber,
            NumberFault::Large => Wrong::Range,
        }
    }
}

impl From<StringFault> for Wrong {
    ghost from_gives = { λ fault wrong. wrong ≡ wrong_string fault };

    fn from(fault: StringFault) -> Wrong {
        match fault {
            StringFault::Unclosed => Wrong::Unclosed,
            StringFault::Escape => Wrong::Escape,
            StringFault::Memory => Wrong::Memory,
        }
    }
}
