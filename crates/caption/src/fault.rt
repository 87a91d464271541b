// Why the program ends with status 1.
use crate::options::Valued;
use player::fault::PlayFault;
use std::alloc::{AllocError, AllocFailed};
use std::{fmt, io};

#[derive(Drop)]
pub(crate) enum Fault {
    // no command, or one that is unknown
    Command,
    UnknownOption(String),
    UnknownRunOption(String),
    MissingValue(Valued),
    // an option's value, which is no number from 0 to 65,535
    Number(Valued, String),
    Table(String),
    Size(u16, u16),
    Prompt,
    Memory,
    Input(io::Error),
    // why a script of acts is not played to its end
    Play(PlayFault),
}

impl fmt::Display for Fault {
    fn fmt<W: fmt::Write>(&self, f: &mut fmt::Formatter<W>) -> fmt::Result {
        match self {
            Fault::Command => {
                f.write_str("the command is `preview` or `run`; `caption --help` tells more")
            }
            Fault::UnknownOption(name) => write!(
                f,
                "unknown option `{name}`; `caption preview --help` lists them"
            ),
            Fault::UnknownRunOption(name) => write!(
                f,
                "unknown option `{name}`; `caption run` takes none but `--help`"
            ),
            Fault::MissingValue(option) => write!(f, "`{option}` needs a value"),
            Fault::Number(option, value) => {
                write!(f, "`{option}` needs a number, not `{value}`")
            }
            Fault::Table(value) => write!(f, "`--table` is `latin` or `eastern`, not `{value}`"),
            Fault::Size(columns, rows) => write!(
                f,
                "1 size: a window of {columns} columns and {rows} rows; 2 to 500 and 1 to 200 are possible"
            ),
            Fault::Prompt => f.write_str(
                "2 prompt: the prompt is not good text with style sequences, or over 512 bytes",
            ),
            Fault::Memory => f.write_str("out of memory"),
            Fault::Input(error) => write!(f, "{error}"),
            Fault::Play(fault) => write!(f, "{fault}"),
        }
    }
}

impl From<io::Error> for Fault {
    fn from(error: io::Error) -> Fault {
        Fault::Input(error)
    }
}

impl From<PlayFault> for Fault {
    fn from(fault: PlayFault) -> Fault {
        Fault::Play(fault)
    }
}

impl From<AllocError> for Fault {
    fn from(_error: AllocError) -> Fault {
        Fault::Memory
    }
}

impl<T: Drop> From<AllocFailed<T>> for Fault {
    fn from(_refused: AllocFailed<T>) -> Fault {
        Fault::Memory
    }
}
