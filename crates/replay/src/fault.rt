// Why a replay cannot go on.
use player::fault::PlayFault;
use std::alloc::{AllocError, AllocFailed};
use std::{fmt, io};

#[derive(Drop)]
pub(crate) enum Fault {
    Memory,
    Input(io::Error),
    // of an act, or of a line that is printed
    Play(PlayFault),
    // a line of the sample that says no case
    Case(usize),
}

impl fmt::Display for Fault {
    fn fmt<W: fmt::Write>(&self, f: &mut fmt::Formatter<W>) -> fmt::Result {
        match self {
            Fault::Memory => f.write_str("out of memory"),
            Fault::Input(error) => write!(f, "{error}"),
            Fault::Play(fault) => write!(f, "a script of the sample: {fault}"),
            Fault::Case(line) => write!(f, "line {line}: no case of the sample"),
        }
    }
}

impl From<io::Error> for Fault {
    fn from(error: io::Error) -> Fault {
        Fault::Input(error)
    }
}

impl From<PlayFault> for Fault {
    fn from(fault: PlayFault) -> Fault {
        Fault::Play(fault)
    }
}

impl From<AllocError> for Fault {
    fn from(_error: AllocError) -> Fault {
        Fault::Memory
    }
}

impl<T: Drop> From<AllocFailed<T>> for Fault {
    fn from(_refused: AllocFailed<T>) -> Fault {
        Fault::Memory
    }
}
