// Why a script is not played to its end.
use script::error::ScriptError;
use std::alloc::{AllocError, AllocFailed};
use std::{fmt, io};

#[derive(Drop)]
pub enum PlayFault {
    Memory,
    // printing failed
    Print(io::Error),
    // what is wrong in the script
    Script(ScriptError),
}

impl fmt::Display for PlayFault {
    fn fmt<W: fmt::Write>(&self, f: &mut fmt::Formatter<W>) -> fmt::Result {
        match self {
            PlayFault::Memory => f.write_str("out of memory"),
            PlayFault::Print(error) => write!(f, "{error}"),
            PlayFault::Script(error) => write!(f, "{error}"),
        }
    }
}

impl From<io::Error> for PlayFault {
    fn from(error: io::Error) -> PlayFault {
        PlayFault::Print(error)
    }
}

impl From<AllocError> for PlayFault {
    fn from(_error: AllocError) -> PlayFault {
        PlayFault::Memory
    }
}

impl<T: Drop> From<AllocFailed<T>> for PlayFault {
    fn from(_refused: AllocFailed<T>) -> PlayFault {
        PlayFault::Memory
    }
}
