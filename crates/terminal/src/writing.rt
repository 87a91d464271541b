// All of some bytes to a terminal.
ghost use Rattle.std.specs.Prelude.{◌≡◌, Some};
ghost use Rattle.terminal.specs.Windows.{geometry};
ghost use Rattle.terminal.specs.Writing.{fault_number, fault_word, fault_text, Ends, WroteAll};

use crate::terminal::{Terminal, WriteAnswer, WriteError};
use std::fmt;

// So many interruptions in a row, and a write gives up.
const PATIENCE: u8 = 8;

// Why a write broke.
#[derive(Clone, Copy, Debug, PartialEq, Eq)]
pub enum WriteFault {
    // the terminal was down, or took nothing
    Down,
    // the terminal was interrupted eight times in a row
    Busy,
}

impl WriteFault {
    // The fault's word.
    pub fn word(self) -> &'static str
        ensures { result.now ≡ fault_word self }
    {
        match self {
            WriteFault::Down => "down",
            WriteFault::Busy => "busy",
        }
    }
}

// The fault's number, 8 or 9.
impl From<WriteFault> for u8 {
    ghost from_gives = { λ fault number. number ≡ fault_number fault };

    fn from(fault: WriteFault) -> u8 {
        match fault {
            WriteFault::Down => 8,
            WriteFault::Busy => 9,
        }
    }
}

// The number and the word, as in `8 down`.
impl fmt::Display for WriteFault {
    ghost output = { λ fault. Some (fault_text fault) };

    fn fmt<W: fmt::Write>(&self, f: &mut fmt::Formatter<W>) -> fmt::Result {
        write!(f, "{} {}", u8::from(*self), self.word())
    }
}

// A write that broke: why, how many of its bytes have worked, and what the terminal answered last.
#[derive(Clone, Copy, Debug, PartialEq, Eq)]
pub struct BrokenWrite {
    pub fault: WriteFault,
    pub taken: usize,
    pub answer: WriteAnswer,
}

// Offers the bytes, and then the rest of them, until all are taken or the write breaks.
pub fn write_all<T: Terminal>(terminal: &mut T, bytes: &[u8]) -> Result<(), BrokenWrite>
    ensures ends { Ends T.Terminal.answered bytes.now terminal.old result terminal.new }
    ensures wrote { WroteAll (geometry T.Widths.WidthTable.columns (T.Terminal.extent terminal.old)) bytes.now (T.Terminal.screen terminal.old) result (T.Terminal.screen terminal.new) }
    ensures fixed { T.Terminal.extent terminal.new ≡ T.Terminal.extent terminal.old }
{
    let mut rest = bytes;
    let mut interruptions = 0;
    while !rest.is_empty() {
        let answer = terminal.write(rest);
        let fault = match answer {
            Ok(count) if count > 0 => {
                rest = &rest[count..];
                interruptions = 0;
                continue;
            }
            Err(WriteError::Interrupted) => {
                interruptions += 1;
                if interruptions < PATIENCE {
                    continue;
                }
                WriteFault::Busy
            }
            Ok(_) => WriteFault::Down,
            Err(WriteError::Down) => WriteFault::Down,
        };
        return Err(BrokenWrite {
            fault,
            taken: bytes.len() - rest.len(),
            answer,
        });
    }
    Ok(())
}
