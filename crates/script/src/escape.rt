// Quoted strings and their escapes.
ghost use Rattle.std.specs.Prelude.{◌≡◌, ◌≤◌, length};
ghost use Rattle.script.specs.Strings.{digit_of, escape_of, Reads, step_of};
ghost use Rattle.script.specs.declared.escape.StringFault.TheVariants.{Memory};

use std::alloc::{AllocFailed, Global};

// Where reading stands inside a quoted string.
#[derive(Clone, Copy)]
pub enum Spot {
    Plain,
    // behind a backslash
    Escape,
    // behind `\x`
    High,
    // behind `\x` and a digit of this value
    Low(u8),
}

// What a byte does there.
#[derive(Clone, Copy)]
pub enum Step {
    Goes(Spot),
    // a byte of the string ends here
    Gives(u8),
    // the string ends
    Closes,
}

// Why a quoted string cannot be read.
#[derive(Clone, Copy)]
pub enum StringFault {
    // its closing mark is missing
    Unclosed,
    // a backslash with something unknown behind it
    Escape,
    Memory,
}

impl<T: Drop> From<AllocFailed<T>> for StringFault {
    ghost from_gives = { λ _ fault. fault ≡ Memory };

    fn from(_refused: AllocFailed<T>) -> StringFault {
        StringFault::Memory
    }
}

// The bytes that a quoted string means, and how long its spelling is.
#[derive(Drop)]
pub struct Quoted {
    pub bytes: Vec<u8>,
    pub len: usize,
}

// The value of a hexadecimal digit. Not by `to_digit`, whose u32 would have to be cast back.
fn digit(byte: u8) -> Option<u8>
    ensures { result ≡ digit_of byte }
{
    match byte {
        b'0'..=b'9' => Some(byte - b'0'),
        b'A'..=b'F' => Some(byte - b'A' + 10),
        b'a'..=b'f' => Some(byte - b'a' + 10),
        _ => None,
    }
}

// What a byte behind a backslash does; none where it is unknown there.
fn escaped(byte: u8) -> Option<Step>
    ensures { result ≡ escape_of byte }
{
    Some(match byte {
        b'n' => Step::Gives(b'\n'),
        b't' => Step::Gives(b'\t'),
        b'r' => Step::Gives(b'\r'),
        b'e' => Step::Gives(27),
        b'\\' => Step::Gives(b'\\'),
        b'"' => Step::Gives(b'"'),
        b'x' => Step::Goes(Spot::High),
        _ => return None,
    })
}

// What a byte does; none where it belongs to no escape.
pub fn step_of(spot: Spot, byte: u8) -> Option<Step>
    ensures { result ≡ step_of spot byte }
{
    match spot {
        Spot::Plain => Some(match byte {
            b'"' => Step::Closes,
            b'\\' => Step::Goes(Spot::Escape),
            _ => Step::Gives(byte),
        }),
        Spot::Escape => escaped(byte),
        Spot::High => {
            let value = digit(byte)?;
            Some(Step::Goes(Spot::Low(value)))
        }
        Spot::Low(high) => {
            let value = digit(byte)?;
            Some(Step::Gives(high.wrapping_mul(16).wrapping_add(value)))
        }
    }
}

// The quoted string whose opening mark stands before the text.
pub fn read_quoted(heap: Global, text: &[u8]) -> Result<Quoted, StringFault>
    ensures { Reads text.now result }
{
    let mut bytes = Vec::new(heap);
    let mut spot = Spot::Plain;
    for (i, byte) in text.iter().enumerate() {
        let step = step_of(spot, *byte).ok_or(StringFault::Escape)?;
        match step {
            Step::Goes(next) => spot = next,
            Step::Gives(value) => {
                bytes.push(value)?;
                spot = Spot::Plain;
            }
            Step::Closes => return Ok(Quoted { bytes, len: i + 1 }),
        }
    }
    Err(StringFault::Unclosed)
}
