// Bytes as a report spells them.
ghost use Rattle.std.specs.Prelude.{◌≡◌, ◌<◌};
ghost use Rattle.player.specs.Reports.{digit_of};

use crate::fault::PlayFault;
use std::fmt;

// A hexadecimal digit, in upper case.
fn hex_digit(value: u8) -> char
    requires { value < 16 }
    ensures { result ≡ digit_of value }
{
    if value < 10 {
        char::from(value.wrapping_add(b'0'))
    } else {
        char::from(value.wrapping_add(b'A' - 10))
    }
}

// Bytes as themselves, or as escapes where they are no plain ASCII.
#[derive(Drop)]
pub struct Escaped<'a> {
    pub bytes: &'a [u8],
}

impl fmt::Display for Escaped<'_> {
    fn fmt<W: fmt::Write>(&self, f: &mut fmt::Formatter<W>) -> fmt::Result {
        for byte in self.bytes {
            match *byte {
                27 => f.write_str("\\e")?,
                b'\n' => f.write_str("\\n")?,
                b'\r' => f.write_str("\\r")?,
                b'\\' => f.write_str("\\\\")?,
                b'"' => f.write_str("\\\"")?,
                b' '..=b'~' => f.write_char(char::from(*byte))?,
                _ => {
                    f.write_str("\\x")?;
                    f.write_char(hex_digit(*byte / 16))?;
                    f.write_char(hex_digit(*byte % 16))?;
                }
            }
        }
        Ok(())
    }
}

// Prints the bytes of an act that have worked, if there are any.
pub(crate) fn print_bytes(rt: &HostRuntime, bytes: &[u8]) -> Result<(), PlayFault> {
    if !bytes.is_empty() {
        let text = Escaped { bytes };
        println!(rt; "bytes \"{text}\"")?;
    }
    Ok(())
}
