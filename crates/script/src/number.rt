// Numbers in a script.
ghost use Rattle.std.specs.Prelude.{◌≡◌, ◌+◌, ◌*◌, ◌^◌, ◌≤◌, MatchResult};
ghost use Rattle.script.specs.Numbers.{Numbers};

// Why a word is no number that can be used.
#[derive(Clone, Copy)]
pub enum NumberFault {
    // it does not consist of digits
    Digits,
    // it says 2^64 or more
    Large,
}

// The number that a word of decimal digits says. Not `parse`, which takes a `+` too.
pub fn read_number(word: &[u8]) -> Result<usize, NumberFault>
    ensures { Numbers word.now result }
{
    if word.is_empty() {
        return Err(NumberFault::Digits);
    }
    let mut value: usize = 0;
    for byte in word {
        if !byte.is_ascii_digit() {
            return Err(NumberFault::Digits);
        }
        let digit = usize::from(*byte - b'0');
        value = with_digit(value, digit)?;
    }
    Ok(value)
}

// A number with a digit behind it.
fn with_digit(value: usize, digit: usize) -> Result<usize, NumberFault>
    ensures { MatchResult result (λ n. n ≡ value * 10 + digit) (λ e. (e ≡ NumberFault.Large) × (2 ^ 64 ≤ value * 10 + digit)) }
{
    let tens = value.checked_mul(10).ok_or(NumberFault::Large)?;
    tens.checked_add(digit).ok_or(NumberFault::Large)
}
