// The character at an index of a byte string.
ghost use Rattle.std.specs.Prelude.{◌≡◌, ◌<◌, ◌≤◌, length, drop, Decides, slice_index};
ghost use Rattle.text.specs.Characters.{is_control, Good};
ghost use Rattle.text.specs.Continuations.{Continues, Spelled};
ghost use Rattle.text.specs.Decoding.{Decodes, Follows, Within};

// A character, and how many bytes it takes.
#[derive(Clone, Copy)]
pub struct Decoded {
    pub code: char,
    pub len: usize,
}

// Whether a character is a control.
pub fn is_control(c: char) -> bool
    ensures { result ≡ is_control c }
{
    let code = c as u32;
    code < 0x20 || (0x7f <= code && code < 0xa0)
}

// Whether a text may hold a character: LF, or one that is no control.
pub fn is_good(c: char) -> bool
    ensures { Decides result (Good c) }
{
    c == '\n' || !is_control(c)
}

// The character that begins at an index: none past the end, or where no UTF-8 character begins.
pub fn char_at(bytes: &[u8], at: usize) -> Option<Decoded>
    ensures decodes { Decodes (drop at bytes.now) result }
    ensures within { Within at (length bytes.now) result }
{
    first_char(bytes.get(at..)?)
}

// The character that begins the bytes. Its bytes are read once: `from_utf8` and then `chars` read them twice, and three times as long.
#[inline(always)]
pub(crate) fn first_char(bytes: &[u8]) -> Option<Decoded>
    ensures { Decodes bytes.now result }
{
    let lead = *bytes.first()?;
    if lead < 0x80 {
        return Some(Decoded {
            code: char::from(lead),
            len: 1,
        });
    }
    if lead < 0xc0 {
        None
    } else if lead < 0xe0 {
        two_bytes(bytes)
    } else if lead < 0xf0 {
        three_bytes(bytes)
    } else {
        four_bytes(bytes)
    }
}

// Whether a byte continues a character.
pub(crate) fn is_continuation(byte: u8) -> bool
    ensures { Decides result (Follows byte) }
{
    0x80 <= byte && byte < 0xc0
}

// The six bits of the continuation byte at an index.
fn continuation(bytes: &[u8], at: usize) -> Option<u32>
    ensures { Continues bytes.now at result }
{
    let byte = *bytes.get(at)?;
    if is_continuation(byte) {
        Some(u32::from(byte - 0x80))
    } else {
        None
    }
}

// The character with a number, unless fewer bytes would do or it is no character.
fn spelled(code: u32, least: u32, len: usize) -> Option<Decoded>
    ensures { Spelled code least len result }
{
    if code < least {
        return None;
    }
    match char::from_u32(code) {
        Some(code) => Some(Decoded { code, len }),
        None => None,
    }
}

// The character of two bytes.
fn two_bytes(bytes: &[u8]) -> Option<Decoded>
    requires { (0 < length bytes.now) × (192 ≤ slice_index bytes.now 0) × (slice_index bytes.now 0 < 224) }
    ensures { Decodes bytes.now result }
{
    let second = continuation(bytes, 1)?;
    let code = (bytes[0] - 0xc0) as u32 * 64 + second;
    spelled(code, 0x80, 2)
}

// The character of three bytes.
fn three_bytes(bytes: &[u8]) -> Option<Decoded>
    requires { (0 < length bytes.now) × (224 ≤ slice_index bytes.now 0) × (slice_index bytes.now 0 < 240) }
    ensures { Decodes bytes.now result }
{
    let second = continuation(bytes, 1)?;
    let third = continuation(bytes, 2)?;
    let code = ((bytes[0] - 0xe0) as u32 * 64 + second) * 64 + third;
    spelled(code, 0x800, 3)
}

// The character of four bytes.
fn four_bytes(bytes: &[u8]) -> Option<Decoded>
    requires { (0 < length bytes.now) × (240 ≤ slice_index bytes.now 0) }
    ensures { Decodes bytes.now result }
{
    let second = continuation(bytes, 1)?;
    let third = continuation(bytes, 2)?;
    let fourth = continuation(bytes, 3)?;
    let code = (((bytes[0] - 0xf0) as u32 * 64 + second) * 64 + third) * 64 + fourth;
    spelled(code, 0x10000, 4)
}
