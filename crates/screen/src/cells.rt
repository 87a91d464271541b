// What a screen is made of: its cells, and what the bytes so far have left unfinished.

// One cell of the paper.
#[derive(Clone, Copy)]
pub enum Cell {
    Blank,
    // a character, and the zero-width character put on it
    Glyph(char, Option<char>),
    // the right half of the wide character in the cell before
    RightHalf,
}

// What the parameter bytes of a control sequence amount to.
#[derive(Clone, Copy)]
pub enum Parameters {
    // none came
    Bare,
    // digits: the number, at most 9,999
    Number(u16),
    // digits and semicolons, one semicolon at least: the first number
    Numbers(u16),
    // so many bytes of `?2026`, one at least
    Mode(u8),
    Other,
}

// A UTF-8 character of which bytes are still to come.
#[derive(Clone, Copy)]
pub struct Partial {
    // its number, as far as the bytes have told it
    pub value: u32,
    // how many bytes are to come
    pub left: u8,
    // the next byte lies from `low` to `high`
    pub low: u8,
    pub high: u8,
}

// What is unfinished.
#[derive(Clone, Copy)]
pub enum Parser {
    // nothing
    Ground,
    // ESC came
    Escape,
    // `ESC[` and parameter bytes came
    Sequence(Parameters),
    // the first bytes of a character came
    Character(Partial),
}
