// Why an input is refused.
ghost use Rattle.std.specs.Prelude.{◌≡◌, Some};
ghost use Rattle.text.specs.Refusals.{refusal_number, refusal_word, refusal_text};

use std::fmt;

#[derive(Clone, Copy, Debug, PartialEq, Eq)]
pub enum Refusal {
    // the size of a terminal, a tab stop or an origin is out of range
    Size,
    // a prompt is not good, too long, or its two forms show different texts
    Prompt,
    // not a good text
    Text,
    // too many bytes
    Long,
    // a position past the line or inside a character
    Place,
    // higher than the window
    Tall,
    // the session is torn
    Torn,
}

impl Refusal {
    // The refusal's word.
    pub fn word(self) -> &'static str
        ensures { result.now ≡ refusal_word self }
    {
        match self {
            Refusal::Size => "size",
            Refusal::Prompt => "prompt",
            Refusal::Text => "text",
            Refusal::Long => "long",
            Refusal::Place => "place",
            Refusal::Tall => "tall",
            Refusal::Torn => "torn",
        }
    }
}

// The refusal's number, 1 to 7.
impl From<Refusal> for u8 {
    ghost from_gives = { λ refusal number. number ≡ refusal_number refusal };

    fn from(refusal: Refusal) -> u8 {
        match refusal {
            Refusal::Size => 1,
            Refusal::Prompt => 2,
            Refusal::Text => 3,
            Refusal::Long => 4,
            Refusal::Place => 5,
            Refusal::Tall => 6,
            Refusal::Torn => 7,
        }
    }
}

// The number and the word, as in `3 text`.
impl fmt::Display for Refusal {
    ghost output = { λ refusal. Some (refusal_text refusal) };

    fn fmt<W: fmt::Write>(&self, f: &mut fmt::Formatter<W>) -> fmt::Result {
        write!(f, "{} {}", u8::from(*self), self.word())
    }
}
