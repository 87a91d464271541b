// What is answered, as the sample spells it.
use highlight::brackets::Bracket;
use layout::layout::Position;
use page::outcome::Rejection;
use player::byte_report::Escaped;
use player::ending::Ending;
use std::fmt;
use text::refusal::Refusal;

// How an act ended, and its bytes that have worked.
#[derive(Drop)]
pub(crate) struct Ended<'a> {
    pub(crate) outcome: Result<(), Rejection>,
    pub(crate) worked: &'a [u8],
}

impl fmt::Display for Ended<'_> {
    fn fmt<W: fmt::Write>(&self, f: &mut fmt::Formatter<W>) -> fmt::Result {
        let ending = Ending {
            outcome: self.outcome,
        };
        let bytes = Escaped { bytes: self.worked };
        write!(f, "{ending} \"{bytes}\"")
    }
}

// Where a measured text ends.
#[derive(Drop)]
pub(crate) struct Measured {
    pub(crate) place: Result<Position, Refusal>,
}

impl fmt::Display for Measured {
    fn fmt<W: fmt::Write>(&self, f: &mut fmt::Formatter<W>) -> fmt::Result {
        match self.place {
            Ok(place) => {
                let col = place.col;
                let row = place.row;
                write!(f, "column {col} row {row}")
            }
            Err(refusal) => write!(f, "refused {refusal}"),
        }
    }
}

// The bracket at a position, whether the line is to be drawn anew, and the line as it is then drawn.
#[derive(Drop)]
pub(crate) struct Lit<'a> {
    pub(crate) bracket: Option<Bracket>,
    pub(crate) heeds: bool,
    pub(crate) line: &'a [u8],
}

impl fmt::Display for Lit<'_> {
    fn fmt<W: fmt::Write>(&self, f: &mut fmt::Formatter<W>) -> fmt::Result {
        match self.bracket {
            Some(bracket) => {
                let sign = char::from(bracket.byte);
                let at = bracket.at;
                write!(f, "bracket {sign} at {at}")?;
            }
            None => f.write_str("bracket none")?,
        }
        let heeds = if self.heeds { "yes" } else { "no" };
        let line = Escaped { bytes: self.line };
        write!(f, " char {heeds} line \"{line}\"")
    }
}
