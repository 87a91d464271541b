// What a control sequence does to a grid.
ghost use Rattle.std.specs.Prelude.{◌≡◌, ◌+◌, ◌*◌, ◌<◌, min};
ghost use Rattle.screen.specs.Bytes.{act, finish, holding, mode_byte, parameter};
ghost use Rattle.grid.specs.Meaning.{area};
ghost use Rattle.grid.specs.Steps.{Does};

use crate::grid::Grid;
use screen::cells::{Parameters, Parser};
use widths::tables::WidthTable;

// A number with one more digit, 9,999 at most.
fn number_with(number: u16, digit: u8) -> u16
    requires { digit < 10 }
    ensures { result ≡ min (10 * number + digit) 9999 }
{
    number
        .saturating_mul(10)
        .saturating_add(u16::from(digit))
        .min(9999)
}

// The bytes of `?2026`; from the last on it is the last one.
fn mode_byte(k: u8) -> u8
    ensures { result ≡ mode_byte k }
{
    b"?2026"[usize::from(k.min(4))]
}

// What parameters amount to with one more byte.
pub(crate) fn with_parameter(parameters: Parameters, byte: u8) -> Parameters
    ensures { result ≡ parameter parameters byte }
{
    match (parameters, byte) {
        (Parameters::Bare, b'0'..=b'9') => Parameters::Number(u16::from(byte - b'0')),
        (Parameters::Bare, b';') => Parameters::Numbers(0),
        (Parameters::Bare, b'?') => Parameters::Mode(1),
        (Parameters::Bare, _) => Parameters::Other,
        (Parameters::Number(n), b'0'..=b'9') => Parameters::Number(number_with(n, byte - b'0')),
        (Parameters::Number(n), b';') => Parameters::Numbers(n),
        (Parameters::Number(_), _) => Parameters::Other,
        (Parameters::Numbers(n), b'0'..=b'9' | b';') => Parameters::Numbers(n),
        (Parameters::Numbers(_), _) => Parameters::Other,
        (Parameters::Mode(k), _) => {
            if k < 5 && byte == mode_byte(k) {
                Parameters::Mode(k + 1)
            } else {
                Parameters::Other
            }
        }
        (Parameters::Other, _) => Parameters::Other,
    }
}

impl<W: WidthTable> Grid<W> {
    // Sets or clears the mark of a held update.
    fn hold(&mut self, held: bool)
        ensures { Does (holding held) self.old self.new }
    {
        self.held = held;
        self.drop_unfinished();
    }

    // What a final byte does behind parameters, `m` excepted.
    #[tactic(auto, unfolding(screen::specs::Bytes::act))]
    fn act(&mut self, parameters: Parameters, last: u8)
        ensures { Does (act (area W.WidthTable.columns self.old) parameters last) self.old self.new }
    {
        match (parameters, last) {
            (Parameters::Bare, b'H') => self.home(),
            (Parameters::Bare, b'J') => self.erase_down(),
            (Parameters::Bare, b'K') => self.erase_line(),
            (Parameters::Bare, _) => self.move_by(last, 1),
            (Parameters::Number(n), _) => self.move_by(last, n.max(1)),
            (Parameters::Numbers(n), _) => self.move_by(last, n.max(1)),
            (Parameters::Mode(5), b'h') => self.hold(true),
            (Parameters::Mode(5), b'l') => self.hold(false),
            (Parameters::Mode(_), _) => self.drop_unfinished(),
            (Parameters::Other, _) => self.drop_unfinished(),
        }
    }

    // The final byte of a sequence.
    #[tactic(auto, unfolding(screen::specs::Bytes::finish))]
    pub(crate) fn finish(&mut self, parameters: Parameters, last: u8)
        ensures { Does (finish (area W.WidthTable.columns self.old) parameters last) self.old self.new }
    {
        if last == b'm' {
            self.parser = Parser::Ground;
        } else {
            self.act(parameters, last);
        }
    }
}
