// What a terminal is.
ghost use Rattle.std.specs.Prelude.{◌≡◌, ℕ, List};
ghost use Rattle.screen.specs.Screen.{Screen};
ghost use Rattle.terminal.specs.Windows.{geometry, Inside};
ghost use Rattle.terminal.specs.Answers.{WriteAnswer, Worked, answer_number, taken};
ghost use Rattle.terminal.specs.declared.size.Size.{Size};

use crate::size::Size;
use widths::tables::WidthTable;

// Why a write took nothing; nothing has changed.
#[derive(Clone, Copy, Debug, PartialEq, Eq)]
pub enum WriteError {
    Interrupted,
    Down,
}

// What a terminal answers to a write: the first bytes, so many of them, have worked, or why none has.
pub type WriteAnswer = Result<usize, WriteError>;

// An answer's number, 0 to 2. No `From` can say it: an answer is a type of the library.
pub fn answer_number(answer: WriteAnswer) -> u8
    ensures { result ≡ answer_number answer }
{
    match answer {
        Ok(_) => 0,
        Err(WriteError::Interrupted) => 1,
        Err(WriteError::Down) => 2,
    }
}

// How many bytes an answer took.
pub fn taken(answer: WriteAnswer) -> usize
    ensures { result ≡ taken answer }
{
    answer.unwrap_or(0)
}

// A terminal means a screen of a fixed size, and names the width table that it draws by.
pub trait Terminal {
    type Widths: WidthTable;

    ghost screen: { Self → Screen };

    ghost extent: { Self → Size };

    // asked at one state to write bytes, it answered so, and was then in the other state
    ghost answered: { Self → List ℕ → WriteAnswer → Self → Type 0 };

    // The window's size.
    fn size(&self) -> Size
        ensures { result ≡ extent self.now };

    // Offers bytes.
    fn write(&mut self, bytes: &[u8]) -> WriteAnswer
        ensures { answered self.old bytes.now result self.new };

    ghost inside: { (t : Self) → Inside (geometry Self.Widths.WidthTable.columns (extent t)) (screen t) };

    ghost works: { (s t : Self) (bytes : List ℕ) (a : WriteAnswer) → answered s bytes a t → Worked (geometry Self.Widths.WidthTable.columns (extent s)) bytes (screen s) a (screen t) };

    ghost fixed: { (s t : Self) (bytes : List ℕ) (a : WriteAnswer) → answered s bytes a t → extent t ≡ extent s };
}
