// Faults of a terminal: which call of its write goes wrong, and how.
ghost use Rattle.std.specs.Prelude.{◌≡◌};
ghost use Rattle.faults.specs.Faults.{answer_at, course_of, passing};

use std::ops::ControlFlow;
use terminal::terminal::{WriteAnswer, WriteError};

// The call's number, from 0, and how it goes wrong: it is answered so, or no more bytes than this are taken.
#[derive(Clone, Copy)]
pub struct Fault {
    pub call: usize,
    pub answer: WriteAnswer,
}

// What becomes of a call: so many bytes, at least one, are passed on, or it is answered with nothing passed on.
pub type Course = ControlFlow<WriteAnswer, usize>;

// The fault of a call, the first of those with its number.
pub fn answer_at(faults: &[Fault], call: usize) -> Option<WriteAnswer>
    ensures { result ≡ answer_at faults.now call }
{
    faults
        .iter()
        .find(|fault| fault.call == call)
        .map(|fault| fault.answer)
}

// What becomes of some bytes, of which so many more can be kept.
fn pass_on(count: usize, room: usize) -> Course
    ensures { result ≡ passing count room }
{
    if count == 0 {
        ControlFlow::Break(Ok(0))
    } else if room == 0 {
        ControlFlow::Break(Err(WriteError::Down))
    } else {
        ControlFlow::Continue(count.min(room))
    }
}

// What becomes of a call that offers so many bytes, by its fault and by how many more can be kept.
pub fn course_of(fault: Option<WriteAnswer>, offered: usize, room: usize) -> Course
    ensures { result ≡ course_of fault offered room }
{
    match fault {
        Some(Err(error)) => ControlFlow::Break(Err(error)),
        Some(Ok(most)) => pass_on(most.min(offered), room),
        None => pass_on(offered, room),
    }
}
