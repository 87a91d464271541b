// A terminal over another one, which fails as it is told.
ghost use Rattle.std.specs.Prelude.{◌≡◌, length};
ghost use Rattle.faults.specs.Faulty.{Answered, Begun, Emptied, Roomy, next_course};
ghost use Rattle.terminal.specs.Windows.{geometry};
ghost use Rattle.faults.specs.Faults.{answer_at};
ghost use Rattle.faults.specs.Courses.{course-fits, course-worked, follows-fixed};
ghost use Rattle.std.proofs.Common.{rules};

use crate::fault::{Fault, answer_at, course_of};
use std::ops::ControlFlow;
use terminal::size::Size;
use terminal::terminal::{Terminal, WriteAnswer, taken};

// Counts the calls of its write, answers those that have a fault by it, passes the others on, and keeps the bytes that have worked.
// A write for whose bytes there is no memory is down: no byte works unseen.
#[derive(Drop)]
pub struct Faulty<T> {
    pub below: T,
    // the bytes that have worked since the log was emptied
    pub log: Vec<u8>,
    faults: Vec<Fault>,
    calls: usize,
}

// Makes room for so many more bytes, and says for how many there is room: all or none.
fn make_room(log: &mut Vec<u8>, count: usize) -> usize
    ensures { Roomy log.old count result log.new }
{
    log.reserve(count).map_or(0, |()| count)
}

impl<T> Faulty<T> {
    // No call has come yet.
    pub fn new(below: T, faults: Vec<Fault>, log: Vec<u8>) -> Faulty<T>
        ensures { Begun below faults log result }
    {
        Faulty {
            below,
            log,
            faults,
            calls: 0,
        }
    }

    // How many calls have come.
    pub fn calls(&self) -> usize
        ensures { result ≡ self.now.calls }
    {
        self.calls
    }

    // Forgets the bytes that have worked so far.
    pub fn empty_log(&mut self)
        ensures { Emptied self.old self.new }
    {
        self.log.clear();
    }
}

impl<T: Terminal> Terminal for Faulty<T> {
    type Widths = T::Widths;

    ghost screen = { λ f. T.Terminal.screen f.below };

    ghost extent = { λ f. T.Terminal.extent f.below };

    ghost answered = { λ f bytes a g. Answered T.Terminal.answered f bytes a g };

    ghost inside = { Prim.search rules };

    ghost works = { λ s t bytes a h.
        course-worked T.Terminal.answered s.below t.below (geometry T.Widths.WidthTable.columns (T.Terminal.extent s.below)) T.Terminal.screen
        (T.Terminal.works s.below t.below) (next_course s bytes h.room) bytes h.room a (course-fits (answer_at s.faults.items s.calls) (length bytes) h.room) h.below };

    ghost fixed = { λ s t bytes a h. follows-fixed T.Terminal.answered s.below t.below T.Terminal.extent (T.Terminal.fixed s.below t.below) (next_course s bytes h.room) bytes a h.below };

    fn size(&self) -> Size {
        self.below.size()
    }

    fn write(&mut self, bytes: &[u8]) -> WriteAnswer {
        let call = self.calls;
        self.calls = call.saturating_add(1);
        let fault = answer_at(self.faults.as_slice(), call);
        let room = make_room(&mut self.log, bytes.len());
        match course_of(fault, bytes.len(), room) {
            ControlFlow::Break(answer) => answer,
            ControlFlow::Continue(count) => {
                let answer = self.below.write(&bytes[..count]);
                let _ = self.log.extend_from_slice(&bytes[..taken(answer)]);
                answer
            }
        }
    }
}
