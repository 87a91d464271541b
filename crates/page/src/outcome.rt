// How an act ends.
ghost use Rattle.std.specs.Prelude.{◌≡◌, Some};
ghost use Rattle.page.specs.Outcomes.{broken_text, rejection_text};
ghost use Rattle.page.specs.declared.outcome.Rejection.TheVariants.{Broke, Refused};

use std::fmt;
use terminal::writing::BrokenWrite;
use text::refusal::Refusal;

// The write that broke an act: its number among the act's writes, from 0, and how it ended.
#[derive(Clone, Copy, Debug, PartialEq, Eq)]
pub struct BrokenAct {
    pub number: usize,
    pub write: BrokenWrite,
}

impl fmt::Display for BrokenAct {
    ghost output = { λ b. Some (broken_text b) };

    fn fmt<W: fmt::Write>(&self, f: &mut fmt::Formatter<W>) -> fmt::Result {
        let fault = self.write.fault;
        let number = self.number;
        let taken = self.write.taken;
        write!(f, "{fault} write {number} taken {taken}")
    }
}

// Why an act is not accepted.
#[derive(Clone, Copy, Debug, PartialEq, Eq)]
pub enum Rejection {
    // by a rule, with nothing written or altered
    Refused(Refusal),
    // by the terminal, in the middle of its writes
    Broke(BrokenAct),
}

impl From<Refusal> for Rejection {
    ghost from_gives = { λ refusal r. r ≡ Refused refusal };

    fn from(refusal: Refusal) -> Rejection {
        Rejection::Refused(refusal)
    }
}

impl From<BrokenAct> for Rejection {
    ghost from_gives = { λ broken r. r ≡ Broke broken };

    fn from(broken: BrokenAct) -> Rejection {
        Rejection::Broke(broken)
    }
}

impl fmt::Display for Rejection {
    ghost output = { λ r. Some (rejection_text r) };

    fn fmt<W: fmt::Write>(&self, f: &mut fmt::Formatter<W>) -> fmt::Result {
        match self {
            Rejection::Refused(refusal) => write!(f, "{refusal}"),
            Rejection::Broke(broken) => write!(f, "{broken}"),
        }
    }
}
