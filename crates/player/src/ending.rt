// How an act ended, in words.
use page::outcome::Rejection;
use std::fmt;
use terminal::terminal::{WriteAnswer, WriteError};

// The word for the answer that broke a write.
fn answer_word(answer: WriteAnswer) -> &'static str {
    match answer {
        Ok(_) => "zero",
        Err(WriteError::Interrupted) => "interrupted",
        Err(WriteError::Down) => "down",
    }
}

// Accepted; or refused, with number and word; or broken, with the write, the bytes taken and the last answer.
#[derive(Drop)]
pub struct Ending {
    pub outcome: Result<(), Rejection>,
}

impl fmt::Display for Ending {
    fn fmt<W: fmt::Write>(&self, f: &mut fmt::Formatter<W>) -> fmt::Result {
        match self.outcome {
            Ok(()) => f.write_str("accepted"),
            Err(Rejection::Refused(refusal)) => write!(f, "refused {refusal}"),
            Err(Rejection::Broke(broken)) => {
                let answer = answer_word(broken.write.answer);
                write!(f, "refused {broken} {answer}")
            }
        }
    }
}
