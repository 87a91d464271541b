// Answers held against those of the oracle, and counted.
use player::fault::PlayFault;
use std::fmt;

// An answer of the oracle, and the line of the sample in which it stands, from 1.
#[derive(Clone, Copy)]
pub(crate) struct Expected<'a> {
    pub(crate) line: usize,
    pub(crate) answer: &'a [u8],
}

// How many answers were equal, and how many were not.
#[derive(Clone, Copy)]
pub(crate) struct Tally {
    pub(crate) equal: u64,
    pub(crate) different: u64,
}

impl Tally {
    // Nothing has been held against anything.
    pub(crate) fn new() -> Tally {
        Tally {
            equal: 0,
            different: 0,
        }
    }

    // Holds our answer against the oracle's, and prints it where they differ.
    pub(crate) fn hold<A: fmt::Display>(
        &mut self,
        rt: &HostRuntime,
        ours: &A,
        expected: Expected<'_>,
    ) -> Result<(), PlayFault> {
        let text = format!(in rt.alloc(); "{ours}")?;
        if text.as_bytes() == expected.answer {
            self.equal = self.equal.saturating_add(1);
            return Ok(());
        }
        self.different = self.different.saturating_add(1);
        let line = expected.line;
        println!(rt; "line {line}: ours is {text}")?;
        Ok(())
    }

    // Counts an answer for which there is nothing to hold against it.
    pub(crate) fn miss(&mut self, rt: &HostRuntime, line: usize) -> Result<(), PlayFault> {
        self.different = self.different.saturating_add(1);
        println!(rt; "line {line}: an act or an answer is missing")?;
        Ok(())
    }
}

impl fmt::Display for Tally {
    fn fmt<W: fmt::Write>(&self, f: &mut fmt::Formatter<W>) -> fmt::Result {
        let all = self.equal.saturating_add(self.different);
        let equal = self.equal;
        let different = self.different;
        write!(f, "answers {all} equal {equal} different {different}")
    }
}
