// The sample: parts with a head line each, and in them what is asked and what the oracle answers.
use crate::cases::{BracketCase, PlaceCase};
use crate::fault::Fault;
use crate::holder::{ExpectedAct, Holder};
use crate::tally::{Expected, Tally};
use player::fault::PlayFault;
use player::play::play;
use script::reading::read_script;
use text::lines::Lines;

// What stands in a part.
#[derive(Clone, Copy)]
enum Part {
    // a script of acts, as `caption run` plays it; an answer behind each act, and behind some answers the screen
    Acts,
    // a measured text a line, and an answer behind each
    Places,
    // a line and a position a line, and an answer behind each
    Brackets,
}

impl Part {
    // The part that begins with a line. No `FromStr`: an error would say no more than `None`.
    fn headed(line: &[u8]) -> Option<Part> {
        match line {
            b"[acts]" => Some(Part::Acts),
            b"[places]" => Some(Part::Places),
            b"[brackets]" => Some(Part::Brackets),
            _ => None,
        }
    }
}

// The oracle's answer that a line says: by the crate's own text, or, where that differs, by our rules.
fn answer_in(line: &[u8]) -> Option<&[u8]> {
    line.strip_prefix(b"#crate ")
        .or_else(|| line.strip_prefix(b"#rules "))
}

// A sample that is being read.
#[derive(Drop)]
struct Reader<'a> {
    rt: HostRuntime,
    part: Part,
    // of a script: its lines, and what is expected of its acts
    script: Vec<u8>,
    acts: Vec<ExpectedAct<'a>>,
    // of another part: the case whose answer comes next
    case: &'a [u8],
    tally: Tally,
}

impl<'a> Reader<'a> {
    // Plays the script that was read, if one was.
    fn end_script(&mut self) -> Result<(), Fault> {
        if self.script.is_empty() && self.acts.is_empty() {
            return Ok(());
        }
        let heap = self.rt.alloc();
        let mut script = read_script(heap, self.script.as_slice()).map_err(|_| Fault::Memory)?;
        if let Some(error) = script.error.take() {
            return Err(Fault::Play(PlayFault::Script(error)));
        }
        let mut holder = Holder::new(self.rt.clone()?, self.acts.as_slice(), self.tally);
        play(&mut holder, heap, &script)?;
        self.tally = holder.end()?;
        self.script.clear();
        self.acts.clear();
        Ok(())
    }

    // Measures the text of a case.
    fn hold_place(&mut self, case: &str, expected: Expected<'a>) -> Result<(), Fault> {
        let place = PlaceCase::read(self.rt.alloc(), case).ok_or(Fault::Case(expected.line))?;
        self.tally.hold(&self.rt, &place.measured(), expected)?;
        Ok(())
    }

    // Looks for the bracket of a case.
    fn hold_bracket(&mut self, case: &str, expected: Expected<'a>) -> Result<(), Fault> {
        let bracket = BracketCase::read(self.rt.alloc(), case).ok_or(Fault::Case(expected.line))?;
        let mut out = [0u8; 600];
        let lit = bracket.lit(&mut out).ok_or(Fault::Case(expected.line))?;
        self.tally.hold(&self.rt, &lit, expected)?;
        Ok(())
    }

    // Takes an answer.
    fn take_answer(&mut self, expected: Expected<'a>) -> Result<(), Fault> {
        let case = std::str::from_utf8(self.case).map_err(|_| Fault::Case(expected.line))?;
        match self.part {
            Part::Acts => self.acts.push(ExpectedAct {
                ending: expected,
                screen: None,
            })?,
            Part::Places => self.hold_place(case, expected)?,
            Part::Brackets => self.hold_bracket(case, expected)?,
        }
        Ok(())
    }

    // Takes what is expected of the screen behind the act whose answer came last.
    fn take_screen(&mut self, screen: Expected<'a>) -> Result<(), Fault> {
        let act = self.acts.last_mut().ok_or(Fault::Case(screen.line))?;
        act.screen = Some(screen);
        Ok(())
    }

    // Takes a line that is neither a head nor an answer.
    fn take_case(&mut self, text: &'a [u8]) -> Result<(), Fault> {
        match self.part {
            Part::Acts => {
                self.script.extend_from_slice(text)?;
                self.script.push(b'\n')?;
            }
            Part::Places | Part::Brackets => self.case = text,
        }
        Ok(())
    }

    // Takes a line.
    fn take(&mut self, line: usize, text: &'a [u8]) -> Result<(), Fault> {
        if let Some(part) = Part::headed(text) {
            self.end_script()?;
            self.part = part;
            return Ok(());
        }
        if let Some(answer) = text.strip_prefix(b"#screen ") {
            return self.take_screen(Expected { line, answer });
        }
        match answer_in(text) {
            Some(answer) => self.take_answer(Expected { line, answer }),
            None => self.take_case(text),
        }
    }
}

// Replays a sample: how many answers are equal, and how many are not.
pub(crate) fn replay(rt: &HostRuntime, bytes: &[u8]) -> Result<Tally, Fault> {
    let heap = rt.alloc();
    let mut reader = Reader {
        rt: rt.clone()?,
        part: Part::Acts,
        script: Vec::new(heap),
        acts: Vec::new(heap),
        case: &[],
        tally: Tally::new(),
    };
    for (line, text) in (1..).zip(Lines::new(bytes)) {
        reader.take(line, text)?;
    }
    reader.end_script()?;
    Ok(reader.tally)
}
