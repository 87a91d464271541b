// What a note holds, and what changes it.
ghost use Rattle.std.specs.Prelude.{◌≡◌, ◌≤◌, length, take, Some, None};
ghost use Rattle.lines.specs.Notes.{Sets, note_of};
ghost use Rattle.std.specs.Option.{option_map};
ghost use Rattle.text.specs.Texts.{GoodText};

use crate::note::{MAX_NOTE, Note};
use hint::hint::Hinter;
use text::refusal::Refusal;

impl Note {
    // No note.
    pub fn new() -> Note
        ensures { note_of result ≡ None }
    {
        Note {
            memory: [0; MAX_NOTE],
            len: None,
        }
    }

    // The note's bytes, if there is one.
    pub fn get(&self) -> Option<&[u8]>
        ensures { option_map (λ x. x.now) result ≡ note_of self.now }
    {
        let len = self.len?;
        Some(&self.memory[..len])
    }

    // Drops the note.
    pub fn clear(&mut self)
        ensures { note_of self.new ≡ None }
    {
        self.len = None;
    }

    // Takes a text for a note, unless it is not good or too long.
    pub fn set(&mut self, text: &[u8]) -> Result<(), Refusal>
        ensures { Sets text.now self.old result self.new }
    {
        Note::check(text)?;
        self.keep(text);
        Ok(())
    }

    // Takes a good text that is not too long, and copies no more than its bytes.
    fn keep(&mut self, text: &[u8])
        requires good { GoodText text.now }
        requires short { length text.now ≤ 1024 }
        ensures { note_of self.new ≡ Some text.now }
    {
        write_front(text, &mut self.memory);
        self.len = Some(text.len());
    }

    // Takes what another note holds.
    pub fn copy_from(&mut self, other: &Note)
        ensures { note_of self.new ≡ note_of other.now }
    {
        match other.get() {
            Some(text) => self.keep(text),
            None => self.clear(),
        }
    }

    // Takes a hinter's answer for a line and a position, a hint or none.
    pub fn fill<N: Hinter>(&mut self, hinter: &N, line: &[u8], pos: usize)
        ensures { note_of self.new ≡ N.Hinter.hints hinter.now line.now pos }
    {
        self.len = hinter.hint(line, pos, &mut self.memory);
    }
}

// Writes a text to the front of a memory.
fn write_front(text: &[u8], memory: &mut [u8; MAX_NOTE])
    requires { length text.now ≤ 1024 }
    ensures { take (length text.now) memory.new ≡ text.now }
{
    memory[..text.len()].copy_from_slice(text);
}
