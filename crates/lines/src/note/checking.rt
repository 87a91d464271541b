// Whether a text would be refused as a note; nothing is altered.
ghost use Rattle.lines.specs.Notes.{NoteRule};
ghost use Rattle.page.specs.Rules.{refused_by};

use crate::note::{MAX_NOTE, Note};
use text::refusal::Refusal;
use text::texts::check_text_within;

impl Note {
    // Refuses a text that is not good or too long.
    pub fn check(text: &[u8]) -> Result<(), Refusal>
        ensures { NoteRule text.now (refused_by result) }
    {
        check_text_within(text, MAX_NOTE)
    }
}
