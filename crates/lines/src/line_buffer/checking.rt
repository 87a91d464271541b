// Whether a change of a line and its edit position would be refused; nothing is altered.
ghost use Rattle.lines.specs.Lines.{InsertRule, line_of, PlaceRule, UpdateRule};
ghost use Rattle.page.specs.Rules.{OneCharacter, refused_by};
ghost use Rattle.std.specs.Prelude.{Decides, IsUtf8};

use crate::line_buffer::{LineBuffer, MAX_LINE};
use text::decode::{char_at, is_good};
use text::refusal::Refusal;
use text::texts::{check_text_within, is_boundary};

impl LineBuffer {
    // Refuses a line and a position where the text is not good, too long, or has no character at the position.
    pub fn check_update(line: &[u8], pos: usize) -> Result<(), Refusal>
        ensures { UpdateRule line.now pos (refused_by result) }
    {
        check_text_within(line, MAX_LINE)?;
        check_place(line, pos)
    }

    // Refuses a position where the line has no character.
    pub fn check_pos(&self, pos: usize) -> Result<(), Refusal>
        ensures { PlaceRule (line_of self.now) pos (refused_by result) }
    {
        check_place(self.line(), pos)
    }

    // Refuses what is not one good character, and a count of it that makes the line too long.
    pub fn check_insert(&self, text: &[u8], count: u16) -> Result<(), Refusal>
        ensures { InsertRule (line_of self.now) text.now count (refused_by result) }
    {
        if !is_one_character(text) {
            return Err(Refusal::Text);
        }
        let added = usize::from(count) * text.len();
        if added > MAX_LINE - self.line.len() {
            return Err(Refusal::Long);
        }
        Ok(())
    }
}

// Refuses a position where a line, which is a good text, has no character.
fn check_place(line: &[u8], pos: usize) -> Result<(), Refusal>
    requires { IsUtf8 line.now }
    ensures { PlaceRule line.now pos (refused_by result) }
{
    is_boundary(line, pos).then_some(()).ok_or(Refusal::Place)
}

// Whether bytes are one good character.
fn is_one_character(bytes: &[u8]) -> bool
    ensures { Decides result (OneCharacter bytes.now) }
{
    match bytes {
        [byte] if *byte < 0x80 => is_good(char::from(*byte)),
        _ => is_decoded_whole(bytes),
    }
}

// Whether bytes are one good character, told by decoding it.
// Kept out of line, so that the caller saves no registers where a byte tells.
#[inline(never)]
fn is_decoded_whole(bytes: &[u8]) -> bool
    ensures { Decides result (OneCharacter bytes.now) }
{
    char_at(bytes, 0).is_some_and(|found| found.len == bytes.len() && is_good(found.code))
}
