// Prompts made of their two forms.
ghost use Rattle.lines.specs.Forms.{ShowsForm};
ghost use Rattle.lines.specs.Prompts.{MakesPrompt};

use crate::prompt::{MAX_PROMPT, Prompt};
use buffer::buffer::Buffer;
use text::refusal::Refusal;
use text::styled::visible_prompt;

impl Prompt {
    // A prompt of two forms, unless one is no good styled text or too long, or they show different texts.
    pub fn new(raw: &[u8], styled: &[u8]) -> Result<Prompt, Refusal>
        ensures { MakesPrompt raw.now styled.now result }
    {
        let visible = show_form(raw)?;
        let other = show_form(styled)?;
        if visible.as_slice() != other.as_slice() {
            return Err(Refusal::Prompt);
        }
        Ok(Prompt {
            raw: Buffer::try_from(raw).unwrap(),
            styled: Buffer::try_from(styled).unwrap(),
            visible,
        })
    }

    // A prompt with one form for both.
    pub fn plain(text: &[u8]) -> Result<Prompt, Refusal>
        ensures { MakesPrompt text.now text.now result }
    {
        Prompt::new(text, text)
    }
}

// What a form shows, unless it is no good styled text or too long.
fn show_form(form: &[u8]) -> Result<Buffer<MAX_PROMPT>, Refusal>
    ensures { ShowsForm form.now result }
{
    let mut memory = [0; MAX_PROMPT];
    let len = visible_prompt(form, &mut memory)?;
    Ok(Buffer::filled(memory, len))
}
