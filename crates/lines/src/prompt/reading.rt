// What a prompt can be asked.
ghost use Rattle.std.specs.Prelude.{◌≡◌};
ghost use Rattle.lines.specs.Prompts.{raw_of, styled_of, visible_of};

use crate::prompt::Prompt;

impl Prompt {
    // The form for a terminal without colours.
    pub fn raw(&self) -> &[u8]
        ensures { result.now ≡ raw_of self.now }
    {
        self.raw.as_slice()
    }

    // The form for a terminal with colours.
    pub fn styled(&self) -> &[u8]
        ensures { result.now ≡ styled_of self.now }
    {
        self.styled.as_slice()
    }

    // The text that both forms show.
    pub fn visible(&self) -> &[u8]
        ensures { result.now ≡ visible_of self.now }
    {
        self.visible.as_slice()
    }
}
