// A prompt in two forms, raw and styled, and the text that both show.
ghost use Rattle.std.specs.Prelude.{◌≡◌, true};
ghost use Rattle.buffer.specs.Contents.{contents};
ghost use Rattle.page.specs.Computed.{shows_as};
ghost use Rattle.std.specs.Str.{chars};
ghost use Rattle.text.specs.Tests.{good_bytes};

use buffer::buffer::Buffer;

mod making;
mod reading;

// The most bytes of a form of a prompt.
pub const MAX_PROMPT: usize = 512;

// A prompt: its forms, and the text that they show.
#[derive(Clone, Copy)]
pub struct Prompt {
    raw: Buffer<MAX_PROMPT>,
    styled: Buffer<MAX_PROMPT>,
    visible: Buffer<MAX_PROMPT>,
    ghost plainly: { shows_as (contents raw) (chars (contents visible)) ≡ true },
    ghost coloured: { shows_as (contents styled) (chars (contents visible)) ≡ true },
    ghost good: { good_bytes (contents visible) ≡ true },
}
