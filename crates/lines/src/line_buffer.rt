// The line of a session, and the edit position in it.
ghost use Rattle.std.specs.Prelude.{◌≡◌, ◌≤◌, true, length, take};
ghost use Rattle.buffer.specs.Contents.{contents};
ghost use Rattle.text.specs.Tests.{good_bytes};

use buffer::buffer::Buffer;

mod checking;
mod editing;
mod reading;

// The most bytes of a line.
pub const MAX_LINE: usize = 4096;

// A line, a good text, and the edit position, which is at a character or at the line's end.
#[derive(Drop)]
pub struct LineBuffer {
    line: Buffer<MAX_LINE>,
    pos: usize,
    ghost good: { good_bytes (contents line) ≡ true },
    ghost inside: { pos ≤ length (contents line) },
    ghost front: { good_bytes (take pos (contents line)) ≡ true },
}
