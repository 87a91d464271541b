// What composes the bytes of a drawing.
use buffer::buffer::Buffer;

mod composing;
mod drawing;
mod erasing;
mod moving;
mod printing;
mod styling;

// The most bytes that are composed at a time.
pub const MAX_BYTES: usize = 8192;

// The bytes composed last. What puts bytes behind them asks for room, each for its own: a type would carry no more than the number.
#[derive(Drop)]
pub struct PosixRenderer {
    buffer: Buffer<MAX_BYTES>,
}
