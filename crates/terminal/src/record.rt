// A terminal that keeps the bytes written to it.
ghost use Rattle.std.specs.Prelude.{◌≤◌, vec_len};

use crate::size::Size;

// The bytes taken so far stand at the front of the memory.
// A vector's own length cannot count them: the memory is lent, and goes back whole, as it was behind them.
#[derive(Drop)]
pub struct Record<W> {
    pub(crate) memory: Vec<u8>,
    pub(crate) len: usize,
    pub(crate) size: Size,
    pub(crate) widths: W,
    ghost within: { len ≤ vec_len memory },
}
