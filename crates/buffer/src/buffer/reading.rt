// What a buffer can be asked.
ghost use Rattle.std.specs.Prelude.{◌≡◌, length};
ghost use Rattle.buffer.specs.Contents.{contents};

use crate::buffer::Buffer;

impl<const N: usize> Buffer<N> {
    // The bytes.
    pub fn as_slice(&self) -> &[u8]
        ensures { result.now ≡ contents self.now }
    {
        &self.memory[..self.len]
    }

    // How many bytes there are.
    pub fn len(&self) -> usize
        ensures { result ≡ length (contents self.now) }
    {
        self.len
    }
}
