// The room behind a buffer's bytes.
ghost use Rattle.std.specs.Fn.{FnOnceReturnsAtMut};
ghost use Rattle.std.specs.Prelude.{ℕ, List, Option};
ghost use Rattle.buffer.specs.Contents.{contents, spare, Writes};

use crate::buffer::Buffer;

impl<const N: usize> Buffer<N> {
    // Lets a closure write to the room behind the bytes, and keeps as many bytes of it as the closure answers.
    pub fn extend_with<F: FnOnce(&mut [u8]) -> Option<usize>>(&mut self, write: F) -> Option<usize>
        requires { F.IsAlwaysCallable write }
        ensures { (room : List ℕ) × FnOnceReturnsAtMut F.FnOnce write (spare self.old) result room × Writes room (contents self.old) result (contents self.new) }
    {
        let memory = &mut self.memory[..];
        let count = write(&mut memory[self.len..])?;
        self.len += count.min(N - self.len);
        Some(count)
    }
}
