// What puts bytes into a buffer.
ghost use Rattle.std.specs.Prelude.{◌≡◌, ◌+◌, ◌≤◌, ◌∷◌, ◌++◌, [], length, take, drop};
ghost use Rattle.std.specs.List.{repeat};
ghost use Rattle.buffer.specs.Contents.{Becomes, contents};

use crate::buffer::{Buffer, Full};

impl<const N: usize> Buffer<N> {
    // No bytes yet.
    pub fn new() -> Buffer<N>
        ensures { contents result ≡ [] }
    {
        Buffer {
            memory: [0; N],
            len: 0,
        }
    }

    // The bytes at the front of a memory.
    pub fn filled(memory: [u8; N], len: usize) -> Buffer<N>
        ensures { contents result ≡ take len memory.entry }
    {
        Buffer {
            memory,
            len: len.min(N),
        }
    }

    // Lets all bytes go.
    pub fn clear(&mut self)
        ensures { contents self.new ≡ [] }
    {
        self.len = 0;
    }

    // Takes other bytes, unless there is no room for them.
    pub fn set(&mut self, bytes: &[u8]) -> Result<(), Full>
        ensures { Becomes bytes.now self.old result self.new }
    {
        if bytes.len() > N {
            return Err(Full);
        }
        self.clear();
        self.extend_from_slice(bytes)
    }

    // Puts bytes behind those that are there, unless there is no room for them.
    pub fn extend_from_slice(&mut self, bytes: &[u8]) -> Result<(), Full>
        ensures { Becomes (contents self.old ++ bytes.now) self.old result self.new }
    {
        if bytes.len() > N - self.len {
            return Err(Full);
        }
        self.append(bytes);
        Ok(())
    }

    // Puts bytes behind those that are there, where there is room for them.
    fn append(&mut self, bytes: &[u8])
        requires { length (contents self.old) + length bytes.now ≤ N }
        ensures { contents self.new ≡ contents self.old ++ bytes.now }
    {
        let len = self.len;
        let end = len + bytes.len();
        let memory = &mut self.memory[..];
        memory[len..end].copy_from_slice(bytes);
        self.len = end;
    }

    // Puts a byte behind those that are there, unless there is no room for it.
    fn push(&mut self, byte: u8) -> Result<(), Full>
        ensures { Becomes (contents self.old ++ byte ∷ []) self.old result self.new }
    {
        if self.len == N {
            return Err(Full);
        }
        self.memory[self.len] = byte;
        self.len += 1;
        Ok(())
    }

    // Puts a text so many times behind the bytes that are there, unless there is no room.
    pub fn extend_repeated(&mut self, text: &[u8], count: u16) -> Result<(), Full>
        ensures { Becomes (contents self.old ++ repeat count text.now) self.old result self.new }
    {
        if let ([byte], 1) = (text, count) {
            return self.push(*byte);
        }
        let Some(added) = text.len().checked_mul(usize::from(count)) else {
            return Err(Full);
        };
        if added > N - self.len {
            return Err(Full);
        }
        for _ in 0..count {
            self.append(text);
        }
        Ok(())
    }

    // Puts a text so many times before the byte at an index, or at the end, unless there is no room.
    pub fn insert_repeated(&mut self, at: usize, text: &[u8], count: u16) -> Result<(), Full>
        ensures { Becomes (take at (contents self.old) ++ (repeat count text.now ++ drop at (contents self.old))) self.old result self.new }
    {
        let len = self.len;
        self.extend_repeated(text, count)?;
        if at < len {
            let memory = &mut self.memory[..self.len];
            memory[at..].rotate_left(len - at);
        }
        Ok(())
    }
}
