// Bytes composed one behind the other.
ghost use Rattle.std.specs.Prelude.{◌≡◌, ◌+◌, ◌≤◌, [], ◌++◌, length, decimal};
ghost use Rattle.render.specs.Composing.{composed, some_move};
ghost use Rattle.screen.specs.Output.{move_by};

use crate::renderer::PosixRenderer;
use buffer::buffer::Buffer;

impl PosixRenderer {
    // Nothing is composed yet.
    pub fn new() -> PosixRenderer
        ensures { composed result ≡ [] }
    {
        PosixRenderer {
            buffer: Buffer::new(),
        }
    }

    // The bytes composed last.
    pub fn contents(&self) -> &[u8]
        ensures { result.now ≡ composed self.now }
    {
        self.buffer.as_slice()
    }

    // Begins anew.
    pub(crate) fn clear(&mut self)
        ensures { composed self.new ≡ [] }
    {
        self.buffer.clear();
    }

    // Puts bytes behind what is composed.
    pub(crate) fn push(&mut self, bytes: &[u8])
        requires { length (composed self.old) + length bytes.now ≤ 8192 }
        ensures { composed self.new ≡ composed self.old ++ bytes.now }
    {
        self.buffer.extend_from_slice(bytes).unwrap();
    }

    // Puts a number in decimal behind what is composed.
    // Tried `write!`: no clause says that it answers `Ok`, so its `unwrap` is not proved.
    pub(crate) fn push_number(&mut self, n: u16)
        requires { length (composed self.old) + length (decimal n) ≤ 8192 }
        ensures { composed self.new ≡ composed self.old ++ decimal n }
    {
        let several = n >= 10;
        if several {
            self.push_number(n / 10);
        }
        self.push(&[b'0' + (n % 10) as u8]);
    }

    // Puts a move by a number behind what is composed.
    pub(crate) fn push_move(&mut self, final_byte: u8, n: u16)
        requires { length (composed self.old) + length (move_by final_byte n) ≤ 8192 }
        ensures { composed self.new ≡ composed self.old ++ move_by final_byte n }
    {
        self.push(b"\x1b[");
        self.push_number(n);
        self.push(&[final_byte]);
    }

    // The same, unless the number is 0.
    pub(crate) fn push_some_move(&mut self, final_byte: u8, n: u16)
        requires { length (composed self.old) + length (some_move final_byte n) ≤ 8192 }
        ensures { composed self.new ≡ composed self.old ++ some_move final_byte n }
    {
        if n > 0 {
            self.push_move(final_byte, n);
        }
    }
}
