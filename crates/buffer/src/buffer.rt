// Bytes at the front of a fixed memory.
ghost use Rattle.std.specs.Prelude.{◌≡◌, ◌≤◌, length};

mod making;
mod reading;
mod spare;
mod writing;

// At most `N` bytes: those in the first `len` bytes of the memory.
// The length stands beside the memory, since there is no heap below the programs; a type of the kit's would be no `Copy`, as a prompt is.
#[derive(Clone, Copy)]
pub struct Buffer<const N: usize> {
    memory: [u8; N],
    len: usize,
    ghost whole: { length memory ≡ N },
    ghost within: { len ≤ N },
}

// Bytes for which a buffer has no room.
#[derive(Clone, Copy, Debug, PartialEq, Eq)]
pub struct Full;
