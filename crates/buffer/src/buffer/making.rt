// Buffers made of bytes.
ghost use Rattle.buffer.specs.Contents.{Fills};

use crate::buffer::{Buffer, Full};

impl<const N: usize> TryFrom<&[u8]> for Buffer<N> {
    type Error = Full;

    ghost try_from_gives = { λ bytes made. Fills bytes.now made };

    fn try_from(bytes: &[u8]) -> Result<Buffer<N>, Full> {
        let mut made = Buffer::new();
        made.set(bytes)?;
        Ok(made)
    }
}
