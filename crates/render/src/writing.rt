// Writes of pieces.
ghost use Rattle.std.specs.Prelude.{◌+◌, ◌^◌, ◌<◌, [], ◌∷◌, length};
ghost use Rattle.page.specs.Law.{Written};
ghost use Rattle.render.specs.Numbering.{FollowAll, Follows, bytes_of};
ghost use Rattle.screen.specs.Output.{clear_bytes};

use page::outcome::BrokenAct;
use terminal::terminal::Terminal;
use terminal::writing::write_all;

// Writes all of some bytes, as the only write of an act.
pub fn write_and_flush<T: Terminal>(terminal: &mut T, bytes: &[u8]) -> Result<(), BrokenAct>
    ensures { Written T.Terminal.answered terminal.old (bytes.now ∷ []) result terminal.new }
{
    write_next(terminal, bytes, 0)
}

// Writes all of some bytes, as the write of an act with so many before it.
pub fn write_next<T: Terminal>(
    terminal: &mut T,
    bytes: &[u8],
    before: usize,
) -> Result<(), BrokenAct>
    ensures { Follows T.Terminal.answered before terminal.old bytes.now result terminal.new }
{
    write_all(terminal, bytes).map_err(|write| BrokenAct {
        number: before,
        write,
    })
}

// Writes some pieces, as the writes of an act with so many before them.
pub(crate) fn write_pieces<T: Terminal>(
    terminal: &mut T,
    pieces: &[&[u8]],
    before: usize,
) -> Result<(), BrokenAct>
    requires { before + length pieces.now < 2 ^ 64 }
    ensures { FollowAll T.Terminal.answered before terminal.old (bytes_of pieces.now) result terminal.new }
{
    for (number, piece) in pieces.iter().enumerate() {
        write_next(terminal, piece, before + number)?;
    }
    Ok(())
}

// Blanks the window and puts the cursor at its first place.
pub fn clear_screen<T: Terminal>(terminal: &mut T) -> Result<(), BrokenAct>
    ensures { Written T.Terminal.answered terminal.old (clear_bytes ∷ []) result terminal.new }
{
    write_and_flush(terminal, b"\x1b[H\x1b[J")
}
