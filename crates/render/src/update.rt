// Updates that a terminal holds back until their end.
ghost use Rattle.std.specs.Prelude.{◌^◌, ◌<◌, [], ◌∷◌, length, if◌then◌else◌};
ghost use Rattle.page.specs.Law.{Written};
ghost use Rattle.page.specs.Output.{framed};
ghost use Rattle.render.specs.Numbering.{bytes_of};
ghost use Rattle.render.specs.Updates.{Remembers, forgotten};
ghost use Rattle.screen.specs.Output.{hold_bytes, release_bytes};

use crate::writing::{write_and_flush, write_pieces};
use page::outcome::BrokenAct;
use terminal::terminal::Terminal;

// A begun update, which is ended or abandoned.
pub struct SynchronizedUpdate {
    held: bool,
}

// Begins an update, on a terminal that holds updates.
pub fn begin_synchronized_update<T: Terminal>(
    terminal: &mut T,
    holds: bool,
) -> Result<SynchronizedUpdate, BrokenAct>
    ensures written { Written T.Terminal.answered terminal.old (if holds then hold_bytes ∷ [] else []) (forgotten result) terminal.new }
    ensures begun { Remembers holds result }
{
    if holds {
        write_and_flush(terminal, b"\x1b[?2026h")?;
    }
    Ok(SynchronizedUpdate { held: holds })
}

// Ends an update: what was held back is shown.
pub fn end_synchronized_update<T: Terminal>(
    update: SynchronizedUpdate,
    terminal: &mut T,
) -> Result<(), BrokenAct>
    ensures { Written T.Terminal.answered terminal.old (if update.held then release_bytes ∷ [] else []) result terminal.new }
{
    let SynchronizedUpdate { held } = update;
    if held {
        return write_and_flush(terminal, b"\x1b[?2026l");
    }
    Ok(())
}

// Gives an update up, with nothing written.
pub fn abandon_synchronized_update(update: SynchronizedUpdate) {
    let SynchronizedUpdate { held: _ } = update;
}

// Writes all of some bytes, in an update of their own on a terminal that holds updates.
pub fn write_synchronized<T: Terminal>(
    terminal: &mut T,
    bytes: &[u8],
    holds: bool,
) -> Result<(), BrokenAct>
    ensures { Written T.Terminal.answered terminal.old (framed holds (bytes.now ∷ [])) result terminal.new }
{
    write_framed(terminal, &[bytes], holds)
}

// Writes some pieces, in an update of their own on a terminal that holds updates.
// A struct of the terminal and `holds` would be no plainer: with a `&mut` in it, each method has to keep its ghost name.
pub(crate) fn write_framed<T: Terminal>(
    terminal: &mut T,
    pieces: &[&[u8]],
    holds: bool,
) -> Result<(), BrokenAct>
    requires { length pieces.now < 2 ^ 32 }
    ensures { Written T.Terminal.answered terminal.old (framed holds (bytes_of pieces.now)) result terminal.new }
{
    let update = begin_synchronized_update(terminal, holds)?;
    let before = usize::from(holds);
    if let Err(broken) = write_pieces(terminal, pieces, before) {
        abandon_synchronized_update(update);
        return Err(broken);
    }
    let number = before + pieces.len();
    end_synchronized_update(update, terminal).map_err(|broken| BrokenAct { number, ..broken })
}
