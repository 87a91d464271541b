// Notices above a block.
ghost use Rattle.std.specs.Prelude.{◌≡◌};
ghost use Rattle.page.specs.Acts.{ends_line};
ghost use Rattle.page.specs.Law.{Written};
ghost use Rattle.page.specs.Output.{framed};
ghost use Rattle.render.specs.Notices.{notice_writes};

use crate::update::write_framed;
use page::outcome::BrokenAct;
use terminal::terminal::Terminal;

// Whether a text ends with LF.
fn ends_line(text: &[u8]) -> bool
    ensures { result ≡ ends_line text.now }
{
    text.ends_with(b"\n")
}

// Writes what erases a block, a text, an LF if it has none, and what draws the block, in an update of its own on a
// terminal that holds updates.
pub fn write_notice<T: Terminal>(
    terminal: &mut T,
    erasing: &[u8],
    text: &[u8],
    drawing: &[u8],
    holds: bool,
) -> Result<(), BrokenAct>
    ensures { Written T.Terminal.answered terminal.old (framed holds (notice_writes erasing.now text.now drawing.now)) result terminal.new }
{
    if ends_line(text) {
        write_framed(terminal, &[erasing, text, drawing], holds)
    } else {
        write_framed(terminal, &[erasing, text, b"\n", drawing], holds)
    }
}
