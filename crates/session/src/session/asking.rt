// What a session asks of its highlighter.
ghost use Rattle.session.specs.Asking.{Asked};

use crate::session::Session;
use highlight::highlight::{CmdKind, Highlighter};
use lines::line_buffer::LineBuffer;

impl Session {
    // Asks whether the line is to be drawn anew, remembers the answer, and tells whether it is now or was before;
    // without colours nobody is asked.
    pub(crate) fn highlight_char<H: Highlighter>(
        &mut self,
        highlighter: &mut H,
        line: &LineBuffer,
        kind: CmdKind,
    ) -> bool
        ensures { Asked (λ h text pos. H.Highlighter.heeds h text pos kind) highlighter.old line.now self.old result self.new highlighter.new }
    {
        let before = self.lit;
        let yes = if self.colours {
            highlighter.highlight_char(line.line(), line.pos(), kind)
        } else {
            false
        };
        self.lit = yes;
        yes || before
    }
}
