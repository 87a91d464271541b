// What is printed of each act.
ghost use Rattle.std.specs.Prelude.{◌≡◌};
ghost use Rattle.running.specs.Deeds.{deed};
ghost use Rattle.player.specs.Reports.{name_of};

use crate::byte_report::print_bytes;
use crate::ending::Ending;
use crate::fault::PlayFault;
use crate::screen_report::print_screen;
use crate::visible::Visible;
use crate::watcher::{Done, Watcher};
use running::act::Act;
use std::io::Write;
use text::refusal::Refusal;

// The word that a script has for an act.
pub(crate) fn act_name(act: &Act<'_>) -> &'static str
    ensures { result.now ≡ name_of (deed act.now) }
{
    match act {
        Act::Insert(_, _) => "insert",
        Act::Set(_, _) => "set",
        Act::Go(_) => "go",
        Act::Refresh => "refresh",
        Act::Message(_) => "message",
        Act::Notice(_) => "notice",
        Act::Clear => "clear",
        Act::Finish => "finish",
    }
}

// Prints each act when it is done: how it ended, which of its bytes have worked, and the screen then.
#[derive(Drop)]
pub(crate) struct Reporter {
    pub(crate) rt: HostRuntime,
}

impl Watcher for Reporter {
    fn told<S: Visible>(&mut self, terminal: &S, done: Done<'_>) -> Result<(), PlayFault> {
        let rt = &self.rt;
        let name = done.name;
        let ending = Ending {
            outcome: done.outcome,
        };
        println!(rt; "{name}: {ending}")?;
        print_bytes(rt, done.worked)?;
        print_screen(rt, terminal, done.size, done.torn)?;
        // what was printed so far is to be seen
        rt.stdout().flush()?;
        Ok(())
    }

    fn told_nowhere(&mut self, refusal: Refusal) -> Result<(), PlayFault> {
        println!(self.rt; "create: refused {refusal}")?;
        Ok(())
    }
}
