// Whether a session takes an act at all.
ghost use Rattle.std.specs.Prelude.{◌≡◌};
ghost use Rattle.page.specs.Rules.{refused_by};
ghost use Rattle.session.specs.Admitting.{Admits, height_of, window_of};

use crate::session::Session;
use crate::standing::Standing;
use measuring::measuring::Window;
use terminal::terminal::Terminal;
use text::refusal::Refusal;

impl Session {
    // The window, and where the prompt ends in it.
    pub(crate) fn window(&self) -> Window
        ensures { result ≡ window_of self.now }
    {
        Window {
            size: self.size,
            prompt: self.prompt,
        }
    }

    // Refuses an act that does not mend a torn session, and a terminal that is not of the checked size, or was not at create.
    pub(crate) fn admit<T: Terminal>(&self, terminal: &T, mends: bool) -> Result<(), Refusal>
        ensures { Admits self.now (T.Terminal.extent terminal.now) mends (refused_by result) }
    {
        if self.standing == Standing::Torn && !mends {
            return Err(Refusal::Torn);
        }
        if terminal.size() != self.size || self.begun != self.size {
            return Err(Refusal::Size);
        }
        Ok(())
    }

    // Refuses a session whose prompt alone is too high.
    pub(crate) fn check_height(&self) -> Result<(), Refusal>
        ensures { result ≡ height_of self.now.standing }
    {
        match self.standing {
            Standing::Tall => Err(Refusal::Tall),
            Standing::Open => Ok(()),
            Standing::Torn => Ok(()),
        }
    }
}
