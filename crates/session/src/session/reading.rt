// How a session stands.
ghost use Rattle.std.specs.Prelude.{◌≡◌};
ghost use Rattle.session.specs.Sessions.{is_torn};

use crate::session::Session;
use crate::standing::Standing;

impl Session {
    // Whether a write broke and no clear was accepted since.
    pub fn is_torn(&self) -> bool
        ensures { result ≡ is_torn self.now.standing }
    {
        self.standing == Standing::Torn
    }
}
