// Who is told of the acts of a script.
use crate::fault::PlayFault;
use crate::visible::Visible;
use page::outcome::Rejection;
use terminal::size::Size;
use text::refusal::Refusal;

// An act that is done.
#[derive(Clone, Copy)]
pub struct Done<'a> {
    // the word that a script has for it
    pub name: &'static str,
    pub outcome: Result<(), Rejection>,
    // its bytes that have worked
    pub worked: &'a [u8],
    // the terminal's window
    pub size: Size,
    // whether the session is then torn
    pub torn: bool,
}

pub trait Watcher {
    // An act was done, and the terminal is then this; a fault ends the play.
    fn told<S: Visible>(&mut self, terminal: &S, done: Done<'_>) -> Result<(), PlayFault>;

    // A create was refused, since no terminal has the script's size.
    fn told_nowhere(&mut self, refusal: Refusal) -> Result<(), PlayFault>;
}
