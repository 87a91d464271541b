// Acts that are played, held against the oracle's answers.
use crate::answers::Ended;
use crate::tally::{Expected, Tally};
use page::outcome::Rejection;
use player::fault::PlayFault;
use player::screen_report::Shown;
use player::visible::Visible;
use player::watcher::{Done, Watcher};
use text::refusal::Refusal;

// What is expected of an act: how it ends, with its bytes, and behind some acts the screen.
#[derive(Clone, Copy)]
pub(crate) struct ExpectedAct<'a> {
    pub(crate) ending: Expected<'a>,
    pub(crate) screen: Option<Expected<'a>>,
}

// Holds each act against what is expected of the next.
#[derive(Drop)]
pub(crate) struct Holder<'a> {
    rt: HostRuntime,
    acts: &'a [ExpectedAct<'a>],
    // how many acts have been held
    done: usize,
    tally: Tally,
}

impl<'a> Holder<'a> {
    // Nothing has been played.
    pub(crate) fn new(rt: HostRuntime, acts: &'a [ExpectedAct<'a>], tally: Tally) -> Holder<'a> {
        Holder {
            rt,
            acts,
            done: 0,
            tally,
        }
    }

    // Holds how an act ended, and gives what is expected of the screen behind it.
    fn hold(
        &mut self,
        outcome: Result<(), Rejection>,
        worked: &[u8],
    ) -> Result<Option<Expected<'a>>, PlayFault> {
        let next = self.acts.get(self.done).copied();
        self.done = self.done.saturating_add(1);
        match next {
            Some(expected) => {
                let ours = Ended { outcome, worked };
                self.tally.hold(&self.rt, &ours, expected.ending)?;
                Ok(expected.screen)
            }
            None => {
                let line = self.acts.last().map_or(0, |last| last.ending.line);
                self.tally.miss(&self.rt, line)?;
                Ok(None)
            }
        }
    }

    // Counts the acts that have not been played.
    pub(crate) fn end(self) -> Result<Tally, PlayFault> {
        let Holder {
            rt,
            acts,
            done,
            mut tally,
        } = self;
        for expected in acts.iter().skip(done) {
            tally.miss(&rt, expected.ending.line)?;
        }
        Ok(tally)
    }
}

impl Watcher for Holder<'_> {
    fn told<S: Visible>(&mut self, terminal: &S, done: Done<'_>) -> Result<(), PlayFault> {
        match self.hold(done.outcome, done.worked)? {
            Some(screen) => {
                let ours = Shown {
                    terminal,
                    size: done.size,
                    torn: done.torn,
                    before_row: ' ',
                };
                self.tally.hold(&self.rt, &ours, screen)
            }
            None => Ok(()),
        }
    }

    fn told_nowhere(&mut self, refusal: Refusal) -> Result<(), PlayFault> {
        match self.hold(Err(Rejection::Refused(refusal)), &[])? {
            // there is no screen
            Some(screen) => self.tally.miss(&self.rt, screen.line),
            None => Ok(()),
        }
    }
}
