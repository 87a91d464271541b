// A terminal that passes a write on in small portions.
ghost use Rattle.std.specs.Prelude.{◌≡◌, take};
ghost use Rattle.terminal.specs.Windows.{geometry};
ghost use Rattle.terminal.specs.Feeds.{worked-front};
ghost use Rattle.std.proofs.Common.{rules};

use crate::size::Size;
use crate::terminal::{Terminal, WriteAnswer};

const PORTION: usize = 32;

// Passes at most 32 bytes of a write to the terminal below, and gives its answer.
#[derive(Drop)]
pub struct Pacer<T> {
    pub below: T,
}

// The first bytes, 32 at most.
fn portion(bytes: &[u8]) -> &[u8]
    ensures { result.now ≡ take 32 bytes.now }
{
    &bytes[..bytes.len().min(PORTION)]
}

impl<T> Pacer<T> {
    // A pacer on a terminal.
    pub fn new(below: T) -> Pacer<T>
        ensures { result.below ≡ below }
    {
        Pacer { below }
    }
}

impl<T: Terminal> Terminal for Pacer<T> {
    type Widths = T::Widths;

    ghost screen = { λ p. T.Terminal.screen p.below };

    ghost extent = { λ p. T.Terminal.extent p.below };

    ghost answered = { λ p bytes a q. T.Terminal.answered p.below (take 32 bytes) a q.below };

    ghost inside = { Prim.search rules };

    ghost works = { λ s t bytes a h.
        let d = geometry T.Widths.WidthTable.columns (T.Terminal.extent s.below) in
        worked-front d 32 bytes (T.Terminal.screen s.below) (T.Terminal.screen t.below) a (T.Terminal.works s.below t.below _ a h) };

    ghost fixed = { λ s t bytes a h. T.Terminal.fixed s.below t.below _ a h };

    fn size(&self) -> Size {
        self.below.size()
    }

    fn write(&mut self, bytes: &[u8]) -> WriteAnswer {
        self.below.write(portion(bytes))
    }
}
