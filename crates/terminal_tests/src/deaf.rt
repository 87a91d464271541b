// A terminal that is always interrupted.
ghost use Rattle.std.specs.Prelude.{◌≡◌, take, Err};
ghost use Rattle.std.proofs.Common.{sym, ap, ◌∙◌, arith, rules};
ghost use Rattle.terminal.specs.declared.terminal.WriteError.TheVariants.{Interrupted};
ghost use Rattle.screen.specs.Bytes.{feed};
ghost use Rattle.terminal.specs.Windows.{geometry};
ghost use Rattle.terminal.specs.Answers.{taken};

use terminal::size::Size;
use terminal::terminal::{Terminal, WriteAnswer, WriteError};

// It counts the calls, and passes nothing on.
#[derive(Drop)]
pub struct Deaf<T> {
    pub below: T,
    pub calls: u8,
}

impl<T: Terminal> Terminal for Deaf<T> {
    type Widths = T::Widths;

    ghost screen = { λ p. T.Terminal.screen p.below };

    ghost extent = { λ p. T.Terminal.extent p.below };

    ghost answered = { λ p _ a q. (a ≡ Err Interrupted) × (q.below ≡ p.below) };

    ghost inside = { Prim.search rules };

    ghost works = { λ s t bytes a h.
        let none : taken a ≡ 0 = ap taken h.0 in
        let screen = T.Terminal.screen in
        let d = geometry T.Widths.WidthTable.columns (T.Terminal.extent s.below) in
        record { within = omega arith; drawn = ap screen h.1 ∙ sym (ap (λ n. feed d (take n bytes) (screen s.below)) none) } };

    ghost fixed = { Prim.search rules };

    fn size(&self) -> Size {
        self.below.size()
    }

    fn write(&mut self, _bytes: &[u8]) -> WriteAnswer {
        self.calls = self.calls.saturating_add(1);
        Err(WriteError::Interrupted)
    }
}
