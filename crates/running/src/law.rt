// The law of whoever performs acts by himself.
ghost use Rattle.std.specs.Prelude.{ℕ, List, Option};
ghost use Rattle.page.specs.Law.{Settings};
ghost use Rattle.page.specs.Runs.{LawOfChains};
ghost use Rattle.session.specs.Acting.{world_of};
ghost use Rattle.text.specs.Texts.{Styled};

use highlight::highlight::Highlighter;
use terminal::terminal::Terminal;

// Any chain of steps that begins with a create on a ready terminal of the checked size: after every act the screen shows
// the page, unless the session is torn, and after an accepted finish the terminal is ready.
pub fn law_of_chains<T: Terminal, H: Highlighter>()
    ensures { (hints : List ℕ → ℕ → Option (List ℕ)) (z : Settings) → Styled z.raw z.prompt → Styled z.styled z.prompt → LawOfChains (world_of T.Terminal.screen T.Terminal.extent T.Terminal.answered T.Widths.WidthTable.columns H.Highlighter.lights H.Highlighter.lights_prompt H.Highlighter.lights_hint H.Highlighter.heeds hints) z }
{}
