// The size of a terminal's window.
ghost use Rattle.std.specs.Prelude.{◌≡◌, ◌≤◌, false, Decides, MatchResult, nat_eq};
ghost use Rattle.terminal.specs.Limits.{proper};
ghost use Rattle.std.specs.Ordering.{on, flip_args, eq_of_both};
ghost use Rattle.std.specs.Cmp.Rules.{comparing};
ghost use Rattle.std.proofs.Common.{rules};

use text::refusal::Refusal;

// From 2 to 500 columns, from 1 to 200 rows.
#[derive(Clone, Copy)]
pub struct Size {
    cols: u16,
    rows: u16,
    ghost wide: { 2 ≤ cols },
    ghost narrow: { cols ≤ 500 },
    ghost high: { 1 ≤ rows },
    ghost low: { rows ≤ 200 },
}

impl Size {
    // Refuses a size that is out of range.
    pub fn new(cols: u16, rows: u16) -> Result<Size, Refusal>
        ensures { MatchResult result (λ z. (z.cols ≡ cols) × (z.rows ≡ rows)) (λ e. (e ≡ Refusal.Size) × (proper cols rows ≡ false)) }
    {
        if (2..=500).contains(&cols) && (1..=200).contains(&rows) {
            Ok(Size { cols, rows })
        } else {
            Err(Refusal::Size)
        }
    }

    pub fn cols(self) -> u16
        ensures { result ≡ self.cols }
    {
        self.cols
    }

    pub fn rows(self) -> u16
        ensures { result ≡ self.rows }
    {
        self.rows
    }
}

// No plainer by a derive: that would not say that sizes are equal exactly where they are one, as `same` does.
impl PartialEq for Size {
    ghost eq = { eq_of_both (flip_args (on (λ v. v.cols) nat_eq)) (flip_args (on (λ v. v.rows) nat_eq)) };

    ghost laws = { Prim.search (comparing, rules) };

    fn eq(&self, other: &Size) -> bool
        ensures value { result ≡ eq_of_both (flip_args (on (λ v. v.cols) nat_eq)) (flip_args (on (λ v. v.rows) nat_eq)) self.now other.now }
        ensures same { Decides result (self.now ≡ other.now) }
    {
        other.cols == self.cols && other.rows == self.rows
    }
}

impl Eq for Size {
    ghost laws = { Prim.search (comparing, rules) };
}
