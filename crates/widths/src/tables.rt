// Width tables.
ghost use Rattle.std.specs.Prelude.{◌≡◌, ℕ, ◌≤◌, true};
ghost use Rattle.std.proofs.Common.{ap, rules};
ghost use Rattle.text.specs.Characters.{is_control};
ghost use Rattle.widths.specs.Widths.{latin, eastern};
ghost use Prim.Native.Nat;
ghost use Rattle.widths.specs.Ordered.{control-zero, eastern-narrow};

use crate::ranges::listed_width;
use std::str::FromStr;

// A width table gives each character 0, 1 or 2 columns, always the same, and 0 to controls.
pub trait WidthTable {
    ghost columns: { ℕ → ℕ };

    fn width(c: char) -> u8
        ensures { result ≡ columns c };

    ghost narrow: { (c : ℕ) → columns c ≤ 2 };

    ghost controls: { (c : ℕ) → is_control c ≡ true → columns c ≡ 0 };
}

// Nothing is wide.
#[derive(Clone, Copy)]
pub struct Latin;

impl WidthTable for Latin {
    ghost columns = { latin };

    ghost narrow = { Prim.search rules };

    ghost controls = { λ c h. ap (λ n. Nat.min n 1) (control-zero c h) };

    fn width(c: char) -> u8 {
        listed_width(c).min(1)
    }
}

// East Asian wide characters take two columns.
#[derive(Clone, Copy)]
pub struct Eastern;

impl WidthTable for Eastern {
    ghost columns = { eastern };

    ghost narrow = { eastern-narrow };

    ghost controls = { λ c h. control-zero c h };

    fn width(c: char) -> u8 {
        listed_width(c)
    }
}

// The tables, as a setting names them.
#[derive(Clone, Copy, PartialEq, Eq, Debug)]
pub enum Table {
    Latin,
    Eastern,
}

// A word that names no table.
#[derive(Clone, Copy, PartialEq, Eq, Debug)]
pub struct UnknownTable;

impl FromStr for Table {
    ghost use Rattle.widths.specs.Tables.{NamesTable};

    type Err = UnknownTable;

    ghost from_str_gives = { NamesTable };

    fn from_str(name: &str) -> Result<Table, UnknownTable> {
        match name {
            "latin" => Ok(Table::Latin),
            "eastern" => Ok(Table::Eastern),
            _ => Err(UnknownTable),
        }
    }
}
