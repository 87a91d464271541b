// The characters that do not take one column.
ghost use Rattle.std.specs.Prelude.{◌≡◌, true, find, nat_le};
ghost use Rattle.std.specs.Option.{option_copied};
ghost use Rattle.widths.specs.Widths.{ranges, listed, ascending};

// The characters from `first` to `last` take `width` columns.
#[derive(Clone, Copy)]
pub struct WidthRange {
    pub first: u32,
    pub last: u32,
    pub width: u8,
}

// Ascending and apart.
const RANGES: [WidthRange; 9] = [
    WidthRange {
        first: 0x0000,
        last: 0x001f,
        width: 0,
    },
    WidthRange {
        first: 0x007f,
        last: 0x009f,
        width: 0,
    },
    WidthRange {
        first: 0x0300,
        last: 0x036f,
        width: 0,
    },
    WidthRange {
        first: 0x200d,
        last: 0x200d,
        width: 0,
    },
    WidthRange {
        first: 0x3041,
        last: 0x3096,
        width: 2,
    },
    WidthRange {
        first: 0x30a1,
        last: 0x30fa,
        width: 2,
    },
    WidthRange {
        first: 0x4e00,
        last: 0x9fff,
        width: 2,
    },
    WidthRange {
        first: 0xac00,
        last: 0xd7a3,
        width: 2,
    },
    WidthRange {
        first: 0xff01,
        last: 0xff60,
        width: 2,
    },
];

// The first range that does not end before a character.
fn range_from(ranges: &[WidthRange], code: u32) -> Option<&WidthRange>
    ensures { option_copied result ≡ find (λ r. nat_le code r.last) ranges.now }
{
    ranges.iter().find(|range| code <= range.last)
}

// The width that the ranges give to a character: by their order no later range holds it.
fn width_in(ranges: &[WidthRange], code: u32) -> u8
    requires { ascending 0 ranges.now ≡ true }
    ensures { result ≡ listed ranges.now code }
{
    match range_from(ranges, code) {
        Some(range) if range.first <= code => range.width,
        _ => 1,
    }
}

// The width of a character by the one table.
pub(crate) fn listed_width(c: char) -> u8
    ensures { result ≡ listed ranges c }
{
    width_in(&RANGES, c as u32)
}
