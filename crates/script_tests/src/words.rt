// Strings and numbers.
use script::escape::{StringFault, read_quoted};
use script::number::{NumberFault, read_number};
use std::alloc::Global;

// What is read, and what it should come to.
enum Case {
    // what stands behind a string's opening mark, the bytes that it means, and how long its spelling is with the closing mark
    Means(&'static [u8], &'static [u8], usize),
    // a string that is not closed
    Open(&'static [u8]),
    // a string with something unknown behind a backslash, which comes first
    Unknown(&'static [u8]),
    // a number: decimal digits and nothing else, below 2^64
    Number(&'static [u8], usize),
    NoDigits(&'static [u8]),
    TooLarge(&'static [u8]),
}

const CASES: [Case; 39] = [
    Case::Means(b"\"", b"", 1),
    Case::Means(b"a b\" 3", b"a b", 4),
    Case::Means(b"a\\\"b\"", b"a\"b", 5),
    Case::Means(b"\\\\\"", b"\\", 3),
    Case::Means(b"\\n\\t\\r\\e\"", b"\n\t\r\x1b", 9),
    Case::Means(b"\\x00\\xfF\\xAb\"", b"\x00\xff\xab", 13),
    Case::Means(b"\\x4a5\"", b"J5", 6),
    // any other byte stands for itself, an LF or one that is no UTF-8 too
    Case::Means(b"\xc3\n\t\"x", b"\xc3\n\t", 4),
    Case::Means(b"#'\"", b"#'", 3),
    Case::Means(b"\\x22\"", b"\"", 5),
    Case::Open(b""),
    Case::Open(b"abc"),
    Case::Open(b"a\\\""),
    Case::Open(b"\\"),
    Case::Open(b"\\x"),
    Case::Open(b"\\x4"),
    Case::Unknown(b"\\q\""),
    Case::Unknown(b"\\N\""),
    Case::Unknown(b"\\ \""),
    Case::Unknown(b"\\x\""),
    Case::Unknown(b"\\x4\""),
    Case::Unknown(b"\\xG0\""),
    Case::Unknown(b"\\q"),
    Case::Number(b"0", 0),
    Case::Number(b"7", 7),
    Case::Number(b"007", 7),
    Case::Number(b"65536", 65_536),
    Case::Number(b"18446744073709551615", 18_446_744_073_709_551_615),
    Case::Number(b"0000000000000000000000012", 12),
    Case::NoDigits(b""),
    Case::NoDigits(b"+1"),
    Case::NoDigits(b"-1"),
    Case::NoDigits(b"1a"),
    Case::NoDigits(b"a"),
    Case::NoDigits(b" 1"),
    Case::NoDigits(b"1.0"),
    Case::NoDigits(b"\xd9\xa1"),
    Case::TooLarge(b"18446744073709551616"),
    Case::TooLarge(b"99999999999999999999999"),
];

fn holds(heap: Global, case: &Case) -> bool {
    match *case {
        Case::Means(text, bytes, len) => match read_quoted(heap, text) {
            Ok(quoted) => quoted.bytes.as_slice() == bytes && quoted.len == len,
            Err(_) => false,
        },
        Case::Open(text) => matches!(read_quoted(heap, text), Err(StringFault::Unclosed)),
        Case::Unknown(text) => matches!(read_quoted(heap, text), Err(StringFault::Escape)),
        Case::Number(word, value) => matches!(read_number(word), Ok(number) if number == value),
        Case::NoDigits(word) => matches!(read_number(word), Err(NumberFault::Digits)),
        Case::TooLarge(word) => matches!(read_number(word), Err(NumberFault::Large)),
    }
}

#[test]
fn words(rt: HostRuntime) {
    for (number, case) in CASES.iter().enumerate() {
        assert!(rt; holds(rt.alloc(), case), "case {number}");
    }
}
