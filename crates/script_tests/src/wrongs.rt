// Scripts that are wrong.
use script::reading::read_script;
use std::alloc::Global;

// A script, and what is wrong in it, with its line; what stands before that line is read.
const WRONGS: [(&[u8], &str); 40] = [
    (b"foo", "line 1: unknown word `foo`"),
    (b"create\nfoo 1\n", "line 2: unknown word `foo`"),
    (b"Create\n", "line 1: unknown word `Create`"),
    (b"set\"a\" 1\n", "line 1: unknown word `set\"a\"`"),
    (b"# \"\n\n \t\r\nnope\n", "line 4: unknown word `nope`"),
    (b"\n\xff\n", "line 2: a word that is not UTF-8"),
    (b"create\nset a 1\n", "line 2: a quoted string is expected"),
    (b"create\ninsert\n", "line 2: a quoted string is expected"),
    (b"prompt >\n", "line 1: a quoted string is expected"),
    (b"prompt \">\" >\n", "line 1: a quoted string is expected"),
    (
        b"create\nset \"a 1\n",
        "line 2: a string without its closing mark",
    ),
    (
        b"create\nset \"a\\",
        "line 2: a string without its closing mark",
    ),
    (
        b"create\nset \"\\q\" 0\n",
        "line 2: an unknown escape in a string",
    ),
    (
        b"create\nset \"\\x4\" 0\n",
        "line 2: an unknown escape in a string",
    ),
    (b"create\nset \"a\"\n", "line 2: a number is expected"),
    (b"create\ngo\n", "line 2: a number is expected"),
    (b"create\ngo +1\n", "line 2: a number is expected"),
    (b"create\ngo -1\n", "line 2: a number is expected"),
    (b"size 5\n", "line 1: a number is expected"),
    (b"fault down 1\n", "line 1: a number is expected"),
    (b"fault 1\n", "line 1: a number is expected"),
    (b"fault 1 up\n", "line 1: a number is expected"),
    (b"size 65536 24\n", "line 1: a number out of range"),
    (
        b"create\ninsert \"a\" 65536\n",
        "line 2: a number out of range",
    ),
    (
        b"create\ngo 18446744073709551616\n",
        "line 2: a number out of range",
    ),
    (b"table\n", "line 1: `latin` or `eastern` is expected"),
    (b"table greek\n", "line 1: `latin` or `eastern` is expected"),
    (b"colours yes\n", "line 1: `on` or `off` is expected"),
    (b"holds ON\n", "line 1: `on` or `off` is expected"),
    (
        b"highlighter none\n",
        "line 1: `plain` or `brackets` is expected",
    ),
    (b"size 5 24 1\n", "line 1: more than belongs on the line"),
    (
        b"caption \"a\" \"b\"\n",
        "line 1: more than belongs on the line",
    ),
    (b"fault 1 2 3\n", "line 1: more than belongs on the line"),
    (b"create now\n", "line 1: more than belongs on the line"),
    (
        b"create\nset \"a\" 1 2\n",
        "line 2: more than belongs on the line",
    ),
    (
        b"create\nset \"a\" 1 # c\n",
        "line 2: more than belongs on the line",
    ),
    (
        b"create\nsize 5 24\n",
        "line 2: a setting after the first `create`",
    ),
    (
        b"go 1\ncaption \"a\"\n",
        "line 2: a setting after the first `create`",
    ),
    (
        b"create\nfinish\nfault 1 x\n",
        "line 3: a setting after the first `create`",
    ),
    (
        b"create\nset \"\n\" 1\n",
        "line 2: a string without its closing mark",
    ),
];

// Whether that is what is wrong in a script, in words.
fn holds(heap: Global, bytes: &[u8], expected: &str) -> bool {
    let Ok(script) = read_script(heap, bytes) else {
        return false;
    };
    let Some(error) = &script.error else {
        return false;
    };
    match format!(in heap; "{error}") {
        Ok(text) => text.as_str() == expected,
        Err(_) => false,
    }
}

#[test]
fn wrongs(rt: HostRuntime) {
    for (number, (bytes, expected)) in WRONGS.iter().enumerate() {
        assert!(rt; holds(rt.alloc(), bytes, expected), "case {number}");
    }
}
