// The sizes that a check takes. What is expected follows from the rules (docs/REFUSALS.md).
use session::setup::Setup;
use text::refusal::Refusal;
use widths::tables::Latin;

// 2 to 500 columns and 1 to 200 rows; a size is refused before a prompt that is not good.
#[test]
fn sizes(rt: HostRuntime) {
    for (cols, rows, expected) in [
        (2, 24, Refusal::Prompt),
        (500, 24, Refusal::Prompt),
        (5, 1, Refusal::Prompt),
        (5, 200, Refusal::Prompt),
        (0, 24, Refusal::Size),
        (1, 24, Refusal::Size),
        (501, 24, Refusal::Size),
        (5, 0, Refusal::Size),
        (5, 201, Refusal::Size),
    ] {
        let checked = Setup::check::<Latin>(cols, rows, b"\t", b"\t", false, false);
        assert_eq!(rt; checked.err(), Some(expected), "{cols} {rows}");
    }
}
