// What the program prints of itself.
pub(crate) const TEXT: &str = "\
caption preview [OPTIONS] < SCRIPT   holds prepared captions against the screen
                                     that they will be typed on
caption run < SCRIPT                 plays a script of acts on a grid, and prints
                                     answer, bytes and screen of each act
caption --help                       prints this

`caption preview --help` and `caption run --help` tell more.
";

pub(crate) const RUN: &str = "\
caption run < SCRIPT

Plays a script of acts on a grid of cells. A script has one setting or act a
line; blank lines, and lines that begin with #, say nothing. A string stands
between quotation marks, with the escapes \\n \\t \\r \\e \\\\ \\\" \\xHH.

Settings, before the first create:
  size COLS ROWS                [80 24]
  table latin|eastern           [latin]
  prompt \"RAW\" [\"STYLED\"]     [\"> \"]
  colours on|off                [off]
  holds on|off                  [off]
  highlighter plain|brackets    [plain]
  caption \"TEXT\"                adds a caption that is offered as a hint
  pace N                        N pacers, 32 bytes a write [0]
  paper ROWS                    rows of paper, at least those of the window [10000]
  fault I down|interrupted|K    what write call I, from 0, of the grid answers;
                                K: it takes no more than K bytes

Acts:
  create           insert \"C\" N     set \"LINE\" POS    go POS    refresh
  message \"TEXT\"  notice \"TEXT\"    clear              finish

For each act is printed: how it ended; the bytes that have worked; where the
cursor is (row and column of the paper, from 0), the window's first row, whether
an update is held and whether the session is torn; and the rows between bars, a
blank cell as a space and the character U+0020 as a middle dot.

A line that is wrong ends the program with a message and status 1.
";

pub(crate) const PREVIEW: &str = "\
caption preview [OPTIONS] < SCRIPT

Holds a prepared script, one caption a line, against the screen that it will be
typed on. Prompt and caption are drawn by their bytes on a blank terminal of the
given size, and for each caption is printed:
  its line number, how many rows it takes, and the row and column where it ends
  (rows and columns count from 0; a full row counts as column 0 of the next);
  with --brackets, the bracket that lights with the cursor behind the caption;
  the rows as they stand on the screen, between bars.
A caption that cannot stand there is reported by its line number with the
refusal's number and word, and the rest go on:
  3 text   not good text: UTF-8 without control characters
  4 long   more than 4,096 bytes
  6 tall   prompt and caption are higher than the window
A summary line ends the report.

Options:
  --columns N            columns of the window, 2 to 500 [40]
  --rows N               rows of the window, 1 to 200 [6]
  --table latin|eastern  widths of characters: eastern gives kana, ideographs,
                         Hangul and full-width forms two columns [latin]
  --prompt TEXT          the prompt, at most 512 bytes; style sequences such as
                         ESC[1m are drawn and take no column [\"> \"]
  --brackets             print the bracket that lights
  --help                 print this

Bad options end the program with a message and status 1.
";
