// How a session judges an act, before anything is altered.
ghost use Rattle.std.specs.Prelude.{◌≡◌, ◌+◌, ◌*◌, ◌++◌, true, length, IfSome, Some};
ghost use Rattle.judging.specs.Fitting.{LaidOut};
ghost use Rattle.judging.specs.Judgements.{inserted};
ghost use Rattle.lines.specs.Lines.{line_of};
ghost use Rattle.page.specs.Acts.{clear, finish, go, insert, message, notice, refresh, set};
ghost use Rattle.session.specs.Judging.{JudgesAct, JudgesEnds};
ghost use Rattle.session.specs.Sessions.{prompt_of};
ghost use Rattle.session.specs.Typing.{ColumnsOf, in_row};
ghost use Rattle.terminal.specs.Windows.{geometry};

use crate::session::Session;
use crate::standing::Standing;
use crate::tables::Tables;
use judging::judging::{Placed, judge_message, judge_set};
use layout::block::Layout;
use lines::notice::check_notice;
use terminal::terminal::Terminal;
use text::refusal::Refusal;

impl Session {
    // A refresh.
    pub(crate) fn judge_refresh<T: Terminal>(
        &self,
        tables: &Tables,
        terminal: &T,
    ) -> Result<Placed, Refusal>
        ensures { JudgesEnds T.Widths.WidthTable.columns self.now tables.now (T.Terminal.extent terminal.now) refresh (line_of tables.now.line) tables.now.line.pos result }
    {
        self.admit(terminal, false)?;
        self.judge_height::<T>(tables)
    }

    // A clear, which a torn session takes too.
    pub(crate) fn judge_clear<T: Terminal>(
        &self,
        tables: &Tables,
        terminal: &T,
    ) -> Result<Placed, Refusal>
        ensures { JudgesEnds T.Widths.WidthTable.columns self.now tables.now (T.Terminal.extent terminal.now) clear (line_of tables.now.line) tables.now.line.pos result }
    {
        self.admit(terminal, true)?;
        self.judge_height::<T>(tables)
    }

    // Another line and position.
    pub(crate) fn judge_set<T: Terminal>(
        &self,
        tables: &Tables,
        terminal: &T,
        line: &[u8],
        pos: usize,
    ) -> Result<Placed, Refusal>
        ensures { JudgesEnds T.Widths.WidthTable.columns self.now tables.now (T.Terminal.extent terminal.now) (set line.now pos) line.now pos result }
    {
        self.admit(terminal, false)?;
        judge_set::<T::Widths>(self.window(), line, pos)
    }

    // A character put so many times before the edit position; `typed` has its columns where it stays in the cursor's row.
    pub(crate) fn judge_insert<T: Terminal>(
        &self,
        tables: &Tables,
        terminal: &T,
        text: &[u8],
        count: u16,
        typed: Option<u16>,
    ) -> Result<Placed, Refusal>
        requires { IfSome typed (λ width. (in_row self.now tables.now count width ≡ true) × ColumnsOf T.Widths.WidthTable.columns text.now width) }
        ensures { JudgesEnds T.Widths.WidthTable.columns self.now tables.now (T.Terminal.extent terminal.now) (insert text.now count) (inserted (line_of tables.now.line) tables.now.line.pos text.now count) (tables.now.line.pos + count * length text.now) result }
    {
        self.admit(terminal, false)?;
        match typed {
            Some(width) if self.standing == Standing::Open => {
                self.judge_typed::<T>(tables, text, count, width)
            }
            _ => self.judge_walked::<T>(tables, text, count),
        }
    }

    // Another position.
    pub(crate) fn judge_go<T: Terminal>(
        &self,
        tables: &Tables,
        terminal: &T,
        pos: usize,
    ) -> Result<(), Refusal>
        ensures { JudgesAct T.Widths.WidthTable.columns self.now tables.now (T.Terminal.extent terminal.now) (go pos) (λ _. Unit {0}) result }
    {
        self.admit(terminal, false)?;
        tables.line.check_pos(pos)?;
        self.check_height()
    }

    // A message below the line, with the layout that it gives.
    pub(crate) fn judge_message<T: Terminal>(
        &self,
        tables: &Tables,
        terminal: &T,
        text: &[u8],
    ) -> Result<Layout, Refusal>
        ensures { JudgesAct T.Widths.WidthTable.columns self.now tables.now (T.Terminal.extent terminal.now) (message text.now) (LaidOut (geometry T.Widths.WidthTable.columns self.now.size) (prompt_of tables.now) (line_of tables.now.line) tables.now.line.pos (Some text.now)) result }
    {
        self.admit(terminal, false)?;
        judge_message::<T::Widths>(self.window(), &tables.line, text)
    }

    // A notice above the block.
    pub(crate) fn judge_notice<T: Terminal>(
        &self,
        tables: &Tables,
        terminal: &T,
        text: &[u8],
    ) -> Result<Placed, Refusal>
        ensures { JudgesEnds T.Widths.WidthTable.columns self.now tables.now (T.Terminal.extent terminal.now) (notice text.now) (line_of tables.now.line) tables.now.line.pos result }
    {
        self.admit(terminal, false)?;
        check_notice(text)?;
        self.judge_height::<T>(tables)
    }

    // A finish.
    pub(crate) fn judge_finish<T: Terminal>(
        &self,
        tables: &Tables,
        terminal: &T,
    ) -> Result<(), Refusal>
        ensures { JudgesAct T.Widths.WidthTable.columns self.now tables.now (T.Terminal.extent terminal.now) finish (λ _. Unit {0}) result }
    {
        self.admit(terminal, false)?;
        self.check_height()
    }
}
