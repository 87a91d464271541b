// A notice: a text printed above the page.
ghost use Rattle.lines.specs.Notices.{NoticeRule};
ghost use Rattle.page.specs.Rules.{refused_by};

use text::refusal::Refusal;
use text::texts::check_text_within;

// The most bytes of a notice.
pub const MAX_NOTICE: usize = 4096;

// Refuses a text that is not good or too long.
pub fn check_notice(text: &[u8]) -> Result<(), Refusal>
    ensures { NoticeRule text.now (refused_by result) }
{
    check_text_within(text, MAX_NOTICE)
}
