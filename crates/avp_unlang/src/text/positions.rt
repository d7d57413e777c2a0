//! Where a policy text was refused.

ghost use Rattle.std.specs.Prelude.{◌≡◌, ◌≢◌, ◌≤◌, ◌+◌, length, take};
ghost use Rattle.avp_dict.specs.LineNumbers.{line_after};
ghost use Rattle.avp_unlang.specs.declared.faults.PolicyKind.TheVariants.{Memory};
ghost use Rattle.avp_unlang.specs.Faults.{from_token};

use crate::faults::{PolicyFault, PolicyKind, Refusal};
use crate::text::cursors::skipped;
use avp_dict::line_after;

/// A text from its first token on.
pub(crate) fn from_token(text: &[u8]) -> &[u8]
    ensures same { result.now ≡ from_token text.now }
    ensures shorter { length result.now ≤ length text.now }
{
    let (_, start) = skipped(1, text);
    start
}

impl Refusal {
    /// The fault of a refusal of this text.
    pub(crate) fn placed(self, text: &[u8]) -> PolicyFault
        ensures kind { result.kind ≡ self.kind }
        ensures within { result.offset ≤ length text.now }
        ensures line { result.kind ≢ Memory
            → result.line ≡ line_after (take result.offset text.now) }
        ensures place { result.kind ≢ Memory → self.left ≤ length text.now
            → result.offset + self.left ≡ length text.now }
    {
        if self.kind == PolicyKind::Memory {
            return PolicyFault::OUT_OF_MEMORY;
        }
        let offset = text.len().saturating_sub(self.left);
        PolicyFault {
            line: line_after(&text[..offset]),
            offset,
            kind: self.kind,
        }
    }
}
