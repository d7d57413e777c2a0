//! The list of a reply that was captured.

ghost use Rattle.std.specs.Prelude.{◌≡◌, ◌++◌, IfOk, OnOk};
ghost use Rattle.radpolicy_common.specs.ChangeTexts.{Fits};
ghost use Rattle.radpolicy_record_answers.specs.Captured.{captured_line, captured_lines, captured_list, same_reply_told};
ghost use Rattle.radpolicy_record_answers.specs.internal.Fitting.{PacketFits};

use crate::captured::reply_name;
use crate::comparisons::{Comparison, Told};
use crate::differences::{push_named, push_pair_line};
use avp_dict::Dictionary;
use avp_lists::Pair;
use avp_packet::Packet;
use radpolicy_common::Redaction;
use std::alloc::{AllocError, Global};

fn push_captured_line(
    text: &mut Vec<u8>,
    dictionary: &Dictionary,
    redaction: &Redaction<'_>,
    pair: &Pair,
) -> Result<(), AllocError>
    requires { Fits dictionary.now pair.now }
    ensures { OnOk result (text.new.items
        ≡ text.old.items ++ captured_line dictionary.now redaction.now pair.now) }
{
    push_pair_line(text, b"    ", dictionary, redaction, pair)
}

/// The pairs of a reply that was captured, each on a line of its own.
pub fn captured_lines(
    alloc: Global,
    dictionary: &Dictionary,
    redaction: &Redaction<'_>,
    captured: &Packet,
) -> Result<Vec<u8>, AllocError>
    requires { PacketFits dictionary.now captured.now }
    ensures { IfOk result (λ lines.
        lines.items ≡ captured_lines dictionary.now redaction.now captured.now) }
{
    let mut lines = Vec::new(alloc);
    for pair in captured.list.as_slice() {
        push_captured_line(&mut lines, dictionary, redaction, pair)?;
    }
    Ok(lines)
}

impl Comparison<'_> {
    /// The same below their name, where the replies that were captured are shown.
    pub(crate) fn push_captured_list(
        &self,
        text: &mut Vec<u8>,
        dictionary: &Dictionary,
        redaction: &Redaction<'_>,
        captured: &Packet,
    ) -> Result<(), AllocError>
        requires { PacketFits dictionary.now captured.now }
        ensures { OnOk result (text.new.items ≡ text.old.items
            ++ captured_list redaction.now dictionary.now self.now captured.now) }
    {
        if !self.shows_replies {
            return Ok(());
        }
        let lines = captured_lines(*text.allocator(), dictionary, redaction, captured)?;
        push_named(text, b"captured", &lines)
    }

    /// Says what there is to say of a record whose replies are the same.
    pub(crate) fn push_same_reply(
        &self,
        text: &mut Vec<u8>,
        dictionary: &Dictionary,
        redaction: &Redaction<'_>,
        name: &[u8],
        captured: &Packet,
    ) -> Result<(), AllocError>
        requires { PacketFits dictionary.now captured.now }
        ensures { OnOk result (text.new.items ≡ text.old.items ++ same_reply_told redaction.now
            dictionary.now self.now self.now.told name.now captured.now) }
    {
        if let Told::Different = self.told {
            return Ok(());
        }
        text.extend_from_slice(name)?;
        text.extend_from_slice(reply_name(captured.code))?;
        text.extend_from_slice(b"\n")?;
        self.push_captured_list(text, dictionary, redaction, captured)
    }
}
