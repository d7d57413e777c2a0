//! What a run comes to.

ghost use Rattle.std.specs.Prelude.{◌≡◌, ◌++◌, IfOk, OnOk};
ghost use Rattle.avp_lists.specs.History.{present};
ghost use Rattle.avp_unlang.specs.Resolutions.{StateFits};
ghost use Rattle.radpolicy.specs.RunOutcomes.{outcome_report, reply_line};

use crate::reports::texts::{push_lists, push_no_packet, push_packet, push_result};
use avp_dict::Dictionary;
use avp_forms::Profile;
use avp_lists::{Octets, SlotStore, Store};
use avp_unlang::Code;
use std::alloc::{AllocError, Global};
use std::marker::Model;

/// What a run sends.
#[derive(Debug, Drop)]
pub enum Reply {
    /// There is no secret, so no packet was made.
    Unmade,
    /// No packet is sent: the request is an Accounting-Request that the policy rejected or failed.
    Nothing,
    /// The octets of the reply packet.
    Packet(Octets),
}

/// What a run came to: its three lists, its last code, whether it was stopped, and what it sends.
pub struct RunOutcome<'a> {
    dictionary: &'a Dictionary,
    profile: Profile,
    store: SlotStore,
    code: Code,
    stopped: bool,
    reply: Reply,
}

impl Drop for RunOutcome<'_> {
    fn drop(self) {
        let RunOutcome {
            dictionary: _,
            profile: _,
            store: _,
            code: _,
            stopped: _,
            reply: _,
        } = self;
    }
}

impl<'a> Model for RunOutcome<'a> {
    ghost use Rattle.avp_lists.specs.History.{present};
    ghost use Rattle.avp_unlang.specs.Resolutions.{StateFits};
    ghost use Rattle.radpolicy.specs.RunOutcomes.{RunOutcome as Shown};

    ghost Value = { Shown };

    ghost view = { λ o. record {
      dictionary = o.dictionary.now;
      profile = o.profile;
      end = record {
        state = present (⟦<SlotStore as Store>⟧.history o.store);
        code = o.code;
        stopped = o.stopped;
      };
      reply = o.reply;
    } };

    ghost invariant = { λ o. StateFits o.dictionary.now
        (present (⟦<SlotStore as Store>⟧.history o.store)) };
}

// The line of what is sent.
fn push_reply(text: &mut Vec<u8>, reply: &Reply) -> Result<(), AllocError>
    ensures { OnOk result (text.new.items ≡ text.old.items ++ reply_line reply.now) }
{
    match reply {
        Reply::Unmade => Ok(()),
        Reply::Nothing => push_no_packet(text),
        Reply::Packet(octets) => push_packet(text, octets.as_slice()),
    }
}

impl<'a> RunOutcome<'a> {
    pub(crate) fn new(
        dictionary: &'a Dictionary,
        profile: Profile,
        store: SlotStore,
        code: Code,
        stopped: bool,
        reply: Reply,
    ) -> RunOutcome<'a>
        requires { StateFits dictionary.now (present (⟦<SlotStore as Store>⟧.history store)) }
        ensures { result ≡ record {
          dictionary = dictionary.entry.now;
          profile = profile;
          end = record {
            state = present (⟦<SlotStore as Store>⟧.history store);
            code = code;
            stopped = stopped;
          };
          reply = reply;
        } }
    {
        RunOutcome {
            dictionary,
            profile,
            store,
            code,
            stopped,
            reply,
        }
    }

    /// The three lists, at the end of the run.
    pub fn store(&self) -> &SlotStore
        ensures lists { present (⟦<SlotStore as Store>⟧.history result.now) ≡ self.now.end.state }
        ensures fits { StateFits self.now.dictionary self.now.end.state }
    {
        &self.store
    }

    /// The last code.
    pub fn code(&self) -> Code
        ensures { result ≡ self.now.end.code }
    {
        self.code
    }

    /// Whether the policy was stopped before its end.
    pub fn stopped(&self) -> bool
        ensures { result ≡ self.now.end.stopped }
    {
        self.stopped
    }

    /// What is sent.
    pub fn reply(&self) -> &Reply
        ensures { result.now ≡ self.now.reply }
    {
        &self.reply
    }

    /// The report of the run, as the command `run` prints it: its lists by the policy's profile.
    pub fn text(&self, alloc: Global) -> Result<Vec<u8>, AllocError>
        ensures { IfOk result (λ text. text.items ≡ (outcome_report self.now).text) }
    {
        let mut text = Vec::new(alloc);
        push_lists(&mut text, self.dictionary, self.profile, &self.store)?;
        push_result(&mut text, self.code, self.stopped)?;
        push_reply(&mut text, &self.reply)?;
        Ok(text)
    }
}
