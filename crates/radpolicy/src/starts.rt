//! What a run begins with, and the run.

ghost use Rattle.std.specs.Prelude.{◌≡◌, ◌<◌, ◌≤◌, true, length, IfErr, IfNone, IfOk, IfSome, IsTrue, None, Ok, OnOk, Some};
ghost use Rattle.std.specs.Option.{option_copied, option_map};
ghost use Rattle.avp_lists.specs.History.{present};
ghost use Rattle.avp_lists.specs.States.{max_pairs};
ghost use Rattle.avp_dict.specs.Sent.{is_clean};
ghost use Rattle.avp_forms.specs.Requests.{request_written};
ghost use Rattle.avp_packet.specs.Decoded.{decoded};
ghost use Rattle.avp_packet.specs.Packets.{IsRequestCode};
ghost use Rattle.avp_packet.specs.Unchecked.{decoded_unchecked};
ghost use Rattle.avp_step.specs.Searches.{with_room_for};
ghost use Rattle.avp_step.specs.Walk.{last_outcome, walk_from};
ghost use Rattle.avp_unlang.specs.Cleanness.{KeepsReplyClean};
ghost use Rattle.avp_unlang.specs.Meaning.{Outcome as End};
ghost use Rattle.avp_unlang.specs.PolicyPatterns.{is_among, policy_patterns_pass};
ghost use Rattle.avp_unlang.specs.Resolutions.{StateFits};
ghost use Rattle.radpolicy.specs.Faults.{IsPrintedAnywhere, MemoryOr};
ghost use Rattle.radpolicy.specs.Replies.{proxy_states};
ghost use Rattle.radpolicy.specs.RunOutcomes.{OutcomeIsRead, end_of, outcome_of, sent_reply};
ghost use Rattle.radpolicy.specs.Starts.{entry_of, first_misfit, pairs_refusal, start_of, start_with};
ghost use Rattle.radpolicy.specs.StartRefusals.{AreUnreadControlLines, AreUnreadReplyLines, AreUnreadRequestLines, IsUnreadPacket};
ghost use Rattle.radpolicy.specs.declared.faults.Fault.TheVariants as fault;
ghost use Rattle.radpolicy.specs.declared.jobs.Form.TheVariants.{Hex};
ghost use Rattle.radpolicy.specs.internal.ReplyHeads.{IsHeadFor, IsUsable, sent_by};
ghost use Rattle.radpolicy.specs.internal.Starting.{IsFittingList};
ghost use Rattle.radpolicy.specs.internal.Fitting.{AllFit};

use crate::faults::{Fault, fault_of_control_line, fault_of_reply_line};
use crate::heads::RequestHead;
use crate::jobs::Form;
use crate::prepared::PreparedPolicy;
use crate::replies::{ReplyHead, reply_head, sent_by};
use crate::requests::read_lines;
use crate::run_outcomes::RunOutcome;
use crate::secrets::Secret;
use avp_dict::{Dictionary, LineFault, LineKind};
use avp_forms::Profile;
use avp_lists::{MAX_PAIRS, Pair, Pairs, SlotStore, State, Store};
use avp_packet::{Packet, decode, decode_unchecked};
use avp_step::{Ended, Searches, Stepper, run_with};
use avp_unlang::{Policy, keeps_reply_clean};
use std::alloc::{AllocError, Global};
use std::marker::Model;

/// What a run of a prepared policy begins with: a request, and reply and control lists, which are empty unless they are
/// given. In a server's `post-auth` section both are filled when the policy begins.
#[derive(Drop)]
pub struct Start<'a> {
    dictionary: &'a Dictionary,
    profile: Profile,
    policy: &'a Policy,
    secret: Option<&'a Secret<'a>>,
    form: Form,
    request: Packet,
    reply: Pairs,
    control: Pairs,
}

impl<'a> Model for Start<'a> {
    ghost use Rattle.std.specs.Coded.{codes};
    ghost use Rattle.avp_unlang.specs.contracts.tree.Statement as e;
    ghost use Rattle.std.specs.Option.{option_copied};
    ghost use Rattle.radpolicy.specs.Starts.{Start as Shown};
    ghost use Rattle.radpolicy.specs.internal.Starting.{IsReady, start_shown};

    ghost Value = { Shown };

    ghost coded = { Prim.hlevel (codes, e.the_row.coded) };

    ghost view = { λ s. start_shown s.dictionary.now s.profile s.policy.now (option_copied s.secret)
        s.form s.request s.reply s.control };

    ghost invariant = { λ s. IsReady (start_shown s.dictionary.now s.profile s.policy.now
        (option_copied s.secret) s.form s.request s.reply s.control) };
}

// A store of the lists with which a run begins.
fn entry_store(alloc: Global, lists: State) -> Result<SlotStore, AllocError>
    requires request { length lists.request ≤ max_pairs }
    requires reply { length lists.reply ≤ max_pairs }
    requires control { length lists.control ≤ max_pairs }
    ensures { IfOk result (λ store. present (⟦<SlotStore as Store>⟧.history store) ≡ lists) }
{
    let State {
        request,
        reply,
        control,
    } = lists;
    SlotStore::new(
        alloc,
        request.into_vec(),
        reply.into_vec(),
        control.into_vec(),
    )
    .map_err(|_| AllocError)
}

// The place of the first pair that does not fit.
fn first_misfit(dictionary: &Dictionary, pairs: &[Pair]) -> Option<usize>
    ensures { result ≡ first_misfit dictionary.now pairs.now }
{
    pairs.iter().position(|pair| !dictionary.fits(pair))
}

// Why pairs can be no list of a run.
fn pairs_refusal(dictionary: &Dictionary, pairs: &[Pair]) -> Option<LineFault>
    ensures refusal { result ≡ pairs_refusal dictionary.now pairs.now }
    ensures none { IfNone result (IsFittingList dictionary.now pairs.now) }
{
    match first_misfit(dictionary, pairs) {
        Some(at) => Some(LineFault {
            line: at + 1,
            offset: 0,
            kind: LineKind::NotValue,
        }),
        None if pairs.len() > MAX_PAIRS => Some(LineFault {
            line: MAX_PAIRS + 1,
            offset: 0,
            kind: LineKind::TooMany,
        }),
        None => None,
    }
}

// Pairs that can be a list of a run.
fn fitting(dictionary: &Dictionary, pairs: Pairs) -> Result<Pairs, LineFault>
    ensures ok { IfOk result (λ own. (own ≡ pairs) × (pairs_refusal dictionary.now pairs ≡ None)) }
    ensures list { IfOk result (IsFittingList dictionary.now) }
    ensures refused { IfErr result (λ f. pairs_refusal dictionary.now pairs ≡ Some f) }
{
    match pairs_refusal(dictionary, pairs.as_slice()) {
        Some(fault) => Err(fault),
        None => Ok(pairs),
    }
}

impl<'a> Start<'a> {
    /// A run over a request with empty reply and control lists.
    pub(crate) fn new(
        alloc: Global,
        prepared: &'a PreparedPolicy<'a>,
        secret: Option<&'a Secret<'a>>,
        form: Form,
        request: Packet,
    ) -> Start<'a>
        requires code { IsRequestCode request.code }
        requires list { IsFittingList prepared.now.dictionary request.list }
        ensures { result ≡ start_of prepared.entry.now (option_copied secret.entry) form request }
    {
        Start {
            dictionary: prepared.dictionary(),
            profile: prepared.profile(),
            policy: prepared.policy(),
            secret,
            form,
            request,
            reply: Pairs::from_vec(Vec::new(alloc)),
            control: Pairs::from_vec(Vec::new(alloc)),
        }
    }

    /// A run over a request packet, which is refused as [`decode`] refuses it. By the secret its hidden attributes are
    /// read, its authenticators checked and the reply made.
    pub fn of_packet(
        alloc: Global,
        prepared: &'a PreparedPolicy<'a>,
        secret: &'a Secret<'a>,
        octets: &[u8],
    ) -> Result<Start<'a>, Fault>
        ensures read { IfOk result (λ start.
            decoded prepared.entry.now.dictionary secret.entry.now octets.now ≡ Ok start.request) }
        ensures start { IfOk result (λ start. start
            ≡ start_of prepared.entry.now (Some secret.entry.now) Hex start.request) }
        ensures proxies { IfOk result (λ start. is_clean (proxy_states start.request)
            prepared.entry.now.dictionary ≡ true) }
        ensures refused { IfErr result (IsUnreadPacket
            (decoded prepared.entry.now.dictionary secret.entry.now octets.now)) }
        ensures printed { IfErr result IsPrintedAnywhere }
    {
        let request = decode(alloc, prepared.dictionary(), secret.as_slice(), octets)?;
        Ok(Start::new(alloc, prepared, Some(secret), Form::Hex, request))
    }

    /// A run over a request packet whose secret is not known, which is refused as [`decode_unchecked`] refuses it. No
    /// authenticator is looked at, the values of hidden attributes are their octets, and no reply is made.
    pub fn of_packet_unchecked(
        alloc: Global,
        prepared: &'a PreparedPolicy<'a>,
        octets: &[u8],
    ) -> Result<Start<'a>, Fault>
        ensures read { IfOk result (λ start.
            decoded_unchecked prepared.entry.now.dictionary octets.now ≡ Ok start.request) }
        ensures start { IfOk result (λ start. start
            ≡ start_of prepared.entry.now None Hex start.request) }
        ensures refused { IfErr result (IsUnreadPacket
            (decoded_unchecked prepared.entry.now.dictionary octets.now)) }
        ensures printed { IfErr result IsPrintedAnywhere }
    {
        let request = decode_unchecked(alloc, prepared.dictionary(), octets)?;
        Ok(Start::new(alloc, prepared, None, Form::Hex, request))
    }

    /// A run over a request of lines, which are read by a profile ([`avp_forms::profile_of`] tells which one their
    /// comments ask for) and refused as a job's lines are; `zone` is that of [`avp_forms::FormValue::of_text`].
    /// Without a secret no reply is made. With one, the reply to an Access-Request that `head` gives no authenticator
    /// is made over 16 zeros, and no digest of an Accounting-Request is checked.
    pub fn of_lines(
        alloc: Global,
        prepared: &'a PreparedPolicy<'a>,
        secret: Option<&'a Secret<'a>>,
        head: RequestHead,
        profile: Profile,
        zone: Option<i16>,
        text: &[u8],
    ) -> Result<Start<'a>, Fault>
        ensures read { IfOk result (λ start. request_written profile zone text.now
            prepared.entry.now.dictionary ≡ Some start.request.list) }
        ensures start { IfOk result (λ start. start
            ≡ start_with prepared.entry.now (option_copied secret.entry) head start.request.list) }
        ensures proxies { IfOk result (λ start. is_clean (proxy_states start.request)
            prepared.entry.now.dictionary ≡ true) }
        ensures refused { IfErr result (MemoryOr (AreUnreadRequestLines profile zone
            prepared.entry.now.dictionary text.now)) }
        ensures printed { IfErr result IsPrintedAnywhere }
    {
        let pairs = read_lines(alloc, prepared.dictionary(), profile, zone, text)?;
        Ok(Start::new(
            alloc,
            prepared,
            secret,
            head.form_of(),
            head.packet_of(pairs),
        ))
    }

    /// A run over a request of these pairs. Refused are the first pair that does not fit the dictionary, as not a
    /// value, and else pair 4097, as too many; the line of the fault is the pair's number, from 1. The reply is made as
    /// that of lines.
    pub fn of_pairs(
        alloc: Global,
        prepared: &'a PreparedPolicy<'a>,
        secret: Option<&'a Secret<'a>>,
        head: RequestHead,
        pairs: Pairs,
    ) -> Result<Start<'a>, Fault>
        ensures fits { OnOk result (pairs_refusal prepared.entry.now.dictionary pairs ≡ None) }
        ensures start { IfOk result (λ start. start
            ≡ start_with prepared.entry.now (option_copied secret.entry) head pairs) }
        ensures refused { IfErr result (λ f. option_map fault.Request
            (pairs_refusal prepared.entry.now.dictionary pairs) ≡ Some f) }
        ensures printed { IfErr result IsPrintedAnywhere }
    {
        match fitting(prepared.dictionary(), pairs) {
            Ok(pairs) => Ok(Start::new(
                alloc,
                prepared,
                secret,
                head.form_of(),
                head.packet_of(pairs),
            )),
            Err(fault) => Err(Fault::Request(fault)),
        }
    }

    /// The same with the reply list of these lines, which are read as a request's. A refusal gives up the start.
    pub fn with_reply_lines(
        self,
        alloc: Global,
        profile: Profile,
        zone: Option<i16>,
        text: &[u8],
    ) -> Result<Start<'a>, Fault>
        ensures read { IfOk result (λ start. request_written profile zone text.now
            self.entry.prepared.dictionary ≡ Some start.reply) }
        ensures start { IfOk result (λ start. start
            ≡ record self.entry { reply = start.reply }) }
        ensures clean { IfOk result (λ start.
            is_clean start.reply self.entry.prepared.dictionary ≡ true) }
        ensures refused { IfErr result (MemoryOr (AreUnreadReplyLines profile zone
            self.entry.prepared.dictionary text.now)) }
        ensures printed { IfErr result IsPrintedAnywhere }
    {
        match read_lines(alloc, self.dictionary, profile, zone, text) {
            Ok(reply) => Ok(Start { reply, ..self }),
            Err(fault) => Err(fault_of_reply_line(fault)),
        }
    }

    /// The same with the control list of these lines, which are read as a request's. A refusal gives up the start.
    pub fn with_control_lines(
        self,
        alloc: Global,
        profile: Profile,
        zone: Option<i16>,
        text: &[u8],
    ) -> Result<Start<'a>, Fault>
        ensures read { IfOk result (λ start. request_written profile zone text.now
            self.entry.prepared.dictionary ≡ Some start.control) }
        ensures start { IfOk result (λ start. start
            ≡ record self.entry { control = start.control }) }
        ensures refused { IfErr result (MemoryOr (AreUnreadControlLines profile zone
            self.entry.prepared.dictionary text.now)) }
        ensures printed { IfErr result IsPrintedAnywhere }
    {
        match read_lines(alloc, self.dictionary, profile, zone, text) {
            Ok(control) => Ok(Start { control, ..self }),
            Err(fault) => Err(fault_of_control_line(fault)),
        }
    }

    /// The same with these pairs as its reply list, refused as those of a request. A refusal gives up the start.
    pub fn with_reply(self, pairs: Pairs) -> Result<Start<'a>, Fault>
        ensures fits { OnOk result (pairs_refusal self.entry.prepared.dictionary pairs ≡ None) }
        ensures start { IfOk result (λ start. start ≡ record self.entry { reply = pairs }) }
        ensures refused { IfErr result (λ f. option_map fault.Reply
            (pairs_refusal self.entry.prepared.dictionary pairs) ≡ Some f) }
        ensures printed { IfErr result IsPrintedAnywhere }
    {
        match fitting(self.dictionary, pairs) {
            Ok(reply) => Ok(Start { reply, ..self }),
            Err(fault) => Err(Fault::Reply(fault)),
        }
    }

    /// The same with these pairs as its control list, refused as those of a request. A refusal gives up the start.
    pub fn with_control(self, pairs: Pairs) -> Result<Start<'a>, Fault>
        ensures fits { OnOk result (pairs_refusal self.entry.prepared.dictionary pairs ≡ None) }
        ensures start { IfOk result (λ start. start ≡ record self.entry { control = pairs }) }
        ensures refused { IfErr result (λ f. option_map fault.Control
            (pairs_refusal self.entry.prepared.dictionary pairs) ≡ Some f) }
        ensures printed { IfErr result IsPrintedAnywhere }
    {
        match fitting(self.dictionary, pairs) {
            Ok(control) => Ok(Start { control, ..self }),
            Err(fault) => Err(Fault::Control(fault)),
        }
    }

    /// The profile of the policy that is run.
    pub fn profile(&self) -> Profile
        ensures { result ≡ self.now.prepared.profile }
    {
        self.profile
    }

    /// The dictionary of the policy that is run.
    pub fn dictionary(&self) -> &'a Dictionary
        ensures { result.now ≡ self.now.prepared.dictionary }
    {
        self.dictionary
    }

    /// The policy that is run.
    pub fn policy(&self) -> &'a Policy
        ensures { result.now ≡ self.now.prepared.statements }
    {
        self.policy
    }

    // What the reply takes of the request, where there is a secret.
    #[tactic(auto, unfolding(crate::specs::internal::ReplyHeads::sent_by))]
    fn head(&self, alloc: Global) -> Result<Option<ReplyHead<'a>>, AllocError>
        ensures made { IfOk result (λ head. IsHeadFor self.now.form self.now.prepared.dictionary
            self.now.secret self.now.request head) }
        ensures sent { IfOk result (λ head. (end : End)
            → sent_by self.now.prepared.dictionary head end.code end.state.reply
            ≡ sent_reply self.now end) }
        ensures usable { IfOk result (λ head.
            IfSome head (λ h. IsUsable self.now.prepared.dictionary h)) }
    {
        match self.secret {
            Some(secret) => Ok(Some(reply_head(
                alloc,
                self.dictionary,
                secret,
                self.form,
                &self.request,
            )?)),
            None => Ok(None),
        }
    }

    /// A stepper at the start of the run, for those who walk.
    pub fn stepper(self, alloc: Global) -> Result<Stepper<'a, SlotStore>, AllocError>
        ensures start { IfOk result (λ stepper. stepper
            ≡ walk_from self.entry.prepared.dictionary self.entry.prepared.statements
            (entry_of self.entry)) }
        ensures last { IfOk result (λ stepper. last_outcome stepper ≡ end_of self.entry) }
    {
        let lists = State {
            request: self.request.list,
            reply: self.reply,
            control: self.control,
        };
        let store = entry_store(alloc, lists)?;
        match Stepper::new(alloc, self.dictionary, self.policy, store) {
            Ok(stepper) => Ok(stepper),
            Err((_, refused)) => Err(refused),
        }
    }

    // Where the run ends, searching with these.
    fn end_of<'p>(
        self,
        alloc: Global,
        searches: Searches<'p>,
    ) -> Result<Ended<'p, SlotStore>, AllocError>
        requires { IsTrue (policy_patterns_pass (is_among searches.patterns)
            self.prepared.statements) }
        ensures end { IfOk result (λ ended. end_of self.entry ≡ record {
          state = present (⟦<SlotStore as Store>⟧.history ended.store);
          code = ended.code;
          stopped = ended.stopped;
        }) }
        ensures fits { IfOk result (λ ended. StateFits self.entry.prepared.dictionary
            (present (⟦<SlotStore as Store>⟧.history ended.store))) }
        ensures kept { IfOk result (λ ended. ended.searches
            ≡ with_room_for self.entry.prepared.statements searches.entry) }
    {
        let lists = State {
            request: self.request.list,
            reply: self.reply,
            control: self.control,
        };
        let store = entry_store(alloc, lists)?;
        run_with(alloc, self.dictionary, self.policy, searches, store)
    }

    // What is written of clean reply lists is read back as they are, also of those that the policy makes.
    fn keeps_reply_clean(&self)
        ensures { KeepsReplyClean self.now.prepared.dictionary self.now.prepared.statements }
    {
        keeps_reply_clean(self.dictionary, self.policy);
    }

    /// Runs the policy to its end, as [`Start::run`] does, searching with these.
    pub(crate) fn run_with<'p>(
        self,
        alloc: Global,
        searches: Searches<'p>,
    ) -> Result<(RunOutcome<'a>, Searches<'p>), Fault>
        requires { IsTrue (policy_patterns_pass (is_among searches.patterns)
            self.prepared.statements) }
        ensures ok { IfOk result (λ r. outcome_of self.entry ≡ Some r.0) }
        ensures refused { IfErr result (MemoryOr (λ f. (f ≡ fault.PacketTooLong)
            × (outcome_of self.entry ≡ None))) }
        ensures read { OnOk result
            (is_clean self.entry.reply self.entry.prepared.dictionary ≡ true
            → is_clean (proxy_states self.entry.request) self.entry.prepared.dictionary ≡ true
            → OutcomeIsRead self.entry) }
        ensures kept { IfOk result (λ r. r.1
            ≡ with_room_for self.entry.prepared.statements searches.entry) }
        ensures printed { IfErr result IsPrintedAnywhere }
    {
        self.keeps_reply_clean();
        let dictionary = self.dictionary();
        let profile = self.profile();
        let head = self.head(alloc)?;
        let ended = self.end_of(alloc, searches)?;
        let reply = sent_by(alloc, dictionary, &head, ended.code, &ended.store)?;
        let Ended {
            store,
            code,
            stopped,
            searches,
        } = ended;
        let outcome = RunOutcome::new(dictionary, profile, store, code, stopped, reply);
        Ok((outcome, searches))
    }

    /// Runs the policy to its end. The run needs no memory that it does not give back with its outcome, and changes
    /// nothing that was prepared.
    ///
    /// ```rust
    /// // The policy is `update reply { Session-Timeout := 600 }`.
    /// let (kind, id, authenticator) = (RequestKind::Access, 7, None);
    /// let head = RequestHead {
    ///     kind,
    ///     id,
    ///     authenticator,
    /// };
    /// let start = Start::of_lines(
    ///     alloc,
    ///     prepared,
    ///     None,
    ///     head,
    ///     Profile::Plain,
    ///     None,
    ///     b"NAS-Port = 3",
    /// )?;
    /// let outcome = start
    ///     .with_reply_lines(alloc, Profile::Plain, None, b"Class = 0x01")?
    ///     .run(alloc)?;
    /// assert_eq!(rt; outcome.store().count(List::Reply), 2);
    /// let report = outcome.text(alloc)?;
    /// assert!(rt; report.ends_with(b"  Session-Timeout = 600\ncontrol\nresult ok\n"));
    /// ```
    pub fn run(self, alloc: Global) -> Result<RunOutcome<'a>, Fault>
        ensures ok { IfOk result (λ outcome. outcome_of self.entry ≡ Some outcome) }
        ensures refused { IfErr result (MemoryOr (λ f. (f ≡ fault.PacketTooLong)
            × (outcome_of self.entry ≡ None))) }
        // What is sent is accepted as the reply to its request, and means the pairs that are sent,
        // where the initial reply list and the request's Proxy-States are read back as they are
        // written: as all are that were read from lines or from a packet.
        ensures read { OnOk result
            (is_clean self.entry.reply self.entry.prepared.dictionary ≡ true
            → is_clean (proxy_states self.entry.request) self.entry.prepared.dictionary ≡ true
            → OutcomeIsRead self.entry) }
        ensures printed { IfErr result IsPrintedAnywhere }
    {
        let searches = Searches::new(alloc, self.policy.patterns())?;
        let (outcome, _) = self.run_with(alloc, searches)?;
        Ok(outcome)
    }
}
