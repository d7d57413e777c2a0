//! The reply that was really sent to a record's request, beside the policy's own.

ghost use Rattle.std.specs.Prelude.{◌≡◌, ◌↔◌, ◌++◌, ◌<◌, Err, IfErr, IfOk, IfSome, IsTrue, Ok, OnOk, Some, codes, length};
ghost use Rattle.std.specs.Option.{option_copied};
ghost use Rattle.avp_packet.specs.DecodedReply.{decoded_reply};
ghost use Rattle.avp_packet.specs.Unchecked.{decoded_reply_unchecked};
ghost use Rattle.avp_packet.specs.Packets.{authenticator_of};
ghost use Rattle.radpolicy.specs.Faults.{MemoryOr};
ghost use Rattle.radpolicy.specs.StartRefusals.{IsUnreadPacket};
ghost use Rattle.radpolicy_common.specs.ChangeTexts.{AllFit};
ghost use Rattle.radpolicy_record_answers.specs.Captured.{AreSameReplies, answers, beside, beside_captured, captured_fault_shown, captured_reply, captured_text_shown, compared_pairs, is_reply_code, left_out, other_reply_told, own_by, own_name, packets_change, packets_lines, own_reply, packet_or_fault, quietly_told, replies_by, replies_change, replies_of, replies_told, replies_with, reply_by, reply_name, reply_to, reply_word, same_packets, same_replies, unless_other, verdict_of_replies, with_own};
ghost use Rattle.radpolicy_record_answers.specs.Answers.{fault_shown, refusal_shown, text_fault_shown};
ghost use Rattle.radpolicy_record_answers.specs.Comparisons.{pairs_of};
ghost use Rattle.radpolicy_record_answers.specs.Differences.{added_line, removed_line};
ghost use Rattle.radpolicy_record_answers.specs.declared.captured.Replies.TheVariants.{Both};
ghost use Rattle.radpolicy_record_answers.specs.declared.verdicts.Verdict.TheVariants.{Refused as RefusedRecord};
ghost use Rattle.radpolicy_record_answers.specs.Records.{request_octets};
ghost use Rattle.radpolicy_record_answers.specs.Requests.{answered_from};
ghost use Rattle.radpolicy_record_answers.specs.internal.Fitting.{HasHead, OwnFits, PacketFits, RepliesFit};

use crate::answers::{RecordFault, push_fault, push_refusal, push_text_fault};
use crate::comparisons::{Comparison, Order, Told, compared, same_lists};
use crate::differences::{Printer, push_named};
use crate::entries::{Entry, entry_of_line};
use crate::requests::{RecordRequest, RecordSecret};
use crate::unmade_replies::{MESSAGE_AUTHENTICATOR, unmade_reply};
use crate::verdicts::Verdict;
use avp_dict::Dictionary;
use avp_lists::{AttrId, Octets, Pair};
use avp_packet::{
    ACCESS_ACCEPT, ACCESS_CHALLENGE, ACCESS_REJECT, ACCOUNTING_REQUEST, ACCOUNTING_RESPONSE,
    Packet, decode_reply, decode_reply_unchecked,
};
use radpolicy::{Fault, Reply, RunOutcome, Runner, Secret};
use radpolicy_common::{PROXY_STATE, Redaction};
use radpolicy_traffic_packets::TextFault;
use std::alloc::{AllocError, Global};

/// Why what was captured is no reply to the request.
#[derive(Clone, Copy, Debug, PartialEq, Eq)]
pub enum CapturedFault {
    /// Its octets are not read as one.
    NoReply(Fault),
    /// It has another Identifier, or a code that answers another kind of request.
    OtherRequest,
    /// Its lines make no packet.
    Text(TextFault),
}

/// The reply that a record has, before it is read as one.
#[derive(Drop)]
pub enum CapturedReply {
    Missing,
    /// The octets of its packet.
    Octets(Octets),
    /// The lines of an Access-Challenge, of which no packet is made.
    Challenge,
    /// There are no octets of it.
    Unread(CapturedFault),
}

/// The replies to a record, or why they are not compared.
#[derive(Drop)]
pub enum Replies {
    /// The record is refused, or the policy's own reply is not read.
    Refused(RecordFault),
    /// No reply was captured.
    Unanswered,
    /// What was captured is no reply to the request.
    Unread(CapturedFault),
    /// An Access-Challenge was captured, with which nothing is compared.
    Challenge,
    /// The reply that was captured, and the policy's, which may send none.
    Both {
        captured: Packet,
        own: Option<Packet>,
    },
}

// ---- the reply that was captured

/// The authenticator of a packet.
pub(crate) fn copy_authenticator(octets: &[u8]) -> [u8; 16]
    requires { HasHead octets.now }
    ensures { result ≡ authenticator_of octets.now }
{
    let mut authenticator = [0; 16];
    authenticator.copy_from_slice(&octets[4..20]);
    authenticator
}

// Whether a reply with this code answers a request of that one.
fn is_reply_code(request: u8, code: u8) -> bool
    ensures { result ≡ is_reply_code request code }
{
    if request == ACCOUNTING_REQUEST {
        code == ACCOUNTING_RESPONSE
    } else {
        code == ACCESS_ACCEPT || code == ACCESS_REJECT || code == ACCESS_CHALLENGE
    }
}

fn answers(request: &[u8], sent: &Packet) -> bool
    requires { HasHead request.now }
    ensures { result ≡ answers request.now sent.now }
{
    sent.id == request[1] && is_reply_code(request[0], sent.code)
}

// Reads the reply to the request of these octets.
fn read_reply(
    alloc: Global,
    dictionary: &Dictionary,
    secret: &Secret<'_>,
    request: &[u8],
    octets: &[u8],
) -> Result<Packet, Fault>
    requires { HasHead request.now }
    ensures ok { IfOk result (λ sent.
        decoded_reply dictionary.now secret.now (authenticator_of request.now) octets.now
        ≡ Ok sent) }
    ensures fits { IfOk result (PacketFits dictionary.now) }
    ensures refused { IfErr result (IsUnreadPacket
        (decoded_reply dictionary.now secret.now (authenticator_of request.now) octets.now)) }
{
    let authenticator = copy_authenticator(request);
    let sent = decode_reply(alloc, dictionary, secret.as_slice(), &authenticator, octets)?;
    Ok(sent)
}

// The same by its definition, but for want of memory.
#[tactic(auto, using(crate::proofs::Replying::reply_unread))]
fn reply_to(
    alloc: Global,
    dictionary: &Dictionary,
    secret: &Secret<'_>,
    request: &[u8],
    octets: &[u8],
) -> Result<Packet, Fault>
    requires { HasHead request.now }
    ensures ok { IfOk result (λ sent.
        reply_to dictionary.now secret.now request.now octets.now ≡ Ok sent) }
    ensures fits { IfOk result (PacketFits dictionary.now) }
    ensures refused { IfErr result (MemoryOr (λ f.
        reply_to dictionary.now secret.now request.now octets.now ≡ Err f)) }
{
    match read_reply(alloc, dictionary, secret, request, octets) {
        Ok(sent) => Ok(sent),
        Err(fault) => Err(fault),
    }
}

// Reads the reply of which no secret is known.
fn read_unchecked(alloc: Global, dictionary: &Dictionary, octets: &[u8]) -> Result<Packet, Fault>
    ensures ok { IfOk result (λ sent.
        decoded_reply_unchecked dictionary.now octets.now ≡ Ok sent) }
    ensures fits { IfOk result (PacketFits dictionary.now) }
    ensures refused { IfErr result (IsUnreadPacket
        (decoded_reply_unchecked dictionary.now octets.now)) }
{
    let sent = decode_reply_unchecked(alloc, dictionary, octets)?;
    Ok(sent)
}

// The same by its definition, but for want of memory.
#[tactic(auto, using(crate::proofs::Replying::unchecked_unread))]
fn unchecked_reply(alloc: Global, dictionary: &Dictionary, octets: &[u8]) -> Result<Packet, Fault>
    ensures ok { IfOk result (λ sent.
        packet_or_fault (decoded_reply_unchecked dictionary.now octets.now) ≡ Ok sent) }
    ensures fits { IfOk result (PacketFits dictionary.now) }
    ensures refused { IfErr result (MemoryOr (λ f.
        packet_or_fault (decoded_reply_unchecked dictionary.now octets.now) ≡ Err f)) }
{
    match read_unchecked(alloc, dictionary, octets) {
        Ok(sent) => Ok(sent),
        Err(fault) => Err(fault),
    }
}

// Reads the reply by the secret if one is known.
fn reply_by(
    alloc: Global,
    dictionary: &Dictionary,
    secret: Option<&Secret<'_>>,
    request: &[u8],
    octets: &[u8],
) -> Result<Packet, Fault>
    requires { HasHead request.now }
    ensures ok { IfOk result (λ sent.
        reply_by dictionary.now (option_copied secret.entry) request.now octets.now ≡ Ok sent) }
    ensures fits { IfOk result (PacketFits dictionary.now) }
    ensures refused { IfErr result (MemoryOr (λ f.
        reply_by dictionary.now (option_copied secret.entry) request.now octets.now ≡ Err f)) }
{
    match secret {
        Some(secret) => reply_to(alloc, dictionary, secret, request, octets),
        None => unchecked_reply(alloc, dictionary, octets),
    }
}

// What was captured as the reply to the request of these octets, or why it is none.
fn captured_reply(
    alloc: Global,
    dictionary: &Dictionary,
    secret: Option<&Secret<'_>>,
    request: &[u8],
    octets: &[u8],
) -> Result<Result<Packet, CapturedFault>, AllocError>
    requires { HasHead request.now }
    ensures reply { IfOk result (λ captured. captured
        ≡ captured_reply dictionary.now (option_copied secret.entry) request.now octets.now) }
    ensures fits { IfOk result (λ captured. IfOk captured (PacketFits dictionary.now)) }
{
    match reply_by(alloc, dictionary, secret, request, octets) {
        Ok(sent) => {
            if answers(request, &sent) {
                Ok(Ok(sent))
            } else {
                Ok(Err(CapturedFault::OtherRequest))
            }
        }
        Err(Fault::Memory) => Err(AllocError),
        Err(fault) => Ok(Err(CapturedFault::NoReply(fault))),
    }
}

// ---- both replies

// What the policy sends, read as the one who asked reads it.
fn own_reply(
    alloc: Global,
    dictionary: &Dictionary,
    secret: &Secret<'_>,
    request: &[u8],
    reply: &Reply,
) -> Result<Option<Packet>, Fault>
    requires { HasHead request.now }
    ensures ok { IfOk result (λ own.
        own_reply dictionary.now secret.now request.now reply.now ≡ Ok own) }
    ensures fits { IfOk result (OwnFits dictionary.now) }
    ensures refused { IfErr result (MemoryOr (λ f.
        own_reply dictionary.now secret.now request.now reply.now ≡ Err f)) }
{
    match reply {
        Reply::Packet(octets) => {
            let sent = reply_to(alloc, dictionary, secret, request, octets.as_slice())?;
            Ok(Some(sent))
        }
        Reply::Unmade | Reply::Nothing => Ok(None),
    }
}

// The same by the secret if one is known.
fn own_by(
    alloc: Global,
    dictionary: &Dictionary,
    secret: Option<&Secret<'_>>,
    request: &[u8],
    outcome: &RunOutcome<'_>,
) -> Result<Option<Packet>, Fault>
    requires head { HasHead request.now }
    requires over { outcome.now.dictionary ≡ dictionary.now }
    ensures ok { IfOk result (λ own.
        own_by dictionary.now (option_copied secret.entry) request.now outcome.now ≡ Ok own) }
    ensures fits { IfOk result (OwnFits dictionary.now) }
    ensures refused { IfErr result (MemoryOr (λ f.
        own_by dictionary.now (option_copied secret.entry) request.now outcome.now ≡ Err f)) }
{
    match secret {
        Some(secret) => own_reply(alloc, dictionary, secret, request, outcome.reply()),
        None => Ok(unmade_reply(alloc, dictionary, request, outcome)?),
    }
}

fn with_own(
    alloc: Global,
    dictionary: &Dictionary,
    secret: Option<&Secret<'_>>,
    request: &[u8],
    outcome: &RunOutcome<'_>,
    captured: Packet,
) -> Result<Replies, AllocError>
    requires head { HasHead request.now }
    requires over { outcome.now.dictionary ≡ dictionary.now }
    requires fits { PacketFits dictionary.now captured }
    ensures replies { IfOk result (λ replies. replies ≡ with_own captured
        (own_by dictionary.now (option_copied secret.entry) request.now outcome.now)) }
    ensures fit { IfOk result (RepliesFit dictionary.now) }
{
    match own_by(alloc, dictionary, secret, request, outcome) {
        Ok(own) => Ok(Replies::Both { captured, own }),
        Err(Fault::Memory) => Err(AllocError),
        Err(fault) => Ok(Replies::Refused(RecordFault::Request(fault))),
    }
}

fn beside(
    alloc: Global,
    dictionary: &Dictionary,
    secret: Option<&Secret<'_>>,
    request: &[u8],
    outcome: &RunOutcome<'_>,
    captured: Result<Packet, CapturedFault>,
) -> Result<Replies, AllocError>
    requires head { HasHead request.now }
    requires over { outcome.now.dictionary ≡ dictionary.now }
    requires fits { IfOk captured (PacketFits dictionary.now) }
    ensures replies { IfOk result (λ replies. replies
        ≡ beside dictionary.now (option_copied secret.entry) request.now outcome.now captured) }
    ensures fit { IfOk result (RepliesFit dictionary.now) }
{
    match captured {
        Ok(captured) => {
            if captured.code == ACCESS_CHALLENGE {
                return Ok(Replies::Challenge);
            }
            with_own(alloc, dictionary, secret, request, outcome, captured)
        }
        Err(fault) => Ok(Replies::Unread(fault)),
    }
}

fn beside_captured(
    alloc: Global,
    dictionary: &Dictionary,
    secret: Option<&Secret<'_>>,
    request: &[u8],
    outcome: &RunOutcome<'_>,
    captured: &CapturedReply,
) -> Result<Replies, AllocError>
    requires head { HasHead request.now }
    requires over { outcome.now.dictionary ≡ dictionary.now }
    ensures replies { IfOk result (λ replies. replies ≡ beside_captured dictionary.now
        (option_copied secret.entry) request.now outcome.now captured.now) }
    ensures fit { IfOk result (RepliesFit dictionary.now) }
{
    match captured {
        CapturedReply::Missing => Ok(Replies::Unanswered),
        CapturedReply::Challenge => Ok(Replies::Challenge),
        CapturedReply::Unread(fault) => Ok(Replies::Unread(*fault)),
        CapturedReply::Octets(octets) => {
            let captured = captured_reply(alloc, dictionary, secret, request, octets.as_slice())?;
            beside(alloc, dictionary, secret, request, outcome, captured)
        }
    }
}

// The replies to this request, by the secret if one is known.
#[tactic(auto, using(crate::proofs::Replying::answered_has_head, crate::proofs::Answering::answered_is_over))]
fn replies_of<'p: 'a, 'a>(
    alloc: Global,
    runner: &mut Runner<'p>,
    secret: Option<&'a Secret<'a>>,
    request: &RecordRequest,
    captured: &CapturedReply,
) -> Result<Replies, AllocError>
    ensures replies { IfOk result (λ replies. replies ≡ replies_of runner.old.dictionary
        (option_copied secret.entry) request.now.octets captured.now
        (answered_from runner.old (option_copied secret.entry) request.now)) }
    ensures fit { IfOk result (RepliesFit runner.old.dictionary) }
    ensures kept { runner.new ≡ runner.old }
{
    match request.answer(alloc, runner, secret) {
        Ok(outcome) => {
            let dictionary = runner.prepared().dictionary();
            let octets = request.octets.as_slice();
            beside_captured(alloc, dictionary, secret, octets, &outcome, captured)
        }
        Err(Fault::Memory) => Err(AllocError),
        Err(fault) => Ok(Replies::Refused(RecordFault::Request(fault))),
    }
}

fn replies_with<'p: 'a, 'a>(
    alloc: Global,
    runner: &mut Runner<'p>,
    secret: &'a RecordSecret<'a>,
    request: &RecordRequest,
    captured: &CapturedReply,
) -> Result<Replies, AllocError>
    ensures replies { IfOk result (λ replies. replies ≡ replies_with runner.old
        secret.entry.now captured.now (Ok request.now)) }
    ensures fit { IfOk result (RepliesFit runner.old.dictionary) }
    ensures kept { runner.new ≡ runner.old }
{
    match secret {
        RecordSecret::Known(secret) => replies_of(alloc, runner, Some(secret), request, captured),
        RecordSecret::Unknown => replies_of(alloc, runner, None, request, captured),
        RecordSecret::Missing => Ok(Replies::Refused(RecordFault::NoClient)),
    }
}

/// The reply that was captured for what a record says, and the policy's own: both are read as [`decode_reply`] reads
/// them, by the request's authenticator. Where no secret is known, the one that was captured is read as
/// [`decode_reply_unchecked`] reads it, and the other is the policy's code and list. A record that is refused has none.
pub fn entry_replies<'p: 'a, 'a>(
    alloc: Global,
    runner: &mut Runner<'p>,
    secret: &'a RecordSecret<'a>,
    entry: &Entry,
) -> Result<Replies, AllocError>
    ensures replies { IfOk result (λ replies. replies ≡ replies_with runner.old
        secret.entry.now entry.now.reply entry.now.request) }
    ensures fit { IfOk result (RepliesFit runner.old.dictionary) }
    ensures kept { runner.new ≡ runner.old }
{
    match &entry.request {
        Ok(request) => replies_with(alloc, runner, secret, request, &entry.reply),
        Err(fault) => Ok(Replies::Refused(*fault)),
    }
}

/// The reply that was captured for the record of a line, and the policy's own: both are read as [`decode_reply`] reads
/// them, by the request's authenticator. Where no secret is known, the one that was captured is read as
/// [`decode_reply_unchecked`] reads it, and the other is the policy's code and list. A record that is refused has none.
pub fn replies_to<'p: 'a, 'a>(
    alloc: Global,
    runner: &mut Runner<'p>,
    secret: &'a RecordSecret<'a>,
    line: &[u8],
) -> Result<Replies, AllocError>
    ensures replies { IfOk result (λ replies. replies ≡ replies_by runner.old
        secret.entry.now (reply_word line.now) (request_octets line.now)) }
    ensures fit { IfOk result (RepliesFit runner.old.dictionary) }
    ensures kept { runner.new ≡ runner.old }
{
    let entry = entry_of_line(alloc, line)?;
    entry_replies(alloc, runner, secret, &entry)
}

// ---- the same

const PROXY_STATE_ID: AttrId = AttrId::Plain(PROXY_STATE as u32);

// The attributes that are not compared, before those that are ignored.
fn left_out(alloc: Global, order: Order) -> Result<Vec<AttrId>, AllocError>
    ensures { IfOk result (λ ids. ids.items ≡ left_out order) }
{
    match order {
        Order::Ordered => Ok(Vec::new(alloc)),
        Order::ByName => Vec::from_slice(alloc, &[PROXY_STATE_ID, MESSAGE_AUTHENTICATOR]),
    }
}

impl Comparison<'_> {
    /// A reply's pairs, as far as they are compared.
    pub(crate) fn compared_pairs<'a>(
        &self,
        alloc: Global,
        pairs: &'a [Pair],
    ) -> Result<Vec<&'a Pair>, AllocError>
        ensures { IfOk result (λ kept.
            pairs_of kept.items ≡ compared_pairs self.now pairs.now) }
    {
        let mut ids = left_out(alloc, self.order)?;
        ids.extend_from_slice(self.ignored)?;
        compared(alloc, &ids, pairs)
    }

    fn same_packets(
        &self,
        alloc: Global,
        captured: &Packet,
        own: &Packet,
    ) -> Result<bool, AllocError>
        ensures { IfOk result (λ same. same ≡ same_packets self.now captured.now own.now) }
    {
        if captured.code != own.code {
            return Ok(false);
        }
        let captured_pairs = self.compared_pairs(alloc, captured.list.as_slice())?;
        let own_pairs = self.compared_pairs(alloc, own.list.as_slice())?;
        same_lists(alloc, self.order, &captured_pairs, &own_pairs)
    }

    #[tactic(auto, unfolding(crate::specs::Captured::same_replies))]
    fn compare_replies(
        &self,
        alloc: Global,
        captured: &Packet,
        own: &Option<Packet>,
    ) -> Result<bool, AllocError>
        ensures { IfOk result (λ same. same ≡ same_replies self.now captured.now own.now) }
    {
        match own {
            Some(own) => self.same_packets(alloc, captured, own),
            None => Ok(false),
        }
    }

    /// Whether the reply that was captured is the policy's: its code is, and its list, without Proxy-State and
    /// Message-Authenticator unless the order counts. It is not where the policy sends none.
    pub fn same_replies(
        &self,
        alloc: Global,
        captured: &Packet,
        own: &Option<Packet>,
    ) -> Result<bool, AllocError>
        ensures test { IfOk result (λ same. same ≡ same_replies self.now captured.now own.now) }
        ensures same { IfOk result (λ same.
            IsTrue same ↔ AreSameReplies self.now captured.now own.now) }
    {
        let same = self.compare_replies(alloc, captured, own)?;
        Ok(same)
    }
}

// ---- what is said of them

/// The name of a reply of this code.
pub fn reply_name(code: u8) -> &'static [u8]
    ensures { result.now ≡ reply_name code }
{
    match code {
        ACCESS_ACCEPT => b"Access-Accept",
        ACCESS_REJECT => b"Access-Reject",
        ACCOUNTING_RESPONSE => b"Accounting-Response",
        _ => b"Access-Challenge",
    }
}

fn own_name(own: &Option<Packet>) -> &'static [u8]
    ensures { result.now ≡ own_name own.now }
{
    match own {
        Some(own) => reply_name(own.code),
        None => b"none",
    }
}

// Why octets are not read as a reply.
fn push_no_reply(text: &mut Vec<u8>, fault: Fault) -> Result<(), AllocError>
    ensures { OnOk result (text.new.items
        ≡ text.old.items ++ codes "captured " ++ fault_shown fault) }
{
    text.extend_from_slice(b"captured ")?;
    push_fault(text, fault)
}

// Why lines make no packet of a reply.
fn push_captured_text(text: &mut Vec<u8>, fault: TextFault) -> Result<(), AllocError>
    ensures { OnOk result (text.new.items ≡ text.old.items ++ captured_text_shown fault) }
{
    if let TextFault::OtherCode = fault {
        text.extend_from_slice(b"captured reply of another type")?;
        return Ok(());
    }
    text.extend_from_slice(b"captured ")?;
    push_text_fault(text, fault)
}

/// Why what was captured is no reply.
pub fn push_captured_fault(text: &mut Vec<u8>, fault: CapturedFault) -> Result<(), AllocError>
    ensures { OnOk result (text.new.items ≡ text.old.items ++ captured_fault_shown fault) }
{
    match fault {
        CapturedFault::NoReply(fault) => push_no_reply(text, fault),
        CapturedFault::OtherRequest => {
            text.extend_from_slice(b"captured reply to another request")?;
            Ok(())
        }
        CapturedFault::Text(fault) => push_captured_text(text, fault),
    }
}

// A record that is not different.
fn push_quietly(text: &mut Vec<u8>, told: Told, name: &[u8], words: &[u8]) -> Result<(), AllocError>
    ensures { OnOk result (text.new.items
        ≡ text.old.items ++ quietly_told told name.now words.now) }
{
    if let Told::Different = told {
        return Ok(());
    }
    text.extend_from_slice(name)?;
    text.extend_from_slice(words)?;
    text.extend_from_slice(b"\n")?;
    Ok(())
}

impl Comparison<'_> {
    /// How the lists of two replies differ.
    #[tactic(auto, using(crate::proofs::Fitting::compared_pairs_fit))]
    pub fn packets_lines(
        &self,
        alloc: Global,
        printer: &Printer<'_>,
        captured: &Packet,
        own: &Packet,
    ) -> Result<Vec<u8>, AllocError>
        requires captured { PacketFits printer.now.old.now captured.now }
        requires own { PacketFits printer.now.new.now own.now }
        ensures { IfOk result (λ lines. lines.items
            ≡ packets_lines (removed_line printer.now.old.now printer.now.redaction.now)
            (added_line printer.now.new.now printer.now.redaction.now)
            self.now captured.now own.now) }
    {
        let captured_pairs = self.compared_pairs(alloc, captured.list.as_slice())?;
        let own_pairs = self.compared_pairs(alloc, own.list.as_slice())?;
        let mut lines = Vec::new(alloc);
        printer.push_lists(&mut lines, self.order, &captured_pairs, &own_pairs)?;
        Ok(lines)
    }

    // The same below the list's name.
    fn push_packets_change(
        &self,
        text: &mut Vec<u8>,
        printer: &Printer<'_>,
        captured: &Packet,
        own: &Packet,
    ) -> Result<(), AllocError>
        requires captured { PacketFits printer.now.old.now captured.now }
        requires own { PacketFits printer.now.new.now own.now }
        ensures { OnOk result (text.new.items ≡ text.old.items
            ++ packets_change (removed_line printer.now.old.now printer.now.redaction.now)
            (added_line printer.now.new.now printer.now.redaction.now)
            self.now captured.now own.now) }
    {
        let lines = self.packets_lines(*text.allocator(), printer, captured, own)?;
        push_named(text, b"reply", &lines)
    }

    fn push_replies_change(
        &self,
        text: &mut Vec<u8>,
        dictionary: &Dictionary,
        redaction: &Redaction<'_>,
        captured: &Packet,
        own: &Option<Packet>,
    ) -> Result<(), AllocError>
        requires captured { PacketFits dictionary.now captured.now }
        requires own { OwnFits dictionary.now own.now }
        ensures { OnOk result (text.new.items ≡ text.old.items
            ++ replies_change redaction.now dictionary.now self.now captured.now own.now) }
    {
        let Some(own) = own else {
            return Ok(());
        };
        let printer = Printer {
            old: dictionary,
            new: dictionary,
            redaction,
        };
        self.push_packets_change(text, &printer, captured, own)
    }

    fn push_other_reply(
        &self,
        text: &mut Vec<u8>,
        dictionary: &Dictionary,
        redaction: &Redaction<'_>,
        name: &[u8],
        captured: &Packet,
        own: &Option<Packet>,
    ) -> Result<(), AllocError>
        requires captured { PacketFits dictionary.now captured.now }
        requires own { OwnFits dictionary.now own.now }
        ensures { OnOk result (text.new.items ≡ text.old.items ++ other_reply_told redaction.now
            dictionary.now self.now name.now captured.now own.now) }
    {
        text.extend_from_slice(name)?;
        text.extend_from_slice(reply_name(captured.code))?;
        text.extend_from_slice(b" -> ")?;
        text.extend_from_slice(own_name(own))?;
        text.extend_from_slice(b"\n")?;
        self.push_captured_list(text, dictionary, redaction, captured)?;
        self.push_replies_change(text, dictionary, redaction, captured, own)
    }

    // What is said of two replies, and what became of their record.
    #[tactic(auto, unfolding(crate::specs::Captured::replies_told, crate::specs::Captured::verdict_of_replies))]
    fn push_both(
        &self,
        text: &mut Vec<u8>,
        dictionary: &Dictionary,
        redaction: &Redaction<'_>,
        name: &[u8],
        captured: &Packet,
        own: &Option<Packet>,
    ) -> Result<Verdict, AllocError>
        requires captured { PacketFits dictionary.now captured.now }
        requires own { OwnFits dictionary.now own.now }
        ensures text { OnOk result (text.new.items ≡ text.old.items ++ replies_told redaction.now
            dictionary.now self.now name.now (Both captured.now own.now)) }
        ensures verdict { IfOk result (λ verdict.
            verdict ≡ verdict_of_replies self.now (Both captured.now own.now)) }
    {
        if self.same_replies(*text.allocator(), captured, own)? {
            self.push_same_reply(text, dictionary, redaction, name, captured)?;
            return Ok(Verdict::Same);
        }
        self.push_other_reply(text, dictionary, redaction, name, captured, own)?;
        Ok(Verdict::Different)
    }

    // What is said of a record that is refused.
    fn push_refused(
        &self,
        text: &mut Vec<u8>,
        name: &[u8],
        fault: RecordFault,
    ) -> Result<Verdict, AllocError>
        ensures text { OnOk result (text.new.items
            ≡ text.old.items ++ quietly_told self.now.told name.now (refusal_shown fault)) }
        ensures verdict { IfOk result (λ verdict. verdict ≡ RefusedRecord) }
    {
        let mut words = Vec::new(*text.allocator());
        push_refusal(&mut words, fault)?;
        push_quietly(text, self.told, name, &words)?;
        Ok(Verdict::Refused)
    }

    fn push_unread(
        &self,
        text: &mut Vec<u8>,
        name: &[u8],
        fault: CapturedFault,
    ) -> Result<Verdict, AllocError>
        ensures text { OnOk result (text.new.items
            ≡ text.old.items ++ quietly_told self.now.told name.now (captured_fault_shown fault)) }
        ensures verdict { IfOk result (λ verdict. verdict ≡ RefusedRecord) }
    {
        let mut words = Vec::new(*text.allocator());
        push_captured_fault(&mut words, fault)?;
        push_quietly(text, self.told, name, &words)?;
        Ok(Verdict::Refused)
    }

    /// Says what there is to say of the replies to the record of this name, and what became of it.
    #[tactic(auto, unfolding(crate::specs::Captured::replies_told, crate::specs::Captured::verdict_of_replies))]
    pub fn push_replies(
        &self,
        text: &mut Vec<u8>,
        dictionary: &Dictionary,
        redaction: &Redaction<'_>,
        name: &[u8],
        replies: &Replies,
    ) -> Result<Verdict, AllocError>
        requires { RepliesFit dictionary.now replies.now }
        ensures text { OnOk result (text.new.items ≡ text.old.items
            ++ replies_told redaction.now dictionary.now self.now name.now replies.now) }
        ensures verdict { IfOk result (λ verdict.
            verdict ≡ verdict_of_replies self.now replies.now) }
    {
        match replies {
            Replies::Refused(fault) => self.push_refused(text, name, *fault),
            Replies::Unanswered => {
                push_quietly(text, self.told, name, b"unanswered")?;
                Ok(Verdict::Unanswered)
            }
            Replies::Unread(fault) => self.push_unread(text, name, *fault),
            Replies::Challenge => {
                push_quietly(text, self.told, name, b"Access-Challenge")?;
                Ok(Verdict::Challenged)
            }
            Replies::Both { captured, own } => {
                self.push_both(text, dictionary, redaction, name, captured, own)
            }
        }
    }
}
