//! What a page shows of a run.

ghost use Rattle.std.specs.Prelude.{◌≡◌, ◌≤◌, ◌<◌, false, ◌++◌, true, IfErr, IfOk, OnOk, codes};
ghost use Rattle.std.specs.List.{flat_map, list_all};
ghost use Rattle.avp_unlang.specs.Resolutions.{StateFits};
ghost use Rattle.radpolicy_common.specs.ChangeTexts.{AllFit, Fits};
ghost use Rattle.radpolicy_page_data.specs.Embedding.{are_embeddable, embedded, is_no_tag, markup_text};
ghost use Rattle.radpolicy_page_data.specs.Packets.{reply_text};
ghost use Rattle.radpolicy_page_data.specs.Pages.{IsPage, IsTooLargeFor, data_text, hidden_text, list_lines, lists_text, octets_of, pair_line};

use crate::faults::PageFault;
use crate::json::{embedded, push_string};
use crate::markup::markup_text;
use crate::packets::push_reply;
use crate::positions::positions_text;
use avp_lists::{Pair, State};
use radpolicy::{Reply, Start};
use radpolicy_common::{Hiding, Redaction, SecretValues, policy_shown};
use std::alloc::{AllocError, Global};

/// The octets that the parts of a page have at most. The rest of it is fixed, and has fewer than 100,000.
pub const MAX_PAGE_OCTETS: usize = 49_900_000;

/// The parts of a page that are of a run.
#[derive(Drop)]
pub struct Page {
    /// The lists at the end, as a text in HTML.
    pub lists: Vec<u8>,
    /// The run, as JSON.
    pub run: Vec<u8>,
}

impl Page {
    fn is_too_large(&self) -> bool
        ensures large { result ≡ true → MAX_PAGE_OCTETS < octets_of self.now }
        ensures small { result ≡ false → octets_of self.now ≤ MAX_PAGE_OCTETS }
    {
        let run = self.run.len();
        run > MAX_PAGE_OCTETS || self.lists.len() > MAX_PAGE_OCTETS - run
    }
}

// ---- the lists at the end

fn push_pair_line(
    text: &mut Vec<u8>,
    redaction: &Redaction<'_>,
    pair: &Pair,
) -> Result<(), AllocError>
    requires { Fits redaction.now.dictionary pair.now }
    ensures { OnOk result (text.new.items ≡ text.old.items ++ pair_line redaction.now pair.now) }
{
    let pair = redaction.pair_text(*text.allocator(), pair)?;
    text.extend_from_slice(b"  ")?;
    text.extend_from_slice(&pair)?;
    text.extend_from_slice(b"\n")
}

fn push_list(
    text: &mut Vec<u8>,
    redaction: &Redaction<'_>,
    name: &str,
    pairs: &[Pair],
) -> Result<(), AllocError>
    requires { AllFit redaction.now.dictionary pairs.now }
    ensures { OnOk result
        (text.new.items ≡ text.old.items ++ list_lines redaction.now name.now pairs.now) }
{
    text.extend_from_slice(name.as_bytes())?;
    text.extend_from_slice(b"\n")?;
    for pair in pairs {
        push_pair_line(text, redaction, pair)?;
    }
    Ok(())
}

#[tactic(auto, unfolding(crate::specs::Pages::lists_text))]
fn lists_text(
    alloc: Global,
    redaction: &Redaction<'_>,
    lists: &State,
) -> Result<Vec<u8>, AllocError>
    requires { StateFits redaction.now.dictionary lists.now }
    ensures { IfOk result (λ text. text.items ≡ lists_text redaction.now lists.now) }
{
    let mut text = Vec::new(alloc);
    push_list(&mut text, redaction, "request", lists.request.as_slice())?;
    push_list(&mut text, redaction, "reply", lists.reply.as_slice())?;
    push_list(&mut text, redaction, "control", lists.control.as_slice())?;
    Ok(text)
}

// ---- the data

fn hidden_text(secrets: SecretValues) -> &'static str
    ensures { result.now ≡ hidden_text secrets }
{
    match secrets {
        SecretValues::Hidden => "true",
        SecretValues::Shown => "false",
    }
}

#[tactic(auto, unfolding(crate::specs::Pages::data_text))]
fn data_text(
    alloc: Global,
    redaction: &Redaction<'_>,
    policy: &[u8],
    positions: &[u8],
    sent: &[u8],
) -> Result<Vec<u8>, AllocError>
    ensures { IfOk result (λ text. text.items
        ≡ data_text redaction.now policy.now positions.now sent.now) }
{
    let policy = policy_shown(alloc, redaction, policy)?;
    let mut text = Vec::new(alloc);
    text.extend_from_slice(b"{\"hidden\":")?;
    text.extend_from_slice(hidden_text(redaction.secrets()).as_bytes())?;
    text.extend_from_slice(b",\"policy\":")?;
    push_string(&mut text, &policy)?;
    text.extend_from_slice(b",\"positions\":[")?;
    text.extend_from_slice(positions)?;
    text.extend_from_slice(b"],\"reply\":")?;
    text.extend_from_slice(sent)?;
    text.extend_from_slice(b"}")?;
    Ok(text)
}

// The page of these positions, with these lists at the end.
fn page_with(
    alloc: Global,
    redaction: &Redaction<'_>,
    policy: &[u8],
    positions: &[u8],
    lists: &State,
    reply: &Reply,
) -> Result<Page, AllocError>
    requires { StateFits redaction.now.dictionary lists.now }
    ensures run { IfOk result (λ page. page.run.items
        ≡ embedded (data_text redaction.now policy.now positions.now
        (reply_text redaction.now lists.now.reply reply.now))) }
    ensures lists { IfOk result (λ page. page.lists.items
        ≡ markup_text (lists_text redaction.now lists.now)) }
    ensures embeddable { IfOk result (λ page. are_embeddable page.run.items ≡ true) }
    ensures no_tag { IfOk result (λ page. list_all is_no_tag page.lists.items ≡ true) }
{
    let mut sent = Vec::new(alloc);
    push_reply(&mut sent, redaction, lists.reply.as_slice(), reply)?;
    let data = data_text(alloc, redaction, policy, positions, &sent)?;
    let shown = lists_text(alloc, redaction, lists)?;
    Ok(Page {
        lists: markup_text(alloc, &shown)?,
        run: embedded(alloc, &data)?,
    })
}

/// The page of a run from a start, by the policy's text and what the run sends. It is refused where memory is short, and
/// where it would be too large.
///
/// In the data each position has the words of its step, the last code, and how its lists come from those before it.
pub fn page_of(
    alloc: Global,
    start: Start<'_>,
    reply: &Reply,
    policy: &[u8],
    hiding: Hiding<'_>,
) -> Result<Page, PageFault>
    ensures page { IfOk result (IsPage start.entry hiding.entry policy.now reply.now) }
    // What is embedded is printed ASCII without < > &.
    ensures embeddable { IfOk result (λ page. are_embeddable page.run.items ≡ true) }
    ensures no_tag { IfOk result (λ page. list_all is_no_tag page.lists.items ≡ true) }
    ensures size { IfOk result (λ page. octets_of page ≤ MAX_PAGE_OCTETS) }
    ensures refused { IfErr result (λ fault. fault ≡ PageFault.TooLarge
        → IsTooLargeFor start.entry hiding.entry policy.now reply.now) }
{
    let redaction = Redaction::new(alloc, start.dictionary(), hiding, &[start.policy()])?;
    let mut stepper = start.stepper(alloc)?;
    let told = positions_text(alloc, &redaction, &mut stepper)?;
    let page = page_with(alloc, &redaction, policy, &told.0, &told.1, reply)?;
    if page.is_too_large() {
        return Err(PageFault::TooLarge);
    }
    Ok(page)
}
