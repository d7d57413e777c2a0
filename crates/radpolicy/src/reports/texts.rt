//! The texts of reports.

ghost use Rattle.std.specs.Prelude.{◌≡◌, ◌++◌, codes, IfOk, IsTrue, OnOk};
ghost use Rattle.avp_lists.specs.History.{present};
ghost use Rattle.avp_lists.specs.States.{list_of};
ghost use Rattle.avp_dict.specs.Limits.{fits};
ghost use Rattle.avp_unlang.specs.Resolutions.{StateFits};
ghost use Rattle.radpolicy.specs.internal.Fitting.{AllFit};
ghost use Rattle.radpolicy.specs.Reports.{code_text, list_text, packet_line, packet_text, pair_line, result_line, state_text};

use crate::reports::checks::push_count;
use avp_dict::Dictionary;
use avp_forms::{Profile, printed_pair_name, printed_pair_text};
use avp_lists::{List, Pair, Store};
use avp_packet::Packet;
use avp_unlang::Code;
use std::alloc::{AllocError, Global};

fn push_pair(
    text: &mut Vec<u8>,
    dictionary: &Dictionary,
    profile: Profile,
    pair: &Pair,
) -> Result<(), AllocError>
    requires { IsTrue (fits pair.now dictionary.now) }
    ensures { OnOk result (text.new.items ≡ text.old.items
        ++ pair_line profile dictionary.now pair.now) }
{
    let alloc = *text.allocator();
    let name = printed_pair_name(alloc, dictionary, profile, pair.id, &pair.value)?;
    let value = printed_pair_text(alloc, dictionary, profile, pair.id, &pair.value)?;
    text.extend_from_slice(b"  ")?;
    text.extend_from_slice(name.as_slice())?;
    text.extend_from_slice(b" = ")?;
    text.extend_from_slice(value.as_slice())?;
    text.extend_from_slice(b"\n")?;
    Ok(())
}

fn push_list(
    text: &mut Vec<u8>,
    dictionary: &Dictionary,
    profile: Profile,
    name: &str,
    pairs: &[Pair],
) -> Result<(), AllocError>
    requires { AllFit dictionary.now pairs.now }
    ensures { OnOk result (text.new.items ≡ text.old.items
        ++ list_text profile dictionary.now name.now pairs.now) }
{
    text.extend_from_slice(name.as_bytes())?;
    text.extend_from_slice(b"\n")?;
    for pair in pairs {
        push_pair(text, dictionary, profile, pair)?;
    }
    Ok(())
}

// A present list under its name, its pairs read where they are.
fn push_present<S: Store>(
    text: &mut Vec<u8>,
    dictionary: &Dictionary,
    profile: Profile,
    name: &str,
    store: &S,
    list: List,
) -> Result<(), AllocError>
    requires { AllFit dictionary.now (list_of list (present (S.history store.now))) }
    ensures { OnOk result (text.new.items ≡ text.old.items
        ++ list_text profile dictionary.now name.now
        (list_of list (present (S.history store.now)))) }
{
    text.extend_from_slice(name.as_bytes())?;
    text.extend_from_slice(b"\n")?;
    for at in 0..store.count(list) {
        if let Some(pair) = store.pair(list, at) {
            push_pair(text, dictionary, profile, pair)?;
        }
    }
    Ok(())
}

/// The three present lists.
pub(crate) fn push_lists<S: Store>(
    text: &mut Vec<u8>,
    dictionary: &Dictionary,
    profile: Profile,
    store: &S,
) -> Result<(), AllocError>
    requires { StateFits dictionary.now (present (S.history store.now)) }
    ensures { OnOk result (text.new.items ≡ text.old.items
        ++ state_text profile dictionary.now (present (S.history store.now))) }
{
    push_present(text, dictionary, profile, "request", store, List::Request)?;
    push_present(text, dictionary, profile, "reply", store, List::Reply)?;
    push_present(text, dictionary, profile, "control", store, List::Control)?;
    Ok(())
}

/// The word of a code, as policies and reports have it.
pub fn code_text(code: Code) -> &'static str
    ensures { result.now ≡ code_text code }
{
    match code {
        Code::Ok => "ok",
        Code::Noop => "noop",
        Code::Updated => "updated",
        Code::Fail => "fail",
        Code::Reject => "reject",
    }
}

/// The line of the result.
pub(crate) fn push_result(text: &mut Vec<u8>, code: Code, stopped: bool) -> Result<(), AllocError>
    ensures { OnOk result (text.new.items ≡ text.old.items ++ result_line code stopped) }
{
    text.extend_from_slice(b"result ")?;
    text.extend_from_slice(code_text(code).as_bytes())?;
    if stopped {
        text.extend_from_slice(b" stopped")?;
    }
    text.extend_from_slice(b"\n")?;
    Ok(())
}

/// The line of a packet.
pub(crate) fn push_packet(text: &mut Vec<u8>, octets: &[u8]) -> Result<(), AllocError>
    ensures { OnOk result (text.new.items ≡ text.old.items ++ packet_line octets.now) }
{
    let alloc = *text.allocator();
    text.extend_from_slice(b"packet ")?;
    text.extend_from_slice(hex::encode(alloc, octets)?.as_bytes())?;
    text.extend_from_slice(b"\n")?;
    Ok(())
}

/// The line of a run that sends no packet.
pub(crate) fn push_no_packet(text: &mut Vec<u8>) -> Result<(), AllocError>
    ensures { OnOk result (text.new.items ≡ text.old.items ++ codes "packet none\n") }
{
    text.extend_from_slice(b"packet none\n")?;
    Ok(())
}

/// The head of a packet, and the request list.
pub(crate) fn packet_text(
    alloc: Global,
    dictionary: &Dictionary,
    packet: &Packet,
) -> Result<Vec<u8>, AllocError>
    requires { AllFit dictionary.now packet.now.list }
    ensures { IfOk result (λ text. text.items ≡ packet_text dictionary.now packet.now) }
{
    let mut text = Vec::new(alloc);
    push_count(&mut text, "code", usize::from(packet.code))?;
    push_count(&mut text, "identifier", usize::from(packet.id))?;
    text.extend_from_slice(b"authenticator ")?;
    text.extend_from_slice(hex::encode(alloc, packet.authenticator)?.as_bytes())?;
    text.extend_from_slice(b"\n")?;
    push_list(
        &mut text,
        dictionary,
        Profile::Plain,
        "request",
        packet.list.as_slice(),
    )?;
    Ok(text)
}
