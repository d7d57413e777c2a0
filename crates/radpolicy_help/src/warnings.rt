//! What a policy that is read is warned of.

ghost use Rattle.std.specs.Prelude.{◌≡◌, true, IfOk};
ghost use Rattle.radpolicy_common.specs.VisibleText.{all_visible};
ghost use Rattle.radpolicy_common.specs.declared.terminals.LineBreaks.TheVariants.{Kept};

use crate::allowances::{Allowance, allowances, unread_profile};
use crate::groupings::{regrouped, slashed, unexpanded};
use crate::sources::Sources;
use crate::texts::{push_all, push_number};
use crate::watching::Watcher;
use avp_dict::{Dictionary, line_after};
use avp_forms::{Profile, profile_of};
use avp_unlang::{Policy, read_policy};
use policy_warnings::{
    Reason, Warning, answered_warnings, bare_names, count_warnings, repeated_conditions,
    warnings_of, written_values,
};
use radpolicy_common::{LineBreaks, visible_text};
use std::alloc::{AllocError, Global};

/// What is said of a warning.
#[derive(Clone, Copy)]
pub struct Advice {
    /// The name by which a comment silences it.
    pub name: &'static str,
    /// What the policy has.
    pub found: &'static str,
    /// What a server does.
    pub server: &'static str,
    /// What to write.
    pub hint: &'static str,
}

/// A warning that no comment silences, or of a comment.
#[derive(Clone, Copy, Drop)]
pub struct Finding {
    /// The line of the policy that it is about.
    pub line: usize,
    pub advice: Advice,
}

const ABSENT_COMPARISON: Advice = Advice {
    name: "absent-comparison",
    found: "a comparison with an attribute that may be absent",
    server: "where it is absent a server takes the whole condition as false, and here the rest goes on",
    hint: "ask for the attribute first, as in &Name && &Name != 1, before a ! too, as in &Name && !(&Name == 1)",
};

const GROUPING: Advice = Advice {
    name: "grouping",
    found: "a || after an && without parentheses",
    server: "a server groups to the right, as a && (b || c), and here && binds closer, as (a && b) || c",
    hint: "write parentheses round what belongs together",
};

const SLASHED_TEXT: Advice = Advice {
    name: "slashed-text",
    found: "a text without quotes that begins with a slash",
    server: "a server takes it for a regular expression, and refuses the policy; here it is a text",
    hint: "write =~ to search for a regular expression, or put the text into quotes",
};

const UNEXPANDED_TEXT: Advice = Advice {
    name: "unexpanded-text",
    found: "an expansion in a text between single quotes",
    server: "it stays as it is written, on a server too",
    hint: "write double quotes to have it expanded",
};

const EMPTY_UPDATE: Advice = Advice {
    name: "empty-update",
    found: "an update without lines",
    server: "a server refuses the policy",
    hint: "take the update out",
};

const FILTER_IN_UPDATE: Advice = Advice {
    name: "filter-in-update",
    found: "== in an update",
    server: "a server sorts the whole list, and removes no attribute that came in the packet",
    hint: "write -= to remove a value, and := to set one",
};

const UNDONE_LINE: Advice = Advice {
    name: "undone-line",
    found: "the next line sets the attribute anew",
    server: "what this line sets is lost, on a server too",
    hint: "take one of the lines out, or write += to add a value",
};

const TRANSACTION: Advice = Advice {
    name: "transaction",
    found: "a transaction",
    server: "a server of version 3 refuses the word",
    hint: "write the statements without it in what goes to such a server",
};

const SEVERAL_INSTANCES: Advice = Advice {
    name: "several-instances",
    found: ":= of an attribute of which there may be several instances",
    server: "a server replaces the first and leaves the others, and here they are removed",
    hint: "write a line with !* before it, as Name !* ANY, which removes all of them on both",
};

const ABSENT_SOURCE: Advice = Advice {
    name: "absent-source",
    found: "an & source that may be absent",
    server: "where it is absent a server skips the line, and here the update fails",
    hint: "ask for it first, as in if (&Name) { .. }",
};

const REPEATED_CONDITION: Advice = Advice {
    name: "repeated-condition",
    found: "a condition that repeats an earlier one of the chain",
    server: "where it is asked it is false, on a server too, so its branch is never taken",
    hint: "take the branch out, or ask for what was meant",
};

const BARE_NAME: Advice = Advice {
    name: "bare-name",
    found: "a word without quotes that is the name of an attribute",
    server: "a server takes it for the attribute, and here it is a text or the name of a value",
    hint: "write &User-Name for the attribute, or \"User-Name\" for the text",
};

const VIRTUAL_ATTRIBUTE: Advice = Advice {
    name: "virtual-attribute",
    found: "an attribute that a server makes itself",
    server: "a server makes it of the packet or of its own state, and here it is there only where the list has it",
    hint: "put it into the request, as Packet-Src-IP-Address = 192.0.2.1",
};

const MODULE_COMPARISON: Advice = Advice {
    name: "module-comparison",
    found: "a comparison for which a server asks a module",
    server: "a module answers == and != with it, whatever the request has, and here it is an attribute like any other",
    hint: "put what the module would find into the request, as Group = \"staff\"",
};

const HEXADECIMAL_NUMBER: Advice = Advice {
    name: "hexadecimal-number",
    found: "a number in hexadecimal that a server reads otherwise",
    server: "a server takes the number where the attribute has tags, and here the octets; one of 64 bits is 0 there",
    hint: "write it in decimal digits, for an attribute with tags below # profile: wider",
};

const EMPTY_TAGGED: Advice = Advice {
    name: "empty-tagged",
    found: "an empty text with a tag",
    server: "a server does not send it, and here its tag is sent",
    hint: "take the line out, or write a text",
};

const SHORT_PREFIX: Advice = Advice {
    name: "short-prefix",
    found: "-= of an IPv6 prefix",
    server: "a packet may have it in fewer octets: a server removes the same prefix, and here the same octets",
    hint: "ask for it in a condition, which compares prefixes, and remove it with !*",
};

const REPEATED_OCTET: Advice = Advice {
    name: "repeated-octet",
    found: "a repetition behind a letter beyond ASCII",
    server: "a server repeats the last octet of the letter alone, and here the letter is repeated",
    hint: "write the letter in a group, as (?:..)+",
};

const LINE_START: Advice = Advice {
    name: "line-start",
    found: "a ^ that matches at the beginning of each line",
    server: "behind a line feed that ends the value a server does not match it, and here it does",
    hint: "leave the flag m out where the value has one line, or ask for what follows the ^ too",
};

const UNUSED_ALLOWANCE: Advice = Advice {
    name: "unused-allow",
    found: "the comment silences no warning",
    server: "at the end of a line it is for that line, and alone on a line for the next",
    hint: "take it out, or write the name that a warning shows in brackets",
};

const UNREAD_PROFILE: Advice = Advice {
    name: "unread-profile",
    found: "the comment does not choose a profile",
    server: "the policy is read without what the wider profile adds",
    hint: "write # profile: wider in the first line",
};

fn advice_on(reason: Reason) -> Advice {
    match reason {
        Reason::AbsentComparison => ABSENT_COMPARISON,
        Reason::EmptyUpdate => EMPTY_UPDATE,
        Reason::FilterInUpdate => FILTER_IN_UPDATE,
        Reason::UndoneLine => UNDONE_LINE,
        Reason::TransactionBlock => TRANSACTION,
        Reason::SeveralInstances => SEVERAL_INSTANCES,
        Reason::AbsentSource => ABSENT_SOURCE,
        Reason::RepeatedCondition => REPEATED_CONDITION,
        Reason::BareName => BARE_NAME,
        Reason::VirtualAttribute => VIRTUAL_ATTRIBUTE,
        Reason::ModuleComparison => MODULE_COMPARISON,
        Reason::HexadecimalNumber => HEXADECIMAL_NUMBER,
        Reason::EmptyTagged => EMPTY_TAGGED,
        Reason::ShortPrefix => SHORT_PREFIX,
        Reason::RepeatedOctet => REPEATED_OCTET,
        Reason::LineStart => LINE_START,
    }
}

// The findings of these warnings.
fn add_warned(found: &mut Vec<Finding>, warnings: &[Warning]) -> Result<(), AllocError> {
    for warning in warnings {
        found.push(Finding {
            line: warning.line,
            advice: advice_on(warning.reason),
        })?;
    }
    Ok(())
}

// The findings at these places of a policy's text.
fn add_places(
    found: &mut Vec<Finding>,
    text: &[u8],
    offsets: &[usize],
    advice: Advice,
) -> Result<(), AllocError> {
    for offset in offsets {
        found.push(Finding {
            line: line_after(text.get(..*offset).unwrap_or(text)),
            advice,
        })?;
    }
    Ok(())
}

// What a policy has, by its lines, whatever its comments allow.
fn all_findings(
    alloc: Global,
    dictionary: &Dictionary,
    policy: &Policy,
    text: &[u8],
) -> Result<Vec<Finding>, AllocError> {
    let statements = policy.statements().as_slice();
    let mut found = Vec::new(alloc);
    add_warned(&mut found, &warnings_of(alloc, statements)?)?;
    add_warned(&mut found, &count_warnings(alloc, statements)?)?;
    add_warned(&mut found, &repeated_conditions(alloc, statements)?)?;
    add_warned(&mut found, &bare_names(alloc, dictionary, text)?)?;
    add_warned(&mut found, &written_values(alloc, dictionary, text)?)?;
    add_warned(
        &mut found,
        &answered_warnings(alloc, dictionary, statements)?,
    )?;
    add_places(&mut found, text, &regrouped(alloc, text)?, GROUPING)?;
    add_places(&mut found, text, &slashed(alloc, text)?, SLASHED_TEXT)?;
    add_places(&mut found, text, &unexpanded(alloc, text)?, UNEXPANDED_TEXT)?;
    Watcher::new(alloc, dictionary)?.add_block(&mut found, statements)?;
    found.sort_by_key(|finding| finding.line)?;
    Ok(found)
}

fn silences(allowance: &Allowance<'_>, finding: &Finding) -> bool {
    allowance.covered == finding.line && allowance.name == finding.advice.name
}

fn is_silenced(finding: &Finding, allowances: &[Allowance<'_>]) -> bool {
    allowances
        .iter()
        .any(|allowance| silences(allowance, finding))
}

// Adds the comments that silence nothing.
fn add_unused(
    found: &mut Vec<Finding>,
    all: &[Finding],
    allowances: &[Allowance<'_>],
) -> Result<(), AllocError> {
    for allowance in allowances {
        if !all.iter().any(|finding| silences(allowance, finding)) {
            found.push(Finding {
                line: allowance.line,
                advice: UNUSED_ALLOWANCE,
            })?;
        }
    }
    Ok(())
}

/// What a policy is warned of, which was read of this text by a dictionary: first what its statements have, by their
/// lines, and then comments that do nothing.
pub fn findings(
    alloc: Global,
    dictionary: &Dictionary,
    policy: &Policy,
    text: &[u8],
) -> Result<Vec<Finding>, AllocError> {
    let all = all_findings(alloc, dictionary, policy, text)?;
    let allowances = allowances(alloc, text)?;
    let mut found = Vec::new(alloc);
    for finding in &all {
        if !is_silenced(finding, &allowances) {
            found.push(*finding)?;
        }
    }
    add_unused(&mut found, &all, &allowances)?;
    if profile_of(text) == Profile::Plain
        && let Some(line) = unread_profile(text)
    {
        found.push(Finding {
            line,
            advice: UNREAD_PROFILE,
        })?;
    }
    Ok(found)
}

// `PATH:LINE: warning: ..`, what a server does, and what to write.
fn push_finding(text: &mut Vec<u8>, path: &str, finding: Finding) -> Result<(), AllocError> {
    let advice = finding.advice;
    push_all(text, &[path, ":"])?;
    push_number(text, finding.line)?;
    push_all(
        text,
        &[": warning: ", advice.found, " [", advice.name, "]\n"],
    )?;
    push_all(text, &[advice.server, "\n", advice.hint, "\n"])
}

fn draft(alloc: Global, sources: &Sources<'_>) -> Result<Vec<u8>, AllocError> {
    let mut text = Vec::new(alloc);
    let Some(dictionary) = sources.dictionary(alloc) else {
        return Ok(text);
    };
    let source = sources.policy;
    if let Ok(policy) = read_policy(alloc, &dictionary, source.text) {
        for finding in &findings(alloc, &dictionary, &policy, source.text)? {
            push_finding(&mut text, source.path, *finding)?;
        }
    }
    Ok(text)
}

/// What a job's policy is warned of, where it is one and the dictionary is read: of each warning its line, what a server
/// does and what to write. It has no control character but line ends, whatever the files hold.
pub fn warnings_text(alloc: Global, sources: &Sources<'_>) -> Result<Vec<u8>, AllocError>
    ensures visible { IfOk result (λ text. all_visible Kept text.items ≡ true) }
{
    visible_text(alloc, &draft(alloc, sources)?, LineBreaks::Kept)
}
