//! Attributes that a server or one of its modules answers, whatever the lists hold, and where a policy looks at them.

ghost use Rattle.std.specs.Prelude.{◌≡◌, ◌++◌, ◌∷◌, [], false, map, IfOk, OnOk};
ghost use Rattle.std.specs.List.{flat_map, list_any};
ghost use Rattle.std.specs.Option.{option_map_or};
ghost use Rattle.avp_dict.specs.Names.{Described, described};
ghost use Rattle.avp_unlang.specs.declared.tree.Part.{Part};
ghost use Rattle.policy_warnings.specs.ServerAttributes.{answered_in, answered_in_branch, answered_warnings, aside, asks_module, comparison_looks, cond_warned, ends_in, ends_in_one_of, has_name, has_one_of, has_packet, is_left_attribute, is_request, is_virtual, line_warned, look, looked_at_left, looks, meant_comparison_looks, module_endings, put_in, puts_value, source_looks, text_looks};
ghost use Rattle.policy_warnings.specs.Mentions.{comparand_mentions, meant_comparand_mentions};

use crate::mentions::Mention;
use crate::warnings::{Reason, Warning, push_if};
use avp_dict::{Dictionary, same_name};
use avp_lists::{AttrId, List};
use avp_unlang::{
    Branch, Comparand, Comparison, Cond, Line, MeantComparand, MeantComparison, Part, Source,
    Statement, TextComparison, TextSide,
};
use std::alloc::{AllocError, Global};

/// Attributes that a server makes of its own state, under the name of whichever list.
pub const SERVER_ATTRIBUTES: [&str; 4] = [
    "Client-Shortname",
    "Module-Return-Code",
    "Request-Processing-Stage",
    "Virtual-Server",
];

/// Attributes that a server makes of a packet: of the request, and under `reply:` of the reply.
pub const PACKET_ATTRIBUTES: [&str; 10] = [
    "Client-IP-Address",
    "Packet-Authentication-Vector",
    "Packet-Dst-IP-Address",
    "Packet-Dst-IPv6-Address",
    "Packet-Dst-Port",
    "Packet-Src-IP-Address",
    "Packet-Src-IPv6-Address",
    "Packet-Src-Port",
    "Packet-Type",
    "Response-Packet-Type",
];

/// Attributes for which a server asks a module, where one of the request is on the left of a comparison: `logintime`,
/// `expiration`, `unix`, `ldap`, `sql` or `expr`, or one that counts, under the names that Debian's configuration has.
pub const MODULE_ATTRIBUTES: [&str; 14] = [
    "Current-Time",
    "Daily-Session-Time",
    "Expiration",
    "Expire-After-Initial-Login",
    "Group",
    "Group-Name",
    "LDAP-Group",
    "Max-All-Session-Time",
    "Monthly-Session-Time",
    "Prefix",
    "SQL-Group",
    "Suffix",
    "Time-Of-Day",
    "Unix-Group",
];

/// How those end that begin with the name of a module's instance.
pub const MODULE_ENDINGS: [&str; 2] = ["-LDAP-Group", "-SQL-Group"];

/// Instances that a policy looks at.
#[derive(Clone, Copy, Debug)]
pub struct Look {
    pub mention: Mention,
    /// Whether they are on the left of a comparison.
    pub is_compared: bool,
}

impl Look {
    fn new(mention: Mention, is_compared: bool) -> Look
        ensures { result ≡ look is_compared mention }
    {
        Look {
            mention,
            is_compared,
        }
    }
}

// ---- what a policy looks at

fn push_look(looked: &mut Vec<Look>, mention: Mention, is_compared: bool) -> Result<(), AllocError>
    ensures { OnOk result (looked.new.items
        ≡ looked.old.items ++ look is_compared mention ∷ []) }
{
    Ok(looked.push(Look::new(mention, is_compared))?)
}

fn push_part(looked: &mut Vec<Look>, part: &Part, is_compared: bool) -> Result<(), AllocError>
    ensures { OnOk result (looked.new.items
        ≡ looked.old.items ++ map (look is_compared) (put_in part.now)) }
{
    match part {
        Part::Text(_) | Part::Capture(_) => Ok(()),
        Part::Instance(list, id) => push_look(looked, Mention::whole(*list, *id), is_compared),
        Part::Meant(list, id, selection) => {
            push_look(
                looked,
                Mention::selected(*list, *id, *selection),
                is_compared,
            )
        }
    }
}

fn push_parts(looked: &mut Vec<Look>, parts: &[Part], is_compared: bool) -> Result<(), AllocError>
    ensures { OnOk result (looked.new.items
        ≡ looked.old.items ++ map (look is_compared) (flat_map put_in parts.now)) }
{
    for part in parts {
        push_part(looked, part, is_compared)?;
    }
    Ok(())
}

fn puts_value(part: &Part) -> bool
    ensures { result ≡ puts_value part.now }
{
    match part {
        Part::Text(_) => false,
        Part::Instance(..) | Part::Meant(..) | Part::Capture(_) => true,
    }
}

fn any_puts_value(parts: &[Part]) -> bool
    ensures { result ≡ list_any puts_value parts.now }
{
    parts.iter().any(|part| puts_value(part))
}

fn is_left_attribute(left: &TextSide, right: &[Part]) -> bool
    ensures { result ≡ is_left_attribute left.now right.now }
{
    match left {
        TextSide::Instance(..) => true,
        TextSide::Text(parts) => match parts.as_slice() {
            [_] => !any_puts_value(right),
            _ => false,
        },
    }
}

fn push_left(looked: &mut Vec<Look>, left: &TextSide, is_compared: bool) -> Result<(), AllocError>
    ensures { OnOk result (looked.new.items
        ≡ looked.old.items ++ map (look is_compared) (looked_at_left left.now)) }
{
    match left {
        TextSide::Text(parts) => push_parts(looked, parts.as_slice(), is_compared),
        TextSide::Instance(list, id, selection) => {
            push_look(
                looked,
                Mention::selected(*list, *id, *selection),
                is_compared,
            )
        }
    }
}

fn push_texts(looked: &mut Vec<Look>, comparison: &TextComparison) -> Result<(), AllocError>
    ensures { OnOk result (looked.new.items ≡ looked.old.items ++ text_looks comparison.now) }
{
    let right = comparison.right.as_slice();
    let is_compared = is_left_attribute(&comparison.left, right);
    push_left(looked, &comparison.left, is_compared)?;
    push_parts(looked, right, false)
}

fn push_comparand(looked: &mut Vec<Look>, comparand: &Comparand) -> Result<(), AllocError>
    ensures { OnOk result (looked.new.items
        ≡ looked.old.items ++ map aside (comparand_mentions comparand.now)) }
{
    match comparand {
        Comparand::Literal(_) => Ok(()),
        Comparand::Instance(list, id) => push_look(looked, Mention::whole(*list, *id), false),
    }
}

fn push_meant_comparand(
    looked: &mut Vec<Look>,
    comparand: &MeantComparand,
) -> Result<(), AllocError>
    ensures { OnOk result (looked.new.items
        ≡ looked.old.items ++ map aside (meant_comparand_mentions comparand.now)) }
{
    match comparand {
        MeantComparand::Literal(..) => Ok(()),
        MeantComparand::Instance(list, id, selection, _) => {
            push_look(looked, Mention::selected(*list, *id, *selection), false)
        }
    }
}

fn push_comparison(looked: &mut Vec<Look>, comparison: &Comparison) -> Result<(), AllocError>
    ensures { OnOk result (looked.new.items
        ≡ looked.old.items ++ comparison_looks comparison.now) }
{
    push_look(looked, Mention::whole(comparison.list, comparison.id), true)?;
    push_comparand(looked, &comparison.comparand)
}

fn push_meant_comparison(
    looked: &mut Vec<Look>,
    comparison: &MeantComparison,
) -> Result<(), AllocError>
    ensures { OnOk result (looked.new.items
        ≡ looked.old.items ++ meant_comparison_looks comparison.now) }
{
    let compared = Mention::selected(comparison.list, comparison.id, comparison.selection);
    push_look(looked, compared, true)?;
    push_meant_comparand(looked, &comparison.comparand)
}

#[cycle(looking)]
fn push_each(looked: &mut Vec<Look>, conds: &[Cond]) -> Result<(), AllocError>
    ensures { OnOk result (looked.new.items ≡ looked.old.items ++ flat_map looks conds.now) }
{
    for cond in conds {
        push_looks(looked, cond)?;
    }
    Ok(())
}

#[cycle(looking)]
#[tactic(auto, using(crate::proofs::Looking::looks_any, crate::proofs::Looking::looks_all, crate::proofs::Looking::looks_not, crate::proofs::Looking::looks_last, crate::proofs::Looking::looks_present, crate::proofs::Looking::looks_present_selected, crate::proofs::Looking::looks_compare, crate::proofs::Looking::looks_compare_meant, crate::proofs::Looking::looks_match, crate::proofs::Looking::looks_compare_texts, crate::proofs::Looking::looks_match_text, crate::proofs::Looking::looks_match_group, crate::proofs::Looking::looks_captured, crate::proofs::Looking::nothing_pushed))]
fn push_looks(looked: &mut Vec<Look>, cond: &Cond) -> Result<(), AllocError>
    ensures { OnOk result (looked.new.items ≡ looked.old.items ++ looks cond.now) }
{
    match cond {
        Cond::Any(conds) | Cond::All(conds) => push_each(looked, conds.as_slice()),
        Cond::Not(cond) => push_looks(looked, cond.get()),
        Cond::Last(_) | Cond::MatchGroup(_) | Cond::Captured(_) => Ok(()),
        Cond::Present(list, id) => push_look(looked, Mention::whole(*list, *id), false),
        Cond::PresentSelected(list, id, selection) => {
            push_look(looked, Mention::selected(*list, *id, *selection), false)
        }
        Cond::Compare(comparison) => push_comparison(looked, comparison),
        Cond::CompareMeant(comparison) => push_meant_comparison(looked, comparison),
        Cond::Match(k) => push_look(looked, Mention::selected(k.list, k.id, k.selection), true),
        Cond::MatchText(k) => {
            push_look(looked, Mention::selected(k.list, k.id, k.selection), false)
        }
        Cond::CompareTexts(comparison) => push_texts(looked, comparison),
    }
}

fn looks_of(alloc: Global, cond: &Cond) -> Result<Vec<Look>, AllocError>
    ensures { IfOk result (λ looked. looked.items ≡ looks cond.now) }
{
    let mut looked = Vec::new(alloc);
    push_looks(&mut looked, cond)?;
    Ok(looked)
}

fn source_looks(alloc: Global, source: &Source) -> Result<Vec<Look>, AllocError>
    ensures { IfOk result (λ looked. looked.items ≡ source_looks source.now) }
{
    let mut looked = Vec::new(alloc);
    match source {
        Source::Literal(_) | Source::Any => {}
        Source::Text(_, parts) | Source::WiderText(_, _, parts) => {
            push_parts(&mut looked, parts.as_slice(), false)?;
        }
        Source::Instance(list, id) => {
            push_look(&mut looked, Mention::whole(*list, *id), false)?;
        }
        Source::Tagged(list, id, selection, _, _) => {
            push_look(
                &mut looked,
                Mention::selected(*list, *id, *selection),
                false,
            )?;
        }
    }
    Ok(looked)
}

// ---- what is answered

fn has_name(dictionary: &Dictionary, id: AttrId, name: &[u8]) -> bool
    ensures { result ≡ has_name dictionary.now id name.now }
{
    match dictionary.by_name(name) {
        Some(found) => id.equals(found.id),
        None => false,
    }
}

fn has_one_of(names: &[&str], dictionary: &Dictionary, id: AttrId) -> bool
    ensures { result ≡ has_one_of (map (λ name. name.now) names.now) dictionary.now id }
{
    for name in names {
        if has_name(dictionary, id, name.as_bytes()) {
            return true;
        }
    }
    false
}

fn ends_in(name: &[u8], ending: &[u8]) -> bool
    ensures { result ≡ ends_in name.now ending.now }
{
    same_name(&name[name.len().saturating_sub(ending.len())..], ending)
}

fn ends_in_one_of(endings: &[&str], name: &[u8]) -> bool
    ensures { result ≡ ends_in_one_of (map (λ ending. ending.now) endings.now) name.now }
{
    for ending in endings {
        if ends_in(name, ending.as_bytes()) {
            return true;
        }
    }
    false
}

#[tactic(auto, unfolding(crate::specs::ServerAttributes::module_endings))]
fn is_of_instance(dictionary: &Dictionary, id: AttrId) -> bool
    ensures { result ≡ option_map_or
        (λ (found : Described). ends_in_one_of module_endings found.name)
        (described id dictionary.now) false }
{
    match dictionary.by_id(id) {
        Some(found) => ends_in_one_of(&MODULE_ENDINGS, found.name),
        None => false,
    }
}

fn has_packet(list: List) -> bool
    ensures { result ≡ has_packet list }
{
    match list {
        List::Request | List::Reply => true,
        List::Control => false,
    }
}

fn is_request(list: List) -> bool
    ensures { result ≡ is_request list }
{
    list == List::Request
}

#[tactic(auto, unfolding(crate::specs::ServerAttributes::is_virtual, crate::specs::ServerAttributes::server_attributes, crate::specs::ServerAttributes::packet_attributes))]
fn is_virtual(dictionary: &Dictionary, look: Look) -> bool
    ensures { result ≡ is_virtual dictionary.now look }
{
    let Mention { list, id, .. } = look.mention;
    has_one_of(&SERVER_ATTRIBUTES, dictionary, id)
        || (has_packet(list) && has_one_of(&PACKET_ATTRIBUTES, dictionary, id))
}

#[tactic(auto, unfolding(crate::specs::ServerAttributes::asks_module, crate::specs::ServerAttributes::module_attributes))]
fn asks_module(dictionary: &Dictionary, look: Look) -> bool
    ensures { result ≡ asks_module dictionary.now look }
{
    let Mention { list, id, .. } = look.mention;
    look.is_compared
        && is_request(list)
        && (has_one_of(&MODULE_ATTRIBUTES, dictionary, id) || is_of_instance(dictionary, id))
}

fn any_virtual(dictionary: &Dictionary, looks: &[Look]) -> bool
    ensures { result ≡ list_any (is_virtual dictionary.now) looks.now }
{
    looks.iter().any(|look| is_virtual(dictionary, *look))
}

fn any_asks_module(dictionary: &Dictionary, looks: &[Look]) -> bool
    ensures { result ≡ list_any (asks_module dictionary.now) looks.now }
{
    looks.iter().any(|look| asks_module(dictionary, *look))
}

// ---- policies

fn push_line(
    warnings: &mut Vec<Warning>,
    dictionary: &Dictionary,
    line: &Line,
) -> Result<(), AllocError>
    ensures { OnOk result (warnings.new.items
        ≡ warnings.old.items ++ line_warned dictionary.now line.now) }
{
    let looks = source_looks(*warnings.allocator(), &line.source)?;
    let is_virtual = any_virtual(dictionary, &looks);
    push_if(warnings, is_virtual, line.line, Reason::VirtualAttribute)
}

fn push_lines(
    warnings: &mut Vec<Warning>,
    dictionary: &Dictionary,
    lines: &[Line],
) -> Result<(), AllocError>
    ensures { OnOk result (warnings.new.items
        ≡ warnings.old.items ++ flat_map (line_warned dictionary.now) lines.now) }
{
    for line in lines {
        push_line(warnings, dictionary, line)?;
    }
    Ok(())
}

fn push_cond(
    warnings: &mut Vec<Warning>,
    dictionary: &Dictionary,
    line: usize,
    cond: &Cond,
) -> Result<(), AllocError>
    ensures { OnOk result (warnings.new.items
        ≡ warnings.old.items ++ cond_warned dictionary.now line cond.now) }
{
    let looks = looks_of(*warnings.allocator(), cond)?;
    let is_virtual = any_virtual(dictionary, &looks);
    push_if(warnings, is_virtual, line, Reason::VirtualAttribute)?;
    let asks_module = any_asks_module(dictionary, &looks);
    push_if(warnings, asks_module, line, Reason::ModuleComparison)
}

#[cycle(answered)]
fn push_block(
    warnings: &mut Vec<Warning>,
    dictionary: &Dictionary,
    block: &[Statement],
) -> Result<(), AllocError>
    ensures { OnOk result (warnings.new.items
        ≡ warnings.old.items ++ answered_warnings dictionary.now block.now) }
{
    for statement in block {
        push_statement(warnings, dictionary, statement)?;
    }
    Ok(())
}

#[cycle(answered)]
#[tactic(auto, using(crate::proofs::AnsweredBlocks::branch_out))]
fn push_branch(
    warnings: &mut Vec<Warning>,
    dictionary: &Dictionary,
    branch: &Branch,
) -> Result<(), AllocError>
    ensures { OnOk result (warnings.new.items
        ≡ warnings.old.items ++ answered_in_branch dictionary.now branch.now) }
{
    push_cond(warnings, dictionary, branch.line, &branch.cond)?;
    push_block(warnings, dictionary, branch.block.as_slice())
}

#[cycle(answered)]
fn push_branches(
    warnings: &mut Vec<Warning>,
    dictionary: &Dictionary,
    branches: &[Branch],
) -> Result<(), AllocError>
    ensures { OnOk result (warnings.new.items
        ≡ warnings.old.items ++ flat_map (answered_in_branch dictionary.now) branches.now) }
{
    for branch in branches {
        push_branch(warnings, dictionary, branch)?;
    }
    Ok(())
}

#[cycle(answered)]
#[tactic(auto, using(crate::proofs::AnsweredBlocks::in_update, crate::proofs::AnsweredBlocks::in_if, crate::proofs::AnsweredBlocks::in_transaction, crate::proofs::AnsweredBlocks::in_word))]
fn push_statement(
    warnings: &mut Vec<Warning>,
    dictionary: &Dictionary,
    statement: &Statement,
) -> Result<(), AllocError>
    ensures { OnOk result (warnings.new.items
        ≡ warnings.old.items ++ answered_in dictionary.now statement.now) }
{
    match statement {
        Statement::Update(_, lines) => push_lines(warnings, dictionary, lines.as_slice()),
        Statement::If(branches, otherwise) => {
            push_branches(warnings, dictionary, branches.as_slice())?;
            match otherwise {
                Some(block) => push_block(warnings, dictionary, block.as_slice()),
                None => Ok(()),
            }
        }
        Statement::Transaction(_, block) => push_block(warnings, dictionary, block.as_slice()),
        Statement::Word(_, _) => Ok(()),
    }
}

/// Where statements look at an attribute that a server makes itself, and where they compare one for which it asks a
/// module, in the order of their text.
pub fn answered_warnings(
    alloc: Global,
    dictionary: &Dictionary,
    statements: &[Statement],
) -> Result<Vec<Warning>, AllocError>
    ensures { IfOk result (λ warnings.
        warnings.items ≡ answered_warnings dictionary.now statements.now) }
{
    let mut warnings = Vec::new(alloc);
    push_block(&mut warnings, dictionary, statements)?;
    Ok(warnings)
}
