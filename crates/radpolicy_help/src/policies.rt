//! Help for faults of policies.

use crate::allowances::push_unread_profile;
use crate::captures::{has_number, operand_hint};
use crate::contexts::{Context, Expected, OpenBlock, context_after, expected_text};
use crate::found::Found;
use crate::halves::HIDDEN;
use crate::nearest::nearest_of;
use crate::patterns::{fault_place, push_pattern_fault, unread_pattern_hint};
use crate::places::{Quoted, last_line, push_place};
use crate::policy_tokens::{is_match, is_update_operator, is_word_octet, text_of};
use crate::runs::Run;
use crate::secret_words::hidden_of;
use crate::sources::Sources;
use crate::texts::{push_all, push_choices, push_number};
use crate::unknown_names::{misspelt_at, name_in, push_unknown};
use crate::unread_secrets::UnreadSecrets;
use crate::values::{push_not_value, push_word_after};
use avp_dict::line_after;
use avp_forms::{Profile, profile_of};
use avp_unlang::{PolicyFault, PolicyKind};
use std::alloc::{AllocError, Global};

/// The words with which a statement begins.
pub(crate) const STATEMENT_WORDS: [&str; 10] = [
    "update",
    "if",
    "elsif",
    "else",
    "transaction",
    "ok",
    "noop",
    "updated",
    "fail",
    "reject",
];

/// What to do about a list that only a server has.
pub(crate) const OTHER_LISTS: &str =
    "of the server's lists there are request, reply and control; radpolicy-import --write-dictionary gives \
    attributes of the others names of their own\n";

const LISTS: [&str; 3] = ["request", "reply", "control"];

// Words that begin no statement here, and what to do.
const STATEMENT_HINTS: [(&[&str], &str); 8] = [
    (
        &["switch", "case"],
        "switch is left out here: write if (&Name == value) { .. } elsif (..) { .. }, as \
        radpolicy-import does",
    ),
    (
        &["foreach", "while", "break"],
        "loops are left out here: of an attribute the first instance alone can be used, as in \
        update reply { Class := &Class }",
    ),
    (&["unless"], "write if (!(..)) { .. }"),
    (
        &[
            "authorize",
            "authenticate",
            "preacct",
            "accounting",
            "session",
            "post-auth",
            "pre-proxy",
            "post-proxy",
            "server",
            "policy",
            "Post-Auth-Type",
            "Auth-Type",
        ],
        "a section's own line is left out here: write only what is between its { and }",
    ),
    (&["else", "elsif"], "else and elsif follow the } of an if"),
    (
        &["return"],
        "return is left out here: put what comes after it into else { .. }, or take it out where \
        nothing does",
    ),
    (
        &["handled", "invalid", "userlock", "notfound", "disallow"],
        "of the server's codes there are ok, noop, updated, fail and reject: ask for one of \
        these, or take it out",
    ),
    (
        &[
            "group",
            "redundant",
            "load-balance",
            "redundant-load-balance",
            "parallel",
            "limit",
            "actions",
        ],
        "this block is left out here: write only what it would run",
    ),
];

// What to do where a statement begins with a word of the server's language.
fn statement_hint(word: &str) -> Option<&'static str> {
    let (_, hint) = STATEMENT_HINTS
        .iter()
        .find(|(words, _)| words.contains(&word))?;
    Some(hint)
}

fn begins_with_control(text: &str) -> bool {
    matches!(text.as_bytes(), [0..=31 | 127, ..])
}

// What to do where no statement begins with a word.
fn push_statement_hint(
    alloc: Global,
    help: &mut Vec<u8>,
    word: &str,
    next: &str,
) -> Result<(), AllocError> {
    if let Some(hint) = statement_hint(word) {
        return push_all(help, &[hint, "\n"]);
    }
    if begins_with_control(next) {
        return push_all(help, &["take out what is shown as \\ and three digits\n"]);
    }
    if word == "&" {
        return push_all(
            help,
            &["attributes are set in a block: write update reply { .. }\n"],
        );
    }
    if word.starts_with("\"") || word.starts_with("'") {
        return push_all(
            help,
            &["no text stands here: write update reply { Reply-Message := .. } before the code\n"],
        );
    }
    let names = nearest_of(alloc, word, &STATEMENT_WORDS)?;
    if !names.is_empty() {
        push_all(help, &["write "])?;
        push_choices(help, &names)?;
        push_all(help, &["\n"])
    } else if next == "{" {
        push_all(
            help,
            &[
                "a section's or policy's own line is left out here: write only what is between its { \
            and }; of a module with actions take out both\n",
            ],
        )
    } else {
        push_all(
            help,
            &[
                "modules are left out here: take it out, as radpolicy-import does, or write what it would set, \
                as update control { .. }\n",
            ],
        )
    }
}

// What to do where a condition goes on otherwise.
fn condition_hint(context: &Context<'_>, found: &str, profile: Profile) -> &'static str {
    match (context.expected, found) {
        (_, "=~" | "!~") if profile == Profile::Plain => {
            "regular expressions are read below # profile: wider in the first line; without it write \
            == and the whole text"
        }
        (_, "=~" | "!~") =>
            "a regular expression follows & and the name of an attribute, or one expansion as a text",
        (Expected::Relation | Expected::TextRelation | Expected::GroupRelation, "=" | ":=") =>
            "to compare, write ==; = and := set attributes",
        (Expected::Relation, "===" | "!==") => "to compare, write == or !=",
        (Expected::Relation | Expected::Joint | Expected::GroupRelation, "{") =>
            "a ) is missing before it",
        (Expected::Operand | Expected::Comparand, ")" | "{") => "what is compared is missing",
        (Expected::Comparand, "(") => "write a value, not a cast or an expression",
        (Expected::Comparand, "&") => {
            "a text is not compared with an attribute: write the attribute first, as in &Name == \"%{1}\""
        }
        (Expected::TextRelation, ")" | "&&" | "||" | "{") => {
            "a text by itself is no condition, but for one group, as \"%{1}\": compare it"
        }
        (Expected::Operand, "<") => "casts are left out here: write &Name alone",
        (Expected::Operand, _) if has_number(found) => operand_hint(found, profile),
        (Expected::Operand, _) => "write &Name to test or compare an attribute",
        (
            Expected::Relation | Expected::Joint | Expected::TextRelation | Expected::GroupRelation,
            _,
        ) => { "put a text with blanks into quotes, and && or || between two conditions" }
        _ => "write the attribute's name after the &",
    }
}

fn update_hint(context: &Context<'_>, found: &str) -> &'static str {
    match (context.expected, found) {
        (Expected::Operator, "=~" | "!~" | "!=" | "<=" | ">=" | "<" | ">") => {
            "to set an attribute, write :=; comparisons belong into if ( .. )"
        }
        (Expected::Operator, "[") => "instances by number are left out here: write the name alone",
        (Expected::Operator, _) => "write := between the attribute and its value",
        (Expected::Value, "}") => "the value is missing",
        (Expected::Value, _) => "put a text with other signs or blanks into quotes",
        (Expected::Line, "if" | "else" | "elsif") => "an update has only lines that set attributes",
        (Expected::Line, _) if found.starts_with("\"") || found.starts_with("'") => {
            "a line sets one value: write a line for each, with += from the second on"
        }
        (Expected::Line, _) =>
            "end the update with } before it, or put a text with blanks into quotes",
        _ => "write the attribute's name after the &",
    }
}

fn push_list_hint(alloc: Global, help: &mut Vec<u8>, found: &str) -> Result<(), AllocError> {
    if found.starts_with("outer.") || found.contains("proxy") || found == "session-state" {
        return push_all(help, &[OTHER_LISTS]);
    }
    let names = nearest_of(alloc, found, &LISTS)?;
    if names.is_empty() {
        return push_all(
            help,
            &["write update reply { .. } to set what the reply has\n"],
        );
    }
    push_all(help, &["write "])?;
    push_choices(help, &names)?;
    push_all(help, &["\n"])
}

// What to do about a token that does not fit.
fn push_misplaced_hint(
    alloc: Global,
    help: &mut Vec<u8>,
    context: &Context<'_>,
    found: &Found<'_>,
    profile: Profile,
) -> Result<(), AllocError> {
    let token = without_pattern(found.token);
    let hint = match context.expected {
        // (what would be said here would tell of the word)
        Expected::Statement | Expected::UpdateList if found.is_hidden() => return Ok(()),
        Expected::Statement if token == "}" => "no block is open: take this } out",
        Expected::Statement => return push_statement_hint(alloc, help, token, found.next),
        Expected::UpdateList => return push_list_hint(alloc, help, token),
        Expected::StatementBlock if context.keyword == "else" && token == "if" => "write elsif",
        Expected::StatementBlock | Expected::LineBlock => "a { is missing before it",
        Expected::Condition => "write the condition between ( and )",
        Expected::Line | Expected::Operator | Expected::Value | Expected::Source => {
            update_hint(context, token)
        }
        Expected::Operand
        | Expected::Reference
        | Expected::Relation
        | Expected::Comparand
        | Expected::ComparedReference
        | Expected::Joint
        | Expected::TextRelation
        | Expected::GroupRelation => condition_hint(context, token, profile),
    };
    push_all(help, &[hint, "\n"])
}

// What to do about a text that ends too early.
fn push_end_hint(
    alloc: Global,
    help: &mut Vec<u8>,
    context: &Context<'_>,
    quoted: Quoted<'_>,
) -> Result<(), AllocError> {
    if context.brackets > 0 {
        push_all(
            help,
            &["a ( is open: write ) for it; its condition begins here:\n"],
        )?;
        return push_place(alloc, help, quoted, context.begin);
    }
    match context.blocks.as_slice().last() {
        Some(block) => {
            push_all(
                help,
                &["a block is open: write } for it; it begins here:\n"],
            )?;
            push_place(alloc, help, quoted, block.offset)
        }
        None => push_all(help, &["what is begun on the last line is not ended\n"]),
    }
}

// A token; of a comparison with a regular expression its sign.
fn without_pattern(found: &str) -> &str {
    if is_match(found) {
        found.get(..2).unwrap_or(found)
    } else {
        found
    }
}

fn push_misplaced(
    alloc: Global,
    help: &mut Vec<u8>,
    context: &Context<'_>,
    quoted: Quoted<'_>,
    found: &Found<'_>,
) -> Result<(), AllocError> {
    let profile = profile_of(quoted.source.text);
    let expected = expected_text(context.expected, !context.blocks.is_empty(), profile);
    if found.token.is_empty() {
        push_all(help, &["the text ends; here may be ", expected, "\n"])?;
        return push_end_hint(alloc, help, context, quoted);
    }
    push_all(
        help,
        &["found ", without_pattern(found.shown), "; here may be "],
    )?;
    push_all(help, &[expected, "\n"])?;
    push_misplaced_hint(alloc, help, context, found, profile)
}

// What to do about a text between double quotes with an expansion that is none.
fn expansion_hint(text: &str) -> &'static str {
    if text.contains("%{%{") {
        "defaults in expansions are left out here: write if (&Name) { .. } else { .. }, as radpolicy-import does"
    } else if text.contains("%{") && text.contains(":") {
        "%{Name}, %{reply:Name} and %{control:Name} may be put into a text; modules, as sql, and \
        counts, casts and functions are left out here"
    } else if text.contains("%{") {
        "in an update %{Name} is put into a text; in a condition compare with &Name"
    } else {
        "write %% for a % in a text between double quotes"
    }
}

// The quote of print with which a text begins, if it does.
fn print_quote(text: &[u8]) -> Option<&'static str> {
    for quote in [
        "\u{201c}", "\u{201d}", "\u{201e}", "\u{2018}", "\u{2019}", "\u{ab}", "\u{bb}",
    ] {
        if text.starts_with(quote.as_bytes()) {
            return Some(quote);
        }
    }
    None
}

// What is said of what is no token.
fn push_unreadable(help: &mut Vec<u8>, found: &Found<'_>) -> Result<(), AllocError> {
    if let Some(quote) = print_quote(found.back) {
        return push_all(
            help,
            &["found ", quote, ", a quote of print: write \" or '\n"],
        );
    }
    push_all(help, &["found ", found.shown, "\n"])?;
    push_all(help, &[unreadable_hint(found.token), "\n"])
}

// What to do about what is no token, by its first octets.
fn unreadable_hint(found: &str) -> &'static str {
    if found.starts_with("\"") || found.starts_with("'") {
        let is_ended = found.len() > 1
            && found.ends_with(if found.starts_with("'") { "'" } else { "\"" });
        if is_ended {
            expansion_hint(found)
        } else {
            "the text has no closing quote on its line"
        }
    } else if found.starts_with("[") {
        "instances by number are left out here: &Name is the first one"
    } else if found.starts_with("$") {
        "variables of the server's configuration are left out here: write the value"
    } else if found.starts_with("%") {
        "an expansion may be in double quotes only: \"%{Name}\""
    } else if found.starts_with("\\") {
        "lines that go on are left out here: write the line in one piece"
    } else if found.starts_with(",") || found.starts_with(";") {
        "lines end without a comma or semicolon: take it out"
    } else if found.starts_with("~") {
        "regular expressions belong into if ( .. ), below # profile: wider in the first line"
    } else if found.starts_with("*") {
        "patterns with * are left out here: write == and the whole text"
    } else {
        "put a text with other signs than letters, digits and - _ . / : @ into quotes"
    }
}

// What is said of a text that is no value.
fn push_unfit_value(
    alloc: Global,
    help: &mut Vec<u8>,
    sources: &Sources<'_>,
    context: &Context<'_>,
    found: &Found<'_>,
) -> Result<(), AllocError> {
    if context.name == HIDDEN {
        return push_all(help, &["found ", found.shown, ", which is no value here\n"]);
    }
    let profile = profile_of(sources.policy.text);
    let name = name_in(context.name);
    push_not_value(alloc, help, sources, profile, name, found.shown)
}

// The update in which a word is found that begins a statement, as if it were an attribute's name.
fn unended_update(context: &Context<'_>, found: &Found<'_>) -> Option<OpenBlock> {
    if context.expected == Expected::Line
        && STATEMENT_WORDS.contains(&found.token)
        && !is_update_operator(found.next)
    {
        context.blocks.as_slice().last().copied()
    } else {
        None
    }
}

// What is said of a name of no attribute: in an update without its end it may be no name.
fn push_no_name(
    alloc: Global,
    help: &mut Vec<u8>,
    sources: &Sources<'_>,
    context: &Context<'_>,
    found: &Found<'_>,
) -> Result<(), AllocError> {
    let Some(update) = unended_update(context, found) else {
        return push_unknown(alloc, help, sources, context, found);
    };
    let text = sources.policy.text;
    push_all(
        help,
        &[found.shown, " begins a statement: the update of line "],
    )?;
    push_number(help, line_after(text.get(..update.offset).unwrap_or(text)))?;
    push_all(help, &[" has no }\n"])
}

// What was found, and what to do, by the fault's kind.
fn push_sentences(
    alloc: Global,
    help: &mut Vec<u8>,
    kind: PolicyKind,
    context: &Context<'_>,
    sources: &Sources<'_>,
    quoted: Quoted<'_>,
    found: &Found<'_>,
) -> Result<(), AllocError> {
    match kind {
        PolicyKind::Misplaced => push_misplaced(alloc, help, context, quoted, found),
        PolicyKind::Unreadable if is_match(found.token) => {
            push_all(help, &["found ", without_pattern(found.shown), "\n"])?;
            push_all(help, &[unread_pattern_hint(found.back), "\n"])
        }
        PolicyKind::Unreadable => push_unreadable(help, found),
        PolicyKind::Unknown => push_no_name(alloc, help, sources, context, found),
        PolicyKind::NotValue => push_unfit_value(alloc, help, sources, context, found),
        PolicyKind::TooLong => push_too_long(help, name_in(context.name)),
        PolicyKind::NotWritable => push_not_writable(help, name_in(found.shown)),
        PolicyKind::TooDeep => push_all(help, &["64 signs { ( and ! are open here already\n"]),
        PolicyKind::TooLarge => push_all(help, &["a policy has at most 65535 lines and words\n"]),
        PolicyKind::OtherType if found.token.starts_with('"') => {
            push_text_beside(help, name_in(context.name))
        }
        PolicyKind::OtherType if found.is_hidden() => {
            push_all(help, &["both attributes have to be of one type\n"])
        }
        PolicyKind::OtherType => push_other_type(help, name_in(context.name), found.token),
        PolicyKind::NotExpansion => push_all(
            help,
            &["of texts a regular expression searches \"%{Name}\" and \"%{1}\" alone\n"],
        ),
        PolicyKind::Pattern(fault) => push_pattern_fault(help, fault),
        PolicyKind::Memory => Ok(()),
    }
}

fn push_too_long(help: &mut Vec<u8>, name: &str) -> Result<(), AllocError> {
    push_all(
        help,
        &[
            "a value of ",
            name,
            " has fewer octets than this text\nshorten it\n",
        ],
    )
}

fn push_not_writable(help: &mut Vec<u8>, name: &str) -> Result<(), AllocError> {
    push_all(
        help,
        &[
            name,
            " is not written under this name\nwrite the name of what is in it, as \
            Cisco-AVPair for Vendor-Specific, or User-Password for Attr-2\n",
        ],
    )
}

fn push_text_beside(help: &mut Vec<u8>, name: &str) -> Result<(), AllocError> {
    push_all(
        help,
        &[
            "a text with an expansion is compared with octets and strings without a tag, and ",
            name,
            " is neither\ncompare it with a value, or with one expansion alone, of its own type\n",
        ],
    )
}

fn push_other_type(help: &mut Vec<u8>, name: &str, found: &str) -> Result<(), AllocError> {
    push_all(
        help,
        &[
            "both attributes have to be of one type, and ",
            name,
            " and ",
        ],
    )?;
    push_all(
        help,
        &[
            name_in(found),
            " are not\nput it into a text: \"%{",
            found,
            "}\"\n",
        ],
    )
}

// Whether a word follows a closing quote at once, as in `'it's late'`.
fn is_behind_quote(front: &[u8], found: &Found<'_>) -> bool {
    matches!(front, [.., b'"' | b'\''])
        && matches!(found.back, [first, ..] if is_word_octet(*first))
}

// What is said of a word that follows a closing quote at once.
fn push_behind_quote(help: &mut Vec<u8>, found: &Found<'_>) -> Result<(), AllocError> {
    push_all(
        help,
        &[
            "found ",
            found.shown,
            " behind a closing quote\nput a text with a ' between two \", and one with a \" between two '\n",
        ],
    )
}

// Whether a place after this text is one after the value of an update line, on the same line.
fn is_after_value(context: &Context<'_>, front: &[u8]) -> bool {
    let line = last_line(front).trim_ascii();
    context.expected == Expected::Line && !line.is_empty() && !line.ends_with(b"{")
}

// The word at the end of a text, as it is shown.
fn last_word<'a>(quoted: Quoted<'a>, front: &'a [u8]) -> &'a str {
    let front = front.trim_ascii_end();
    let offset = Run::PolicyWord.before(front).len();
    let word = text_of(front.get(offset..).unwrap_or(&[]));
    quoted.hidden.shown(quoted.source.text, offset, word)
}

// What is said of a word that follows the value of an update line.
fn push_after_value(
    help: &mut Vec<u8>,
    sources: &Sources<'_>,
    context: &Context<'_>,
    value: &str,
    word: &str,
) -> Result<(), AllocError> {
    push_all(help, &["found ", word, " after a value\n"])?;
    push_word_after(help, sources, name_in(context.name), [value, word])
}

/// What is said of a policy's fault.
pub(crate) fn policy_help(
    alloc: Global,
    fault: PolicyFault,
    sources: &Sources<'_>,
    secrets: &UnreadSecrets<'_>,
) -> Result<Vec<u8>, AllocError> {
    let text = sources.policy.text;
    let misspelt = misspelt_at(alloc, sources, secrets, fault)?;
    let hidden = hidden_of(alloc, secrets, text, misspelt.as_bytes())?;
    let quoted = Quoted {
        source: sources.policy,
        hidden: &hidden,
    };
    let found = Found::at(quoted, fault.offset);
    let front = text.get(..fault.offset).unwrap_or(text);
    let mut context = context_after(alloc, front)?;
    context.name = hidden.shown(text, context.name_offset, context.name);
    let mut help = Vec::new(alloc);
    let place = fault.offset.saturating_add(match fault.kind {
        PolicyKind::Pattern(fault) => fault_place(found.back, fault),
        _ => 0,
    });
    push_place(alloc, &mut help, quoted, place)?;
    if matches!(fault.kind, PolicyKind::Unknown | PolicyKind::Misplaced)
        && is_behind_quote(front, &found)
    {
        push_behind_quote(&mut help, &found)?;
    } else if fault.kind == PolicyKind::Unknown
        && is_after_value(&context, front)
        && !is_update_operator(found.next)
    {
        let value = last_word(quoted, front);
        push_after_value(&mut help, sources, &context, value, found.shown)?;
    } else {
        push_sentences(
            alloc, &mut help, fault.kind, &context, sources, quoted, &found,
        )?;
    }
    push_unread_profile(&mut help, text)?;
    Ok(help)
}
