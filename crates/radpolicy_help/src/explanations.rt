//! Help for a fault.

ghost use Rattle.std.specs.Prelude.{◌≡◌, true, IfOk};
ghost use Rattle.radpolicy_common.specs.VisibleText.{all_visible};
ghost use Rattle.radpolicy_common.specs.declared.terminals.LineBreaks.TheVariants.{Kept};

use crate::dictionaries::dictionary_help;
use crate::nearest::nearest_of;
use crate::packets::{has_packet_digits, packet_help};
use crate::places::{Quoted, first_line, last_line, line_start, push_bare_place, push_place};
use crate::policies::policy_help;
use crate::policy_tokens::text_of;
use crate::requests::line_help;
use crate::secret_words::hidden_of;
use crate::sources::Sources;
use crate::texts::{push_all, push_choices};
use crate::unread_secrets::UnreadSecrets;
use crate::watching::ids_of;
use radpolicy::Fault;
use radpolicy_common::{LineBreaks, visible_text};
use std::alloc::{AllocError, Global};

const SCRIPT_WORDS: [&str; 5] = ["forward", "back", "start", "end", "show"];

// What is said of a word in a script.
fn script_help(
    alloc: Global,
    line: usize,
    sources: &Sources<'_>,
    secrets: &UnreadSecrets<'_>,
) -> Result<Vec<u8>, AllocError> {
    let text = sources.script.text;
    let start = line_start(text, line);
    let word = text_of(first_line(text.get(start..).unwrap_or(&[]))).trim();
    let hidden = hidden_of(alloc, secrets, text, &[])?;
    let quoted = Quoted {
        source: sources.script,
        hidden: &hidden,
    };
    let mut help = Vec::new(alloc);
    push_place(alloc, &mut help, quoted, start)?;
    push_all(
        &mut help,
        &["a script has one word a line: forward, back, start, end or show\n"],
    )?;
    let names = nearest_of(alloc, word, &SCRIPT_WORDS)?;
    if !names.is_empty() {
        push_all(&mut help, &["write "])?;
        push_choices(&mut help, &names)?;
        push_all(&mut help, &["\n"])?;
    }
    Ok(help)
}

// Adds the place of an octet that is no digit, with its line as it is shown, unless that is a packet's.
fn push_place_of_digit(
    alloc: Global,
    help: &mut Vec<u8>,
    sources: &Sources<'_>,
    secrets: &UnreadSecrets<'_>,
    offset: usize,
) -> Result<(), AllocError> {
    let text = sources.request.text;
    let (before, after) = text.split_at(offset.min(text.len()));
    if has_packet_digits(last_line(before)) || has_packet_digits(first_line(after)) {
        return push_bare_place(help, sources.request, offset);
    }
    let hidden = hidden_of(alloc, secrets, text, &[])?;
    let quoted = Quoted {
        source: sources.request,
        hidden: &hidden,
    };
    push_place(alloc, help, quoted, offset)
}

// What is said of a request that is no packet.
fn digits_help(
    alloc: Global,
    sources: &Sources<'_>,
    secrets: &UnreadSecrets<'_>,
) -> Result<Vec<u8>, AllocError> {
    let text = sources.request.text;
    let found = text.iter().position(|octet| !octet.is_ascii_hexdigit()
        && !octet.is_ascii_whitespace());
    let mut help = Vec::new(alloc);
    match found {
        Some(offset) => {
            push_place_of_digit(alloc, &mut help, sources, secrets, offset)?;
            push_all(
                &mut help,
                &[
                    "a packet is written in hexadecimal digits\nfor lines Name = value leave --hex out, \
                    or encode them\n",
                ],
            )?;
        }
        None => push_all(
            &mut help,
            &[
                sources.request.path,
                "\nan octet has two digits, and the number of digits is odd\n\
            look for a digit that is lost\n",
            ],
        )?,
    }
    Ok(help)
}

fn draft(
    alloc: Global,
    fault: &Fault,
    sources: &Sources<'_>,
    secrets: &UnreadSecrets<'_>,
) -> Result<Vec<u8>, AllocError> {
    match fault {
        Fault::Policy(fault) => policy_help(alloc, *fault, sources, secrets),
        Fault::Request(fault) | Fault::Reply(fault) | Fault::Control(fault) => {
            line_help(alloc, *fault, sources.request, sources, secrets)
        }
        Fault::Dictionary(fault) => dictionary_help(alloc, *fault, sources, secrets),
        Fault::Packet(fault) => packet_help(alloc, *fault, sources),
        Fault::ScriptWord { line } => script_help(alloc, *line, sources, secrets),
        Fault::NotHex => digits_help(alloc, sources, secrets),
        Fault::EmptySecret => {
            let mut help = Vec::new(alloc);
            push_all(
                &mut help,
                &[
                    sources.secret,
                    ":1:1\nthe first line is the secret, and it is empty\nwrite the secret \
                into it: echo testing123 > secret\n",
                ],
            )?;
            Ok(help)
        }
        Fault::PacketTooLong => {
            let mut help = Vec::new(alloc);
            push_all(
                &mut help,
                &["a packet has at most 4096 octets\nset fewer attributes, or shorter ones\n"],
            )?;
            Ok(help)
        }
        _ => Ok(Vec::new(alloc)),
    }
}

// The text that is quoted of what a fault is of.
fn quoted_text<'a>(fault: &Fault, sources: &Sources<'a>) -> &'a [u8] {
    match fault {
        Fault::Request(_) | Fault::Reply(_) | Fault::Control(_) | Fault::NotHex => {
            sources.request.text
        }
        Fault::ScriptWord { .. } => sources.script.text,
        _ => sources.policy.text,
    }
}

/// What is said of a fault after its line: where it is, what was found, and what to do. It is empty where there is
/// nothing to say. It has no control character but line ends, whatever the files hold. What is secret is hidden: by the
/// dictionary, or where that can't be read by names and numbers alone.
pub fn explain(alloc: Global, fault: &Fault, sources: &Sources<'_>) -> Result<Vec<u8>, AllocError>
    ensures visible { IfOk result (λ text. all_visible Kept text.items ≡ true) }
{
    let dictionary = sources.dictionary_or_none(alloc)?;
    let given = ids_of(alloc, &dictionary, sources.hidden)?;
    let text = quoted_text(fault, sources);
    let secrets = UnreadSecrets::of(alloc, &dictionary, &given, text)?;
    explain_by(alloc, fault, sources, &secrets)
}

/// The same, by what is known to be secret: of a policy, a part of which is explained, in the whole.
pub fn explain_by(
    alloc: Global,
    fault: &Fault,
    sources: &Sources<'_>,
    secrets: &UnreadSecrets<'_>,
) -> Result<Vec<u8>, AllocError>
    ensures visible { IfOk result (λ text. all_visible Kept text.items ≡ true) }
{
    visible_text(
        alloc,
        &draft(alloc, fault, sources, secrets)?,
        LineBreaks::Kept,
    )
}
