//! What the line of a record says.

ghost use Rattle.std.specs.Prelude.{◌≡◌, ◌==◌, ◌++◌, ◌+◌, ◌≤◌, Err, IfErr, IfOk, None, OnOk, Ok, Some, find, length};
ghost use Rattle.std.specs.List.{count_by, flat_map, list_all, list_any};
ghost use Rattle.std.specs.Option.{option_and, option_copied};
ghost use Rattle.hex.specs.Hex.{decode_of, is_hex_digit};
ghost use Rattle.avp_dict.specs.Quotes.{octal_escape};
ghost use Rattle.avp_dict.specs.internal.Views.{views};
ghost use Rattle.radpolicy.specs.Faults.{MemoryOr};
ghost use Rattle.radpolicy.specs.Scripts.{line_words};
ghost use Rattle.radpolicy_record_answers.specs.Captured.{reply_word, words_after};
ghost use Rattle.radpolicy_record_answers.specs.Records.{begins_source, has_double_colon, identifier_shown, is_address, is_address_octet, is_name, is_no_name_octet, is_packet_word, is_source, line_identifier, name_word, octet_shown, octets_decoded, or_number, request_octets, source_of, source_text, word_shown, words_before};

use avp_dict::words_between_blanks;
use hex::FromHexError;
use itoa::Buffer;
use radpolicy::Fault;
use radpolicy_clients::address_of;
use std::alloc::{AllocError, Global};
use std::net::IpAddr;

/// The most octets of a line: two packets of 8,192 digits each, and 1,024 octets of words.
pub const MAX_LINE_OCTETS: usize = 17_408;

fn is_hex_digit(octet: u8) -> bool
    ensures { result ≡ is_hex_digit octet }
{
    matches!(octet, b'0'..=b'9' | b'a'..=b'f' | b'A'..=b'F')
}

fn has_hex_digits(word: &[u8]) -> bool
    ensures { result ≡ list_all is_hex_digit word.now }
{
    word.iter().all(|octet| is_hex_digit(*octet))
}

/// Whether a word of a line is a packet: it has 40 hexadecimal digits or more, and nothing else.
#[tactic(auto, unfolding(crate::specs::Records::is_packet_word))]
pub fn is_packet_word(word: &[u8]) -> bool
    ensures { result ≡ is_packet_word word.now }
{
    word.len() >= 40 && has_hex_digits(word)
}

fn is_address_octet(octet: u8) -> bool
    ensures { result ≡ is_address_octet octet }
{
    is_hex_digit(octet) || octet == b'.' || octet == b':'
}

fn count_of(sign: u8, word: &[u8]) -> usize
    ensures { result ≡ count_by (λ o. o == sign) word.now }
{
    let mut count = 0;
    for octet in word {
        if *octet == sign {
            count += 1;
        }
    }
    count
}

fn has_double_colon(word: &[u8]) -> bool
    ensures { result ≡ has_double_colon word.now }
{
    let mut rest = word;
    while let [first, later @ ..] = rest {
        if *first == b':' && matches!(later, [b':', ..]) {
            return true;
        }
        rest = later;
    }
    false
}

fn has_address_octets(word: &[u8]) -> bool
    ensures { result ≡ list_all is_address_octet word.now }
{
    word.iter().all(|octet| is_address_octet(*octet))
}

// Whether a word has the form of an IPv4 or IPv6 address.
fn is_address(word: &[u8]) -> bool
    ensures { result ≡ is_address word.now }
{
    has_address_octets(word)
        && (count_of(b'.', word) == 3 || count_of(b':', word) == 7 || has_double_colon(word))
}

fn begins_source(word: &[u8]) -> bool
    ensures { result ≡ begins_source word.now }
{
    matches!(word, [b's', b'r', b'c', b'=', ..])
}

/// Whether a word is a source.
#[tactic(auto, unfolding(crate::specs::Records::is_source))]
pub(crate) fn is_source(word: &[u8]) -> bool
    ensures { result ≡ is_source word.now }
{
    begins_source(word) || is_address(word)
}

fn line_words(alloc: Global, line: &[u8]) -> Result<Vec<&[u8]>, AllocError>
    ensures { IfOk result (λ words. views words.items ≡ line_words line.now) }
{
    words_between_blanks(alloc, line)
}

#[tactic(auto, unfolding(crate::specs::Records::source_text))]
fn source_text(word: &[u8]) -> &[u8]
    ensures { result.now ≡ source_text word.now }
{
    match word {
        [b's', b'r', b'c', b'=', text @ ..] => text,
        _ => word,
    }
}

// The first of the words before the packet that is a source.
fn source_word<'a>(words: &[&'a [u8]]) -> Option<&'a [u8]>
    ensures { option_copied result ≡ find is_source (words_before (views words.now)) }
{
    let mut rest = words;
    while let [word, later @ ..] = rest {
        if is_packet_word(word) {
            return None;
        }
        if is_source(word) {
            return Some(*word);
        }
        rest = later;
    }
    None
}

/// The address of a record's source.
pub fn source_of(alloc: Global, line: &[u8]) -> Result<Option<IpAddr>, AllocError>
    ensures { IfOk result (λ address. address ≡ source_of line.now) }
{
    let words = line_words(alloc, line)?;
    match source_word(&words) {
        Some(word) => Ok(address_of(source_text(word))),
        None => Ok(None),
    }
}

// ---- the name of a record

fn push_octet(text: &mut Vec<u8>, octet: u8) -> Result<(), AllocError>
    ensures { OnOk result (text.new.items ≡ text.old.items ++ octet_shown octet) }
{
    if octet >= 33 && octet <= 126 {
        text.push(octet)?;
        return Ok(());
    }
    text.push(b'\\')?;
    text.push(b'0' + octet / 64)?;
    text.push(b'0' + octet / 8 % 8)?;
    text.push(b'0' + octet % 8)?;
    Ok(())
}

/// A word, and a space.
pub(crate) fn push_word(text: &mut Vec<u8>, word: &[u8]) -> Result<(), AllocError>
    ensures { OnOk result (text.new.items ≡ text.old.items ++ word_shown word.now) }
{
    for octet in word {
        push_octet(text, *octet)?;
    }
    text.push(b' ')?;
    Ok(())
}

// The word, where a packet is among those after it.
fn before_packet<'a>(word: &'a [u8], later: &[&'a [u8]]) -> Option<&'a [u8]>
    ensures { option_copied result
        ≡ option_and (find is_packet_word (views later.now)) (Some word.now) }
{
    match first_packet(later) {
        Some(_) => Some(word),
        None => None,
    }
}

// The word that names the record of these words.
fn name_word<'a>(words: &[&'a [u8]]) -> Option<&'a [u8]>
    ensures { option_copied result ≡ name_word (views words.now) }
{
    let mut rest = words;
    while let [word, later @ ..] = rest {
        if is_packet_word(word) {
            return None;
        }
        if !is_source(word) {
            return before_packet(word, later);
        }
        rest = later;
    }
    None
}

#[tactic(auto, unfolding(crate::specs::Records::is_no_name_octet))]
fn is_no_name_octet(octet: u8) -> bool
    ensures { result ≡ is_no_name_octet octet }
{
    b"=\"'[/".contains(&octet)
}

fn has_no_name_octet(word: &[u8]) -> bool
    ensures { result ≡ list_any is_no_name_octet word.now }
{
    word.iter().any(|octet| is_no_name_octet(*octet))
}

/// Whether a word may name a record. Words of logs and of configurations do not, which may have secrets in them.
pub(crate) fn is_name(word: &[u8]) -> bool
    ensures { result ≡ is_name word.now }
{
    !has_no_name_octet(word)
}

fn identifier_shown(alloc: Global, words: &[&[u8]]) -> Result<Vec<u8>, AllocError>
    ensures { IfOk result (λ text. text.items ≡ identifier_shown (views words.now)) }
{
    let mut text = Vec::new(alloc);
    if let Some(word) = name_word(words)
        && is_name(word)
    {
        push_word(&mut text, word)?;
    }
    Ok(text)
}

/// What a record is called: its identifier, or where it has none its number.
pub fn push_name(text: &mut Vec<u8>, number: u64, name: &[u8]) -> Result<(), AllocError>
    ensures { OnOk result (text.new.items ≡ text.old.items ++ or_number number name.now) }
{
    if let [] = name {
        let mut digits = Buffer::new();
        text.extend_from_slice(digits.format(number).as_bytes())?;
        text.extend_from_slice(b" ")?;
        return Ok(());
    }
    text.extend_from_slice(name)?;
    Ok(())
}

/// The identifier of a line: the word that names its record, as it is shown, and a space. Empty where it has none.
#[tactic(auto, unfolding(crate::specs::Records::line_identifier))]
pub fn line_identifier(alloc: Global, line: &[u8]) -> Result<Vec<u8>, AllocError>
    ensures { IfOk result (λ text. text.items ≡ line_identifier line.now) }
{
    if line.len() > MAX_LINE_OCTETS {
        return Ok(Vec::new(alloc));
    }
    let words = line_words(alloc, line)?;
    identifier_shown(alloc, &words)
}

// ---- the packet of a record

// The first packet of the words.
fn first_packet<'a>(words: &[&'a [u8]]) -> Option<&'a [u8]>
    ensures { option_copied result ≡ find is_packet_word (views words.now) }
{
    let mut rest = words;
    while let [word, later @ ..] = rest {
        if is_packet_word(word) {
            return Some(*word);
        }
        rest = later;
    }
    None
}

/// The octets of a packet's digits.
pub(crate) fn octets_of_digits(alloc: Global, digits: &[u8]) -> Result<Vec<u8>, Fault>
    ensures ok { IfOk result (λ octets.
        octets_decoded (decode_of digits.now) ≡ Ok octets.items) }
    ensures refused { IfErr result (MemoryOr (λ f.
        octets_decoded (decode_of digits.now) ≡ Err f)) }
{
    match hex::decode(alloc, digits) {
        Ok(octets) => Ok(octets),
        Err(FromHexError::OutOfMemory) => Err(Fault::Memory),
        Err(_) => Err(Fault::NotHex),
    }
}

/// The octets of the request of a record's line: those of its first word of 40 hexadecimal digits or more. `NotHex`
/// where there is none or its digits are an odd number, and `PacketTooLong` for a line of too many octets.
#[tactic(auto, unfolding(crate::specs::Records::request_octets))]
pub fn request_octets(alloc: Global, line: &[u8]) -> Result<Vec<u8>, Fault>
    ensures ok { IfOk result (λ octets. request_octets line.now ≡ Ok octets.items) }
    ensures refused { IfErr result (MemoryOr (λ f. request_octets line.now ≡ Err f)) }
{
    if line.len() > MAX_LINE_OCTETS {
        return Err(Fault::PacketTooLong);
    }
    let words = line_words(alloc, line)?;
    let Some(word) = first_packet(&words) else {
        return Err(Fault::NotHex);
    };
    octets_of_digits(alloc, word)
}

// The second packet of the words.
fn second_packet<'a>(words: &[&'a [u8]]) -> Option<&'a [u8]>
    ensures { option_copied result ≡ find is_packet_word (words_after (views words.now)) }
{
    let mut rest = words;
    while let [word, later @ ..] = rest {
        if is_packet_word(word) {
            return first_packet(later);
        }
        rest = later;
    }
    None
}

/// The digits of the reply that was captured.
pub(crate) fn reply_word(alloc: Global, line: &[u8]) -> Result<Option<&[u8]>, AllocError>
    ensures { IfOk result (λ word. option_copied word ≡ reply_word line.now) }
{
    let words = line_words(alloc, line)?;
    Ok(second_packet(&words))
}
