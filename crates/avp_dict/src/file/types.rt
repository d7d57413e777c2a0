//! Type words and flags.

ghost use Rattle.std.specs.Prelude.{◌≡◌, ◌==◌, ◌<◌, length, IfSome};
ghost use Rattle.std.specs.List.{list_any, position, before_first};
ghost use Rattle.avp_dict.specs.Letters.{word_before_bracket};
ghost use Rattle.avp_dict.specs.Types.{are_flags, fixed_typing, form_by, has_flag, is_encrypted, is_fixed, is_flag, is_hiding, is_marked, is_opaque, is_text_kind, kind_word, own_form, tagged_form, typing_by, typing_of};
ghost use Rattle.avp_dict.specs.internal.Views.{views};

use crate::attribute_numbers::{
    MESSAGE_AUTHENTICATOR, PROXY_STATE, VENDOR_SPECIFIC, is_extended_type,
};
use crate::entries::{Kind, Typing};
use crate::file::keywords::{
    ARRAY, BYTE, CONCAT, DATE, ENCRYPT_1, ENCRYPT_2, ENCRYPT_3, ETHER, HAS_TAG, IFID, INTEGER,
    INTEGER64, IPADDR, IPV4PREFIX, IPV6ADDR, IPV6PREFIX, OCTETS, SECRET, SHORT, SIGNED, STRING,
    VIRTUAL,
};
use crate::file::words::same_name;
use crate::forms::Form;
use avp_lists::AttrId;

fn is_flag(flag: &[u8]) -> bool
    ensures { result ≡ is_flag flag.now }
{
    same_name(flag, HAS_TAG)
        || same_name(flag, ENCRYPT_1)
        || same_name(flag, ENCRYPT_2)
        || same_name(flag, ENCRYPT_3)
        || same_name(flag, CONCAT)
        || same_name(flag, ARRAY)
        || same_name(flag, SECRET)
        || same_name(flag, VIRTUAL)
}

/// Whether each flag is one of the list.
pub(crate) fn are_flags(flags: &[&[u8]]) -> bool
    ensures { result ≡ are_flags (views flags.now) }
{
    let mut rest = flags;
    while let [flag, after @ ..] = rest {
        if !is_flag(flag) {
            return false;
        }
        rest = after;
    }
    true
}

fn is_opaque(flag: &[u8]) -> bool
    ensures { result ≡ is_opaque flag.now }
{
    same_name(flag, HAS_TAG) || same_name(flag, ENCRYPT_2) || same_name(flag, ENCRYPT_3)
}

fn is_hiding(flag: &[u8]) -> bool
    ensures { result ≡ is_hiding flag.now }
{
    same_name(flag, ENCRYPT_1)
}

fn any_is_opaque(flags: &[&[u8]]) -> bool
    ensures { result ≡ list_any is_opaque (views flags.now) }
{
    let mut rest = flags;
    while let [flag, after @ ..] = rest {
        if is_opaque(flag) {
            return true;
        }
        rest = after;
    }
    false
}

fn any_is_hiding(flags: &[&[u8]]) -> bool
    ensures { result ≡ list_any is_hiding (views flags.now) }
{
    let mut rest = flags;
    while let [flag, after @ ..] = rest {
        if is_hiding(flag) {
            return true;
        }
        rest = after;
    }
    false
}

fn kind_word(word: &[u8]) -> Option<Kind>
    ensures { result ≡ kind_word word.now }
{
    if same_name(word, STRING) {
        Some(Kind::Text)
    } else if same_name(word, OCTETS) {
        Some(Kind::Bytes)
    } else if same_name(word, IPADDR) {
        Some(Kind::Addr)
    } else if same_name(word, INTEGER) {
        Some(Kind::Integer)
    } else if same_name(word, DATE) {
        Some(Kind::Date)
    } else if same_name(word, BYTE) {
        Some(Kind::Byte)
    } else if same_name(word, SHORT) {
        Some(Kind::Short)
    } else if same_name(word, SIGNED) {
        Some(Kind::Signed)
    } else if same_name(word, INTEGER64) {
        Some(Kind::Integer64)
    } else if same_name(word, ETHER) {
        Some(Kind::Ether)
    } else {
        None
    }
}

fn bracket_at(word: &[u8]) -> Option<usize>
    ensures place { result ≡ position (λ o. o == 91) word.now }
    ensures within { IfSome result (λ end. end < length word.now) }
{
    word.iter().position(|octet| *octet == b'[')
}

fn before_bracket(word: &[u8]) -> &[u8]
    ensures { result.now ≡ before_first (λ o. o == 91) word.now }
{
    match bracket_at(word) {
        Some(end) => &word[..end],
        None => word,
    }
}

fn word_before_bracket(word: &[u8]) -> &[u8]
    ensures { result.now ≡ word_before_bracket word.now }
{
    if word.is_empty() || word[word.len() - 1] != b']' {
        word
    } else {
        before_bracket(word)
    }
}

fn is_fixed(id: AttrId) -> bool
    ensures { result ≡ is_fixed id }
{
    match id {
        AttrId::Plain(n) => n == VENDOR_SPECIFIC
            || n == PROXY_STATE
            || n == MESSAGE_AUTHENTICATOR
            || is_extended_type(u64::from(n)),
        AttrId::Vendor(_, _) => false,
        AttrId::Extended(_, _) => false,
    }
}

fn is_text_kind(own: Option<Kind>) -> bool
    ensures { result ≡ is_text_kind own }
{
    match own {
        Some(Kind::Text) => true,
        Some(Kind::Bytes) => true,
        _ => false,
    }
}

// Whether the line has this flag.
fn has_flag(flags: &[&[u8]], own: &[u8]) -> bool
    ensures { result ≡ has_flag own.now (views flags.now) }
{
    let mut rest = flags;
    while let [flag, after @ ..] = rest {
        if same_name(flag, own) {
            return true;
        }
        rest = after;
    }
    false
}

fn is_encrypted(flags: &[&[u8]]) -> bool
    ensures { result ≡ is_encrypted (views flags.now) }
{
    has_flag(flags, ENCRYPT_1) || has_flag(flags, ENCRYPT_2) || has_flag(flags, ENCRYPT_3)
}

fn is_marked(flags: &[&[u8]]) -> bool
    ensures { result ≡ is_marked (views flags.now) }
{
    is_encrypted(flags) || has_flag(flags, SECRET)
}

fn own_form(word: &[u8]) -> Option<Form>
    ensures { result ≡ own_form word.now }
{
    if same_name(word, DATE) {
        Some(Form::Date)
    } else if same_name(word, IPV6ADDR) {
        Some(Form::Ipv6Address)
    } else if same_name(word, IPV6PREFIX) {
        Some(Form::Ipv6Prefix)
    } else if same_name(word, IPV4PREFIX) {
        Some(Form::Ipv4Prefix)
    } else if same_name(word, IFID) {
        Some(Form::InterfaceId)
    } else {
        None
    }
}

fn tagged_form(word: &[u8]) -> Option<Form>
    ensures { result ≡ tagged_form word.now }
{
    if same_name(word, INTEGER) {
        Some(Form::TaggedInteger)
    } else if same_name(word, STRING) {
        Some(Form::TaggedString)
    } else {
        None
    }
}

fn form_by(word: &[u8], flags: &[&[u8]]) -> Form
    ensures { result ≡ form_by word.now (views flags.now) }
{
    if is_encrypted(flags) {
        Form::AsTyped
    } else if has_flag(flags, HAS_TAG) {
        tagged_form(word).unwrap_or(Form::AsTyped)
    } else {
        own_form(word).unwrap_or(Form::AsTyped)
    }
}

fn typing_by(own: Option<Kind>, opaque: bool, hiding: bool, form: Form, secret: bool) -> Typing
    ensures { result ≡ typing_by own opaque hiding form secret }
{
    let takes_text = is_text_kind(own);
    let kind = if opaque || (hiding && !takes_text) {
        Kind::Bytes
    } else {
        own.unwrap_or(Kind::Bytes)
    };
    Typing {
        kind,
        hidden: hiding && takes_text,
        takes_text,
        form,
        secret,
    }
}

fn fixed_typing(secret: bool) -> Typing
    ensures { result ≡ fixed_typing secret }
{
    Typing {
        kind: Kind::Bytes,
        hidden: false,
        takes_text: true,
        form: Form::AsTyped,
        secret,
    }
}

/// How the values of an ATTRIBUTE line are read, and what they stand for, by its id, type word and flags.
pub(crate) fn typing_of(id: AttrId, kind: &[u8], flags: &[&[u8]]) -> Typing
    ensures { result ≡ typing_of id kind.now (views flags.now) }
{
    let secret = is_marked(flags);
    if is_fixed(id) {
        fixed_typing(secret)
    } else {
        let word = word_before_bracket(kind);
        typing_by(
            kind_word(word),
            any_is_opaque(flags),
            any_is_hiding(flags),
            form_by(word, flags),
            secret,
        )
    }
}
