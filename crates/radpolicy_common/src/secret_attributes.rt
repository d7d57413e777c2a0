//! Attributes and values that are secret.

ghost use Rattle.std.specs.Prelude.{◌≡◌, ◌<◌, ◌++◌, ◌∷◌, ℕ, List, [], false, length, IfNone, IfOk, IfSome, OnOk};
ghost use Rattle.std.specs.List.{list_any, position, slice_split};
ghost use Rattle.std.specs.Option.{option_copied};
ghost use Rattle.std.specs.Str.{str_eq_ignore_ascii_case};
ghost use Rattle.avp_lists.specs.Pairs.{id_eq};
ghost use Rattle.radpolicy_common.specs.SecretAttributes.{behind_colons, ends_in, ends_in_one_of, ends_in_words, ends_in_words_of, ends_no_word, has_secret_word, holds_secret_text, is_equals_sign, is_no_letter, is_secret, is_secret_attribute, is_secret_id, is_secret_key, is_secret_name, is_secret_text, is_secret_word, is_unsplit, is_untold, without_blanks_behind};
ghost use Rattle.radpolicy_common.specs.internal.SecretIds.{AreFoundIn, is_secret_alone};

use avp_dict::{Dictionary, Entry, Form, Kind, Named, ValueFault, is_container};
use avp_lists::{AttrId, Value};
use std::alloc::{AllocError, Global};
use std::marker::Model;

/// How words of names end that speak of secrets: a word is a run of letters.
pub const SECRET_WORDS: [&str; 13] = [
    "Credential",
    "Credentials",
    "Key",
    "Keys",
    "MSK",
    "Passphrase",
    "Passwd",
    "Password",
    "Passwords",
    "PMK",
    "PSK",
    "Secret",
    "Secrets",
];

/// The last words of other names whose values are secret.
///
/// What answers or asks for a proof of a password (CHAP, MS-CHAP, Digest, ARAP), from which it can be guessed; and
/// passwords, codes and keys under other words.
pub const SECRET_ENDINGS: [&str; 38] = [
    "AKA-Quintet",
    "Auth-Code",
    "Authentication-String",
    "Authorization-Code",
    "Challenge-Response",
    "CHAP-Challenge",
    "CHAP-Response",
    "CHAP2-Response",
    "CHAP2-Success",
    "Community",
    "CPW",
    "CPW-1",
    "CPW-2",
    "Digest-HA1",
    "Digest-Response",
    "Digest-Response-Auth",
    "Eds-Cookie",
    "KASME",
    "Login-Command",
    "Login-String",
    "OTP",
    "Pass",
    "Peer-Challenge",
    "PIN",
    "Private-ID",
    "PW",
    "Pwd",
    "Sim-KC1",
    "Sim-KC2",
    "Sim-KC3",
    "Sim-Ki",
    "Sim-OPc",
    "Sim-SRES1",
    "Sim-SRES2",
    "Sim-SRES3",
    "SNMPCommunityString-Parameter",
    "Token",
    "XRES",
];

/// The last words of names that speak of a secret, and whose values are none.
pub const PLAIN_ENDINGS: [&str; 44] = [
    "Access-Community",
    "Bak-Key",
    "Break-Key",
    "Charging-Vector-Key",
    "Configuration-Token",
    "Expiry",
    "ExpiryDate",
    "Fwd-Key",
    "Identifier",
    "Identity",
    "Index",
    "Key-File",
    "Key-Id",
    "Key-Name",
    "Key-Requested",
    "Key-Type",
    "Key-Usage-OID",
    "Length",
    "Length-G",
    "Lifetime",
    "Load-Balance-Key",
    "Location-Key",
    "Map-Key",
    "Only-Passwords",
    "Only-Passwords-G",
    "Passwd-Store",
    "Passwd-Store-G/U",
    "Password-Prep",
    "Prompt",
    "Public-ID",
    "Public-Key",
    "Public-Key-Hash",
    "Realm-Key",
    "Rekey",
    "Rekey-Method",
    "Rekey-Time",
    "Retry",
    "Secret-Request",
    "Timeout",
    "Usage",
    "WarnPeriod",
    "Yubikey-Counter",
    "Yubikey-Random",
    "Yubikey-Timestamp",
];

/// Attributes that are secret whatever the dictionary names them: User-Password, CHAP-Password, CHAP-Challenge,
/// Tunnel-Password and ARAP's (RFC 2865, 2868 and 2869), Microsoft's (RFC 2548), Ascend's and Lucent's.
pub const SECRET_IDS: [AttrId; 24] = [
    AttrId::Plain(2),
    AttrId::Plain(3),
    AttrId::Plain(60),
    AttrId::Plain(69),
    AttrId::Plain(70),
    AttrId::Plain(84),
    AttrId::Vendor(311, 1),
    AttrId::Vendor(311, 3),
    AttrId::Vendor(311, 4),
    AttrId::Vendor(311, 5),
    AttrId::Vendor(311, 6),
    AttrId::Vendor(311, 11),
    AttrId::Vendor(311, 12),
    AttrId::Vendor(311, 16),
    AttrId::Vendor(311, 17),
    AttrId::Vendor(311, 19),
    AttrId::Vendor(311, 20),
    AttrId::Vendor(311, 25),
    AttrId::Vendor(311, 26),
    AttrId::Vendor(311, 27),
    AttrId::Vendor(529, 214),
    AttrId::Vendor(529, 215),
    AttrId::Vendor(4846, 214),
    AttrId::Vendor(4846, 215),
];

// ---- the words of a name

fn is_no_letter(octet: u8) -> bool
    ensures { result ≡ is_no_letter octet }
{
    !octet.is_ascii_alphabetic()
}

// Whether two names are the same, in either case.
fn is_same(a: &[u8], b: &[u8]) -> bool
    ensures { result ≡ str_eq_ignore_ascii_case a.now b.now }
{
    a.eq_ignore_ascii_case(b)
}

fn ends_in(name: &[u8], ending: &[u8]) -> bool
    ensures { result ≡ ends_in name.now ending.now }
{
    is_same(ending, &name[name.len().saturating_sub(ending.len())..])
}

fn ends_in_one_of(endings: &[&str], name: &[u8]) -> bool
    ensures { result ≡ list_any (λ ending. ends_in name.now ending.now) endings.now }
{
    endings
        .iter()
        .any(|ending| ends_in(name, ending.as_bytes()))
}

fn ends_no_word(before: &[u8]) -> bool
    ensures { result ≡ ends_no_word before.now }
{
    match before.last() {
        Some(octet) => is_no_letter(*octet),
        None => true,
    }
}

fn ends_in_words(name: &[u8], ending: &[u8]) -> bool
    ensures { result ≡ ends_in_words name.now ending.now }
{
    ends_in(name, ending) && ends_no_word(&name[..name.len().saturating_sub(ending.len())])
}

fn ends_in_words_of(endings: &[&str], name: &[u8]) -> bool
    ensures { result ≡ list_any (λ ending. ends_in_words name.now ending.now) endings.now }
{
    endings
        .iter()
        .any(|ending| ends_in_words(name, ending.as_bytes()))
}

// ---- by name

#[tactic(auto, unfolding(crate::specs::SecretAttributes::secret_words))]
fn is_secret_word(word: &[u8]) -> bool
    ensures { result ≡ is_secret_word word.now }
{
    ends_in_one_of(&SECRET_WORDS, word)
}

fn has_secret_word(name: &[u8]) -> bool
    ensures { result ≡ has_secret_word name.now }
{
    name.split(|octet| is_no_letter(*octet))
        .any(|word| is_secret_word(word))
}

/// Whether a name is one of a secret attribute, in either case: its last words are one of the [`SECRET_ENDINGS`], or a
/// word of it ends in one of the [`SECRET_WORDS`]; unless its last words are one of the [`PLAIN_ENDINGS`].
#[tactic(auto, unfolding(crate::specs::SecretAttributes::is_secret_name, crate::specs::SecretAttributes::secret_endings, crate::specs::SecretAttributes::plain_endings))]
pub fn is_secret_name(name: &[u8]) -> bool
    ensures { result ≡ is_secret_name name.now }
{
    (ends_in_words_of(&SECRET_ENDINGS, name) || has_secret_word(name))
        && !ends_in_words_of(&PLAIN_ENDINGS, name)
}

// ---- by number

/// Whether an attribute is one of these.
pub(crate) fn has_id(ids: &[AttrId], id: AttrId) -> bool
    ensures { result ≡ list_any (id_eq id) ids.now }
{
    ids.iter().any(|own| id.equals(*own))
}

#[tactic(auto, unfolding(crate::specs::SecretAttributes::is_secret_id))]
fn is_secret_id(id: AttrId) -> bool
    ensures { result ≡ is_secret_id id }
{
    has_id(&SECRET_IDS, id)
}

fn is_unsplit(id: AttrId) -> bool
    ensures { result ≡ is_unsplit id }
{
    match id {
        AttrId::Extended(_, number) => number == 26,
        AttrId::Plain(_) | AttrId::Vendor(_, _) => is_container(id),
    }
}

// ---- by text

fn equals_sign_in(text: &[u8]) -> Option<usize>
    ensures at { result ≡ position is_equals_sign text.now }
    ensures within { IfSome result (λ at. at < length text.now) }
{
    text.iter().position(|octet| *octet == b'=')
}

fn behind_colons(text: &[u8]) -> Option<&[u8]>
    ensures { option_copied result ≡ behind_colons text.now }
{
    text.split(|octet| *octet == b':').last()
}

#[tactic(auto, using(crate::proofs::SecretTexts::trimmed))]
fn without_blanks_behind(text: &[u8]) -> &[u8]
    ensures { result.now ≡ without_blanks_behind text.now }
{
    text.trim_ascii_end()
}

fn is_secret_key(part: &[u8]) -> bool
    ensures { result ≡ is_secret_key part.now }
{
    match behind_colons(part) {
        Some(key) => is_secret_name(without_blanks_behind(key)),
        None => false,
    }
}

// What is before the first `=`, and after it.
fn cut_at_sign(text: &[u8]) -> Option<(&[u8], &[u8])>
    ensures cut { IfSome result (λ x. slice_split is_equals_sign text.now
        ≡ x.0.now ∷ slice_split is_equals_sign x.1.now) }
    ensures whole { IfNone result (slice_split is_equals_sign text.now ≡ text.now ∷ []) }
{
    let at = equals_sign_in(text)?;
    Some((&text[..at], &text[at + 1..]))
}

/// Whether a text is `key=value`, or has several such pairs, and one of the keys is a secret name ([`is_secret_name`]): a
/// key is what is before a `=`, from the `=` or `:` before it on.
#[tactic(auto, using(crate::proofs::SecretTexts::key_here, crate::proofs::SecretTexts::key_behind, crate::proofs::SecretTexts::no_key))]
pub fn is_secret_text(text: &[u8]) -> bool
    ensures { result ≡ is_secret_text text.now }
{
    let mut rest = text;
    while let Some((part, behind)) = cut_at_sign(rest) {
        if is_secret_key(part) {
            return true;
        }
        rest = behind;
    }
    false
}

fn holds_secret_text(value: &Value) -> bool
    ensures { result ≡ holds_secret_text value.now }
{
    match value {
        Value::Text(octets) | Value::Bytes(octets) | Value::Raw(octets) => {
            is_secret_text(octets.as_slice())
        }
        Value::Int(_) | Value::Signed(_) | Value::Addr(_) | Value::Ether(_) => false,
    }
}

// ---- by the dictionary

// Whether an attribute is secret, its names aside.
fn is_secret_alone(dictionary: &Dictionary, id: AttrId) -> bool
    ensures { result ≡ is_secret_alone id dictionary.now }
{
    is_secret_id(id)
        || is_unsplit(id)
        || dictionary.by_id(id).is_none()
        || dictionary.is_marked_secret(id)
}

// Whether an attribute has octets of a type word that stands for none of the types. A dictionary does not tell its type
// words, but one of these alone takes no text.
#[tactic(auto, unfolding(avp_dict::specs::Names::described, avp_dict::specs::Names::form_of, avp_dict::specs::Dictionary::typing_of_id, avp_dict::specs::Spellings::value_spelled, avp_dict::specs::Spellings::spelled, avp_dict::specs::Spellings::bytes_spelled, avp_dict::specs::Spellings::octets_spelled))]
fn is_untold(alloc: Global, dictionary: &Dictionary, id: AttrId) -> Result<bool, AllocError>
    requires { is_unsplit id ≡ false }
    ensures { IfOk result (λ untold. untold ≡ is_untold id dictionary.now) }
{
    match (dictionary.by_id(id), dictionary.form(id)) {
        (
            Some(
                Entry {
                    kind: Kind::Bytes,
                    ..
                },
            ),
            Some(Form::AsTyped),
        ) => {
            let named = Named { id, raw: false };
            match dictionary.value_of_text(alloc, named, b"") {
                Err(ValueFault::NotValue) => Ok(true),
                Err(ValueFault::Memory) => Err(AllocError),
                Ok(_) | Err(ValueFault::NotWritable | ValueFault::TooLong) => Ok(false),
            }
        }
        _ => Ok(false),
    }
}

// The attribute for which a name stands, if the name makes it secret.
#[tactic(auto, using(crate::proofs::SecretIds::stands_for_none, crate::proofs::SecretIds::is_known, crate::proofs::SecretIds::is_plain, crate::proofs::SecretIds::is_secret))]
fn push_secret(
    ids: &mut Vec<AttrId>,
    dictionary: &Dictionary,
    name: &[u8],
) -> Result<(), AllocError>
    ensures { OnOk result ((names : List (List ℕ)) → AreFoundIn dictionary.now names ids.old.items
        → AreFoundIn dictionary.now (names ++ name.now ∷ []) ids.new.items) }
{
    let Some(Named { id, .. }) = dictionary.by_name(name) else {
        return Ok(());
    };
    if is_secret_alone(dictionary, id) || has_id(ids, id) {
        return Ok(());
    }
    if is_secret_name(name) || is_untold(*ids.allocator(), dictionary, id)? {
        ids.push(id)?;
    }
    Ok(())
}

/// The attributes that are secret by a dictionary, whatever a policy does.
#[derive(Drop)]
pub struct SecretAttributes<'a> {
    dictionary: &'a Dictionary,
    // Those that one of their names makes secret, and nothing else.
    ids: Vec<AttrId>,
}

impl<'a> Model for SecretAttributes<'a> {
    ghost use Rattle.avp_dict.specs.Dictionary.{Dictionary, first_names};
    ghost use Rattle.radpolicy_common.specs.internal.SecretIds.{AreFoundIn};

    ghost Value = { Dictionary };

    ghost view = { λ s. s.dictionary.now };

    ghost invariant = { λ s.
        AreFoundIn s.dictionary.now (first_names s.dictionary.now.attributes) s.ids.items };
}

impl<'a> SecretAttributes<'a> {
    /// Goes over the names of a dictionary once.
    #[tactic(auto, using(crate::proofs::SecretIds::none_found, crate::proofs::SecretIds::next_name, crate::proofs::SecretIds::no_more_names))]
    pub fn new(
        alloc: Global,
        dictionary: &'a Dictionary,
    ) -> Result<SecretAttributes<'a>, AllocError>
        ensures { IfOk result (λ attributes. attributes ≡ dictionary.now) }
    {
        let mut ids = Vec::new(alloc);
        for at in 0..usize::MAX {
            let Some(name) = dictionary.attribute_name(at) else {
                return Ok(SecretAttributes { dictionary, ids });
            };
            push_secret(&mut ids, dictionary, name)?;
        }
        Err(AllocError)
    }

    pub fn dictionary(&self) -> &'a Dictionary
        ensures { result.now ≡ self.now }
    {
        self.dictionary
    }

    /// Whether an attribute's values are not to be shown. By number: one of the [`SECRET_IDS`], and what holds other
    /// attributes and was not split into them (26, 241 to 246, and 26 of these). By the dictionary: it does not describe
    /// the attribute; a line of it has `encrypt=1`, `encrypt=2`, `encrypt=3` or `secret`
    /// ([`is_marked_secret`](Dictionary::is_marked_secret)); one of its names for the attribute is a secret one
    /// ([`is_secret_name`]); or the type word is none that is known, as `tlv`.
    pub fn is_secret_attribute(&self, id: AttrId) -> bool
        ensures { result ≡ is_secret_attribute id self.now }
    {
        is_secret_alone(self.dictionary, id) || has_id(&self.ids, id)
    }

    /// Whether a value is not to be shown: an attribute's that is secret, or one with a secret text
    /// ([`is_secret_text`]).
    #[tactic(auto, unfolding(crate::specs::SecretAttributes::is_secret))]
    pub fn is_secret(&self, id: AttrId, value: &Value) -> bool
        ensures { result ≡ is_secret id value.now self.now }
    {
        self.is_secret_attribute(id) || holds_secret_text(value)
    }
}
