//! What is secret in a policy that can't be read.

use crate::runs::Run;
use crate::unread_flows::Flows;
use avp_dict::Dictionary;
use avp_lists::AttrId;
use radpolicy_common::{Hiding, Redaction, SecretValues, has_secret_references, is_secret_name};
use std::alloc::{AllocError, Global};

/// What is secret in a policy that can't be read: by the dictionary, as given, and the attributes to which its text seems
/// to give secret values.
#[derive(Drop)]
pub struct UnreadSecrets<'a> {
    redaction: Redaction<'a>,
    /// Whether the text names a secret attribute, so that what is not clear in it may be secret, and what a regular
    /// expression captures.
    is_named: bool,
    /// Whether something in the text tells of a secret: a secret attribute's name, another word that speaks of one, or a
    /// text with a secret key.
    is_told: bool,
    /// The text itself.
    text: &'a [u8],
}

/// The parts of a word: itself, a list, an attribute's name, which may have `.` and `/` in it, and a tag. Signs of an
/// operator may follow a name without a blank.
pub(crate) fn parts<'a>(alloc: Global, word: &'a [u8]) -> Result<Vec<&'a [u8]>, AllocError> {
    let mut parts = Vec::new(alloc);
    parts.push(word)?;
    for part in word.split(|octet| matches!(*octet, b':' | b'.' | b'/' | b'@')) {
        parts.push(Run::Operator.before(part))?;
    }
    for part in word.split(|octet| matches!(*octet, b':' | b'@')) {
        parts.push(part)?;
    }
    Ok(parts)
}

fn redaction_of<'a>(
    alloc: Global,
    dictionary: &'a Dictionary,
    given: &[AttrId],
) -> Result<Redaction<'a>, AllocError> {
    let secrets = SecretValues::Hidden;
    Redaction::new(alloc, dictionary, Hiding { secrets, given }, &[])
}

impl<'a> UnreadSecrets<'a> {
    /// What is secret in this text, and the attributes that are given.
    pub fn of(
        alloc: Global,
        dictionary: &'a Dictionary,
        given: &[AttrId],
        text: &'a [u8],
    ) -> Result<UnreadSecrets<'a>, AllocError> {
        let mut known = UnreadSecrets {
            redaction: redaction_of(alloc, dictionary, given)?,
            is_named: false,
            is_told: false,
            text,
        };
        known.is_named = known.are_named_in(alloc, text)?;
        known.is_told = known.are_told_in(alloc, text)?;
        let mut ids = Vec::from_slice(alloc, given)?;
        Flows::of(alloc, &known, text)?.add_secrets(&mut ids)?;
        Ok(UnreadSecrets {
            redaction: redaction_of(alloc, dictionary, &ids)?,
            is_named: known.is_named,
            is_told: known.is_told,
            text,
        })
    }

    /// The text of which it was made.
    pub(crate) fn text(&self) -> &'a [u8] {
        self.text
    }

    pub(crate) fn redaction(&self) -> &Redaction<'a> {
        &self.redaction
    }

    fn are_named_in(&self, alloc: Global, text: &[u8]) -> Result<bool, AllocError> {
        for word in &Run::PolicyWord.all_of(alloc, text)? {
            if self.names_secret(alloc, word.octets)? {
                return Ok(true);
            }
        }
        Ok(false)
    }

    // Whether something in a text tells of a secret.
    fn are_told_in(&self, alloc: Global, text: &[u8]) -> Result<bool, AllocError> {
        if has_secret_references(alloc, &self.redaction, text)? || self.are_named_in(alloc, text)? {
            return Ok(true);
        }
        for word in &Run::PolicyWord.all_of(alloc, text)? {
            if self.speaks_of_secret(alloc, word.octets)? {
                return Ok(true);
            }
        }
        Ok(false)
    }

    /// Whether a text that is quoted, or the text that it is a part of, may have secrets, which stand beside what tells of
    /// them or what a regular expression captured. A text that tells of none has captured none.
    pub(crate) fn may_be_in(&self, alloc: Global, text: &[u8]) -> Result<bool, AllocError> {
        Ok(self.is_told || self.are_told_in(alloc, text)?)
    }

    /// Whether what is not clear in the text may be secret.
    pub(crate) fn is_named(&self) -> bool {
        self.is_named
    }

    pub(crate) fn id_of(&self, name: &[u8]) -> Option<AttrId> {
        Some(self.redaction.dictionary().by_name(name)?.id)
    }

    pub(crate) fn is_secret(&self, id: AttrId) -> bool {
        self.redaction.is_secret(id)
    }

    fn is_secret_attribute(&self, name: &[u8]) -> bool {
        match self.id_of(name) {
            Some(id) => self.is_secret(id),
            None => false,
        }
    }

    /// Whether a word in an expansion stands for what was captured, or for the value of a server's loop, where that may be
    /// secret.
    pub(crate) fn captures(&self, word: &[u8]) -> bool {
        self.is_named
            && (word.iter().all(u8::is_ascii_digit) || word.starts_with(b"Foreach-Variable-"))
    }

    /// Whether a word names a secret attribute, in whatever list.
    pub(crate) fn names_secret(&self, alloc: Global, word: &[u8]) -> Result<bool, AllocError> {
        Ok(
            parts(alloc, word)?
                .iter()
                .any(|part| self.is_secret_attribute(part)),
        )
    }

    // Whether what stands before a sign in a word is the name of a secret attribute, with a list or without, and what stands
    // behind it is no tag and no attribute's name.
    fn joins_value(&self, front: &[u8], back: &[u8]) -> bool {
        let name = front.split(|octet| *octet == b':').last().unwrap_or(front);
        let is_tag = back.len() < 3 && back.iter().all(u8::is_ascii_digit);
        self.is_secret_attribute(name) && !is_tag && !self.is_attribute(back)
    }

    /// The place in a word of the sign by which a secret attribute's name is joined to what may be its value, as in
    /// `User-Password:hunter2`.
    pub(crate) fn joint_in(&self, word: &[u8]) -> Option<usize> {
        for (at, octet) in word.iter().enumerate() {
            let front = word.get(..at).unwrap_or(&[]);
            let back = word.get(at.saturating_add(1)..).unwrap_or(&[]);
            if b":./@".contains(octet) && self.joins_value(front, back) {
                return Some(at);
            }
        }
        None
    }

    /// Whether a word is no attribute's and speaks of a secret.
    pub(crate) fn speaks_of_secret(&self, alloc: Global, word: &[u8]) -> Result<bool, AllocError> {
        Ok(
            parts(alloc, word)?
                .iter()
                .any(|part| self.id_of(part).is_none() && is_secret_name(part)),
        )
    }

    /// Whether a word is an attribute's, in whatever list.
    pub(crate) fn is_attribute(&self, word: &[u8]) -> bool {
        self.id_of(word).is_some()
            || word
                .split(|octet| *octet == b':')
                .any(|part| self.id_of(part).is_some())
    }
}
