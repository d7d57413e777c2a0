//! What is hidden of a run.

ghost use Rattle.std.specs.Prelude.{◌≡◌, ◌++◌, IfOk, OnOk};
ghost use Rattle.avp_lists.specs.declared.pairs.Value.TheVariants.{Raw};
ghost use Rattle.radpolicy_common.specs.ChangeTexts.{Fits};
ghost use Rattle.radpolicy_common.specs.Secrets.{AreSecret, captures_secret, hides, is_among, pair_text, shown_text, statements_of};

use crate::secret_attributes::{SecretAttributes, has_id, is_secret_text};
use crate::secret_flows::{captures_secret, is_among, secret_attributes};
use avp_dict::Dictionary;
use avp_forms::{Profile, printed_pair_name, printed_pair_text};
use avp_lists::{AttrId, Pair, Value};
use avp_unlang::Policy;
use std::alloc::{AllocError, Global};
use std::marker::Model;

/// What is shown of secret values.
#[derive(Clone, Copy, Debug, PartialEq, Eq)]
pub enum SecretValues {
    /// `(hidden)` in their place.
    Hidden,
    Shown,
}

/// What a command line says of secret values.
#[derive(Clone, Copy)]
pub struct Hiding<'a> {
    pub secrets: SecretValues,
    /// Attributes that are secret as well, as if the dictionary marked them.
    pub given: &'a [AttrId],
}

/// What is hidden of the runs of a policy.
#[derive(Drop)]
pub struct Redaction<'a> {
    attributes: SecretAttributes<'a>,
    secrets: SecretValues,
    ids: Vec<AttrId>,
    captured: bool,
}

impl<'a> Model for Redaction<'a> {
    ghost use Rattle.radpolicy_common.specs.Secrets.{Redaction as Shown};

    ghost Value = { Shown };

    ghost view = { λ r. record {
      dictionary = r.attributes;
      secrets = r.secrets;
      ids = r.ids.items;
      captured = r.captured;
    } };
}

impl<'a> Redaction<'a> {
    /// What is hidden of the runs of policies: of one, of two that are compared, or of none, where the dictionary alone
    /// tells.
    pub fn new(
        alloc: Global,
        dictionary: &'a Dictionary,
        hiding: Hiding<'_>,
        policies: &[&Policy],
    ) -> Result<Redaction<'a>, AllocError>
        ensures dictionary { IfOk result (λ redaction. redaction.dictionary ≡ dictionary.now) }
        ensures secrets { IfOk result (λ redaction. redaction.secrets ≡ hiding.entry.secrets) }
        ensures ids { IfOk result (λ redaction.
            AreSecret dictionary.now hiding.entry.given.now (statements_of policies.now)
            redaction.ids) }
        ensures captured { IfOk result (λ redaction. redaction.captured
            ≡ captures_secret dictionary.now redaction.ids (statements_of policies.now)) }
    {
        let attributes = SecretAttributes::new(alloc, dictionary)?;
        let ids = secret_attributes(alloc, &attributes, hiding.given, policies)?;
        let captured = captures_secret(alloc, &attributes, &ids, policies)?;
        Ok(Redaction {
            attributes,
            secrets: hiding.secrets,
            ids,
            captured,
        })
    }

    /// The dictionary by which pairs are printed.
    pub fn dictionary(&self) -> &'a Dictionary
        ensures { result.now ≡ self.now.dictionary }
    {
        self.attributes.dictionary()
    }

    /// Whether secret values are shown.
    pub fn secrets(&self) -> SecretValues
        ensures { result ≡ self.now.secrets }
    {
        self.secrets
    }

    /// Whether what a comparison with a pattern captures may be secret.
    pub fn captured(&self) -> bool
        ensures { result ≡ self.now.captured }
    {
        self.captured
    }

    /// Whether an attribute is secret in the policy.
    pub fn is_secret(&self, id: AttrId) -> bool
        ensures { result ≡ is_among self.now.dictionary self.now.ids id }
    {
        is_among(&self.attributes, &self.ids, id)
    }

    /// Whether the value of an attribute is hidden.
    pub fn hides(&self, id: AttrId, value: &Value) -> bool
        ensures { result ≡ hides self.now id value.now }
    {
        match self.secrets {
            SecretValues::Shown => false,
            SecretValues::Hidden => self.attributes.is_secret(id, value) || has_id(&self.ids, id),
        }
    }

    /// Whether octets of an attribute that is sent are hidden.
    #[tactic(auto, unfolding(crate::specs::SecretAttributes::is_secret))]
    pub(crate) fn hides_octets(&self, id: AttrId, octets: &[u8]) -> bool
        ensures { result ≡ hides self.now id (Raw octets.now) }
    {
        if let SecretValues::Hidden = self.secrets {
            self.attributes.is_secret_attribute(id)
                || is_secret_text(octets)
                || has_id(&self.ids, id)
        } else {
            false
        }
    }

    // The text of a value, or `(hidden)`.
    fn shown_text(&self, alloc: Global, pair: &Pair) -> Result<Vec<u8>, AllocError>
        requires { Fits self.now.dictionary pair.now }
        ensures { IfOk result (λ text. text.items ≡ shown_text self.now pair.now) }
    {
        if self.hides(pair.id, &pair.value) {
            Vec::from_slice(alloc, b"(hidden)")
        } else {
            printed_pair_text(
                alloc,
                self.dictionary(),
                Profile::Wider,
                pair.id,
                &pair.value,
            )
        }
    }

    /// A pair as `Name = value`, in the forms of the wider profile; where its value is hidden, as `Name = (hidden)`.
    pub fn pair_text(&self, alloc: Global, pair: &Pair) -> Result<Vec<u8>, AllocError>
        requires { Fits self.now.dictionary pair.now }
        ensures { IfOk result (λ text. text.items ≡ pair_text self.now pair.now) }
    {
        let mut text = printed_pair_name(
            alloc,
            self.dictionary(),
            Profile::Wider,
            pair.id,
            &pair.value,
        )?;
        let value = self.shown_text(alloc, pair)?;
        text.extend_from_slice(b" = ")?;
        text.extend_from_slice(&value)?;
        Ok(text)
    }
}
