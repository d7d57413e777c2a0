//! Lines of a policy before they have their origins.

ghost use Rattle.std.specs.Prelude.{◌≡◌, [], slice_get};
ghost use Rattle.std.specs.Option.{option_map_or};
ghost use Rattle.radpolicy_import_policies.specs.OriginTexts.{content_name};

use avp_forms::Profile;
use avp_unlang::Code;
use radpolicy_import_conditions::{Difference, Reason};
use server_configuration::{Configuration, Content};
use std::alloc::Global;

/// A line of a policy, and what it comes from.
#[derive(Drop)]
pub(crate) struct Draft {
    /// How many blocks it is in.
    pub(crate) depth: usize,
    pub(crate) text: Vec<u8>,
    /// The place of its item in the configuration.
    pub(crate) place: usize,
    /// The places of the policies that it was put in by, the outermost first.
    pub(crate) policies: Vec<usize>,
    /// How many statements it is: 0 for what belongs to one that an earlier line is, as a brace.
    pub(crate) statements: usize,
}

/// The condition of a branch.
#[derive(Drop)]
pub(crate) struct DraftCondition {
    /// With its brackets; nothing for `else`.
    pub(crate) text: Vec<u8>,
    /// The profile that it needs.
    pub(crate) profile: Profile,
    /// What a server does otherwise with it, whatever is done before it.
    pub(crate) differences: Vec<Difference>,
    /// Whether it looks at what was captured before it.
    pub(crate) uses_captures: bool,
    /// Whether something else was captured where it is true.
    pub(crate) captures_anew: bool,
}

impl DraftCondition {
    /// That of an `else`.
    pub(crate) fn none(alloc: Global) -> DraftCondition {
        DraftCondition {
            text: Vec::new(alloc),
            profile: Profile::Plain,
            differences: Vec::new(alloc),
            uses_captures: false,
            captures_anew: false,
        }
    }
}

/// A part of a server's policy that is left out.
#[derive(Drop)]
pub(crate) struct DraftPart {
    pub(crate) place: usize,
    pub(crate) count: usize,
    pub(crate) reason: Reason,
}

/// What a server does otherwise with an item that is kept.
#[derive(Drop)]
pub(crate) struct DraftWarning {
    pub(crate) place: usize,
    pub(crate) difference: Difference,
}

pub(crate) fn code_name(code: Code) -> &'static [u8] {
    match code {
        Code::Ok => b"ok",
        Code::Noop => b"noop",
        Code::Updated => b"updated",
        Code::Fail => b"fail",
        Code::Reject => b"reject",
    }
}

/// The name of the section at a place.
pub(crate) fn section_name(configuration: &Configuration, place: usize) -> &[u8]
    ensures { result.now ≡ option_map_or (λ item. content_name item.content)
        (slice_get configuration.now.items.items place) [] }
{
    match configuration.items.get(place) {
        Some(item) => match &item.content {
            Content::Section { name, .. } => name.octets.as_slice(),
            _ => b"",
        },
        None => b"",
    }
}
