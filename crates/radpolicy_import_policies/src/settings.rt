//! How statements are imported.

use avp_forms::Profile;
use avp_unlang::Code;
use radpolicy_import_conditions::{KnownCodes, OtherAttribute, ServerCode};
use radpolicy_import_texts::SecretNames;
use server_configuration::{Configuration, Content};

/// Whose meaning conditions and update lines keep.
#[derive(Clone, Copy, Debug, PartialEq, Eq)]
pub enum Meaning {
    /// The server's, where ours is another.
    Server,
    /// That of their text here.
    Plain,
}

/// What stands for the call of a module.
#[derive(Debug, Drop)]
pub enum ModuleAnswer {
    Code(ServerCode),
    /// A policy.
    Policy(Vec<u8>),
}

/// A module, and what stands for its calls.
#[derive(Debug, Drop)]
pub struct Module {
    pub name: Vec<u8>,
    pub answer: ModuleAnswer,
}

/// What is put in the place of the call of a module at a place, if anything is.
pub(crate) fn answer_of<'a>(
    configuration: &'a Configuration,
    modules: &'a [Module],
    place: usize,
) -> Option<&'a ModuleAnswer> {
    let name = match &configuration.items.get(place)?.content {
        Content::Section { name, arguments } | Content::Word { name, arguments }
            if arguments.is_empty() => { name.octets.as_slice() }
        _ => return None,
    };
    let name = name.strip_prefix(b"-").unwrap_or(name);
    for module in modules {
        if module.name.as_slice() == name {
            return Some(&module.answer);
        }
    }
    None
}

/// What the lines of a policy end in.
#[derive(Clone, Copy, Debug, PartialEq, Eq)]
pub enum LineEnds {
    /// Comments that tell their origins, as `# policy.d/filter:12 (filter_username)`.
    Origins,
    /// No comments: [`crate::origin_map`] tells the origins.
    Nothing,
}

/// Which section of a server statements are of, as far as codes end it in another way.
#[derive(Clone, Copy, Debug, PartialEq, Eq)]
pub enum SectionKind {
    /// `authorize` and `authenticate`: `handled` ends them with an Access-Reject.
    Access,
    /// `preacct` and `accounting`: `notfound` and `handled` end them without a reply.
    Accounting,
    /// `post-auth`: `handled` ends it as `return` does.
    PostAuth,
    Other,
}

impl SectionKind {
    /// That of a section of this name.
    pub fn named(name: &[u8]) -> SectionKind {
        match name {
            b"authorize" | b"authenticate" => SectionKind::Access,
            b"preacct" | b"accounting" => SectionKind::Accounting,
            b"post-auth" => SectionKind::PostAuth,
            _ => SectionKind::Other,
        }
    }
}

/// How statements are imported.
#[derive(Clone, Copy)]
pub struct Settings<'a> {
    pub meaning: Meaning,
    pub line_ends: LineEnds,
    /// The wider profile is asked for where a line needs it, and by the plain one such lines are left out.
    pub profile: Profile,
    pub modules: &'a [Module],
    /// The attributes of control in place of what policies do not have, where the dictionary defines them.
    pub others: &'a [OtherAttribute],
    /// What is known of the server's codes where the statements begin.
    pub codes: KnownCodes,
    /// Which section the statements are of.
    pub section: SectionKind,
    /// How many of the configuration's last items are pairs of initial lists, as [`crate::add_initial`] adds them. They
    /// are updates in front of the policy.
    pub initial: usize,
    /// The names beside which values are hidden in comments and reports; without them all is shown.
    pub hidden: Option<&'a SecretNames<'a>>,
}

impl Settings<'_> {
    // The code of the policy that a server's is.
    pub(crate) fn own_code(self, code: ServerCode) -> Option<Code> {
        if self.meaning == Meaning::Plain {
            return code.own();
        }
        // A server's reply after these is that after `reject`.
        match (self.section, code) {
            (_, ServerCode::Fail | ServerCode::Invalid | ServerCode::UserLock)
            | (SectionKind::Accounting, ServerCode::NotFound)
            | (SectionKind::Access | SectionKind::Accounting, ServerCode::Handled) => {
                Some(Code::Reject)
            }
            _ => code.own(),
        }
    }

    // Whether `handled` ends the section as `return` does.
    pub(crate) fn is_post_auth(self) -> bool {
        self.meaning == Meaning::Server && self.section == SectionKind::PostAuth
    }
}

/// The first line of a policy of the wider profile.
pub(crate) const PROFILE_LINE: &[u8] = b"# profile: wider";
