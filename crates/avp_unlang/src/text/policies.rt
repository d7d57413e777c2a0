//! Whole policies.

ghost use Rattle.std.specs.Prelude.{◌≡◌, ◌≢◌, ◌≤◌, ℕ, List, length, take, IfErr, IfOk, IsTrue};
ghost use Rattle.avp_dict.specs.Dictionary.{Dictionary};
ghost use Rattle.avp_dict.specs.LineNumbers.{line_after};
ghost use Rattle.avp_forms.specs.Profiles.{profile_of};
ghost use Rattle.avp_forms.specs.declared.profiles.Profile.TheVariants.{Plain};
ghost use Rattle.avp_patterns.specs.declared.faults.PatternFault.TheVariants as pattern;
ghost use Rattle.avp_unlang.specs.declared.faults.PolicyKind.TheVariants.{Memory, Pattern as PatternKind};
ghost use Rattle.avp_unlang.specs.declared.tree.Statement.{Statement as Tree};
ghost use Rattle.avp_unlang.specs.CaptureUse.{uses_captures};
ghost use Rattle.avp_unlang.specs.Cleanness.{KeepsReplyClean};
ghost use Rattle.avp_unlang.specs.Faults.{BeginsToken};
ghost use Rattle.avp_unlang.specs.Places.{max_size, start_of};
ghost use Rattle.avp_unlang.specs.Policies.{IsRefusedPolicy, ReadsPolicy, SpellsPolicy};
ghost use Rattle.avp_unlang.specs.PolicyPatterns.{HasPatterns, is_among, policy_patterns_pass};
ghost use Rattle.avp_unlang.specs.RefusedPolicies.{IsRefusedAt, IsRefusedOnce, StatementsFail};
ghost use Rattle.avp_unlang.specs.Sizes.{size_of};
ghost use Rattle.avp_unlang.specs.Suiting.{IsSpelled, policy_suits};
ghost use Rattle.avp_unlang.specs.internal.LeftTokens.{LeavesToken};

use crate::faults::{PolicyFault, Refusal};
use crate::text::capture_uses::uses_captures;
use crate::text::compiling::patterns_of;
use crate::text::cursors::{Cursor, MAX_SIZE};
use crate::text::statements::statements;
use crate::text::tokens::Token;
use crate::tree::Block;
use avp_dict::Dictionary;
use avp_forms::profile_of;
use avp_patterns::Pattern;
use std::alloc::Global;
use std::marker::Model;

/// How many `{`, `(` and `!` may be open at once.
const MAX_NESTED: usize = 64;

/// A policy that was read, seen by contracts as its statements.
pub struct Policy {
    statements: Block,
    size: usize,
    // Each once.
    patterns: Vec<Pattern>,
    captures: bool,
}

impl Drop for Policy {
    fn drop(self) {
        let Policy {
            statements: _,
            size: _,
            patterns: _,
            captures: _,
        } = self;
    }
}

impl Model for Policy {
    ghost use Rattle.std.specs.Prelude.{◌≡◌, ◌≤◌, IsTrue, List};
    ghost use Rattle.avp_unlang.specs.declared.tree.Statement.{Statement};
    ghost use Rattle.avp_unlang.specs.CaptureUse.{uses_captures};
    ghost use Rattle.avp_unlang.specs.Places.{max_size};
    ghost use Rattle.avp_unlang.specs.PolicyPatterns.{is_among, policy_patterns_pass};
    ghost use Rattle.avp_unlang.specs.Sizes.{size_of};
    ghost use Rattle.avp_unlang.specs.contracts.tree.Statement as e;
    ghost use Rattle.std.specs.Coded.{codes};

    ghost Value = { List Statement };

    ghost coded = { Prim.hlevel (codes, e.the_row.coded) };

    ghost view = { λ p. p.statements };

    ghost invariant = { λ p. (p.size ≡ size_of p.statements)
        × (p.size ≤ max_size)
        × IsTrue (policy_patterns_pass (is_among p.patterns.items) p.statements)
        × (p.captures ≡ uses_captures p.statements) };
}

impl Policy {
    /// The statements, in the order of the text.
    pub fn statements(&self) -> &Block
        ensures { result.now ≡ self.now }
    {
        &self.statements
    }

    /// The patterns that the conditions compare with, compiled.
    pub fn patterns(&self) -> &[Pattern]
        ensures { IsTrue (policy_patterns_pass (is_among result.now) self.now) }
    {
        self.patterns.as_slice()
    }

    /// Whether a text or a condition looks at what a comparison with a pattern captured. Runs of other policies need not
    /// keep it.
    pub fn uses_captures(&self) -> bool
        ensures { result ≡ uses_captures self.now }
    {
        self.captures
    }
}

/// The size of a policy: one for each update line, each condition of an `if` or `elsif` and each word, and two for each
/// transaction.
///
/// ```rust
/// let text = b"if (&User-Name) { update reply { Session-Timeout := 600 } }\nreject";
/// let policy = read_policy(alloc, dictionary, text)?;
/// assert_eq!(rt; size(&policy), 3);
/// ```
pub fn size(policy: &Policy) -> usize
    ensures count { result ≡ size_of policy.now }
    ensures within { result ≤ max_size }
{
    policy.size
}

// The policy that a text spells.
fn policy_of(alloc: Global, dictionary: &Dictionary, text: &[u8]) -> Result<Policy, Refusal>
    ensures ok { IfOk result (SpellsPolicy dictionary.now text.now) }
    ensures err { IfErr result (λ refusal. IsRefusedPolicy dictionary.now text.now refusal.kind) }
    ensures refused { IfErr result (λ refusal. refusal.kind ≢ Memory
        → refusal.kind ≢ PatternKind pattern.TooLarge
        → StatementsFail (profile_of text.now) dictionary.now (start_of text.now) refusal.left
        refusal.kind) }
    ensures token { IfErr result (λ refusal. refusal.kind ≢ Memory
        → LeavesToken (profile_of text.now) refusal.left text.now) }
    ensures suits { IfOk result (λ policy. IsTrue (policy_suits dictionary.now policy)) }
{
    dictionary.is_sound();
    let profile = profile_of(text);
    let (statements, end) = statements(alloc, profile, dictionary, MAX_NESTED, Cursor::new(text))?;
    match end.token() {
        Token::End => {
            let patterns = patterns_of(alloc, profile, text, statements.as_slice())?;
            let captures = uses_captures(statements.as_slice());
            Ok(Policy {
                statements,
                size: MAX_SIZE - end.room(),
                patterns,
                captures,
            })
        }
        _ => Err(end.unfit()),
    }
}

/// The policy that a text spells, by a dictionary. A fault is at the token that was refused: at a name, or at a value,
/// of which a text between quotes is one, whatever is in it. Where no value may be written under the name of an update
/// line or a comparison, this is found at the operator or the source, but the fault is at the name.
///
/// The patterns of a wider policy are compiled, each once. One that takes more than 256 KiB, or with which all take more
/// than 16 MiB, is refused as too large, at its comparison.
///
/// ```rust
/// let text = b"update reply { Session-Timeout := 600 }\nreject";
/// let policy = read_policy(alloc, dictionary, text)?;
/// assert_eq!(rt; policy.statements().len(), 2);
/// let refused = read_policy(alloc, dictionary, b"rejected").err();
/// let (line, offset, kind) = (1, 0, PolicyKind::Misplaced);
/// assert_eq!(rt; refused, Some(PolicyFault { line, offset, kind }));
/// ```
pub fn read_policy(
    alloc: Global,
    dictionary: &Dictionary,
    text: &[u8],
) -> Result<Policy, PolicyFault>
    ensures read { ReadsPolicy dictionary.now text.now result }
    // Its attributes are known, its literals fit, and what it compares is of one type.
    ensures suits { IfOk result (λ policy. IsTrue (policy_suits dictionary.now policy)) }

    // A refusal is the first in the order of reading, by what is before it and what is there.
    ensures refused { IfErr result (λ fault. fault.kind ≢ Memory
        → fault.kind ≢ PatternKind pattern.TooLarge
        → IsRefusedAt dictionary.now text.now fault.offset fault.kind) }

    // It has its place in the text, where a token begins.
    ensures within { IfErr result (λ fault. fault.offset ≤ length text.now) }
    ensures line { IfErr result (λ fault. fault.kind ≢ Memory
        → fault.line ≡ line_after (take fault.offset text.now)) }
    ensures token { IfErr result (λ fault. fault.kind ≢ Memory
        → BeginsToken fault.offset text.now) }
{
    match policy_of(alloc, dictionary, text) {
        Ok(policy) => Ok(policy),
        Err(refusal) => Err(refusal.placed(text)),
    }
}

/// A plain policy has no patterns. So none of its faults is that one is too large.
pub fn plain_has_no_patterns()
    ensures { (dictionary : Dictionary) (text : List ℕ) (policy : List Tree)
        → profile_of text ≡ Plain → SpellsPolicy dictionary text policy → HasPatterns policy → ⊥ }
{}

/// A text that is refused spells no policy, and it is refused at one place, for one kind.
pub fn refused_once()
    ensures { IsRefusedOnce }
{}

/// A text spells at most one policy by a dictionary.
pub fn one_policy()
    ensures { (dictionary : Dictionary) (text : List ℕ) (xs ys : List Tree)
        → SpellsPolicy dictionary text xs → SpellsPolicy dictionary text ys → xs ≡ ys }
{}

/// A policy that was read by a dictionary keeps reply lists clean: what is written of them is read back as they are.
pub fn keeps_reply_clean(dictionary: &Dictionary, policy: &Policy)
    requires { IsSpelled dictionary.now policy.now }
    ensures { KeepsReplyClean dictionary.now policy.now }
{
    dictionary.is_sound();
    dictionary.spelled_values_clean();
}
