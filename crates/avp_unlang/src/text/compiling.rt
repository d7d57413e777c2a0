//! The patterns of a policy, compiled.

ghost use Rattle.std.specs.Prelude.{◌≡◌, ◌≢◌, ◌≤◌, false, [], length, IfErr, IfOk, IsTrue, OnOk};
ghost use Rattle.std.specs.List.{list_all};
ghost use Rattle.avp_forms.specs.declared.profiles.Profile.TheVariants.{Plain, Wider};
ghost use Rattle.avp_patterns.specs.declared.faults.PatternFault.TheVariants as pattern;
ghost use Rattle.avp_unlang.specs.declared.faults.PolicyKind.TheVariants as policy;
ghost use Rattle.avp_unlang.specs.declared.text.tokens.Token.TheVariants.{End};
ghost use Rattle.avp_unlang.specs.internal.LeftTokens.{LeavesToken};
ghost use Rattle.avp_unlang.specs.PatternTruth.{pattern_in};
ghost use Rattle.avp_unlang.specs.PolicyPatterns.{AreKept, HasPatterns, branch_patterns_pass, branches_pass, cond_patterns_pass, is_among, none_passes, policy_patterns_pass, statement_patterns_pass};
ghost use Rattle.avp_unlang.specs.Texts.{group_pattern};

use crate::faults::{PolicyKind, Refusal};
use crate::meaning::matchers::is_pattern;
use crate::text::pattern_tokens::token_in;
use crate::text::patterns::unslashed;
use crate::text::positions::from_token;
use crate::text::tokens::Token;
use crate::tree::{Branch, Cond, GroupMatching, Matching, Statement};
use avp_forms::Profile;
use avp_patterns::{Pattern, PatternFault, PatternFlags};
use std::alloc::{AllocError, Global};
use std::marker::Model;

// How many octets what is compiled of all patterns of a policy may take.
const MAX_COMPILED: usize = 16 << 20;

// Why a pattern was not compiled.
#[derive(Clone, Copy)]
enum CompileFault {
    TooLarge,
    Memory,
}

impl From<PatternFault> for CompileFault {
    fn from(fault: PatternFault) -> CompileFault {
        match fault {
            PatternFault::Memory => CompileFault::Memory,
            // It was read as a pattern before, so nothing else can be wrong with it.
            _ => CompileFault::TooLarge,
        }
    }
}

// Patterns that were compiled, each once, seen by contracts as they are written.
#[derive(Drop)]
struct Compiled {
    patterns: Vec<Pattern>,
    // How many octets what is compiled of others may take.
    room: usize,
}

impl Model for Compiled {
    ghost use Rattle.std.specs.Prelude.{List};
    ghost use Rattle.avp_patterns.specs.Patterns.{Written};

    ghost Value = { List Written };

    ghost view = { λ c. c.patterns.items };
}

impl Compiled {
    fn new(alloc: Global) -> Compiled
        ensures { result ≡ [] }
    {
        Compiled {
            patterns: Vec::new(alloc),
            room: MAX_COMPILED,
        }
    }

    fn has(&self, text: &[u8], flags: PatternFlags) -> bool
        ensures { result ≡ is_among self.now (record { text = text.now; flags = flags }) }
    {
        self.patterns
            .iter()
            .any(|pattern| is_pattern(pattern, text, flags))
    }

    // Adds a pattern, unless it is among these.
    #[tactic(auto, using(crate::proofs::KeptPatterns::added_among, crate::proofs::KeptPatterns::added_keeps))]
    fn add(&mut self, alloc: Global, text: &[u8], flags: PatternFlags) -> Result<(), CompileFault>
        ensures pass { OnOk result (IsTrue (is_among self.new
            (record { text = text.now; flags = flags }))) }
        ensures kept { AreKept self.old self.new }
    {
        if self.has(text, flags) {
            return Ok(());
        }
        let pattern = Pattern::read(alloc, text, flags)?;
        let Some(room) = self.room.checked_sub(pattern.size()) else {
            return Err(CompileFault::TooLarge);
        };
        if self.patterns.push(pattern).is_err() {
            return Err(CompileFault::Memory);
        }
        self.room = room;
        Ok(())
    }

    // Whether a token is neither the end nor a comparison with another pattern than these.
    fn passes(&self, alloc: Global, token: &Token<'_>) -> Result<bool, AllocError>
        ensures { IfOk result (λ passes. IsTrue passes → token.now ≢ End) }
    {
        match token {
            Token::End => Ok(false),
            Token::Matching(matcher) => {
                let text = unslashed(alloc, matcher.pattern.as_slice())?;
                Ok(self.has(&text, matcher.flags))
            }
            _ => Ok(true),
        }
    }

    // How many octets of a wider text are left from the first token on whose pattern is not among these, or the end.
    fn first_other(&self, alloc: Global, text: &[u8]) -> Result<usize, AllocError>
        ensures { IfOk result (λ left. LeavesToken Wider left text.now) }
    {
        let mut start = from_token(text);
        loop {
            let (token, rest) = token_in(Profile::Wider, start);
            if !self.passes(alloc, &token)? {
                return Ok(start.len());
            }
            start = from_token(rest);
        }
    }

    // The refusal of a wider text whose next pattern was not compiled.
    fn refusal_in(&self, alloc: Global, text: &[u8], fault: CompileFault) -> Refusal
        ensures large { result.kind ≢ policy.Memory
            → result.kind ≡ policy.Pattern pattern.TooLarge }
        ensures token { result.kind ≢ policy.Memory → LeavesToken Wider result.left text.now }
    {
        let (CompileFault::TooLarge, Ok(left)) = (fault, self.first_other(alloc, text)) else {
            return Refusal::OUT_OF_MEMORY;
        };
        let kind = PolicyKind::Pattern(PatternFault::TooLarge);
        Refusal { left, kind }
    }
}

// Adds the pattern of a comparison.
fn compile(alloc: Global, matching: &Matching, compiled: &mut Compiled) -> Result<(), CompileFault>
    ensures pass { OnOk result (IsTrue (is_among compiled.new (pattern_in matching.now))) }
    ensures kept { AreKept compiled.old compiled.new }
{
    compiled.add(alloc, matching.pattern.as_slice(), matching.flags)
}

fn compile_group(
    alloc: Global,
    matching: &GroupMatching,
    compiled: &mut Compiled,
) -> Result<(), CompileFault>
    ensures pass { OnOk result (IsTrue (is_among compiled.new (group_pattern matching.now))) }
    ensures kept { AreKept compiled.old compiled.new }
{
    compiled.add(alloc, matching.pattern.as_slice(), matching.flags)
}

#[cycle(conds)]
fn compile_conds(alloc: Global, conds: &[Cond], compiled: &mut Compiled) -> Result<(), CompileFault>
    ensures pass { OnOk result (IsTrue (list_all
        (cond_patterns_pass (is_among compiled.new)) conds.now)) }
    ensures refused { IfErr result (λ _.
        list_all (cond_patterns_pass none_passes) conds.now ≡ false) }
    ensures kept { AreKept compiled.old compiled.new }
{
    for cond in conds {
        compile_cond(alloc, cond, compiled)?;
    }
    Ok(())
}

// Adds the patterns of a condition.
#[cycle(conds)]
#[tactic(auto, using(crate::proofs::Truths::passes_last, crate::proofs::Truths::passes_present, crate::proofs::Truths::passes_present_selected, crate::proofs::Truths::passes_compare, crate::proofs::Truths::passes_compare_meant, crate::proofs::Truths::passes_compare_texts, crate::proofs::Truths::passes_captured))]
fn compile_cond(alloc: Global, cond: &Cond, compiled: &mut Compiled) -> Result<(), CompileFault>
    ensures pass { OnOk result (IsTrue (cond_patterns_pass (is_among compiled.new)
        cond.now)) }
    ensures refused { IfErr result (λ _. cond_patterns_pass none_passes cond.now ≡ false) }
    ensures kept { AreKept compiled.old compiled.new }
{
    match cond {
        Cond::Any(conds) => compile_conds(alloc, conds.as_slice(), compiled),
        Cond::All(conds) => compile_conds(alloc, conds.as_slice(), compiled),
        Cond::Not(cond) => compile_cond(alloc, cond.get(), compiled),
        Cond::Match(matching) => compile(alloc, matching, compiled),
        Cond::MatchText(matching) => compile(alloc, matching, compiled),
        Cond::MatchGroup(matching) => compile_group(alloc, matching, compiled),
        Cond::Last(_)
        | Cond::Present(..)
        | Cond::PresentSelected(..)
        | Cond::Compare(_)
        | Cond::CompareMeant(_)
        | Cond::CompareTexts(_)
        | Cond::Captured(_) => Ok(()),
    }
}

#[cycle(blocks)]
fn compile_branches(
    alloc: Global,
    branches: &[Branch],
    compiled: &mut Compiled,
) -> Result<(), CompileFault>
    ensures pass { OnOk result (IsTrue (branches_pass (is_among compiled.new)
        branches.now)) }
    ensures refused { IfErr result (λ _. branches_pass none_passes branches.now ≡ false) }
    ensures kept { AreKept compiled.old compiled.new }
{
    for branch in branches {
        compile_branch(alloc, branch, compiled)?;
    }
    Ok(())
}

#[cycle(blocks)]
fn compile_branch(
    alloc: Global,
    branch: &Branch,
    compiled: &mut Compiled,
) -> Result<(), CompileFault>
    ensures pass { OnOk result (IsTrue (branch_patterns_pass (is_among compiled.new)
        branch.now)) }
    ensures refused { IfErr result (λ _. branch_patterns_pass none_passes branch.now ≡ false) }
    ensures kept { AreKept compiled.old compiled.new }
{
    compile_cond(alloc, &branch.cond, compiled)?;
    compile_block(alloc, branch.block.as_slice(), compiled)
}

#[cycle(blocks)]
fn compile_block(
    alloc: Global,
    statements: &[Statement],
    compiled: &mut Compiled,
) -> Result<(), CompileFault>
    ensures pass { OnOk result (IsTrue (policy_patterns_pass (is_among compiled.new)
        statements.now)) }
    ensures refused { IfErr result (λ _. HasPatterns statements.now) }
    ensures kept { AreKept compiled.old compiled.new }
{
    for statement in statements {
        compile_statement(alloc, statement, compiled)?;
    }
    Ok(())
}

#[cycle(blocks)]
fn compile_statement(
    alloc: Global,
    statement: &Statement,
    compiled: &mut Compiled,
) -> Result<(), CompileFault>
    ensures pass { OnOk result (IsTrue (statement_patterns_pass (is_among compiled.new)
        statement.now)) }
    ensures refused { IfErr result (λ _.
        statement_patterns_pass none_passes statement.now ≡ false) }
    ensures kept { AreKept compiled.old compiled.new }
{
    match statement {
        Statement::If(branches, otherwise) => {
            compile_branches(alloc, branches.as_slice(), compiled)?;
            match otherwise {
                None => Ok(()),
                Some(block) => compile_block(alloc, block.as_slice(), compiled),
            }
        }
        Statement::Transaction(_, block) => compile_block(alloc, block.as_slice(), compiled),
        Statement::Update(..) | Statement::Word(..) => Ok(()),
    }
}

/// What is compiled of the patterns of the statements that a text spells, each once.
pub(crate) fn patterns_of(
    alloc: Global,
    profile: Profile,
    text: &[u8],
    statements: &[Statement],
) -> Result<Vec<Pattern>, Refusal>
    requires { profile ≡ Plain → IsTrue (policy_patterns_pass none_passes statements.now) }
    ensures pass { IfOk result (λ patterns. IsTrue (policy_patterns_pass (is_among patterns.items)
        statements.now)) }
    ensures refused { IfErr result (λ refusal. refusal.kind ≢ policy.Memory
        → (refusal.kind ≡ policy.Pattern pattern.TooLarge) × HasPatterns statements.now) }
    ensures token { IfErr result (λ refusal. refusal.kind ≢ policy.Memory
        → LeavesToken profile refusal.left text.now) }
{
    let mut compiled = Compiled::new(alloc);
    match profile {
        Profile::Plain => Ok(compiled.patterns),
        Profile::Wider => match compile_block(alloc, statements, &mut compiled) {
            Ok(()) => Ok(compiled.patterns),
            Err(fault) => Err(compiled.refusal_in(alloc, text, fault)),
        },
    }
}
