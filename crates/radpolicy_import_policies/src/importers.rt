//! What becomes of the statements of a server.

use crate::drafts::{Draft, DraftCondition, DraftPart, DraftWarning, code_name, section_name};
use crate::faults::{ImportFault, reason_of};
use crate::item_readers::{ItemReader, PairLines, condition_of};
use crate::origins::origin_of;
use crate::settings::{Meaning, ModuleAnswer};
use crate::statements::{Statement, StatementKind, counted};
use crate::tagged_lines::TaggedLines;
use avp_forms::Profile;
use avp_lists::List;
use radpolicy_common::{LineBreaks, visible_text};
use radpolicy_import_conditions::{
    ChosenLine, Difference, KnownCodes, PatternDifference, Reason, ServerCode, ServerList,
    SwitchChain, UpdateLine, between, list_name,
};
use radpolicy_import_texts::carried_policy;
use std::alloc::AllocError;

/// Makes lines of a policy.
#[derive(Drop)]
pub(crate) struct Importer<'a> {
    pub(crate) reader: ItemReader<'a>,
    pub(crate) drafts: Vec<Draft>,
    pub(crate) parts: Vec<DraftPart>,
    pub(crate) warnings: Vec<DraftWarning>,
    pub(crate) calls: usize,
    /// The place of the first line that needs the wider profile.
    pub(crate) wider: Option<usize>,
    // The policies that lines are put in by.
    open: Vec<usize>,
    depth: usize,
    codes: KnownCodes,
    /// Whether a statement of the section may follow the one that is being imported.
    pub(crate) follows: bool,
    /// How often the mark of the section's end is set.
    pub(crate) returns: usize,
    /// How many of the statements that are kept have a value that is given.
    pub(crate) given: usize,
    /// Whether a server may have captured something else: before the section, or in a part that is left out.
    pub(crate) captured_else: bool,
    /// What was set so far of attributes whose values have tags, in octets.
    pub(crate) tagged: TaggedLines,
    /// How many statements have begun that no line is of yet.
    pub(crate) begun: usize,
    /// Whether it is warned of that a text may become too long by what is put in, which one line tells for all.
    pub(crate) tells_length: bool,
}

/// Whether a place is before another, if there is another.
pub(crate) fn is_before(at: usize, last: Option<usize>) -> bool {
    match last {
        Some(last) => at < last,
        None => false,
    }
}

// What is known of the codes after one of several ways.
fn one_of(others: Option<KnownCodes>, codes: KnownCodes) -> KnownCodes {
    match others {
        Some(others) => others.either(codes),
        None => codes,
    }
}

impl<'a> Importer<'a> {
    pub(crate) fn new(reader: ItemReader<'a>) -> Importer<'a> {
        let (alloc, codes) = (reader.alloc, reader.settings.codes);
        Importer {
            reader,
            drafts: Vec::new(alloc),
            parts: Vec::new(alloc),
            warnings: Vec::new(alloc),
            calls: 0,
            wider: None,
            open: Vec::new(alloc),
            depth: 0,
            codes,
            follows: false,
            returns: 0,
            given: 0,
            captured_else: true,
            tagged: TaggedLines::new(alloc),
            begun: 0,
            tells_length: false,
        }
    }

    // Counts the statement at a place if it has a value that is given.
    fn count_given(&mut self, place: usize) -> Result<(), ImportFault> {
        if self.reader.is_given(place)? {
            self.given = self.given.saturating_add(1);
            if self.reader.changes_attributes(place) {
                self.warn(place, Difference::ChangedList)?;
            }
        }
        Ok(())
    }

    // ---- lines

    // So many statements are kept: the next line is the first that comes of them.
    fn begin(&mut self, count: usize) {
        self.begun = self.begun.saturating_add(count);
    }

    fn push(&mut self, place: usize, text: Vec<u8>) -> Result<(), ImportFault> {
        let policies = Vec::from_slice(self.reader.alloc, &self.open)?;
        self.drafts.push(Draft {
            depth: self.depth,
            text,
            place,
            policies,
            statements: self.begun,
        })?;
        self.begun = 0;
        Ok(())
    }

    fn push_between(
        &mut self,
        place: usize,
        before: &[u8],
        text: &[u8],
        after: &[u8],
    ) -> Result<(), ImportFault> {
        let text = between(self.reader.alloc, before, text, after)?;
        self.push(place, text)
    }

    fn push_text(&mut self, place: usize, text: &[u8]) -> Result<(), ImportFault> {
        let text = Vec::from_slice(self.reader.alloc, text)?;
        self.push(place, text)
    }

    fn indent(&mut self) {
        self.depth = self.depth.saturating_add(1);
    }

    fn outdent(&mut self) {
        self.depth = self.depth.saturating_sub(1);
    }

    fn close(&mut self, place: usize) -> Result<(), ImportFault> {
        self.outdent();
        self.push_text(place, b"}")
    }

    fn comment(&mut self, place: usize, word: &[u8], text: &[u8]) -> Result<(), ImportFault> {
        let mut line = between(self.reader.alloc, b"# ", word, b" ")?;
        line.extend_from_slice(&visible_text(self.reader.alloc, text, LineBreaks::Escaped)?)?;
        self.push(place, line)
    }

    // What the item at a place says, as a comment.
    fn comment_item(&mut self, place: usize, word: &[u8]) -> Result<(), ImportFault> {
        let shown = self.reader.shown(place)?;
        self.comment(place, word, &shown)
    }

    // A comment for a statement of which no line came.
    fn end_begun(&mut self, place: usize) -> Result<(), ImportFault> {
        if self.begun == 0 {
            return Ok(());
        }
        let shown = self.reader.shown(place)?;
        let line = between(self.reader.alloc, b"# ", &shown, b"")?;
        self.push(place, line)
    }

    /// Leaves a part of so many statements out.
    pub(crate) fn leave(
        &mut self,
        place: usize,
        count: usize,
        reason: Reason,
    ) -> Result<(), ImportFault> {
        let why = format!(in self.reader.alloc; "{reason}")?;
        let shown = self.reader.shown(place)?;
        let mut line = between(self.reader.alloc, b"# left out, ", why.as_bytes(), b": ")?;
        line.extend_from_slice(&shown)?;
        self.push(place, line)?;
        self.parts.push(DraftPart {
            place,
            count,
            reason,
        })?;
        self.codes = KnownCodes::unknown();
        Ok(())
    }

    /// Leaves statements out, and so many that they are in.
    pub(crate) fn leave_all(
        &mut self,
        place: usize,
        statements: &[Statement],
        others: usize,
        reason: Reason,
    ) -> Result<(), ImportFault> {
        self.leave(place, counted(statements)?.saturating_add(others), reason)?;
        self.captured_else = self.captured_else || self.reader.have_patterns(statements);
        Ok(())
    }

    // Whether an earlier line has told of a difference.
    fn tells(&self, difference: Difference) -> bool {
        self.warnings
            .iter()
            .any(|warning| warning.difference == difference)
    }

    fn warn(&mut self, place: usize, difference: Difference) -> Result<(), ImportFault> {
        let is_told = match (difference, self.warnings.last()) {
            (Difference::LongExpansion, _) => self.tells_length,
            (Difference::EscapedOctets | Difference::DottedAddress | Difference::PrintedDate, _) =>
                self.tells(difference),
            (_, Some(last)) => last.place == place && last.difference == difference,
            (_, None) => false,
        };
        if !is_told {
            self.warnings.push(DraftWarning { place, difference })?;
        }
        self.tells_length = self.tells_length || difference == Difference::LongExpansion;
        Ok(())
    }

    // ---- updates

    fn open_update(&mut self, place: usize, own: List) -> Result<(), ImportFault> {
        self.push_between(place, b"update ", list_name(own), b" {")?;
        self.indent();
        Ok(())
    }

    // A line that a server skips where its source is absent.
    fn push_needing(
        &mut self,
        place: usize,
        own: List,
        needs: &[u8],
        text: Vec<u8>,
    ) -> Result<(), ImportFault> {
        self.push_between(place, b"if (", needs, b") {")?;
        self.indent();
        self.open_update(place, own)?;
        self.push(place, text)?;
        self.close(place)?;
        self.close(place)
    }

    // A line whose update fails where what is put in is no value: a server keeps what was done before it, and rejects.
    fn push_failing(&mut self, place: usize, own: List, text: Vec<u8>) -> Result<(), ImportFault> {
        self.push_text(place, b"transaction {")?;
        self.indent();
        self.open_update(place, own)?;
        self.push(place, text)?;
        self.close(place)?;
        self.close(place)?;
        self.push_text(place, b"if (fail) {")?;
        self.indent();
        self.push_text(place, b"reject")?;
        self.close(place)
    }

    fn warn_of_line(&mut self, place: usize, line: &UpdateLine) -> Result<(), ImportFault> {
        if line.captures && self.captured_else {
            self.warn(place, Difference::Pattern(PatternDifference::Earlier))?;
        }
        if line.is_escaped {
            self.warn(place, Difference::EscapedOctets)?;
        }
        if line.prints_address {
            self.warn(place, Difference::DottedAddress)?;
        }
        if line.prints_date {
            self.warn(place, Difference::PrintedDate)?;
        }
        match line.difference {
            Some(difference) => self.warn(place, difference),
            None => Ok(()),
        }
    }

    // A line of so many statements.
    fn push_ready(
        &mut self,
        update: usize,
        place: usize,
        count: usize,
        own: List,
        is_open: bool,
        line: UpdateLine,
    ) -> Result<bool, ImportFault> {
        self.warn_of_line(place, &line)?;
        let UpdateLine {
            text,
            needs,
            is_wider,
            captures: _,
            may_fail,
            tagged,
            is_escaped: _,
            prints_address: _,
            prints_date: _,
            difference: _,
        } = line;
        if is_wider && self.wider.is_none() {
            self.wider = Some(place);
        }
        if let Some(tagged) = tagged {
            self.tagged.add(tagged)?;
        }
        let is_alone = needs.is_some() || may_fail;
        if is_open && is_alone {
            self.close(update)?;
        }
        if !is_open && !is_alone {
            self.open_update(update, own)?;
        }
        self.begin(count);
        if let Some(needs) = needs {
            self.push_needing(place, own, &needs, text)?;
        } else if may_fail {
            self.push_failing(place, own, text)?;
        } else {
            self.push(place, text)?;
        }
        Ok(!is_alone)
    }

    // The branch of a line that is meant where its condition is met; without one, where no other's is.
    fn push_chosen(
        &mut self,
        place: usize,
        own: List,
        word: &[u8],
        chosen: ChosenLine,
    ) -> Result<(), ImportFault> {
        let ChosenLine { condition, line } = chosen;
        if condition.is_empty() {
            self.push_text(place, b"else {")?;
        } else {
            self.push_between(place, word, &condition, b") {")?;
        }
        self.indent();
        if self.push_ready(place, place, 0, own, false, line)? {
            self.close(place)?;
        }
        self.close(place)
    }

    fn push_chain(
        &mut self,
        place: usize,
        own: List,
        lines: Vec<ChosenLine>,
    ) -> Result<(), ImportFault> {
        let mut word: &[u8] = b"if (";
        for chosen in lines {
            self.push_chosen(place, own, word, chosen)?;
            word = b"elsif (";
        }
        Ok(())
    }

    // A line of an update, or why it is left out. Whether the block of the update is open: before it, and after it.
    fn push_line(
        &mut self,
        update: usize,
        place: usize,
        own: ServerList,
        is_open: bool,
    ) -> Result<bool, ImportFault> {
        match self.reader.lines(place, own) {
            Ok(lines) if self.tagged.are_hit_by(&lines) => {
                self.leave(place, 1, Reason::Tag)?;
                Ok(is_open)
            }
            Ok(PairLines::One(line)) => {
                self.count_given(place)?;
                self.push_ready(update, place, 1, own.list(), is_open, line)
            }
            Ok(PairLines::Chosen(lines)) => {
                self.count_given(place)?;
                if is_open {
                    self.close(update)?;
                }
                self.begin(1);
                self.push_chain(place, own.list(), lines)?;
                Ok(false)
            }
            Err(refusal) => {
                self.leave(place, 1, reason_of(refusal)?)?;
                Ok(is_open)
            }
        }
    }

    fn update(&mut self, place: usize, lines: &[Statement]) -> Result<(), ImportFault> {
        let own = match self.reader.arguments(place) {
            [] => Some(ServerList::Own(List::Request)),
            [name, ..] => ServerList::named(&name.octets),
        };
        let has_others = !self.reader.settings.others.is_empty();
        let own = own.filter(|own| has_others || matches!(own, ServerList::Own(_)));
        let Some(own) = own else {
            return self.leave(place, counted(lines)?, Reason::OtherList);
        };
        let mut is_open = false;
        for line in lines {
            is_open = self.push_line(place, line.place, own, is_open)?;
        }
        if is_open {
            self.close(place)?;
        }
        self.codes = match self.reader.settings.meaning {
            Meaning::Server => self.codes.after_update(),
            Meaning::Plain => KnownCodes::unknown(),
        };
        Ok(())
    }

    // ---- initial lists

    // Adds the pair of an initial list at a place, after those in the update that is open.
    fn push_initial(
        &mut self,
        place: usize,
        open: Option<(usize, List)>,
    ) -> Result<Option<(usize, List)>, ImportFault> {
        let (list, line) = match self.reader.initial_line(place) {
            Ok(read) => read,
            Err(refusal) => {
                let reason = reason_of(refusal)?;
                return Err(match origin_of(self.reader.configuration, place) {
                    Some(origin) => ImportFault::Initial(origin, reason),
                    None => ImportFault::Memory,
                });
            }
        };
        let (update, is_open) = match open {
            Some((update, own)) if own == list => (update, true),
            Some((update, _)) => {
                self.close(update)?;
                (place, false)
            }
            None => (place, false),
        };
        let is_open = self.push_ready(update, place, 0, list, is_open, line)?;
        Ok(is_open.then_some((update, list)))
    }

    /// Adds updates for the pairs of initial lists.
    pub(crate) fn initial(&mut self) -> Result<(), ImportFault> {
        let count = self.reader.configuration.items.len();
        let first = count.saturating_sub(self.reader.settings.initial);
        let mut open = None;
        for place in first..count {
            if place == first {
                self.push_text(place, b"# initial lists")?;
            }
            open = self.push_initial(place, open)?;
        }
        match open {
            Some((update, _)) => self.close(update),
            None => Ok(()),
        }
    }

    // ---- modules

    fn push_policy(&mut self, place: usize, policy: &[u8]) -> Result<(), ImportFault> {
        if let Err(refusal) = self.reader.check(policy, b"", b"") {
            let reason = reason_of(refusal)?;
            return self.leave(place, 0, reason);
        }
        let hidden = self.reader.settings.hidden;
        let carried = carried_policy(self.reader.alloc, hidden, policy)?;
        for line in carried.split(|octet| *octet == b'\n') {
            self.push_text(place, line)?;
        }
        self.codes = KnownCodes::unknown();
        Ok(())
    }

    // A code, which is so many statements.
    fn push_code(
        &mut self,
        place: usize,
        count: usize,
        code: ServerCode,
    ) -> Result<(), ImportFault> {
        let settings = self.reader.settings;
        if let Some(own) = settings.own_code(code) {
            self.begin(count);
            self.push_text(place, code_name(own))?;
            self.codes = self.codes.after_code(own);
            return Ok(());
        }
        match code {
            ServerCode::NotFound => {
                self.codes = self.codes.after_server_code(code);
                self.begin(count);
                self.comment(place, b"notfound,", b"a code of the server alone")
            }
            ServerCode::Handled if settings.is_post_auth() => self.end(place, count, b"handled,"),
            _ => self.leave(place, count, Reason::OtherCode),
        }
    }

    // A code, which is so many statements, of a call that may say what is done after it.
    fn push_answer(
        &mut self,
        place: usize,
        count: usize,
        code: ServerCode,
    ) -> Result<(), ImportFault> {
        match self.reader.action(place, code) {
            None => self.push_code(place, count, code),
            Some(b"reject") => self.push_code(place, count, ServerCode::Reject),
            Some(b"return") if !self.follows => self.push_code(place, count, code),
            Some(_) => self.leave(place, count, Reason::Action),
        }
    }

    fn module(&mut self, place: usize) -> Result<(), ImportFault> {
        match self.reader.answer(place) {
            Some(ModuleAnswer::Code(code)) => self.push_answer(place, 0, *code),
            Some(ModuleAnswer::Policy(policy)) => self.push_policy(place, policy),
            None => {
                self.calls = self.calls.saturating_add(1);
                self.codes = KnownCodes::unknown();
                self.comment_item(place, b"module")
            }
        }
    }

    // ---- the end of the section

    // A word that ends it, which is so many statements: nothing where no statement follows, else a mark under whose
    // contrary what follows is.
    fn end(&mut self, place: usize, count: usize, word: &[u8]) -> Result<(), ImportFault> {
        if !self.follows {
            self.begin(count);
            return self.comment(place, word, b"and nothing follows");
        }
        let Some(name) = self.reader.names().returned() else {
            return self.leave(place, count, Reason::OtherCode);
        };
        self.begin(count);
        self.open_update(place, List::Control)?;
        self.push_between(place, b"", name, b" := \"yes\"")?;
        self.close(place)?;
        self.returns = self.returns.saturating_add(1);
        Ok(())
    }

    /// Begins the branch of what is done where the section has not ended, and ends the one before it.
    pub(crate) fn begin_rest(
        &mut self,
        before: Option<usize>,
        place: usize,
    ) -> Result<Option<usize>, ImportFault> {
        self.end_rest(before)?;
        let Some(name) = self.reader.names().returned() else {
            return Ok(None);
        };
        self.push_between(place, b"if (!&control:", name, b") {")?;
        self.indent();
        Ok(Some(place))
    }

    /// Ends the branch that began at a place, if one did.
    pub(crate) fn end_rest(&mut self, began: Option<usize>) -> Result<(), ImportFault> {
        match began {
            Some(place) => self.close(place),
            None => Ok(()),
        }
    }

    // ---- chains

    fn keyword(kind: StatementKind) -> &'static [u8] {
        match kind {
            StatementKind::If => b"if ",
            StatementKind::Elsif => b"elsif ",
            _ => b"else",
        }
    }

    // The line of a branch, what its condition needs, and what a server may decide otherwise.
    fn push_branch(
        &mut self,
        place: usize,
        kind: StatementKind,
        condition: &DraftCondition,
    ) -> Result<(), ImportFault> {
        if condition.profile == Profile::Wider && self.wider.is_none() {
            self.wider = Some(place);
        }
        for difference in &condition.differences {
            self.warn(place, *difference)?;
        }
        if condition.uses_captures && self.captured_else {
            self.warn(place, Difference::Pattern(PatternDifference::Earlier))?;
        }
        self.push_between(place, Self::keyword(kind), &condition.text, b" {")
    }

    #[cycle(importing)]
    fn branches(
        &mut self,
        branches: &[Statement],
        conditions: &[DraftCondition],
    ) -> Result<(), ImportFault> {
        let (outer, before) = (self.codes, self.captured_else);
        let (mut codes, mut after) = (None, before);
        for (branch, condition) in branches.iter().zip(conditions) {
            self.captured_else = before;
            self.count_given(branch.place)?;
            self.begin(1);
            self.push_branch(branch.place, branch.kind, condition)?;
            self.captured_else = before && !condition.captures_anew;
            self.codes = outer;
            self.indent();
            self.block(branch.block.as_slice())?;
            self.close(branch.place)?;
            codes = Some(one_of(codes, self.codes));
            after = after || self.captured_else;
        }
        self.codes = match branches.last() {
            Some(last) if last.kind == StatementKind::Else => codes.unwrap_or(outer),
            _ => one_of(codes, outer),
        };
        self.captured_else = after;
        Ok(())
    }

    #[cycle(importing)]
    fn chain(&mut self, place: usize, branches: &[Statement]) -> Result<(), ImportFault> {
        match self.reader.conditions(branches, self.codes) {
            Ok(conditions) => self.branches(branches, &conditions),
            Err(refusal) => self.leave_all(place, branches, 0, reason_of(refusal)?),
        }
    }

    // ---- switches

    // The block of a case, after the line of its `if`, `elsif` or `else`, by the codes where the switch begins.
    #[cycle(importing)]
    fn case_block(
        &mut self,
        case: &Statement,
        word: &[u8],
        condition: &[u8],
        outer: KnownCodes,
    ) -> Result<(), ImportFault> {
        self.count_given(case.place)?;
        self.begin(1);
        self.push_between(case.place, word, condition, b" {")?;
        let otherwise = self.codes;
        self.codes = outer;
        self.indent();
        self.block(case.block.as_slice())?;
        self.codes = otherwise.either(self.codes);
        self.close(case.place)
    }

    // The cases with values. A second default is never taken.
    #[cycle(importing)]
    fn valued_cases(
        &mut self,
        cases: &[Statement],
        chain: &SwitchChain,
        conditions: &[Vec<u8>],
    ) -> Result<(), ImportFault> {
        let outer = self.codes;
        let mut word: &[u8] = b"if ";
        for (at, case) in cases.iter().enumerate() {
            if let Some(condition) = condition_of(chain, conditions, at) {
                if self.reader.is_zero_alone(case.place)? {
                    self.warn(case.place, Difference::HexadecimalNumber)?;
                }
                self.case_block(case, word, condition, outer)?;
                word = b"elsif ";
            } else if chain.otherwise != Some(at) {
                self.leave_all(case.place, case.block.as_slice(), 1, Reason::OtherDefault)?;
            }
        }
        Ok(())
    }

    // The default, after the cases with values.
    #[cycle(importing)]
    fn default_case(
        &mut self,
        cases: &[Statement],
        chain: &SwitchChain,
        outer: KnownCodes,
    ) -> Result<(), ImportFault> {
        for (at, case) in cases.iter().enumerate() {
            if chain.otherwise == Some(at) {
                if chain.branches.is_empty() {
                    self.begin(1);
                    self.block(case.block.as_slice())?;
                } else {
                    self.case_block(case, b"else", b"", outer)?;
                }
            }
        }
        Ok(())
    }

    #[cycle(importing)]
    fn switch(&mut self, place: usize, cases: &[Statement]) -> Result<(), ImportFault> {
        match self.reader.switch_chain(place, cases) {
            Ok((chain, conditions)) => {
                let outer = self.codes;
                self.count_given(place)?;
                self.begin(1);
                self.valued_cases(cases, &chain, &conditions)?;
                self.default_case(cases, &chain, outer)?;
                self.end_begun(place)
            }
            Err(refusal) => self.leave_all(place, cases, 1, reason_of(refusal)?),
        }
    }

    // ---- statements

    #[cycle(importing)]
    fn group(&mut self, place: usize, statements: &[Statement]) -> Result<(), ImportFault> {
        self.begin(1);
        self.block(statements)?;
        self.end_begun(place)
    }

    // The first member, for all.
    #[cycle(importing)]
    fn first_of(&mut self, place: usize, members: &[Statement]) -> Result<(), ImportFault> {
        self.begin(1);
        let [first, others @ ..] = members else {
            return self.end_begun(place);
        };
        self.codes = self.inner_codes();
        self.statement(first)?;
        self.codes = KnownCodes::unknown();
        self.end_begun(place)?;
        match others {
            [] => Ok(()),
            others => self.leave_all(place, others, 0, Reason::OtherMember),
        }
    }

    // The statements of a policy, in its place.
    #[cycle(importing)]
    fn policy(
        &mut self,
        place: usize,
        policy: usize,
        statements: &[Statement],
    ) -> Result<(), ImportFault> {
        let name = section_name(self.reader.configuration, policy);
        self.begin(1);
        self.comment(place, b"policy", name)?;
        self.open.push(policy)?;
        self.block(statements)?;
        let _ = self.open.pop();
        Ok(())
    }

    #[cycle(importing)]
    pub(crate) fn statement(&mut self, statement: &Statement) -> Result<(), ImportFault> {
        let place = statement.place;
        let block = statement.block.as_slice();
        match statement.kind {
            StatementKind::Update => self.update(place, block),
            StatementKind::Chain => self.chain(place, block),
            StatementKind::Switch => self.switch(place, block),
            StatementKind::Group => self.group(place, block),
            StatementKind::FirstOf => self.first_of(place, block),
            StatementKind::Policy(policy) => self.policy(place, policy, block),
            StatementKind::Module => self.module(place),
            StatementKind::Code(code) => self.push_answer(place, 1, code),
            StatementKind::Return => self.end(place, 1, b"return,"),
            StatementKind::Expansion => {
                self.begin(1);
                self.comment_item(place, b"an expansion by itself,")
            }
            StatementKind::OwnSection => self.comment_item(place, b"a section of its own,"),
            StatementKind::LeftOut(reason) => self.leave_all(place, block, 1, reason),
            StatementKind::Line
            | StatementKind::If
            | StatementKind::Elsif
            | StatementKind::Else
            | StatementKind::Case => self.leave_all(place, block, 1, Reason::OtherSection),
        }
    }

    #[cycle(importing)]
    fn block(&mut self, statements: &[Statement]) -> Result<(), ImportFault> {
        let (follows, last) = (self.follows, self.reader.last_acting(statements));
        let outer = self.codes;
        self.codes = self.inner_codes();
        let mut rest = None;
        for (at, statement) in statements.iter().enumerate() {
            let is_followed = is_before(at, last);
            let returns = self.returns;
            self.follows = follows || is_followed;
            self.statement(statement)?;
            if is_followed && self.returns != returns {
                rest = self.begin_rest(rest, statement.place)?;
            }
        }
        self.follows = follows;
        self.codes = match self.reader.settings.meaning {
            Meaning::Server if statements.is_empty() => outer,
            Meaning::Server => outer.after_block(self.codes),
            Meaning::Plain => self.codes,
        };
        self.end_rest(rest)
    }

    // What is known of the codes where a block begins.
    fn inner_codes(&self) -> KnownCodes {
        match self.reader.settings.meaning {
            Meaning::Server => self.codes.inside(),
            Meaning::Plain => self.codes,
        }
    }
}
