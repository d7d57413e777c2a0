//! What items of a configuration say, as policies have it.

ghost use Rattle.std.specs.Prelude.{◌++◌, IfOk};
ghost use Rattle.avp_unlang.specs.Policies.{SpellsPolicy};
ghost use Rattle.radpolicy_import_policies.specs.PrintedConditions.{SpellsCondition, policy_text};

use crate::drafts::DraftCondition;
use crate::faults::ImportFault;
use crate::settings::{Meaning, ModuleAnswer, PROFILE_LINE, Settings, answer_of};
use crate::statements::{Statement, StatementKind, changes_attributes};
use avp_dict::Dictionary;
use avp_forms::Profile;
use avp_lists::List;
use avp_unlang::{Comparison, Cond, Policy, PolicyKind, Relation, read_policy};
use radpolicy_import_conditions::{
    Alternative, ChosenLine, ConditionPrinter, ConditionReader, Difference, KnownCodes, LineReader,
    Names, Operand, Reason, Refusal, ServerCode, ServerCondition, ServerList, SwitchChain,
    UpdateLine, add_differences, alternatives, between, captures_anew, chain_of, compares_numbers,
    expansions_in, has_choices, has_expansion, has_pattern, keeps_captures, list_name, meant_word,
    parts_of, prints_address, prints_date, rewritten, says, uses_captures,
};
use radpolicy_import_texts::shown_item;
use server_configuration::{Configuration, Content, Operator, Quote, Text, has_reference};
use std::alloc::{AllocError, Global};

/// What becomes of a line of an update.
#[derive(Drop)]
pub(crate) enum PairLines {
    One(UpdateLine),
    /// A chain of branches with a line each.
    Chosen(Vec<ChosenLine>),
}

/// The condition of the case at a place, if the chain has a branch for it.
pub(crate) fn condition_of<'b>(
    chain: &SwitchChain,
    conditions: &'b [Vec<u8>],
    at: usize,
) -> Option<&'b [u8]> {
    for (branch, condition) in chain.branches.iter().zip(conditions) {
        if branch.place == at {
            return Some(condition.as_slice());
        }
    }
    None
}

/// Reads items of a configuration.
#[derive(Clone, Copy)]
pub(crate) struct ItemReader<'a> {
    pub(crate) alloc: Global,
    pub(crate) configuration: &'a Configuration,
    pub(crate) dictionary: &'a Dictionary,
    pub(crate) settings: Settings<'a>,
}

impl<'a> ItemReader<'a> {
    /// What is shown of the item at a place.
    pub(crate) fn shown(&self, place: usize) -> Result<Vec<u8>, AllocError> {
        shown_item(self.alloc, self.settings.hidden, self.configuration, place)
    }

    // A text of the item at a place, with its references filled in.
    fn filled(&self, place: usize, text: &[u8]) -> Result<Vec<u8>, Refusal> {
        if !has_reference(text) {
            return Ok(Vec::from_slice(self.alloc, text)?);
        }
        let section = match self.configuration.items.get(place) {
            Some(item) => item.section,
            None => None,
        };
        let filled = self.configuration.resolved(self.alloc, section, text, &[])?;
        if has_reference(&filled) {
            // What is left is `$ENV{NAME}`.
            return Err(Refusal::LeftOut(Reason::Environment));
        }
        Ok(filled)
    }

    // The value of the pair at a place. A server fills in no references between single quotes, and expands nothing
    // without quotes.
    fn value_of(&self, place: usize, value: &Text) -> Result<Vec<u8>, Refusal> {
        if value.quote == Quote::Single {
            return Ok(Vec::from_slice(self.alloc, &value.octets)?);
        }
        let filled = self.filled(place, &value.octets)?;
        if value.quote == Quote::Bare && has_expansion(&filled) {
            return Err(Refusal::LeftOut(Reason::BareExpansion));
        }
        Ok(filled)
    }

    // The policy that a text is between others.
    fn policy_between(&self, before: &[u8], text: &[u8], after: &[u8]) -> Result<Policy, Refusal>
        ensures { IfOk result (SpellsPolicy self.now.dictionary.now
            (before.now ++ text.now ++ after.now)) }
    {
        let text = between(self.alloc, before, text, after)?;
        let policy = read_policy(self.alloc, self.dictionary, &text)?;
        Ok(policy)
    }

    pub(crate) fn check(&self, before: &[u8], text: &[u8], after: &[u8]) -> Result<(), Refusal> {
        let _policy = self.policy_between(before, text, after)?;
        Ok(())
    }

    pub(crate) fn names(&self) -> Names<'a> {
        Names {
            dictionary: self.dictionary,
            others: self.settings.others,
        }
    }

    fn reader(&self, codes: KnownCodes) -> ConditionReader<'a> {
        ConditionReader {
            alloc: self.alloc,
            names: self.names(),
            codes,
            takes_patterns: self.settings.profile == Profile::Wider,
            is_meant: self.settings.meaning == Meaning::Server,
        }
    }

    // The policy that is an `if` of a condition, where one of the profile can have it.
    fn policy_of_condition(&self, profile: Profile, condition: &[u8]) -> Result<Policy, Refusal>
        ensures { IfOk result (SpellsPolicy self.now.dictionary.now
            (policy_text profile condition.now)) }
    {
        match profile {
            Profile::Plain => self.policy_between(b"if ", condition, b" { }"),
            Profile::Wider => self.policy_between(b"# profile: wider\nif ", condition, b" { }"),
        }
    }

    fn check_condition(&self, profile: Profile, condition: &[u8]) -> Result<(), Refusal> {
        let _policy = self.policy_of_condition(profile, condition)?;
        Ok(())
    }

    // A condition's text, where it is read as this condition.
    fn printed(&self, profile: Profile, cond: &Cond) -> Result<Vec<u8>, Refusal>
        ensures { IfOk result (λ text.
            SpellsCondition self.now.dictionary.now profile text.items cond.now) }
    {
        let printer = ConditionPrinter {
            alloc: self.alloc,
            dictionary: self.dictionary,
        };
        let mut text = Vec::new(self.alloc);
        printer.push_condition(&mut text, cond)?;
        let policy = self.policy_of_condition(profile, &text)?;
        if says(&policy, cond) {
            Ok(text)
        } else {
            Err(Refusal::LeftOut(Reason::Condition))
        }
    }

    // The text of a condition in a policy of the profile.
    fn condition_in(
        &self,
        profile: Profile,
        text: Vec<u8>,
        condition: &ServerCondition,
    ) -> Result<Vec<u8>, Refusal> {
        if self.settings.meaning == Meaning::Plain && self.check_condition(profile, &text).is_ok() {
            return Ok(text);
        }
        if !keeps_captures(condition) {
            return Err(Refusal::LeftOut(Reason::MixedCaptures));
        }
        let cond = rewritten(self.alloc, condition)?;
        self.printed(profile, &cond)
    }

    // What a server does otherwise with a condition, which this text is.
    fn differences(
        &self,
        text: &[u8],
        condition: &ServerCondition,
    ) -> Result<Vec<Difference>, Refusal> {
        let mut patterns = Vec::new(self.alloc);
        add_differences(&mut patterns, condition)?;
        let mut found = Vec::new(self.alloc);
        for difference in &patterns {
            found.push(Difference::Pattern(*difference))?;
        }
        let is_zero_alone = self.reader(KnownCodes::unknown()).has_zero_alone(text)?;
        let others = [
            (compares_numbers(condition), Difference::TextNumbers),
            (
                prints_address(self.dictionary, condition),
                Difference::DottedAddress,
            ),
            (
                prints_date(self.dictionary, condition),
                Difference::PrintedDate,
            ),
            (is_zero_alone, Difference::HexadecimalNumber),
        ];
        for (is_found, difference) in others {
            if is_found {
                found.push(difference)?;
            }
        }
        Ok(found)
    }

    // The condition of the branch at a place.
    fn condition(&self, place: usize, codes: KnownCodes) -> Result<DraftCondition, Refusal> {
        let text = match self.arguments(place) {
            [text, ..] => self.filled(place, &text.octets)?,
            [] => return Err(Refusal::LeftOut(Reason::Condition)),
        };
        let condition = self.reader(codes).condition(&text)?;
        let differences = self.differences(&text, &condition)?;
        let uses_captures = uses_captures(&condition);
        let profile = if has_pattern(&condition) || uses_captures || condition.compares_texts() {
            Profile::Wider
        } else {
            Profile::Plain
        };
        Ok(DraftCondition {
            text: self.condition_in(profile, text, &condition)?,
            profile,
            differences,
            uses_captures,
            captures_anew: captures_anew(&condition),
        })
    }

    pub(crate) fn arguments(&self, place: usize) -> &'a [Text] {
        match self.configuration.items.get(place) {
            Some(item) => match &item.content {
                Content::Section { arguments, .. } => arguments.as_slice(),
                _ => &[],
            },
            None => &[],
        }
    }

    // Whether the condition at a place may compare with a regular expression.
    fn has_pattern(&self, place: usize) -> bool {
        self.arguments(place)
            .iter()
            .any(|text| text.octets.as_slice().contains(&b'~'))
    }

    /// Whether a condition of statements may compare with a regular expression.
    #[cycle(patterns)]
    pub(crate) fn have_patterns(&self, statements: &[Statement]) -> bool {
        for statement in statements {
            if self.has_pattern(statement.place) || self.have_patterns(statement.block.as_slice()) {
                return true;
            }
        }
        false
    }

    // The line, where a policy of its profile can have it.
    fn checked(&self, own: List, line: UpdateLine) -> Result<UpdateLine, Refusal> {
        let mut head = Vec::new(self.alloc);
        if line.is_wider {
            head.extend_from_slice(PROFILE_LINE)?;
            head.push(b'\n')?;
        }
        head.extend_from_slice(b"update ")?;
        head.extend_from_slice(list_name(own))?;
        head.extend_from_slice(b" { ")?;
        self.check(&head, &line.text, b" }")?;
        Ok(line)
    }

    /// What is put in the place of the call of a module, if anything is.
    pub(crate) fn answer(&self, place: usize) -> Option<&'a ModuleAnswer> {
        answer_of(self.configuration, self.settings.modules, place)
    }

    /// What the call of a module at a place says is done after a code, if it does.
    pub(crate) fn action(&self, place: usize, code: ServerCode) -> Option<&'a [u8]> {
        let configuration = self.configuration;
        let items = configuration.items.as_slice();
        for item in items.get(place.saturating_add(1)..)? {
            if item.section != Some(place) {
                return None;
            }
            if let Content::Pair {
                name,
                value: Some(value),
                ..
            } = &item.content
                && ServerCode::named(&name.octets) == Some(code)
            {
                return Some(value.octets.as_slice());
            }
        }
        None
    }

    // Whether a statement becomes more than a comment.
    fn acts(&self, statement: &Statement) -> bool {
        match statement.kind {
            StatementKind::OwnSection | StatementKind::Expansion => false,
            StatementKind::Module => self.answer(statement.place).is_some(),
            _ => true,
        }
    }

    /// The place among statements of the last that becomes more than a comment.
    pub(crate) fn last_acting(&self, statements: &[Statement]) -> Option<usize> {
        statements
            .iter()
            .rposition(|statement| self.acts(statement))
    }

    fn line_reader(&self, own: ServerList) -> LineReader<'a> {
        LineReader {
            alloc: self.alloc,
            names: self.names(),
            own,
            skips: self.settings.meaning == Meaning::Server,
            takes_wider: self.settings.profile == Profile::Wider,
        }
    }

    // The line of a name, an operator and a value, in an update of a list.
    fn line_of(
        &self,
        own: ServerList,
        name: &[u8],
        operator: Operator,
        value: Option<&Text>,
    ) -> Result<UpdateLine, Refusal> {
        let reader = self.line_reader(own);
        let refusal = match reader.line(name, operator, value) {
            Ok(line) => match self.checked(own.list(), line) {
                Err(refusal) => refusal,
                checked => return checked,
            },
            Err(refusal) => refusal,
        };
        let Refusal::LeftOut(reason) = refusal else {
            return Err(refusal);
        };
        match self.other_line(&reader, name, operator, value, reason)? {
            Some(line) => self.checked(own.list(), line),
            None => Err(refusal),
        }
    }

    // The line in another form, where it is refused in its own for a reason.
    fn other_line(
        &self,
        reader: &LineReader<'_>,
        name: &[u8],
        operator: Operator,
        value: Option<&Text>,
        reason: Reason,
    ) -> Result<Option<UpdateLine>, Refusal> {
        match (reason, self.settings.profile) {
            (Reason::TooLong | Reason::Refused(PolicyKind::TooLong), _)
                if self.settings.meaning == Meaning::Server => {
                reader.cut_line(name, operator, value)
            }
            // Of a date the plain profile reads the number of seconds alone.
            (
                Reason::OctetsHere | Reason::Tag | Reason::Refused(PolicyKind::NotValue),
                Profile::Wider,
            ) => reader.wider_line(name, operator, value),
            (
                Reason::OctetsHere | Reason::Tag | Reason::Refused(PolicyKind::NotValue),
                Profile::Plain,
            ) => reader.octets_line(name, operator, value),
            _ => Ok(None),
        }
    }

    // The line of an alternative. That its attribute is there is its condition.
    fn chosen_line(
        &self,
        own: ServerList,
        name: &[u8],
        operator: Operator,
        alternative: Alternative,
    ) -> Result<ChosenLine, Refusal> {
        let Alternative {
            condition,
            is_wider,
            text,
            whole,
        } = alternative;
        let profile = if is_wider {
            Profile::Wider
        } else {
            Profile::Plain
        };
        if !condition.is_empty() {
            let condition = between(self.alloc, b"(", &condition, b")")?;
            self.check_condition(profile, &condition)?;
        }
        let value = match (whole, text.strip_prefix(b"%{")) {
            (Some(source), Some(word)) if self.line_reader(own).copies(name, source) => Text {
                quote: Quote::Bare,
                octets: between(
                    self.alloc,
                    b"&",
                    word.strip_suffix(b"}").unwrap_or(word),
                    b"",
                )?,
            },
            _ => Text {
                quote: Quote::Double,
                octets: text,
            },
        };
        let line = self.line_of(own, name, operator, Some(&value))?;
        Ok(ChosenLine {
            condition,
            line: UpdateLine {
                needs: None,
                ..line
            },
        })
    }

    // The lines of what a text with alternatives may be.
    fn chosen_lines(
        &self,
        own: ServerList,
        name: &[u8],
        operator: Operator,
        text: &[u8],
    ) -> Result<Vec<ChosenLine>, Refusal> {
        let mut lines = Vec::new(self.alloc);
        for alternative in alternatives(self.alloc, &self.names(), text)? {
            lines.push(self.chosen_line(own, name, operator, alternative)?)?;
        }
        Ok(lines)
    }

    // Whether a text has an expansion that an attribute is in place of.
    fn is_given_text(&self, place: usize, text: &[u8]) -> Result<bool, Refusal> {
        let text = self.filled(place, text)?;
        for expansion in &expansions_in(self.alloc, &text)? {
            if let Some(word) = expansion.word(&text)
                && self.names().asked(word).is_some()
            {
                return Ok(true);
            }
        }
        Ok(false)
    }

    fn has_given(&self, place: usize) -> Result<bool, Refusal> {
        let configuration = self.configuration;
        match configuration.items.get(place) {
            Some(item) => match &item.content {
                Content::Pair {
                    value: Some(value),
                    ..
                } => self.is_given_text(place, &value.octets),
                Content::Section { arguments, .. } => match arguments.first() {
                    Some(argument) => self.is_given_text(place, &argument.octets),
                    None => Ok(false),
                },
                _ => Ok(false),
            },
            None => Ok(false),
        }
    }

    /// Whether a text of the item at a place calls what changes attributes itself.
    pub(crate) fn changes_attributes(&self, place: usize) -> bool {
        let configuration = self.configuration;
        match configuration.items.get(place) {
            Some(item) => match &item.content {
                Content::Pair {
                    value: Some(value),
                    ..
                } => changes_attributes(&value.octets),
                Content::Section { arguments, .. } => arguments
                    .iter()
                    .any(|argument| changes_attributes(&argument.octets)),
                _ => false,
            },
            None => false,
        }
    }

    /// Whether the value or the condition of the item at a place has an expansion whose result is given.
    pub(crate) fn is_given(&self, place: usize) -> Result<bool, ImportFault> {
        match self.has_given(place) {
            Ok(is_given) => Ok(is_given),
            Err(Refusal::Memory) => Err(ImportFault::Memory),
            Err(Refusal::LeftOut(_)) => Ok(false),
        }
    }

    /// The list and the line of the pair of an initial list at a place.
    pub(crate) fn initial_line(&self, place: usize) -> Result<(List, UpdateLine), Refusal> {
        let configuration = self.configuration;
        let (name, value) = match configuration.items.get(place) {
            Some(item) => match &item.content {
                Content::Pair {
                    name,
                    operator: Operator::Equals,
                    value: Some(value),
                } => (name.octets.as_slice(), value),
                _ => return Err(Refusal::LeftOut(Reason::NoInitial)),
            },
            None => return Err(Refusal::LeftOut(Reason::NoInitial)),
        };
        let name = name.strip_prefix(b"&").unwrap_or(name);
        let list = match parts_of(ServerList::Own(List::Request), name) {
            (ServerList::Own(list), _, _) if list != List::Request => list,
            _ => return Err(Refusal::LeftOut(Reason::NoInitial)),
        };
        // Each pair is one more of its list.
        let line = self.line_of(ServerList::Own(list), name, Operator::Add, Some(value))?;
        Ok((list, line))
    }

    /// What becomes of the pair at a place, in an update of a list.
    pub(crate) fn lines(&self, place: usize, own: ServerList) -> Result<PairLines, Refusal> {
        let Some(item) = self.configuration.items.get(place) else {
            return Err(Refusal::LeftOut(Reason::NoLine));
        };
        let Content::Pair {
            name,
            operator,
            value,
        } = &item.content
        else {
            return Err(Refusal::LeftOut(Reason::NoLine));
        };
        let Some(text) = value else {
            let line = self.line_of(own, &name.octets, *operator, None)?;
            return Ok(PairLines::One(line));
        };
        let (quote, octets) = (text.quote, self.value_of(place, text)?);
        if quote == Quote::Double && has_choices(&octets) {
            let lines = self.chosen_lines(own, &name.octets, *operator, &octets)?;
            return Ok(PairLines::Chosen(lines));
        }
        let value = self.meant_value(*operator, Text { quote, octets })?;
        let line = self.line_of(own, &name.octets, *operator, Some(&value))?;
        Ok(PairLines::One(line))
    }

    // The value of a line as a server takes it: a word that is a reference there is one here by its `&`.
    fn meant_value(&self, operator: Operator, value: Text) -> Result<Text, AllocError> {
        if value.quote != Quote::Bare
            || operator == Operator::IsAbsent
            || self.settings.meaning == Meaning::Plain
        {
            return Ok(value);
        }
        Ok(Text {
            quote: Quote::Bare,
            octets: meant_word(self.alloc, self.dictionary, &value.octets)?,
        })
    }

    // The conditions of branches, up to the first that cannot be read.
    pub(crate) fn conditions(
        &self,
        branches: &[Statement],
        codes: KnownCodes,
    ) -> Result<Vec<DraftCondition>, Refusal> {
        let mut conditions = Vec::new(self.alloc);
        for branch in branches {
            let condition = match branch.kind {
                StatementKind::If | StatementKind::Elsif => self.condition(branch.place, codes)?,
                _ => DraftCondition::none(self.alloc),
            };
            conditions.push(condition)?;
        }
        Ok(conditions)
    }

    // What the case at a place compares; none for the default.
    fn case(&self, compared: Operand<'_>, case: &Statement) -> Result<Option<Comparison>, Refusal> {
        if case.kind != StatementKind::Case {
            return Err(Refusal::LeftOut(Reason::Switch));
        }
        let [text, ..] = self.arguments(case.place) else {
            return Ok(None);
        };
        let octets = self.filled(case.place, &text.octets)?;
        let value = Operand {
            quote: text.quote,
            octets: octets.as_slice(),
        };
        let comparison = self
            .reader(KnownCodes::unknown())
            .comparison(compared, Relation::Equal, value)?;
        Ok(Some(comparison))
    }

    // Whether the case at a place compares an attribute of 64 bits with a number in hexadecimal.
    fn has_zero_alone(&self, place: usize) -> Result<bool, Refusal> {
        let Some(item) = self.configuration.items.get(place) else {
            return Ok(false);
        };
        let (Some(switch), [case, ..]) = (item.section, self.arguments(place)) else {
            return Ok(false);
        };
        let [compared, ..] = self.arguments(switch) else {
            return Ok(false);
        };
        let (left, right) = (
            self.filled(switch, &compared.octets)?,
            self.filled(place, &case.octets)?,
        );
        let is_one = self.reader(KnownCodes::unknown()).is_zero_alone(
            Operand {
                quote: compared.quote,
                octets: left.as_slice(),
            },
            Operand {
                quote: case.quote,
                octets: right.as_slice(),
            },
        )?;
        Ok(is_one)
    }

    /// Whether a case that is kept does so.
    pub(crate) fn is_zero_alone(&self, place: usize) -> Result<bool, ImportFault> {
        match self.has_zero_alone(place) {
            Ok(is_one) => Ok(is_one),
            Err(Refusal::Memory) => Err(ImportFault::Memory),
            Err(Refusal::LeftOut(_)) => Ok(false),
        }
    }

    fn cases(&self, place: usize, cases: &[Statement]) -> Result<SwitchChain, Refusal> {
        let [text] = self.arguments(place) else {
            return Err(Refusal::LeftOut(Reason::Switch));
        };
        let octets = self.filled(place, &text.octets)?;
        let compared = Operand {
            quote: text.quote,
            octets: octets.as_slice(),
        };
        if self
            .reader(KnownCodes::unknown())
            .attribute(compared, true)?
            .is_none()
        {
            return Err(Refusal::LeftOut(Reason::Switch));
        }
        let mut comparisons = Vec::new(self.alloc);
        for case in cases {
            let comparison = self.case(compared, case)?;
            comparisons.push(comparison)?;
        }
        Ok(chain_of(self.alloc, &comparisons)?)
    }

    // The texts of a chain's conditions.
    fn chain_conditions(&self, chain: &SwitchChain) -> Result<Vec<Vec<u8>>, Refusal> {
        let mut texts = Vec::new(self.alloc);
        for branch in &chain.branches {
            let text = self.printed(Profile::Plain, &branch.cond)?;
            texts.push(text)?;
        }
        Ok(texts)
    }

    pub(crate) fn switch_chain(
        &self,
        place: usize,
        cases: &[Statement],
    ) -> Result<(SwitchChain, Vec<Vec<u8>>), Refusal> {
        let chain = self.cases(place, cases)?;
        let conditions = self.chain_conditions(&chain)?;
        Ok((chain, conditions))
    }
}
