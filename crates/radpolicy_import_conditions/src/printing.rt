//! Our conditions, as texts.

use crate::patterns::push_pattern;
use crate::reasons::{Reason, Refusal};
use crate::references::list_name;
use crate::texts::{push_capture, push_captured, push_quoted};
use avp_dict::Dictionary;
use avp_lists::{AttrId, List, Pair, Selection, Value};
use avp_unlang::{
    Code, Comparand, Comparison, Cond, GroupMatching, Matching, Part, Relation, TextComparison,
    TextSide,
};
use std::alloc::Global;

/// Prints conditions by a dictionary.
#[derive(Clone, Copy)]
pub struct ConditionPrinter<'a> {
    pub alloc: Global,
    pub dictionary: &'a Dictionary,
}

#[derive(Clone, Copy)]
pub(crate) enum Join {
    And,
    Or,
}

impl Join {
    fn sign(self) -> &'static [u8] {
        match self {
            Join::And => b" && ",
            Join::Or => b" || ",
        }
    }
}

fn code_name(code: Code) -> &'static [u8] {
    match code {
        Code::Ok => b"ok",
        Code::Noop => b"noop",
        Code::Updated => b"updated",
        Code::Fail => b"fail",
        Code::Reject => b"reject",
    }
}

fn sign(relation: Relation) -> &'static [u8] {
    match relation {
        Relation::Equal => b" == ",
        Relation::Differs => b" != ",
        Relation::Less => b" < ",
        Relation::AtMost => b" <= ",
        Relation::Greater => b" > ",
        Relation::AtLeast => b" >= ",
    }
}

fn match_sign(negated: bool) -> &'static [u8] {
    if negated { b" !~ " } else { b" =~ " }
}

impl<'a> ConditionPrinter<'a> {
    // An attribute's name, by number where the value is raw.
    fn push_name(
        &self,
        out: &mut Vec<u8>,
        list: List,
        id: AttrId,
        value: &Value,
    ) -> Result<(), Refusal> {
        if list != List::Request {
            out.extend_from_slice(list_name(list))?;
            out.push(b':')?;
        }
        let name = self.dictionary.printed_name(self.alloc, id, value)?;
        out.extend_from_slice(&name)?;
        Ok(())
    }

    fn push_attribute(&self, out: &mut Vec<u8>, list: List, id: AttrId) -> Result<(), Refusal> {
        out.push(b'&')?;
        self.push_name(out, list, id, &Value::Int(0))
    }

    fn push_expansion(&self, out: &mut Vec<u8>, list: List, id: AttrId) -> Result<(), Refusal> {
        out.extend_from_slice(b"%{")?;
        self.push_name(out, list, id, &Value::Int(0))?;
        out.push(b'}')?;
        Ok(())
    }

    fn push_literal(
        &self,
        out: &mut Vec<u8>,
        comparison: &Comparison,
        value: &Value,
    ) -> Result<(), Refusal> {
        let pair = Pair {
            id: comparison.id,
            value: value.copy(self.alloc)?,
        };
        if !self.dictionary.fits(&pair) {
            return Err(Refusal::LeftOut(Reason::NotValue));
        }
        out.push(b'&')?;
        self.push_name(out, comparison.list, pair.id, &pair.value)?;
        out.extend_from_slice(sign(comparison.relation))?;
        let text = self
            .dictionary
            .text_of_value(self.alloc, pair.id, &pair.value)?;
        out.extend_from_slice(&text)?;
        Ok(())
    }

    fn push_comparison(&self, out: &mut Vec<u8>, comparison: &Comparison) -> Result<(), Refusal> {
        match &comparison.comparand {
            Comparand::Literal(value) => self.push_literal(out, comparison, value),
            Comparand::Instance(list, id) => {
                self.push_attribute(out, comparison.list, comparison.id)?;
                out.extend_from_slice(sign(comparison.relation))?;
                self.push_attribute(out, *list, *id)
            }
        }
    }

    fn push_matching(&self, out: &mut Vec<u8>, matching: &Matching) -> Result<(), Refusal> {
        if matching.selection != Selection::All {
            return Err(Refusal::LeftOut(Reason::Tag));
        }
        self.push_attribute(out, matching.list, matching.id)?;
        out.extend_from_slice(match_sign(matching.negated))?;
        Ok(push_pattern(out, &matching.pattern, matching.flags)?)
    }

    fn push_text_matching(&self, out: &mut Vec<u8>, matching: &Matching) -> Result<(), Refusal> {
        if matching.selection != Selection::All {
            return Err(Refusal::LeftOut(Reason::Tag));
        }
        out.push(b'"')?;
        self.push_expansion(out, matching.list, matching.id)?;
        out.push(b'"')?;
        out.extend_from_slice(match_sign(matching.negated))?;
        Ok(push_pattern(out, &matching.pattern, matching.flags)?)
    }

    fn push_group_matching(
        &self,
        out: &mut Vec<u8>,
        matching: &GroupMatching,
    ) -> Result<(), Refusal> {
        push_captured(out, matching.group)?;
        out.extend_from_slice(match_sign(matching.negated))?;
        Ok(push_pattern(out, &matching.pattern, matching.flags)?)
    }

    fn push_part(&self, out: &mut Vec<u8>, part: &Part) -> Result<(), Refusal> {
        match part {
            Part::Text(octets) => Ok(push_quoted(out, octets.as_slice())?),
            Part::Instance(list, id) | Part::Meant(list, id, Selection::All) => {
                self.push_expansion(out, *list, *id)
            }
            Part::Meant(..) => Err(Refusal::LeftOut(Reason::Tag)),
            Part::Capture(group) => Ok(push_capture(out, *group)?),
        }
    }

    // A text between double quotes.
    fn push_text(&self, out: &mut Vec<u8>, parts: &[Part]) -> Result<(), Refusal> {
        out.push(b'"')?;
        for part in parts {
            self.push_part(out, part)?;
        }
        out.push(b'"')?;
        Ok(())
    }

    fn push_side(&self, out: &mut Vec<u8>, side: &TextSide) -> Result<(), Refusal> {
        match side {
            TextSide::Text(parts) => self.push_text(out, parts.as_slice()),
            TextSide::Instance(list, id, Selection::All) => self.push_attribute(out, *list, *id),
            TextSide::Instance(..) => Err(Refusal::LeftOut(Reason::Tag)),
        }
    }

    fn push_texts(&self, out: &mut Vec<u8>, comparison: &TextComparison) -> Result<(), Refusal> {
        self.push_side(out, &comparison.left)?;
        out.extend_from_slice(sign(comparison.relation))?;
        self.push_text(out, comparison.right.as_slice())
    }

    // Conditions with a sign between them. What is joined by the same sign in one of them needs no brackets.
    #[cycle(printing)]
    fn push_list(&self, out: &mut Vec<u8>, conds: &[Cond], join: Join) -> Result<(), Refusal> {
        let mut between: &[u8] = b"";
        for cond in conds {
            out.extend_from_slice(between)?;
            match (cond, join) {
                (Cond::Any(inner), Join::Or) | (Cond::All(inner), Join::And) => {
                    self.push_list(out, inner.as_slice(), join)?;
                }
                _ => self.push_operand(out, cond)?,
            }
            between = join.sign();
        }
        Ok(())
    }

    #[cycle(printing)]
    fn push_joined(&self, out: &mut Vec<u8>, conds: &[Cond], join: Join) -> Result<(), Refusal> {
        out.push(b'(')?;
        self.push_list(out, conds, join)?;
        out.push(b')')?;
        Ok(())
    }

    // A comparison after a `!` is between brackets.
    #[cycle(printing)]
    fn push_negated(&self, out: &mut Vec<u8>, cond: &Cond) -> Result<(), Refusal> {
        out.push(b'!')?;
        match cond {
            Cond::Compare(_)
            | Cond::CompareTexts(_)
            | Cond::Match(_)
            | Cond::MatchText(_)
            | Cond::MatchGroup(_) => {
                out.push(b'(')?;
                self.push_operand(out, cond)?;
                out.push(b')')?;
                Ok(())
            }
            _ => self.push_operand(out, cond),
        }
    }

    #[cycle(printing)]
    fn push_operand(&self, out: &mut Vec<u8>, cond: &Cond) -> Result<(), Refusal> {
        match cond {
            Cond::Any(conds) => self.push_joined(out, conds.as_slice(), Join::Or),
            Cond::All(conds) => self.push_joined(out, conds.as_slice(), Join::And),
            Cond::Not(inner) => self.push_negated(out, inner.get()),
            Cond::Last(code) => Ok(out.extend_from_slice(code_name(*code))?),
            Cond::Present(list, id) => self.push_attribute(out, *list, *id),
            Cond::Compare(comparison) => self.push_comparison(out, comparison),
            Cond::Match(matching) => self.push_matching(out, matching),
            Cond::CompareTexts(comparison) => self.push_texts(out, comparison),
            Cond::MatchText(matching) => self.push_text_matching(out, matching),
            Cond::MatchGroup(matching) => self.push_group_matching(out, matching),
            Cond::Captured(group) => Ok(push_captured(out, *group)?),
            // Conditions of wider policies, which an import does not write.
            Cond::PresentSelected(..) => Err(Refusal::LeftOut(Reason::Tag)),
            Cond::CompareMeant(_) => Err(Refusal::LeftOut(Reason::OctetsHere)),
        }
    }

    /// A condition, between brackets.
    pub fn push_condition(&self, out: &mut Vec<u8>, cond: &Cond) -> Result<(), Refusal> {
        match cond {
            Cond::Any(_) | Cond::All(_) => self.push_operand(out, cond),
            _ => {
                out.push(b'(')?;
                self.push_operand(out, cond)?;
                out.push(b')')?;
                Ok(())
            }
        }
    }
}
