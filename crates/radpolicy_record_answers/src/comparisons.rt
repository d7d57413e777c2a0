//! How two lists of pairs are compared, and two outcomes.

ghost use Rattle.std.specs.Prelude.{◌≡◌, ◌↔◌, ◌&&◌, IfOk, IsTrue, OnOk};
ghost use Rattle.std.specs.List.{fold, list_all, list_any};
ghost use Rattle.avp_lists.specs.Instances.{instances};
ghost use Rattle.avp_lists.specs.Pairs.{id_eq};
ghost use Rattle.radpolicy_record_answers.specs.Comparisons.{AreSame, AreSameEnds, code_number, compared, compared_list, ids_of, pairs_eq, pairs_of, same_code, same_ends, same_instances, same_list, same_lists, same_stop, with_id};
ghost use Rattle.avp_lists.specs.declared.lists.List.TheVariants.{Control, Reply};
ghost use Rattle.radpolicy_record_answers.specs.declared.comparisons.Order.TheVariants.{ByName};

use avp_lists::{AttrId, List, Pair, Store};
use avp_unlang::Code;
use radpolicy::{PreparedPolicy, RunOutcome};
use std::alloc::{AllocError, Global};

/// Whether the order of attributes of different names counts where lists are compared. That of the instances of one
/// name always does.
#[derive(Clone, Copy, Debug, PartialEq, Eq)]
pub enum Order {
    /// It does not.
    ByName,
    /// It does.
    Ordered,
}

/// Which records are told where answers are compared.
#[derive(Clone, Copy, Debug, PartialEq, Eq)]
pub enum Told {
    /// Those that are answered otherwise.
    Different,
    All,
}

/// With what the answers of a policy are compared.
#[derive(Drop)]
pub enum Against<'a> {
    /// The answers of this policy, which count as the old ones.
    Policy(&'a PreparedPolicy<'a>),
    /// The replies that were really sent: the second packets of lines, and what the lines of a text have as replies.
    Captured,
}

/// With what the answers of a policy are compared, and how.
#[derive(Drop)]
pub struct Comparison<'a> {
    pub against: Against<'a>,
    pub order: Order,
    /// The attributes that are left out of the lists.
    pub ignored: &'a [AttrId],
    pub told: Told,
    /// Whether the lists of the replies that were captured are told, too.
    pub shows_replies: bool,
}

pub(crate) fn has_id(ids: &[AttrId], id: AttrId) -> bool
    ensures { result ≡ list_any (id_eq id) ids.now }
{
    ids.iter().any(|other| id.equals(*other))
}

/// The pairs of a list that are compared, those of ignored attributes left out.
pub fn compared<'a>(
    alloc: Global,
    ignored: &[AttrId],
    pairs: &'a [Pair],
) -> Result<Vec<&'a Pair>, AllocError>
    ensures { IfOk result (λ kept. pairs_of kept.items ≡ compared ignored.now pairs.now) }
{
    let mut kept = Vec::new(alloc);
    for pair in pairs {
        if !has_id(ignored, pair.id) {
            kept.push(pair)?;
        }
    }
    Ok(kept)
}

pub(crate) fn same_pairs(a: &[&Pair], b: &[&Pair]) -> bool
    ensures { result ≡ pairs_eq (pairs_of a.now) (pairs_of b.now) }
{
    let mut a = a;
    let mut b = b;
    while let [x, xs @ ..] = a {
        let [y, ys @ ..] = b else {
            return false;
        };
        if !x.equals(y) {
            return false;
        }
        a = xs;
        b = ys;
    }
    b.is_empty()
}

// The instances of an attribute, in order.
pub(crate) fn instances<'a>(
    alloc: Global,
    id: AttrId,
    pairs: &[&'a Pair],
) -> Result<Vec<&'a Pair>, AllocError>
    ensures { IfOk result (λ found. pairs_of found.items ≡ instances id (pairs_of pairs.now)) }
{
    let mut found = Vec::new(alloc);
    let mut rest = pairs;
    while let [pair, later @ ..] = rest {
        if pair.id.equals(id) {
            found.push(*pair)?;
        }
        rest = later;
    }
    Ok(found)
}

// Adds the id of a pair at the end, where it is not among them.
fn add_id(ids: &mut Vec<AttrId>, pair: &Pair) -> Result<(), AllocError>
    ensures { OnOk result (ids.new.items ≡ with_id ids.old.items pair.now) }
{
    if !has_id(ids, pair.id) {
        ids.push(pair.id)?;
    }
    Ok(())
}

fn add_ids(ids: &mut Vec<AttrId>, pairs: &[&Pair]) -> Result<(), AllocError>
    ensures { OnOk result (ids.new.items ≡ fold with_id ids.old.items (pairs_of pairs.now)) }
{
    let mut rest = pairs;
    while let [pair, later @ ..] = rest {
        add_id(ids, pair)?;
        rest = later;
    }
    Ok(())
}

/// The attributes of the pairs of two lists, each once, in the order of their first instances.
pub(crate) fn ids_of(alloc: Global, a: &[&Pair], b: &[&Pair]) -> Result<Vec<AttrId>, AllocError>
    ensures { IfOk result (λ ids. ids.items ≡ ids_of (pairs_of a.now) (pairs_of b.now)) }
{
    let mut ids = Vec::new(alloc);
    add_ids(&mut ids, a)?;
    add_ids(&mut ids, b)?;
    Ok(ids)
}

pub(crate) fn same_instances(
    alloc: Global,
    id: AttrId,
    a: &[&Pair],
    b: &[&Pair],
) -> Result<bool, AllocError>
    ensures { IfOk result (λ same. same ≡ same_instances (pairs_of a.now) (pairs_of b.now) id) }
{
    let a = instances(alloc, id, a)?;
    let b = instances(alloc, id, b)?;
    Ok(same_pairs(&a, &b))
}

fn same_at_ids(alloc: Global, ids: &[AttrId], a: &[&Pair], b: &[&Pair]) -> Result<bool, AllocError>
    ensures { IfOk result (λ same.
        same ≡ list_all (same_instances (pairs_of a.now) (pairs_of b.now)) ids.now) }
{
    let mut rest = ids;
    while let [id, later @ ..] = rest {
        if !same_instances(alloc, *id, a, b)? {
            return Ok(false);
        }
        rest = later;
    }
    Ok(true)
}

// Lists are equal most often, and that is seen at once.
#[tactic(auto, using(crate::proofs::SameLists::equal_at_ids), unfolding(crate::specs::Comparisons::same_lists))]
fn same_by_name(alloc: Global, a: &[&Pair], b: &[&Pair]) -> Result<bool, AllocError>
    ensures { IfOk result (λ same.
        same ≡ same_lists ByName (pairs_of a.now) (pairs_of b.now)) }
{
    if same_pairs(a, b) {
        return Ok(true);
    }
    let ids = ids_of(alloc, a, b)?;
    same_at_ids(alloc, &ids, a, b)
}

#[tactic(auto, unfolding(crate::specs::Comparisons::same_lists))]
fn same_in_order(alloc: Global, order: Order, a: &[&Pair], b: &[&Pair]) -> Result<bool, AllocError>
    ensures { IfOk result (λ same. same ≡ same_lists order (pairs_of a.now) (pairs_of b.now)) }
{
    match order {
        Order::Ordered => Ok(same_pairs(a, b)),
        Order::ByName => same_by_name(alloc, a, b),
    }
}

/// Whether two lists are the same.
pub fn same_lists(alloc: Global, order: Order, a: &[&Pair], b: &[&Pair]) -> Result<bool, AllocError>
    ensures test { IfOk result (λ same.
        same ≡ same_lists order (pairs_of a.now) (pairs_of b.now)) }
    ensures same { IfOk result (λ same.
        IsTrue same ↔ AreSame order (pairs_of a.now) (pairs_of b.now)) }
{
    let same = same_in_order(alloc, order, a, b)?;
    Ok(same)
}

fn code_number(code: Code) -> u8
    ensures { result ≡ code_number code }
{
    match code {
        Code::Ok => 0,
        Code::Noop => 1,
        Code::Updated => 2,
        Code::Fail => 3,
        Code::Reject => 4,
    }
}

pub(crate) fn same_code(a: Code, b: Code) -> bool
    ensures { result ≡ same_code a b }
{
    code_number(a) == code_number(b)
}

pub(crate) fn same_stop(a: bool, b: bool) -> bool
    ensures { result ≡ same_stop a b }
{
    if a { b } else { !b }
}

impl Comparison<'_> {
    // Whether a list is the same at the end of two runs.
    fn same_list(
        &self,
        alloc: Global,
        list: List,
        old: &RunOutcome<'_>,
        new: &RunOutcome<'_>,
    ) -> Result<bool, AllocError>
        ensures { IfOk result (λ same. same ≡ same_list self.now list old.now.end new.now.end) }
    {
        let old_list = old.store().list(list)?;
        let new_list = new.store().list(list)?;
        let old_pairs = compared(alloc, self.ignored, &old_list)?;
        let new_pairs = compared(alloc, self.ignored, &new_list)?;
        same_lists(alloc, self.order, &old_pairs, &new_pairs)
    }

    // Whether both lists are the same that are compared.
    fn same_lists(
        &self,
        alloc: Global,
        old: &RunOutcome<'_>,
        new: &RunOutcome<'_>,
    ) -> Result<bool, AllocError>
        ensures { IfOk result (λ same. same
            ≡ (same_list self.now Reply old.now.end new.now.end
            && same_list self.now Control old.now.end new.now.end)) }
    {
        let same = self.same_list(alloc, List::Reply, old, new)?;
        if !same {
            return Ok(false);
        }
        self.same_list(alloc, List::Control, old, new)
    }

    #[tactic(auto, unfolding(crate::specs::Comparisons::same_ends))]
    fn compare_ends(
        &self,
        alloc: Global,
        old: &RunOutcome<'_>,
        new: &RunOutcome<'_>,
    ) -> Result<bool, AllocError>
        ensures { IfOk result (λ same. same ≡ same_ends self.now old.now.end new.now.end) }
    {
        if !same_code(old.code(), new.code()) {
            return Ok(false);
        }
        if !same_stop(old.stopped(), new.stopped()) {
            return Ok(false);
        }
        self.same_lists(alloc, old, new)
    }

    /// Whether two runs came to the same: the same result, both stopped or neither, and the same reply and control
    /// lists.
    pub fn same_ends(
        &self,
        alloc: Global,
        old: &RunOutcome<'_>,
        new: &RunOutcome<'_>,
    ) -> Result<bool, AllocError>
        ensures test { IfOk result (λ same. same ≡ same_ends self.now old.now.end new.now.end) }
        ensures same { IfOk result (λ same.
            IsTrue same ↔ AreSameEnds self.now old.now.end new.now.end) }
    {
        let same = self.compare_ends(alloc, old, new)?;
        Ok(same)
    }
}
