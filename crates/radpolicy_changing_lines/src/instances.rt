//! The instances of an attribute in a list.

ghost use Rattle.std.specs.Prelude.{◌≡◌, ◌++◌, ◌∷◌, [], IfOk, OnOk};
ghost use Rattle.avp_lists.specs.History.{present};
ghost use Rattle.avp_lists.specs.Instances.{instances};
ghost use Rattle.avp_lists.specs.States.{list_of};
ghost use Rattle.radpolicy_changing_lines.specs.ChangingLines.{are_same};

use avp_lists::{AttrId, List, Pair, Pairs, Store, copy_pair};
use std::alloc::{AllocError, Global};

// Adds a copy of a pair, if it is an instance.
fn push_instance(found: &mut Vec<Pair>, id: AttrId, pair: &Pair) -> Result<(), AllocError>
    ensures { OnOk result (found.new.items ≡ found.old.items ++ instances id (pair.now ∷ [])) }
{
    if pair.id.equals(id) {
        let alloc = *found.allocator();
        found.push(copy_pair(alloc, pair)?)?;
    }
    Ok(())
}

/// Copies of the instances in a present list of a store. The other pairs are passed over where they are.
pub(crate) fn instances<S: Store>(
    alloc: Global,
    id: AttrId,
    store: &S,
    list: List,
) -> Result<Pairs, AllocError>
    ensures { IfOk result (λ found. found
        ≡ instances id (list_of list (present (S.history store.now)))) }
{
    let mut found = Vec::new(alloc);
    for at in 0..store.count(list) {
        if let Some(pair) = store.pair(list, at) {
            push_instance(&mut found, id, pair)?;
        }
    }
    Ok(Pairs::from_vec(found))
}

/// Whether these are the same pairs in the same order.
#[tactic(auto, using(crate::proofs::Sameness::longer_before, crate::proofs::Sameness::longer_after))]
pub(crate) fn are_same(before: &[Pair], after: &[Pair]) -> bool
    ensures { result ≡ are_same before.now after.now }
{
    match (before, after) {
        ([], []) => true,
        ([old, olds @ ..], [new, news @ ..]) => old.equals(new) && are_same(olds, news),
        ([], [_, ..]) | ([_, ..], []) => false,
    }
}
