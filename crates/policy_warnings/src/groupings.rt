//! How conditions group that have `&&` and `||` between them.

ghost use Rattle.std.specs.Prelude.{◌≡◌, true, false};
ghost use Rattle.std.specs.List.{list_any};
ghost use Rattle.policy_warnings.specs.Groupings.{GroupsAlike, GroupsOtherwise, TreesGroupAlike, TreesGroupOtherwise, is_or, regroups};

/// A sign between two conditions.
#[derive(Clone, Copy, Debug, PartialEq, Eq)]
pub enum Joint {
    /// `&&`
    And,
    /// `||`
    Or,
}

fn is_or(joint: Joint) -> bool
    ensures { result ≡ is_or joint }
{
    joint == Joint::Or
}

fn has_or(joints: &[Joint]) -> bool
    ensures { result ≡ list_any is_or joints.now }
{
    joints.iter().any(|joint| is_or(*joint))
}

fn has_or_after_and(joints: &[Joint]) -> bool
    ensures { result ≡ regroups joints.now }
{
    let mut rest = joints;
    while let [joint, others @ ..] = rest {
        match *joint {
            Joint::And => return has_or(others),
            Joint::Or => rest = others,
        }
    }
    false
}

/// Whether a server groups conditions otherwise that have these signs between them, because a `||` comes after an `&&`.
#[tactic(auto, using(crate::proofs::Grouping::alike, crate::proofs::Grouping::otherwise, crate::proofs::GroupedTrees::trees_alike, crate::proofs::GroupedTrees::trees_otherwise))]
pub fn regroups(joints: &[Joint]) -> bool
    ensures definition { result ≡ regroups joints.now }
    ensures alike { result ≡ false → GroupsAlike joints.now }
    ensures otherwise { result ≡ true → GroupsOtherwise joints.now }
    ensures trees_alike { result ≡ false → TreesGroupAlike joints.now }
    ensures trees_otherwise { result ≡ true → TreesGroupOtherwise joints.now }
{
    has_or_after_and(joints)
}
