//! The lines of two policies that made a difference. Those of each kind are in the cases of tests/replays.

use crate::shared::{CLASS, HEAD};
use attribute_tests::samples::test_dictionary;
use avp_dict::Dictionary;
use avp_forms::Profile;
use avp_lists::SlotStore;
use avp_step::Stepper;
use radpolicy::{PreparedPolicy, Start};
use radpolicy_changing_lines::{Difference, PolicyLine, Runs};
use std::alloc::Global;
use std::test::Fail;

fn run_of<'a>(
    alloc: Global,
    policy: &'a PreparedPolicy<'a>,
) -> Result<Stepper<'a, SlotStore>, Fail> {
    let request = b"User-Name = \"bob\"";
    let start = Start::of_lines(alloc, policy, None, HEAD, Profile::Plain, None, request)?;
    Ok(start.stepper(alloc)?)
}

// The result and Class in the reply.
const DIFFERENCE: Difference<'static> = Difference {
    result: true,
    reply: &[CLASS],
    control: &[],
};

// The lines of that difference, between two runs or of one alone.
fn lines_between<'a>(
    alloc: Global,
    new: &'a PreparedPolicy<'a>,
    old: Option<&'a PreparedPolicy<'a>>,
) -> Result<Vec<PolicyLine>, Fail> {
    let new_run = run_of(alloc, new)?;
    let old_run = match old {
        Some(old) => Some(run_of(alloc, old)?),
        None => None,
    };
    let runs = Runs { new_run, old_run };
    Ok(runs.lines_of(alloc, &DIFFERENCE)?)
}

#[test]
fn lines_make_a_difference(rt: HostRuntime) -> Result<(), Fail> {
    let alloc = rt.alloc();
    let dictionary: Dictionary = test_dictionary(alloc)?;
    let new = PreparedPolicy::read(alloc, &dictionary, b"noop\nreject\n")?;
    let old = PreparedPolicy::read(alloc, &dictionary, b"update reply { Class := 0x01 }")?;
    let lines = lines_between(alloc, &new, Some(&old))?;
    let wanted = [PolicyLine::Old(1), PolicyLine::New(2)];
    assert_eq!(&rt; lines.as_slice(), wanted.as_slice());
    let lines = lines_between(alloc, &new, None)?;
    assert_eq!(&rt; lines.as_slice(), [PolicyLine::New(2)].as_slice());
    Ok(())
}
