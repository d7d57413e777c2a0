//! Policies and their runs: `policy TEXT`, `tree TEXT` and `run TEXT`. A run begins with the request of the last `over
//! LINES` and empty reply and control lists. The fault of a policy is written as its line, its offset and its kind.

ghost use Rattle.std.specs.Prelude.{IfOk};
ghost use Rattle.avp_lists.specs.History.{present};
ghost use Rattle.avp_unlang.specs.Suiting.{IsSpelled};
ghost use Rattle.avp_unlang.specs.Resolutions.{StateFits};

use super::setting::Setting;
use super::values::{write_pairs, write_quoted};
use avp_dict::Dictionary;
use avp_lists::{List, SnapshotStore, Store};
use avp_patterns::Pattern;
use avp_step::{Moved, Stepper};
use avp_unlang::{Policy, PolicyFault, read_policy, size};
use std::alloc::{AllocError, Global};
use std::io;
use std::io::Write;

fn write_fault<W: Write>(out: &mut W, fault: &PolicyFault) -> io::Result<()> {
    write!(
        out,
        "{}:{} {:?}: {fault}",
        fault.line, fault.offset, fault.kind
    )
}

// The text of each pattern, and its flags.
fn write_patterns<W: Write>(
    out: &mut W,
    setting: &Setting,
    patterns: &[Pattern],
) -> io::Result<()> {
    for pattern in patterns {
        let flags = pattern.flags();
        out.write_all(b"; pattern ")?;
        write_quoted(out, setting, pattern.text())?;
        write!(out, " i {} m {}", flags.ignore_case, flags.multi_line)?;
    }
    Ok(())
}

/// `policy`: the size of a policy, whether it looks at captures, and what is compiled of its patterns; or the fault.
pub fn write_policy<W: Write>(out: &mut W, setting: &Setting, text: &[u8]) -> io::Result<()> {
    match read_policy(setting.alloc, &setting.dictionary, text) {
        Ok(policy) => {
            write!(out, "size {}", size(&policy))?;
            if policy.uses_captures() {
                out.write_all(b", looks at captures")?;
            }
            write_patterns(out, setting, policy.patterns())
        }
        Err(fault) => write_fault(out, &fault),
    }
}

/// `tree`: the statements of a policy, or the fault.
pub fn write_tree<W: Write>(out: &mut W, setting: &Setting, text: &[u8]) -> io::Result<()> {
    match read_policy(setting.alloc, &setting.dictionary, text) {
        Ok(policy) => write!(out, "{:?}", policy.statements().as_slice()),
        Err(fault) => write_fault(out, &fault),
    }
}

// A store whose request list the text spells.
fn store_of(alloc: Global, dictionary: &Dictionary, request: &[u8]) -> io::Result<SnapshotStore>
    ensures { IfOk result (λ store.
        StateFits dictionary.now (present (⟦<SnapshotStore as Store>⟧.history store))) }
{
    let Ok(pairs) = dictionary.read_request(alloc, request) else {
        return Err(io::ErrorKind::InvalidInput.into());
    };
    match SnapshotStore::new(alloc, pairs, Vec::new(alloc), Vec::new(alloc)) {
        Ok(store) => Ok(store),
        Err(_) => Err(AllocError.into()),
    }
}

// The label of each step of a run, and how it ends. The store at its end.
fn write_steps<W: Write>(
    out: &mut W,
    alloc: Global,
    dictionary: &Dictionary,
    policy: &Policy,
    store: SnapshotStore,
) -> io::Result<SnapshotStore>
    requires policy { IsSpelled dictionary.now policy.now }
    requires store { StateFits dictionary.now (present (⟦<SnapshotStore as Store>⟧.history store)) }
{
    let mut stepper = Stepper::new(alloc, dictionary, policy, store).map_err(|_| AllocError)?;
    stepper.run_to_end()?;
    let steps = stepper.position();
    stepper.to_start();
    for _ in 0..steps {
        if let Moved::To(label) = stepper.forward()? {
            write!(out, "{label:?}, ")?;
        }
    }
    write!(out, "{:?}, stopped {}", stepper.code(), stepper.stopped())?;
    Ok(stepper.into_store())
}

fn write_list<W: Write>(
    out: &mut W,
    setting: &Setting,
    store: &SnapshotStore,
    list: List,
) -> io::Result<()> {
    write!(out, "; {list:?} ")?;
    write_pairs(out, setting, &store.list(list)?)
}

/// `run`: the label of each step, the last code, whether the run was stopped, and the reply and control lists; or the
/// fault of the policy.
pub fn write_run<W: Write>(out: &mut W, setting: &Setting, text: &[u8]) -> io::Result<()> {
    let (alloc, dictionary) = (setting.alloc, &setting.dictionary);
    let policy = match read_policy(alloc, dictionary, text) {
        Ok(policy) => policy,
        Err(fault) => return write_fault(out, &fault),
    };
    let store = store_of(alloc, dictionary, &setting.request)?;
    let store = write_steps(out, alloc, dictionary, &policy, store)?;
    write_list(out, setting, &store, List::Reply)?;
    write_list(out, setting, &store, List::Control)
}
