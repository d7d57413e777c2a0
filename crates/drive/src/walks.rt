//! Walks over the run of a policy, and prints the answer of each move and where the walk then is, also after a
//! refused step. The tests run it with allocations refused. Its words: the store, the texts of a dictionary, of a
//! request and of a policy, and then the moves.

ghost use Rattle.std.specs.Prelude.{IfOk};
ghost use Rattle.avp_lists.specs.History.{present};
ghost use Rattle.avp_unlang.specs.Suiting.{IsSpelled};
ghost use Rattle.avp_unlang.specs.Resolutions.{StateFits};

use crate::dictionaries;
use avp_dict::Dictionary;
use avp_lists::{List, SlotStore, SnapshotStore, Store};
use avp_step::{Moved, Stepper};
use avp_unlang::{Policy, read_policy};
use std::alloc::{AllocError, Global};
use std::io;

// Prints where a walk is: what it shows without memory, and the lists.
fn show<S: Store>(rt: &HostRuntime, stepper: &Stepper<S>) -> io::Result<()> {
    println!(rt;
        "at {} {:?} {:?} {}",
        stepper.position(),
        stepper.label(),
        stepper.code(),
        stepper.stopped()
    )?;
    for list in [List::Request, List::Reply, List::Control] {
        match stepper.store().list(list) {
            Ok(pairs) => println!(rt; "{pairs:?}")?,
            Err(_) => println!(rt; "not told")?,
        }
    }
    Ok(())
}

// Makes a move, and prints what it answers.
fn make<S: Store>(rt: &HostRuntime, stepper: &mut Stepper<S>, word: &str) -> io::Result<()> {
    match word {
        "forward" => match stepper.forward() {
            Ok(Moved::To(label)) => println!(rt; "to {label:?}"),
            Ok(Moved::AtEnd) => println!(rt; "stays"),
            Err(_) => println!(rt; "refused"),
        },
        "back" if stepper.back() => println!(rt; "done"),
        "back" => println!(rt; "stays"),
        "start" => {
            stepper.to_start();
            println!(rt; "done")
        }
        "end" => match stepper.run_to_end() {
            Ok(()) => println!(rt; "done"),
            Err(_) => println!(rt; "refused"),
        },
        _ => Err(io::ErrorKind::InvalidInput.into()),
    }
}

fn walk<S: Store>(
    rt: &HostRuntime,
    dictionary: &Dictionary,
    policy: &Policy,
    store: S,
    words: &[String],
) -> io::Result<()>
    requires policy { IsSpelled dictionary.now policy.now }
    requires store { StateFits dictionary.now (present (S.history store)) }
{
    println!(rt; "begin")?;
    let mut stepper = match Stepper::new(rt.alloc(), dictionary, policy, store) {
        Ok(stepper) => stepper,
        Err((store, _)) => {
            println!(rt; "refused {} {}", store.place(), store.steps())?;
            Stepper::new(rt.alloc(), dictionary, policy, store).map_err(|_| AllocError)?
        }
    };
    show(rt, &stepper)?;
    for word in words {
        make(rt, &mut stepper, word.as_str())?;
        show(rt, &stepper)?;
    }
    Ok(())
}

// A store of whole states whose request list the text spells.
fn snapshots(alloc: Global, dictionary: &Dictionary, text: &str) -> io::Result<SnapshotStore>
    ensures { IfOk result (λ store.
        StateFits dictionary.now (present (⟦<SnapshotStore as Store>⟧.history store))) }
{
    let Ok(request) = dictionary.read_request(alloc, text.as_bytes()) else {
        return Err(io::ErrorKind::InvalidData.into());
    };
    match SnapshotStore::new(alloc, request, Vec::new(alloc), Vec::new(alloc)) {
        Ok(store) => Ok(store),
        Err(_) => Err(AllocError.into()),
    }
}

// A store of slots, in the same way.
fn slots(alloc: Global, dictionary: &Dictionary, text: &str) -> io::Result<SlotStore>
    ensures { IfOk result (λ store.
        StateFits dictionary.now (present (⟦<SlotStore as Store>⟧.history store))) }
{
    let Ok(request) = dictionary.read_request(alloc, text.as_bytes()) else {
        return Err(io::ErrorKind::InvalidData.into());
    };
    match SlotStore::new(alloc, request, Vec::new(alloc), Vec::new(alloc)) {
        Ok(store) => Ok(store),
        Err(_) => Err(AllocError.into()),
    }
}

// Walks over the run of a policy, with the store of this name.
fn walk_over(
    rt: &HostRuntime,
    dictionary: &Dictionary,
    policy: &Policy,
    store: &str,
    request: &str,
    words: &[String],
) -> io::Result<()>
    requires { IsSpelled dictionary.now policy.now }
{
    match store {
        "snapshots" => {
            let store = snapshots(rt.alloc(), dictionary, request)?;
            walk(rt, dictionary, policy, store, words)
        }
        "slots" => {
            let store = slots(rt.alloc(), dictionary, request)?;
            walk(rt, dictionary, policy, store, words)
        }
        _ => Err(io::ErrorKind::InvalidInput.into()),
    }
}

// Reads the policy, and walks over its run.
fn walk_by(
    rt: &HostRuntime,
    dictionary: &Dictionary,
    policy: &str,
    store: &str,
    request: &str,
    words: &[String],
) -> io::Result<()> {
    let Ok(policy) = read_policy(rt.alloc(), dictionary, policy.as_bytes()) else {
        return Err(io::ErrorKind::InvalidData.into());
    };
    walk_over(rt, dictionary, &policy, store, request, words)
}

/// Makes the walk of these words.
pub fn drive(rt: &HostRuntime, words: &[String]) -> io::Result<()> {
    let [store, dictionary, request, policy, moves @ ..] = words else {
        return Err(io::ErrorKind::InvalidInput.into());
    };
    let dictionary = dictionaries::of_text(rt.alloc(), dictionary.as_bytes())?;
    let (policy, store, request) = (policy.as_str(), store.as_str(), request.as_str());
    walk_by(rt, &dictionary, policy, store, request, moves)
}
