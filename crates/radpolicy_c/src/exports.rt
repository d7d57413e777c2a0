//! The functions that C calls. `c/radpolicy.h` says what C has to keep.

ghost use Rattle.std.specs.Prelude.{◌≡◌, None, length, map};
ghost use Rattle.radpolicy_c.specs.Answers.{Answers};
ghost use Rattle.radpolicy_c.specs.Closing.{closing_status};
ghost use Rattle.radpolicy_c.specs.Dictionaries.{OpensDictionary, OpensPolicy, dictionary_held};
ghost use Rattle.radpolicy_c.specs.Files.{file_given};
ghost use Rattle.radpolicy_c.specs.Opening.{Opens};
ghost use Rattle.radpolicy_c.specs.Outcomes.{are_lists_short, are_short, lists_status, lists_told, outcome_told, run_status};
ghost use Rattle.radpolicy_c.specs.Rooms.{room_after, room_told, status_told};
ghost use Rattle.radpolicy_c.specs.Runs.{Runs};
ghost use Rattle.radpolicy_c.specs.Sharing.{SharesBy};
ghost use Rattle.radpolicy_c.specs.Statuses.{number_of};
ghost use Rattle.radpolicy_c.specs.declared.answers.Answered.{Answered};
ghost use Rattle.radpolicy_c.specs.declared.opening.Opening.{Opening};
ghost use Rattle.radpolicy_c.specs.declared.runs.Ran.{Ran};
ghost use Rattle.radpolicy_c.specs.declared.statuses.Status.{Status as Ending};
ghost use Rattle.radpolicy_c.specs.declared.runs.Wanted.TheVariants as wanted;

use crate::answers::answer_given;
use crate::dictionaries::{RadpolicyDictionary, open_dictionary, open_policy};
use crate::files::RadpolicyFile;
use crate::handles::RadpolicyPolicy;
use crate::jobs::RadpolicyJob;
use crate::lines::tell;
use crate::opening::open;
use crate::outcomes::{RadpolicyLists, RadpolicyOutcome, tell_lists, tell_run};
use crate::pairs::RadpolicyPair;
use crate::requests::RadpolicyRequest;
use crate::runs::{Wanted, run_held};
use std::alloc::Global;

/// Opens a policy by dictionary files. The line of the fault for which it is refused goes to the front of the room.
#[unsafe(no_mangle)]
pub extern "C" fn radpolicy_open(
    alloc: Global,
    policy: &mut RadpolicyPolicy,
    files: &[RadpolicyFile<'_>],
    text: &[u8],
    room: &mut [u8],
    line_length: &mut usize,
) -> u8
    ensures { (opening : Opening)
        × Opens policy.old.held.policy (map file_given files.now) text.now opening
        policy.new.held.policy
        × (result ≡ number_of (status_told opening.status opening.line room.old))
        × (room.new ≡ room_told opening.line room.old) × (line_length.new ≡ length opening.line) }
{
    let opening = open(alloc, policy, files, text);
    tell(opening.status, opening.line.as_slice(), room, line_length).number()
}

/// Opens a dictionary of these files. The line of the fault for which it is refused goes to the front of the room.
#[unsafe(no_mangle)]
pub extern "C" fn radpolicy_dictionary_open(
    alloc: Global,
    dictionary: &mut RadpolicyDictionary,
    files: &[RadpolicyFile<'_>],
    room: &mut [u8],
    line_length: &mut usize,
) -> u8
    ensures { (opening : Opening)
        × OpensDictionary (dictionary_held dictionary.old) (map file_given files.now) opening
        (dictionary_held dictionary.new)
        × (result ≡ number_of (status_told opening.status opening.line room.old))
        × (room.new ≡ room_told opening.line room.old) × (line_length.new ≡ length opening.line) }
{
    let opening = open_dictionary(alloc, dictionary, files);
    tell(opening.status, opening.line.as_slice(), room, line_length).number()
}

/// Opens a policy by the dictionary that is held, which both hold from then on. The line of the fault for which it is
/// refused goes to the front of the room.
#[unsafe(no_mangle)]
pub extern "C" fn radpolicy_policy_open(
    alloc: Global,
    policy: &mut RadpolicyPolicy,
    dictionary: &mut RadpolicyDictionary,
    text: &[u8],
    room: &mut [u8],
    line_length: &mut usize,
) -> u8
    ensures kept { dictionary_held dictionary.new ≡ dictionary_held dictionary.old }
    ensures opens { (opening : Opening)
        × OpensPolicy (dictionary_held dictionary.old) policy.old.held.policy text.now opening
        policy.new.held.policy
        × (result ≡ number_of (status_told opening.status opening.line room.old))
        × (room.new ≡ room_told opening.line room.old) × (line_length.new ≡ length opening.line) }
{
    let opening = open_policy(alloc, policy, dictionary, text);
    tell(opening.status, opening.line.as_slice(), room, line_length).number()
}

/// Gives another handle the dictionary that this one holds. Each is closed by itself, in any order and by any thread.
#[unsafe(no_mangle)]
pub extern "C" fn radpolicy_dictionary_share(
    alloc: Global,
    dictionary: &mut RadpolicyDictionary,
    other: &mut RadpolicyDictionary,
) -> u8
    ensures kept { dictionary_held dictionary.new ≡ dictionary_held dictionary.old }
    ensures shares { (status : Ending) × SharesBy status (dictionary_held dictionary.old)
        (dictionary_held other.old) (dictionary_held other.new) × (result ≡ number_of status) }
{
    dictionary.share(alloc, other).number()
}

/// Closes a dictionary: leaves a handle that holds none, and gives its memory back, unless a policy or another handle
/// holds it still.
#[unsafe(no_mangle)]
pub extern "C" fn radpolicy_dictionary_close(
    alloc: Global,
    dictionary: &mut RadpolicyDictionary,
) -> u8
    ensures closed { dictionary_held dictionary.new ≡ None }
    ensures status { result ≡ number_of (closing_status (dictionary_held dictionary.old)) }
{
    dictionary.empty_policy.close(alloc).number()
}

/// Gives another handle the policy that this one holds. Each is closed by itself, in any order and by any thread.
#[unsafe(no_mangle)]
pub extern "C" fn radpolicy_share(
    alloc: Global,
    policy: &mut RadpolicyPolicy,
    other: &mut RadpolicyPolicy,
) -> u8
    ensures kept { policy.new.held.policy ≡ policy.old.held.policy }
    ensures shares { (status : Ending) × SharesBy status policy.old.held.policy
        other.old.held.policy other.new.held.policy × (result ≡ number_of status) }
{
    policy.share(alloc, other).number()
}

/// Closes a policy: gives its memory back, and leaves a handle that holds none.
#[unsafe(no_mangle)]
pub extern "C" fn radpolicy_close(alloc: Global, policy: &mut RadpolicyPolicy) -> u8
    ensures closed { policy.new.held.policy ≡ None }
    ensures status { result ≡ number_of (closing_status policy.old.held.policy) }
{
    policy.close(alloc).number()
}

/// Runs the policy that is held on a request. The reply packet and the report go to the fronts of their rooms.
#[unsafe(no_mangle)]
pub extern "C" fn radpolicy_run(
    alloc: Global,
    policy: &mut RadpolicyPolicy,
    asked: &RadpolicyRequest<'_>,
    outcome: &mut RadpolicyOutcome,
    packet: &mut [u8],
    report: &mut [u8],
) -> u8
    ensures kept { policy.new.held.policy ≡ policy.old.held.policy }
    ensures runs { (ran : Ran)
        × Runs wanted.Report policy.old.held.policy asked.now ran
        × (result ≡ number_of (run_status ran packet.old report.old))
        × (outcome.new ≡ outcome_told ran)
        × (packet.new ≡ room_after (are_short ran packet.old report.old) ran.packet packet.old)
        × (report.new ≡ room_after (are_short ran packet.old report.old) ran.octets report.old) }
{
    let ran = run_held(alloc, Wanted::Report, policy, asked);
    tell_run(&ran, outcome, packet, report).number()
}

/// Runs the policy that is held on a request, as `radpolicy_run` does, and tells the reply packet alone. It goes to the
/// front of its room; the room for the line is for that of a fault.
#[unsafe(no_mangle)]
pub extern "C" fn radpolicy_reply(
    alloc: Global,
    policy: &mut RadpolicyPolicy,
    asked: &RadpolicyRequest<'_>,
    outcome: &mut RadpolicyOutcome,
    packet: &mut [u8],
    line: &mut [u8],
) -> u8
    ensures kept { policy.new.held.policy ≡ policy.old.held.policy }
    ensures runs { (ran : Ran)
        × Runs wanted.Reply policy.old.held.policy asked.now ran
        × (result ≡ number_of (run_status ran packet.old line.old))
        × (outcome.new ≡ outcome_told ran)
        × (packet.new ≡ room_after (are_short ran packet.old line.old) ran.packet packet.old)
        × (line.new ≡ room_after (are_short ran packet.old line.old) ran.octets line.old) }
{
    let ran = run_held(alloc, Wanted::Reply, policy, asked);
    tell_run(&ran, outcome, packet, line).number()
}

/// Runs the policy that is held on a request, as `radpolicy_run` does, and tells each pair of its lists. The reply packet,
/// the records of the pairs and the octets to which these point go to the fronts of their rooms.
#[unsafe(no_mangle)]
pub extern "C" fn radpolicy_run_pairs(
    alloc: Global,
    policy: &mut RadpolicyPolicy,
    asked: &RadpolicyRequest<'_>,
    lists: &mut RadpolicyLists,
    packet: &mut [u8],
    pairs: &mut [RadpolicyPair],
    octets: &mut [u8],
) -> u8
    ensures kept { policy.new.held.policy ≡ policy.old.held.policy }
    ensures runs { (ran : Ran)
        × Runs wanted.Pairs policy.old.held.policy asked.now ran
        × (result ≡ number_of (lists_status ran packet.old pairs.old octets.old))
        × (lists.new ≡ lists_told ran)
        × (packet.new ≡ room_after (are_lists_short ran packet.old pairs.old octets.old)
        ran.packet packet.old)
        × (pairs.new ≡ room_after (are_lists_short ran packet.old pairs.old octets.old)
        ran.lists.pairs pairs.old)
        × (octets.new ≡ room_after (are_lists_short ran packet.old pairs.old octets.old)
        ran.octets octets.old) }
{
    let ran = run_held(alloc, Wanted::Pairs, policy, asked);
    tell_lists(&ran, lists, packet, pairs, octets).number()
}

/// Does a whole job, as the program does it. Its report, or the line of the fault for which it is refused, goes to the
/// front of the room.
#[unsafe(no_mangle)]
pub extern "C" fn radpolicy_answer(
    alloc: Global,
    asked: &RadpolicyJob<'_>,
    room: &mut [u8],
    answer_length: &mut usize,
) -> u8
    ensures { (answered : Answered) × Answers asked.now answered
        × (result ≡ number_of (status_told answered.status answered.text room.old))
        × (room.new ≡ room_told answered.text room.old)
        × (answer_length.new ≡ length answered.text) }
{
    let answered = answer_given(alloc, asked);
    tell(
        answered.status,
        answered.text.as_slice(),
        room,
        answer_length,
    )
    .number()
}
